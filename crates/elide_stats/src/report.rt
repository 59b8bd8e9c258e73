//! What is told of a run, row by row, as columns and JSON have it alike.
//!
//! [`Report::of`] makes a row for each count, in the order of the counts, which are sorted already; the steps are
//! summed here. It prints nothing and makes no step. Addresses and names are texts from here on, so that all that takes
//! memory is done before a line is printed in columns.

ghost use Rattle.std.specs.Prelude.{◌≡◌, IfOk, sum, sum_by};
ghost use Rattle.std.specs.List.{AllZip};
ghost use Rattle.elide_stats.specs.Rows.{AreStepsOf, IsAbortRow, IsHitRow, IsLineRow, IsPlaceRow, IsSum};
ghost use Rattle.elide_stats.specs.Rows.{lost_of_place, steps_of_size, use_text};

use crate::labels::Labels;
use elide_program::add;
use indexmap::IndexMap;
use serde::Serialize;
use std::alloc::{AllocError, Global};
use tm_stats::{
    Conflict, Conflicts, PlaceCause, PlaceCounts, PlaceSize, RunCounts, Spread, Tally, spread_from,
};

/// What is told of a run. Addresses have eight hexadecimal digits.
#[derive(Drop, Serialize)]
pub struct Report {
    /// How the steps divide.
    pub steps: StepsRow,
    /// The places where transactions began, ascending.
    pub transactions: Vec<PlaceRow>,
    /// Their aborts by cause.
    pub aborts: Vec<AbortRow>,
    /// The sizes of those that committed.
    pub sizes: Vec<SizeRow>,
    /// The lines on which transactions were doomed, most first.
    pub lines: Vec<LineRow>,
    /// The places of the steps that doomed them and of theirs, most first.
    pub hits: Vec<HitRow>,
}

/// How the steps of a run divide.
#[derive(Drop, Serialize)]
pub struct StepsRow {
    /// All of them.
    pub all: u64,
    /// Those outside of transactions.
    pub outside: u64,
    /// Those of transactions that committed.
    pub committed: u64,
    /// Those of transactions that aborted.
    pub aborted: u64,
    /// Those of transactions that had not ended.
    pub open: u64,
    /// Those of cores that had stopped.
    pub idle: u64,
    /// The drains of stores that were pending.
    pub drained: u64,
}

/// The transactions of a place.
#[derive(Drop, Serialize)]
pub struct PlaceRow {
    /// The address of the XBEGIN.
    pub place: String,
    /// What it is called.
    pub symbol: String,
    /// How many began.
    pub begun: u64,
    /// How many committed.
    pub committed: u64,
    /// How many aborted.
    pub aborted: u64,
    /// How many steps those took that aborted.
    pub lost: u64,
}

/// The aborts of a place for a cause.
#[derive(Drop, Serialize)]
pub struct AbortRow {
    /// The address of the XBEGIN.
    pub place: String,
    /// The cause.
    pub cause: String,
    /// How many there were.
    pub count: u64,
}

/// A size of the transactions of a place that committed.
#[derive(Drop, Serialize)]
pub struct SizeRow {
    /// The address of the XBEGIN.
    pub place: String,
    /// What is measured: `steps`, `read-lines` or `write-lines`.
    pub of: &'static str,
    /// The least.
    pub least: u64,
    /// The one in the middle.
    pub median: u64,
    /// The most.
    pub most: u64,
}

/// The transactions that were doomed on a line.
#[derive(Drop, Serialize)]
pub struct LineRow {
    /// The address of the line's first byte.
    pub line: String,
    /// The symbols on it.
    pub symbols: String,
    /// How many transactions were doomed.
    pub count: u64,
}

/// The transactions of a place that steps of a place doomed on a line.
#[derive(Drop, Serialize)]
pub struct HitRow {
    /// The address of the line's first byte.
    pub line: String,
    /// How the steps used it: `write` or `read`.
    pub by: &'static str,
    /// The address of the instruction that hit, or of the XBEGIN whose commit did.
    pub from: String,
    /// What it is called.
    pub from_symbol: String,
    /// The address of the XBEGIN of the transactions that were hit.
    pub victim: String,
    /// What it is called.
    pub victim_symbol: String,
    /// How many were doomed.
    pub count: u64,
    /// Whether the steps and the transactions that they hit met on no byte of the line.
    pub false_sharing: bool,
}

impl Report {
    ghost use Rattle.elide_stats.specs.Rows.{IsReportOf};

    /// What is told of the steps that were counted and of the transactions that they hit, both sorted.
    pub fn of(
        alloc: Global,
        counts: &RunCounts,
        conflicts: &Conflicts,
        labels: &Labels,
    ) -> Result<Report, AllocError>
        ensures { IfOk result (IsReportOf counts.now conflicts.now) }
    {
        let mut report = Report::begun(alloc, counts);
        match report.fill(alloc, counts, conflicts, labels) {
            Ok(()) => Ok(report),
            Err(refused) => Err(refused),
        }
    }

    // How the steps divide, and no row yet.
    fn begun(alloc: Global, counts: &RunCounts) -> Report
        ensures { AreStepsOf counts.now result.steps }
    {
        Report {
            steps: steps_of(counts),
            transactions: Vec::new(alloc),
            aborts: Vec::new(alloc),
            sizes: Vec::new(alloc),
            lines: Vec::new(alloc),
            hits: Vec::new(alloc),
        }
    }

    // The rows, in their order. What is made here is owned by the report at once, so that a refusal has little to drop.
    fn fill(
        &mut self,
        alloc: Global,
        counts: &RunCounts,
        conflicts: &Conflicts,
        labels: &Labels,
    ) -> Result<(), AllocError>
        requires { AreStepsOf counts.now self.old.steps }
        ensures { IfOk result (λ _. IsReportOf counts.now conflicts.now self.new) }
    {
        self.transactions = places_of(alloc, counts, labels)?;
        self.aborts = aborts_of(alloc, &counts.causes)?;
        self.sizes = sizes_of(alloc, counts)?;
        self.lines = lines_of(alloc, conflicts, labels)?;
        self.hits = hits_of(alloc, conflicts, labels)?;
        Ok(())
    }
}

// How the steps divide.
fn steps_of(counts: &RunCounts) -> StepsRow
    ensures { AreStepsOf counts.now result }
{
    StepsRow {
        all: counts.steps,
        outside: counts.outside,
        committed: committed_steps(&counts.lengths),
        aborted: lost_steps(&counts.places),
        open: open_steps(&counts.under_way),
        idle: counts.idle,
        drained: counts.drained,
    }
}

// The steps of the transactions that committed.
fn committed_steps(lengths: &Tally<PlaceSize>) -> u64
    ensures { IsSum (sum_by steps_of_size lengths.now.entries) result }
{
    let mut steps = 0u64;
    for index in 0..lengths.len() {
        let (key, many) = lengths.get_index(index).unwrap();
        steps = steps.saturating_add(key.size.saturating_mul(*many));
    }
    steps
}

// The steps of those that aborted.
fn lost_steps(places: &IndexMap<u32, PlaceCounts>) -> u64
    ensures { IsSum (sum_by lost_of_place places.now.entries) result }
{
    let mut steps = 0u64;
    for index in 0..places.len() {
        let (_, row) = places.get_index(index).unwrap();
        steps = steps.saturating_add(row.lost);
    }
    steps
}

// The steps of those that are open, of all cores.
fn open_steps(under_way: &[u64]) -> u64
    ensures { IsSum (sum under_way.now) result }
{
    let mut steps = 0u64;
    for core in 0..under_way.len() {
        steps = steps.saturating_add(under_way[core]);
    }
    steps
}

// An address in eight hexadecimal digits.
fn hex(alloc: Global, address: u32) -> Result<String, AllocError> {
    format!(in alloc; "{address:08x}")
}

fn places_of(
    alloc: Global,
    counts: &RunCounts,
    labels: &Labels,
) -> Result<Vec<PlaceRow>, AllocError>
    ensures { IfOk result (λ rows. AllZip IsPlaceRow counts.now.places.entries rows.items) }
{
    let mut rows = Vec::new(alloc);
    for index in 0..counts.places.len() {
        let (place, row) = counts.places.get_index(index).unwrap();
        add(&mut rows, place_row(alloc, *place, row, labels)?)?;
    }
    Ok(rows)
}

fn place_row(
    alloc: Global,
    place: u32,
    row: &PlaceCounts,
    labels: &Labels,
) -> Result<PlaceRow, AllocError>
    ensures { IfOk result (IsPlaceRow (place, row.now)) }
{
    Ok(PlaceRow {
        place: hex(alloc, place)?,
        symbol: labels.place(alloc, place)?,
        begun: row.begun,
        committed: row.committed,
        aborted: row.aborted,
        lost: row.lost,
    })
}

fn aborts_of(alloc: Global, causes: &Tally<PlaceCause>) -> Result<Vec<AbortRow>, AllocError>
    ensures { IfOk result (λ rows. AllZip IsAbortRow causes.now.entries rows.items) }
{
    let mut rows = Vec::new(alloc);
    for index in 0..causes.len() {
        let (key, count) = causes.get_index(index).unwrap();
        add(&mut rows, abort_row(alloc, key, *count)?)?;
    }
    Ok(rows)
}

fn abort_row(alloc: Global, key: &PlaceCause, count: u64) -> Result<AbortRow, AllocError>
    ensures { IfOk result (IsAbortRow (key.now, count)) }
{
    Ok(AbortRow {
        place: hex(alloc, key.place)?,
        cause: format!(in alloc; "{}", key.cause)?,
        count,
    })
}

fn sizes_of(alloc: Global, counts: &RunCounts) -> Result<Vec<SizeRow>, AllocError> {
    let mut rows = Vec::new(alloc);
    push_sizes(alloc, &counts.lengths, "steps", &mut rows)?;
    push_sizes(alloc, &counts.reads, "read-lines", &mut rows)?;
    push_sizes(alloc, &counts.writes, "write-lines", &mut rows)?;
    Ok(rows)
}

// Adds the sizes of each place.
fn push_sizes(
    alloc: Global,
    sizes: &Tally<PlaceSize>,
    of: &'static str,
    rows: &mut Vec<SizeRow>,
) -> Result<(), AllocError> {
    let mut start = 0;
    for _ in 0..sizes.len() {
        let Some((spread, end)) = spread_from(sizes, start) else {
            return Ok(());
        };
        add(rows, size_row(alloc, spread, of)?)?;
        start = end;
    }
    Ok(())
}

fn size_row(alloc: Global, spread: Spread, of: &'static str) -> Result<SizeRow, AllocError> {
    Ok(SizeRow {
        place: hex(alloc, spread.place)?,
        of,
        least: spread.least,
        median: spread.median,
        most: spread.most,
    })
}

fn lines_of(
    alloc: Global,
    conflicts: &Conflicts,
    labels: &Labels,
) -> Result<Vec<LineRow>, AllocError>
    ensures { IfOk result (λ rows. AllZip IsLineRow conflicts.now.lines.entries rows.items) }
{
    let mut rows = Vec::new(alloc);
    for index in 0..conflicts.lines.len() {
        let (line, count) = conflicts.lines.get_index(index).unwrap();
        add(&mut rows, line_row(alloc, *line, *count, labels)?)?;
    }
    Ok(rows)
}

fn line_row(alloc: Global, line: u32, count: u64, labels: &Labels) -> Result<LineRow, AllocError>
    ensures { IfOk result (IsLineRow (line, count)) }
{
    Ok(LineRow {
        line: hex(alloc, line.saturating_mul(64))?,
        symbols: labels.line(alloc, line)?,
        count,
    })
}

fn hits_of(alloc: Global, conflicts: &Conflicts, labels: &Labels) -> Result<Vec<HitRow>, AllocError>
    ensures { IfOk result (λ rows. AllZip IsHitRow conflicts.now.pairs.entries rows.items) }
{
    let mut rows = Vec::new(alloc);
    for index in 0..conflicts.pairs.len() {
        let (conflict, count) = conflicts.pairs.get_index(index).unwrap();
        add(&mut rows, hit_row(alloc, conflict, *count, labels)?)?;
    }
    Ok(rows)
}

fn hit_row(
    alloc: Global,
    conflict: &Conflict,
    count: u64,
    labels: &Labels,
) -> Result<HitRow, AllocError>
    ensures { IfOk result (IsHitRow (conflict.now, count)) }
{
    let from = hex(alloc, conflict.by)?;
    let from_symbol = labels.place(alloc, conflict.by)?;
    let victim = hex(alloc, conflict.victim)?;
    let victim_symbol = labels.place(alloc, conflict.victim)?;
    Ok(HitRow {
        line: hex(alloc, conflict.line.saturating_mul(64))?,
        by: use_of(conflict.stores),
        from,
        from_symbol,
        victim,
        victim_symbol,
        count,
        false_sharing: conflict.is_apart,
    })
}

// How a step used a line.
fn use_of(stores: bool) -> &'static str
    ensures { result.now ≡ use_text stores }
{
    if stores { "write" } else { "read" }
}
