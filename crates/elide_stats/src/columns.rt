//! A report in columns, whose first says what a row tells.
//!
//! [`put_columns`] prints the steps, then the transactions by place, their aborts, their sizes, the lines, and the
//! hits. It only prints: the rows and their order are `report`'s. Columns part at spaces, so that no name has one:
//! `labels` sees to that. As JSON a report is `json`'s.

ghost use Rattle.std.specs.Prelude.{◌≡◌, ℕ, List, OnOk};
ghost use Rattle.std.specs.List.{flat_map};
ghost use Rattle.text_out.specs.Writing.{Wrote};
ghost use Rattle.elide_stats.specs.Columns.{columns_text, conflicts_text, counts_text, drains_text, ending, inner_text};
ghost use Rattle.elide_stats.specs.Columns.{numbered, rest_text};
ghost use Rattle.elide_stats.specs.Columns.{places_text, sharing_text, spread_text, symbols_text, transactions_text};
ghost use Rattle.elide_stats.specs.Columns.{abort_text, hit_text, line_text, place_text, size_text, steps_text, worded};

use crate::report::{AbortRow, HitRow, LineRow, PlaceRow, Report, SizeRow, StepsRow};
use itoa::Buffer;
use text_out::{Failed, Out};

/// Prints a report, a row a line. Takes no memory.
pub fn put_columns<O: Out>(report: &Report, out: &mut O) -> Result<(), Failed>
    ensures { OnOk result (Wrote (O.device out.old) (O.device out.new) (columns_text report.now)) }
{
    report.steps.put(out)?;
    put_transactions(report, out)?;
    put_conflicts(report, out)?;
    Ok(())
}

// Prints the rows of transactions.
fn put_transactions<O: Out>(report: &Report, out: &mut O) -> Result<(), Failed>
    ensures { OnOk result (Wrote (O.device out.old) (O.device out.new) (transactions_text report.now)) }
{
    put_rows(report.transactions.as_slice(), out)?;
    put_rows(report.aborts.as_slice(), out)?;
    put_rows(report.sizes.as_slice(), out)?;
    Ok(())
}

// Prints the rows of conflicts.
fn put_conflicts<O: Out>(report: &Report, out: &mut O) -> Result<(), Failed>
    ensures { OnOk result (Wrote (O.device out.old) (O.device out.new) (conflicts_text report.now)) }
{
    put_rows(report.lines.as_slice(), out)?;
    put_rows(report.hits.as_slice(), out)?;
    Ok(())
}

// A row of the report.
trait PutRow {
    ghost text: { Self → List ℕ };

    // Puts it as a line.
    fn put<O: Out>(&self, out: &mut O) -> Result<(), Failed>
        ensures { OnOk result (Wrote (O.device out.old) (O.device out.new) (text self.now)) };
}

fn put_rows<R: PutRow, O: Out>(rows: &[R], out: &mut O) -> Result<(), Failed>
    ensures { OnOk result (Wrote (O.device out.old) (O.device out.new) (flat_map R.text rows.now)) }
{
    for row in rows {
        row.put(out)?;
    }
    Ok(())
}

// Puts a number behind its name.
fn put_number<O: Out>(name: &[u8], number: u64, out: &mut O) -> Result<(), Failed>
    ensures { OnOk result (Wrote (O.device out.old) (O.device out.new) (numbered name.now number)) }
{
    out.put(name)?;
    out.put(Buffer::new().format(number).as_bytes())?;
    Ok(())
}

// Puts a word behind what stands before it.
fn put_word<O: Out>(name: &[u8], word: &str, out: &mut O) -> Result<(), Failed>
    ensures { OnOk result (Wrote (O.device out.old) (O.device out.new) (worded name.now word.now)) }
{
    out.put(name)?;
    out.put(word.as_bytes())?;
    Ok(())
}

// Puts the last word of a line.
fn put_last<O: Out>(word: &str, out: &mut O) -> Result<(), Failed>
    ensures { OnOk result (Wrote (O.device out.old) (O.device out.new) (ending word.now)) }
{
    put_word(b" ", word, out)?;
    out.put(b"\n")?;
    Ok(())
}

impl PutRow for StepsRow {
    ghost text = { steps_text };

    fn put<O: Out>(&self, out: &mut O) -> Result<(), Failed> {
        put_number(b"steps ", self.all, out)?;
        put_number(b" outside ", self.outside, out)?;
        self.put_inner(out)?;
        self.put_rest(out)?;
        out.put(b"\n")?;
        Ok(())
    }
}

// Puts how many stores drained, where one did.
#[tactic(auto, unfolding(crate::specs::Columns::drains_text))]
fn put_drains<O: Out>(drained: u64, out: &mut O) -> Result<(), Failed>
    ensures { OnOk result (Wrote (O.device out.old) (O.device out.new) (drains_text drained)) }
{
    if drained == 0 {
        return Ok(());
    }
    put_number(b" drained ", drained, out)
}

impl StepsRow {
    // Puts how many were of cores that had stopped, or drains.
    #[tactic(auto, unfolding(crate::specs::Columns::rest_text))]
    fn put_rest<O: Out>(&self, out: &mut O) -> Result<(), Failed>
        ensures { OnOk result (Wrote (O.device out.old) (O.device out.new) (rest_text self.now)) }
    {
        put_number(b" idle ", self.idle, out)?;
        put_drains(self.drained, out)
    }

    // Puts how many steps were made inside of transactions.
    fn put_inner<O: Out>(&self, out: &mut O) -> Result<(), Failed>
        ensures { OnOk result (Wrote (O.device out.old) (O.device out.new) (inner_text self.now)) }
    {
        put_number(b" committed ", self.committed, out)?;
        put_number(b" aborted ", self.aborted, out)?;
        put_number(b" open ", self.open, out)?;
        Ok(())
    }
}

impl PutRow for PlaceRow {
    ghost text = { place_text };

    fn put<O: Out>(&self, out: &mut O) -> Result<(), Failed> {
        put_word(b"transaction ", self.place.as_str(), out)?;
        self.put_counts(out)?;
        put_last(self.symbol.as_str(), out)?;
        Ok(())
    }
}

impl PlaceRow {
    // Puts how many there were.
    fn put_counts<O: Out>(&self, out: &mut O) -> Result<(), Failed>
        ensures { OnOk result (Wrote (O.device out.old) (O.device out.new) (counts_text self.now)) }
    {
        put_number(b" begun ", self.begun, out)?;
        put_number(b" committed ", self.committed, out)?;
        put_number(b" aborted ", self.aborted, out)?;
        put_number(b" lost ", self.lost, out)?;
        Ok(())
    }
}

impl PutRow for AbortRow {
    ghost text = { abort_text };

    fn put<O: Out>(&self, out: &mut O) -> Result<(), Failed> {
        put_word(b"abort ", self.place.as_str(), out)?;
        put_word(b" ", self.cause.as_str(), out)?;
        put_number(b" ", self.count, out)?;
        out.put(b"\n")?;
        Ok(())
    }
}

impl PutRow for SizeRow {
    ghost text = { size_text };

    fn put<O: Out>(&self, out: &mut O) -> Result<(), Failed> {
        put_word(b"size ", self.place.as_str(), out)?;
        put_word(b" ", self.of, out)?;
        self.put_spread(out)?;
        Ok(())
    }
}

impl SizeRow {
    // Puts the least, the middle and the greatest.
    fn put_spread<O: Out>(&self, out: &mut O) -> Result<(), Failed>
        ensures { OnOk result (Wrote (O.device out.old) (O.device out.new) (spread_text self.now)) }
    {
        put_number(b" ", self.least, out)?;
        put_number(b" ", self.median, out)?;
        put_number(b" ", self.most, out)?;
        out.put(b"\n")?;
        Ok(())
    }
}

impl PutRow for LineRow {
    ghost text = { line_text };

    fn put<O: Out>(&self, out: &mut O) -> Result<(), Failed> {
        put_word(b"line ", self.line.as_str(), out)?;
        put_number(b" doomed ", self.count, out)?;
        put_last(self.symbols.as_str(), out)?;
        Ok(())
    }
}

impl PutRow for HitRow {
    ghost text = { hit_text };

    fn put<O: Out>(&self, out: &mut O) -> Result<(), Failed> {
        put_word(b"hit ", self.line.as_str(), out)?;
        put_word(b" ", self.by, out)?;
        self.put_places(out)?;
        self.put_symbols(out)?;
        Ok(())
    }
}

impl HitRow {
    // Puts where the steps and the transactions were, and how many.
    fn put_places<O: Out>(&self, out: &mut O) -> Result<(), Failed>
        ensures { OnOk result (Wrote (O.device out.old) (O.device out.new) (places_text self.now)) }
    {
        put_word(b" ", self.from.as_str(), out)?;
        put_word(b" ", self.victim.as_str(), out)?;
        put_number(b" ", self.count, out)?;
        Ok(())
    }

    // Puts what these places are called, and whether they met on a byte.
    fn put_symbols<O: Out>(&self, out: &mut O) -> Result<(), Failed>
        ensures { OnOk result (Wrote (O.device out.old) (O.device out.new) (symbols_text self.now)) }
    {
        put_word(b" ", self.from_symbol.as_str(), out)?;
        put_word(b" ", self.victim_symbol.as_str(), out)?;
        put_last(sharing(self.false_sharing), out)?;
        Ok(())
    }
}

// What sharing of a line is called.
fn sharing(false_sharing: bool) -> &'static str
    ensures { result.now ≡ sharing_text false_sharing }
{
    if false_sharing {
        "false-sharing"
    } else {
        "true-sharing"
    }
}
