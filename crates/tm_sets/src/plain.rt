//! The sets as plain lists of lines, one a core and kind.
//!
//! A question for a line searches the lists, core by core, and costs what they hold; a slot is a place in the list of
//! written lines. Beside `threaded` they show that what a machine promises does not hang on the way in which its sets
//! are kept.

ghost use Rattle.std.specs.Prelude.{◌≡◌, ◌<◌, ◌≤◌, ◌^◌, ℕ, Bool, ◌&&◌, ◌||◌, not, nat_eq, length, [], is_err, IfOk};
ghost use Rattle.std.specs.Prelude.{IfSome};
ghost use Rattle.std.specs.Prelude.{OnOk, OnErr};
ghost use Rattle.std.specs.FinSet as set;
ghost use Rattle.tm_sets.specs.Plain.{plain_content, HaveRoom, AreWithin, is_other, is_writer};
ghost use Rattle.tm_sets.specs.Plain.{line_set_at};
ghost use Rattle.tm_sets.specs.LineSet.{lines_in_set};
ghost use Rattle.tm_sets.specs.Content.{IsMaskOf};

use crate::fault::{Full, NoMemory};
use crate::interface::{Kind, Sets};
use crate::line_set::LineSet;
use std::alloc::Global;

/// Sets of lines as plain lists, all reserved when they are made. A question for a line is a search through the lists.
#[derive(Drop)]
pub struct PlainSets {
    reads: Vec<LineSet>,
    writes: Vec<LineSet>,
    line_count: u32,
    read_lines: u32,
    write_lines: u32,
    visits: u64,
    ghost cores: { length writes.items ≡ length reads.items },
    ghost few: { length reads.items ≤ 64 },
    ghost read_room: { HaveRoom reads.items read_lines },
    ghost write_room: { HaveRoom writes.items write_lines },
    ghost write_within: { AreWithin writes.items write_lines },
}

impl PlainSets {
    ghost use Rattle.tm_sets.specs.Content.{empty_content};

    /// Empty sets for 1 to 64 cores, at most 4,194,304 lines of memory, and room for 1 to 4096 lines of each kind a
    /// core. `NoMemory` (32) where the lists cannot be reserved.
    pub fn new(
        alloc: Global,
        cores: u8,
        lines: u32,
        read_lines: u32,
        write_lines: u32,
    ) -> Result<PlainSets, NoMemory>
        requires cores { 1 ≤ cores }
        requires most_cores { cores ≤ 64 }
        requires lines { lines ≤ 4194304 }
        requires read_lines { 1 ≤ read_lines }
        requires most_read_lines { read_lines ≤ 4096 }
        requires write_lines { 1 ≤ write_lines }
        requires most_write_lines { write_lines ≤ 4096 }
        ensures content { IfOk result (λ made.
            plain_content made.reads.items made.writes.items made.line_count made.read_lines made.write_lines
            ≡ empty_content cores lines read_lines write_lines) }
        ensures visits { IfOk result (λ made. made.visits ≡ 0) }
    {
        Ok(PlainSets {
            reads: empty_sets(alloc, cores, read_lines)?,
            writes: empty_sets(alloc, cores, write_lines)?,
            line_count: lines,
            read_lines,
            write_lines,
            visits: 0,
        })
    }
}

/// Empty sets of one kind, one a core.
fn empty_sets(alloc: Global, cores: u8, room: u32) -> Result<Vec<LineSet>, NoMemory>
    requires { room ≤ 4096 }
    ensures count { IfOk result (λ sets. length sets.items ≡ cores) }
    ensures empty { IfOk result (λ sets. (core : ℕ) → (line_set_at sets.items core).order ≡ []) }
    ensures room { IfOk result (λ sets. HaveRoom sets.items room) }
{
    let mut sets = Vec::with_capacity(alloc, usize::from(cores))?;
    for _ in 0..cores {
        sets.push(LineSet::with_room(alloc, room)?)?;
    }
    Ok(sets)
}

/// Whether a set has a line. The count of entries visited rises by those that were read for it, and stops at
/// `u64::MAX`.
fn search(lines: &LineSet, line: u32, visits: &mut u64) -> bool
    ensures value { result ≡ set.contains (lines_in_set lines.now) line }
    ensures visits { visits.old ≤ visits.new }
{
    let place = lines.place(line);
    let read = match place {
        Some(place) => place as u64 + 1,
        None => u64::from(lines.count()),
    };
    *visits = visits.saturating_add(read);
    place.is_some()
}

/// Whether a core that is not `core` has a line, among the lines that it has read or those that it has written.
fn is_other(
    other: u8,
    core: u8,
    reads: &LineSet,
    writes: &LineSet,
    line: u32,
    visits: &mut u64,
) -> bool
    ensures value { result ≡ (not (nat_eq other core)
        && (set.contains (lines_in_set reads.now) line || set.contains (lines_in_set writes.now) line)) }
    ensures visits { visits.old ≤ visits.new }
{
    other != core && (search(reads, line, visits) || search(writes, line, visits))
}

/// The cores but `core` that have a line in either set: bit k for core k.
fn others(reads: &[LineSet], writes: &[LineSet], line: u32, core: u8, visits: &mut u64) -> u64
    requires same { length writes.now ≡ length reads.now }
    requires few { length reads.now ≤ 64 }
    ensures mask { IsMaskOf result (length reads.now) (is_other reads.now writes.now line core) }
    ensures below { result < 2 ^ length reads.now }
    ensures visits { visits.old ≤ visits.new }
{
    let mut others = 0;
    for other in 0..reads.len() {
        if is_other(
            other as u8,
            core,
            &reads[other],
            &writes[other],
            line,
            visits,
        ) {
            others |= 1 << other;
        }
    }
    others
}

/// Whether a core that is not `core` has a line among those that it has written.
fn is_writer(other: u8, core: u8, writes: &LineSet, line: u32, visits: &mut u64) -> bool
    ensures value { result ≡ (not (nat_eq other core) && set.contains (lines_in_set writes.now) line) }
    ensures visits { visits.old ≤ visits.new }
{
    other != core && search(writes, line, visits)
}

/// The cores but `core` that have a line in their write set: bit k for core k.
fn writers(writes: &[LineSet], line: u32, core: u8, visits: &mut u64) -> u64
    requires few { length writes.now ≤ 64 }
    ensures mask { IsMaskOf result (length writes.now) (is_writer writes.now line core) }
    ensures below { result < 2 ^ length writes.now }
    ensures visits { visits.old ≤ visits.new }
{
    let mut writers = 0;
    for other in 0..writes.len() {
        if is_writer(other as u8, core, &writes[other], line, visits) {
            writers |= 1 << other;
        }
    }
    writers
}

impl Sets for PlainSets {
    ghost content = { λ s. plain_content s.reads.items s.writes.items s.line_count s.read_lines s.write_lines };

    ghost visited = { λ s. s.visits };

    fn add(&mut self, core: u8, line: u32, kind: Kind) -> Result<(), Full> {
        match kind {
            Kind::Read => self.reads[usize::from(core)].add(line),
            Kind::Write => self.writes[usize::from(core)].add(line),
        }
    }

    fn has(&mut self, core: u8, line: u32, kind: Kind) -> bool {
        match kind {
            Kind::Read => search(&self.reads[usize::from(core)], line, &mut self.visits),
            Kind::Write => search(&self.writes[usize::from(core)], line, &mut self.visits),
        }
    }

    fn others_on(&mut self, line: u32, core: u8) -> u64 {
        others(&self.reads, &self.writes, line, core, &mut self.visits)
    }

    fn writers_on(&mut self, line: u32, core: u8) -> u64 {
        writers(&self.writes, line, core, &mut self.visits)
    }

    fn count(&self, core: u8, kind: Kind) -> u32 {
        match kind {
            Kind::Read => self.reads[usize::from(core)].count(),
            Kind::Write => self.writes[usize::from(core)].count(),
        }
    }

    fn room_for(&self, kind: Kind) -> u32 {
        match kind {
            Kind::Read => self.read_lines,
            Kind::Write => self.write_lines,
        }
    }

    fn holds(&self, core: u8, line: u32, kind: Kind) -> bool {
        match kind {
            Kind::Read => self.reads[usize::from(core)].place(line).is_some(),
            Kind::Write => self.writes[usize::from(core)].place(line).is_some(),
        }
    }

    fn is_same(&self, other: &PlainSets, core: u8) -> bool {
        self.reads[usize::from(core)].is_same(&other.reads[usize::from(core)])
            && self.writes[usize::from(core)].is_same(&other.writes[usize::from(core)])
    }

    fn is_like(&self, other: &PlainSets) -> bool {
        self.reads.as_slice().len() == other.reads.as_slice().len()
            && self.line_count == other.line_count
            && self.read_lines == other.read_lines
            && self.write_lines == other.write_lines
    }

    fn copy_core(&mut self, other: &PlainSets, core: u8) {
        self.reads[usize::from(core)].copy_from(&other.reads[usize::from(core)]);
        self.writes[usize::from(core)].copy_from(&other.writes[usize::from(core)]);
    }

    fn slot(&self, core: u8, line: u32) -> Option<u32> {
        match self.writes[usize::from(core)].place(line) {
            Some(place) => Some(place as u32),
            None => None,
        }
    }

    fn clear(&mut self, core: u8) {
        self.reads[usize::from(core)].clear();
        self.writes[usize::from(core)].clear();
    }

    fn listing(&self, alloc: Global, core: u8, kind: Kind) -> Result<Vec<u32>, NoMemory> {
        match kind {
            Kind::Read => self.reads[usize::from(core)].listing(alloc),
            Kind::Write => self.writes[usize::from(core)].listing(alloc),
        }
    }

    fn visits(&self) -> u64 {
        self.visits
    }
}
