//! The sets as one row of entries, each on the list of its core and on the list of its line.
//!
//! An entry comes to the front of both lists, and is freed from the front of its core's: nothing is searched to clear a
//! core. A slot is how many lines the core had written before. All memory is taken by [`Directory::new`], a head for
//! each line of memory with it.

ghost use Rattle.std.specs.Prelude.{◌≡◌, ◌+◌, ◌-◌, ◌*◌, ◌^◌, ◌<◌, ◌≤◌, ℕ, true, false, Bool, not, ◌&&◌, nat_eq};
ghost use Rattle.std.specs.Prelude.{◌==◌, if◌then◌else◌, length, slice_index, slice_set, is_some, IfOk, IfSome};
ghost use Rattle.std.specs.Prelude.{IfNone, IsSome, IsTrue, min};
ghost use Rattle.std.proofs.Props.{props};
ghost use Rattle.std.specs.FinSet as set;
ghost use Rattle.tm_sets.specs.Row.{entry_at, lines_in, is_of, slot_among, freed, no_entry};
ghost use Rattle.tm_sets.specs.Content.{IsMaskOf, by_kind, same_kind, with_line, triples_on};
ghost use Rattle.tm_sets.specs.Content.{other_on_line, other_writes_line};
ghost use Rattle.tm_sets.specs.Threaded.{AreCounted, AreSized, IsThreaded, rows, if_read, if_written, more, fewer};
ghost use Rattle.tm_sets.specs.Threaded.{entries_on, threaded_content, asked, is_asked};
ghost use Rattle.tm_sets.specs.declared.interface.Kind.{Kind};

use crate::fault::{Full, NoMemory};
use crate::interface::{Kind, Sets};
use crate::row::{Entry, hook, unhook};
use std::alloc::Global;

/// Sets of lines as a directory: one row of entries, one a triple, each on the list of its core and on the list of its
/// line. A question for a line goes over that line's list alone, and `clear` over the core's list alone.
#[derive(Drop)]
pub struct Directory {
    entries: Vec<Entry>,
    /// The first entry of each core's list.
    core_heads: Vec<u32>,
    /// The first entry of each line's list.
    line_heads: Vec<u32>,
    /// The first free entry.
    free: u32,
    /// How many lines each core has read, and written.
    reads: Vec<u32>,
    writes: Vec<u32>,
    line_count: u32,
    read_lines: u32,
    write_lines: u32,
    visits: u64,
    ghost few: { length entries.items ≤ 524288 },
    ghost cores: { length core_heads.items ≤ 64 },
    ghost most_lines: { line_count ≤ 4194304 },
    ghost most_read_lines: { read_lines ≤ 4096 },
    ghost most_write_lines: { write_lines ≤ 4096 },
    ghost sized: { AreSized (rows entries.items core_heads.items line_heads.items free reads.items writes.items
        line_count read_lines write_lines) } by { Prim.hlevel props },
    ghost counted: { AreCounted (rows entries.items core_heads.items line_heads.items free reads.items writes.items
        line_count read_lines write_lines) } by { Prim.hlevel props },
    ghost threaded: { IsThreaded (rows entries.items core_heads.items line_heads.items free reads.items writes.items
        line_count read_lines write_lines) },
}

impl Directory {
    ghost use Rattle.tm_sets.specs.DirectoryRows.{rows_of};
    ghost use Rattle.tm_sets.specs.Content.{empty_content};

    /// Empty sets for 1 to 64 cores, at most 4,194,304 lines of memory, and room for 1 to 4096 lines of each kind a
    /// core. `NoMemory` (32) where the row or the heads cannot be reserved.
    pub fn new(
        alloc: Global,
        cores: u8,
        lines: u32,
        read_lines: u32,
        write_lines: u32,
    ) -> Result<Directory, NoMemory>
        requires cores { 1 ≤ cores }
        requires most_cores { cores ≤ 64 }
        requires lines { lines ≤ 4194304 }
        requires read_lines { 1 ≤ read_lines }
        requires most_read_lines { read_lines ≤ 4096 }
        requires write_lines { 1 ≤ write_lines }
        requires most_write_lines { write_lines ≤ 4096 }
        ensures content { IfOk result (λ made. threaded_content (rows_of made)
            ≡ empty_content cores lines read_lines write_lines) }
        ensures visits { IfOk result (λ made. made.visits ≡ 0) }
    {
        let most = u32::from(cores) * (read_lines + write_lines);
        let entries = free_entries(alloc, most)?;
        let core_heads = vec![in alloc; 0; usize::from(cores)]?;
        let line_heads = vec![in alloc; 0; lines as usize]?;
        let reads = vec![in alloc; 0; usize::from(cores)]?;
        let writes = vec![in alloc; 0; usize::from(cores)]?;
        Ok(Directory {
            entries,
            core_heads,
            line_heads,
            free: most,
            reads,
            writes,
            line_count: lines,
            read_lines,
            write_lines,
            visits: 0,
        })
    }

    /// How many lines of a kind a core has.
    fn held_lines(&self, core: u8, kind: Kind) -> u32
        requires { core < length self.now.core_heads.items }
        ensures { result
            ≡ by_kind (slice_index self.now.reads.items core) (slice_index self.now.writes.items core) kind }
    {
        match kind {
            Kind::Read => self.reads[usize::from(core)],
            Kind::Write => self.writes[usize::from(core)],
        }
    }

    /// How many lines of a kind a core has room for.
    fn room(&self, kind: Kind) -> u32
        ensures { result ≡ by_kind self.now.read_lines self.now.write_lines kind }
    {
        match kind {
            Kind::Read => self.read_lines,
            Kind::Write => self.write_lines,
        }
    }

    /// Takes a free entry for a new triple, and hooks it at the heads of the lists of its core and its line.
    fn put_first(&mut self, core: u8, line: u32, kind: Kind)
        requires core { core < length self.old.core_heads.items }
        requires line { line < self.old.line_count }
        requires new { set.contains (lines_in self.old.entries.items core kind) line ≡ false }
        requires room { by_kind (slice_index self.old.reads.items core) (slice_index self.old.writes.items core) kind
            < by_kind self.old.read_lines self.old.write_lines kind }
        ensures content { threaded_content (rows_of self.new)
            ≡ with_line (threaded_content (rows_of self.old)) core kind line (slot_among self.new.entries.items) }
        ensures kept { (old : ℕ) → IsSome (slot_among self.old.entries.items core old)
            → slot_among self.new.entries.items core old ≡ slot_among self.old.entries.items core old }
        ensures others { (other : ℕ) → (nat_eq other core ≡ true → ⊥)
            → slot_among self.new.entries.items other ≡ slot_among self.old.entries.items other }
        ensures visits { self.new.visits ≡ self.old.visits }
    {
        let at = self.free;
        let entry = Entry {
            held: true,
            core,
            kind,
            line,
            slot: self.writes[usize::from(core)],
            before_on_core: 0,
            after_on_core: self.core_heads[usize::from(core)],
            before_on_line: 0,
            after_on_line: self.line_heads[line as usize],
        };
        self.free = self.entries[at as usize - 1].after_on_core;
        hook(&mut self.entries, at - 1, entry);
        self.core_heads[usize::from(core)] = at;
        self.line_heads[line as usize] = at;
        count_more(&mut self.reads, &mut self.writes, core, kind);
    }

    /// Frees the entry of a core's first triple.
    fn take_first(&mut self, core: u8)
        requires core { core < length self.old.core_heads.items }
        requires some { 1 ≤ slice_index self.old.core_heads.items core }
        ensures lines { (other : ℕ) (kind : Kind) → (other ≡ core → ⊥)
            → lines_in self.new.entries.items other kind ≡ lines_in self.old.entries.items other kind }
        ensures slots { (other line : ℕ) → (other ≡ core → ⊥)
            → slot_among self.new.entries.items other line ≡ slot_among self.old.entries.items other line }
        ensures fewer { slice_index self.old.reads.items core + slice_index self.old.writes.items core
            ≡ slice_index self.new.reads.items core + slice_index self.new.writes.items core + 1 }
        ensures cores { length self.new.core_heads.items ≡ length self.old.core_heads.items }
        ensures lines_of_memory { self.new.line_count ≡ self.old.line_count }
        ensures read_lines { self.new.read_lines ≡ self.old.read_lines }
        ensures write_lines { self.new.write_lines ≡ self.old.write_lines }
        ensures visits { self.new.visits ≡ self.old.visits }
    {
        let at = self.core_heads[usize::from(core)];
        let entry = self.entries[at as usize - 1];
        unhook(&mut self.entries, at - 1, self.free);
        self.core_heads[usize::from(core)] = entry.after_on_core;
        move_head(
            &mut self.line_heads,
            entry.line,
            entry.before_on_line,
            entry.after_on_line,
        );
        self.free = at;
        count_fewer(&mut self.reads, &mut self.writes, core, entry.kind);
    }

    /// The entry told, and one visit more.
    fn visit(&self, told: u32, visited: &mut u64) -> Entry
        requires some { 1 ≤ told }
        requires below { told ≤ length self.now.entries.items }
        requires few { visited.old < 2 ^ 63 }
        ensures entry { result ≡ entry_at self.now.entries.items (told - 1) }
        ensures visited { visited.new ≡ visited.old + 1 }
    {
        *visited += 1;
        self.entries[told as usize - 1]
    }

    /// The place of the entry that stands for a triple, and how many entries were visited for it.
    fn find(&self, core: u8, line: u32, kind: Kind) -> (Option<u32>, u64)
        requires core { core < length self.now.core_heads.items }
        requires line { line < self.now.line_count }
        ensures found { is_some result.0 ≡ set.contains (lines_in self.now.entries.items core kind) line }
        ensures place { IfSome result.0 (λ place. place < length self.now.entries.items) }
        ensures triple { IfSome result.0 (λ place.
            (is_of (entry_at self.now.entries.items place) core kind
            && nat_eq (entry_at self.now.entries.items place).line line) ≡ true) }
        ensures visited { result.1 ≤ entries_on self.now.entries.items line }
        ensures some { IfSome result.0 (λ _. 1 ≤ result.1) }
        ensures none { IfNone result.0 (result.1 ≡ entries_on self.now.entries.items line) }
    {
        let mut at = self.line_heads[line as usize];
        let mut visited = 0;
        while at != 0 {
            let entry = self.visit(at, &mut visited);
            if is_use(&entry, core, kind) {
                return (Some(at - 1), visited);
            }
            at = entry.after_on_line;
        }
        (None, visited)
    }

    /// The cores but `core` that have a line, or that have written it, and how many entries were visited for it: bit k
    /// for core k.
    fn others(&self, line: u32, core: u8, written: bool) -> (u64, u64)
        requires core { core < length self.now.core_heads.items }
        requires line { line < self.now.line_count }
        ensures mask { IsMaskOf result.0 (length self.now.core_heads.items)
            (asked (threaded_content (rows_of self.now)) written line core) }
        ensures below { result.0 < 2 ^ length self.now.core_heads.items }
        ensures visited { result.1 ≡ entries_on self.now.entries.items line }
    {
        let mut at = self.line_heads[line as usize];
        let mut mask = 0;
        let mut visited = 0;
        while at != 0 {
            let entry = self.visit(at, &mut visited);
            if is_asked(&entry, core, written) {
                mask |= 1 << entry.core;
            }
            at = entry.after_on_line;
        }
        (mask, visited)
    }

    /// Whether a line is in this set of the core. None is that is past the lines of memory.
    fn has_line(&self, core: u8, line: u32, kind: Kind) -> bool
        requires { core < length self.now.core_heads.items }
        ensures { result ≡ set.contains (lines_in self.now.entries.items core kind) line }
    {
        line < self.line_count && self.find(core, line, kind).0.is_some()
    }

    /// Whether another has each line of the core that this one has, of the same kind.
    fn is_within(&self, other: &Directory, core: u8) -> bool
        requires here { core < length self.now.core_heads.items }
        requires there { core < length other.now.core_heads.items }
        ensures within { IsTrue result → (kind : Kind) → IsTrue (set.is_subset
            (lines_in self.now.entries.items core kind) (lines_in other.now.entries.items core kind)) }
        ensures all { ((kind : Kind) → IsTrue (set.is_subset
            (lines_in self.now.entries.items core kind) (lines_in other.now.entries.items core kind)))
            → IsTrue result }
    {
        let mut at = self.core_heads[usize::from(core)];
        let mut visited = 0;
        while at != 0 {
            let entry = self.visit(at, &mut visited);
            if !other.has_line(core, entry.line, entry.kind) {
                return false;
            }
            at = entry.after_on_core;
        }
        true
    }
}

/// So many free entries, each before the one of the next lower index.
fn free_entries(alloc: Global, count: u32) -> Result<Vec<Entry>, NoMemory>
    requires { count ≤ 524288 }
    ensures count { IfOk result (λ row. length row.items ≡ count) }
    ensures free { IfOk result (λ row. (place : ℕ) → place < count
        → entry_at row.items place ≡ freed no_entry place) }
{
    let mut entries = Vec::with_capacity(alloc, count as usize)?;
    for place in 0..count {
        entries.push(Entry {
            held: false,
            core: 0,
            kind: Kind::Read,
            line: 0,
            slot: 0,
            before_on_core: 0,
            after_on_core: place,
            before_on_line: 0,
            after_on_line: 0,
        })?;
    }
    Ok(entries)
}

/// Whether an entry is of this core and kind.
fn is_use(entry: &Entry, core: u8, kind: Kind) -> bool
    ensures { result ≡ (nat_eq entry.now.core core && same_kind entry.now.kind kind) }
{
    entry.core == core && entry.kind == kind
}

/// Whether an entry is of this kind.
fn is_of_kind(entry: &Entry, kind: Kind) -> bool
    ensures { result ≡ same_kind entry.now.kind kind }
{
    entry.kind == kind
}

/// Whether an entry's core is another than `core`, and wrote the line where only those that wrote are asked for.
fn is_asked(entry: &Entry, core: u8, written: bool) -> bool
    ensures { result ≡ is_asked entry.now core written }
{
    entry.core != core && (!written || entry.kind == Kind::Write)
}

/// Lets a line's list begin with the entry after the one that goes, where no entry was before that one.
fn move_head(line_heads: &mut [u32], line: u32, before: u32, after: u32)
    requires { line < length line_heads.old }
    ensures { line_heads.new ≡ (if before == 0 then slice_set line_heads.old line after else line_heads.old) }
{
    if before == 0 {
        line_heads[line as usize] = after;
    }
}

/// Counts a line more of a core.
fn count_more(reads: &mut [u32], writes: &mut [u32], core: u8, kind: Kind)
    requires reads { core < length reads.old }
    requires writes { core < length writes.old }
    requires few_reads { slice_index reads.old core ≤ 4096 }
    requires few_writes { slice_index writes.old core ≤ 4096 }
    ensures reads { reads.new ≡ if_read kind (more reads.old core) reads.old }
    ensures writes { writes.new ≡ if_written kind (more writes.old core) writes.old }
{
    match kind {
        Kind::Read => reads[usize::from(core)] += 1,
        Kind::Write => writes[usize::from(core)] += 1,
    }
}

/// Counts a line fewer of a core, which has one.
fn count_fewer(reads: &mut [u32], writes: &mut [u32], core: u8, kind: Kind)
    requires reads { core < length reads.old }
    requires writes { core < length writes.old }
    requires some { 1 ≤ by_kind (slice_index reads.old core) (slice_index writes.old core) kind }
    ensures reads { reads.new ≡ if_read kind (fewer reads.old core) reads.old }
    ensures writes { writes.new ≡ if_written kind (fewer writes.old core) writes.old }
{
    match kind {
        Kind::Read => reads[usize::from(core)] -= 1,
        Kind::Write => writes[usize::from(core)] -= 1,
    }
}

impl Sets for Directory {
    ghost use Rattle.tm_sets.specs.DirectoryRows.{rows_of};

    ghost content = { λ s. threaded_content (rows_of s) };

    ghost visited = { λ s. s.visits };

    fn add(&mut self, core: u8, line: u32, kind: Kind) -> Result<(), Full> {
        let (place, _) = self.find(core, line, kind);
        if place.is_some() {
            return Ok(());
        }
        if self.held_lines(core, kind) == self.room(kind) {
            return Err(Full);
        }
        self.put_first(core, line, kind);
        Ok(())
    }

    /// The count of entries visited rises by at most the number of triples that have the line, and by just this number
    /// where the line is not in the set; so by at most two for each core.
    fn has(&mut self, core: u8, line: u32, kind: Kind) -> bool
        requires core { core < length self.old.core_heads.items }
        requires line { line < self.old.line_count }
        ensures value { result ≡ set.contains (lines_in self.old.entries.items core kind) line }
        ensures same { threaded_content (rows_of self.new) ≡ threaded_content (rows_of self.old) }
        ensures visits { self.old.visits ≤ self.new.visits }
        ensures most { self.new.visits ≤ self.old.visits + triples_on (threaded_content (rows_of self.old)) line }
        ensures some { self.old.visits < u64.MAX → IsTrue result → self.old.visits < self.new.visits }
        ensures all { IsTrue (not result) → self.new.visits
            ≡ min (self.old.visits + triples_on (threaded_content (rows_of self.old)) line) u64.MAX }
        ensures few { self.new.visits ≤ self.old.visits + 2 * length self.old.core_heads.items }
    {
        let (place, visited) = self.find(core, line, kind);
        self.visits = self.visits.saturating_add(visited);
        place.is_some()
    }

    /// The count of entries visited rises by the number of triples that have the line, at most two for each core.
    fn others_on(&mut self, line: u32, core: u8) -> u64
        requires core { core < length self.old.core_heads.items }
        requires line { line < self.old.line_count }
        ensures mask { IsMaskOf result (length self.old.core_heads.items)
            (other_on_line (threaded_content (rows_of self.old)) line core) }
        ensures below { result < 2 ^ length self.old.core_heads.items }
        ensures same { threaded_content (rows_of self.new) ≡ threaded_content (rows_of self.old) }
        ensures visits { self.old.visits ≤ self.new.visits }
        ensures exact { self.new.visits
            ≡ min (self.old.visits + triples_on (threaded_content (rows_of self.old)) line) u64.MAX }
        ensures few { self.new.visits ≤ self.old.visits + 2 * length self.old.core_heads.items }
    {
        let (mask, visited) = self.others(line, core, false);
        self.visits = self.visits.saturating_add(visited);
        mask
    }

    /// The count of entries visited rises by the number of triples that have the line, at most two for each core.
    fn writers_on(&mut self, line: u32, core: u8) -> u64
        requires core { core < length self.old.core_heads.items }
        requires line { line < self.old.line_count }
        ensures mask { IsMaskOf result (length self.old.core_heads.items)
            (other_writes_line (threaded_content (rows_of self.old)) line core) }
        ensures below { result < 2 ^ length self.old.core_heads.items }
        ensures same { threaded_content (rows_of self.new) ≡ threaded_content (rows_of self.old) }
        ensures visits { self.old.visits ≤ self.new.visits }
        ensures exact { self.new.visits
            ≡ min (self.old.visits + triples_on (threaded_content (rows_of self.old)) line) u64.MAX }
        ensures few { self.new.visits ≤ self.old.visits + 2 * length self.old.core_heads.items }
    {
        let (mask, visited) = self.others(line, core, true);
        self.visits = self.visits.saturating_add(visited);
        mask
    }

    fn count(&self, core: u8, kind: Kind) -> u32 {
        self.held_lines(core, kind)
    }

    fn room_for(&self, kind: Kind) -> u32 {
        self.room(kind)
    }

    fn holds(&self, core: u8, line: u32, kind: Kind) -> bool {
        let (place, _) = self.find(core, line, kind);
        place.is_some()
    }

    /// The counts are compared first; then the time is that of the core's own list, with one question of the other for
    /// each of its lines.
    fn is_same(&self, other: &Directory, core: u8) -> bool {
        self.held_lines(core, Kind::Read) == other.held_lines(core, Kind::Read)
            && self.held_lines(core, Kind::Write) == other.held_lines(core, Kind::Write)
            && self.is_within(other, core)
    }

    fn is_like(&self, other: &Directory) -> bool {
        self.core_heads.as_slice().len() == other.core_heads.as_slice().len()
            && self.line_count == other.line_count
            && self.read_lines == other.read_lines
            && self.write_lines == other.write_lines
    }

    /// The core's list here is emptied, and that of the other walked.
    fn copy_core(&mut self, other: &Directory, core: u8) {
        self.clear(core);
        let mut at = other.core_heads[usize::from(core)];
        let mut visited = 0;
        while at != 0 {
            let entry = other.visit(at, &mut visited);
            let Ok(()) = self.add(core, entry.line, entry.kind) else {
                unreachable!()
            };
            at = entry.after_on_core;
        }
    }

    fn slot(&self, core: u8, line: u32) -> Option<u32> {
        let (place, _) = self.find(core, line, Kind::Write);
        match place {
            Some(place) => Some(self.entries[place as usize].slot),
            None => None,
        }
    }

    fn clear(&mut self, core: u8) {
        while self.core_heads[usize::from(core)] != 0 {
            self.take_first(core);
        }
    }

    /// The time is that of the core's own list, and of the sorting.
    fn listing(&self, alloc: Global, core: u8, kind: Kind) -> Result<Vec<u32>, NoMemory> {
        let mut lines = Vec::with_capacity(alloc, self.held_lines(core, kind) as usize)?;
        let mut at = self.core_heads[usize::from(core)];
        let mut visited = 0;
        while at != 0 {
            let entry = self.visit(at, &mut visited);
            if is_of_kind(&entry, kind) {
                lines.push(entry.line)?;
            }
            at = entry.after_on_core;
        }
        lines.sort_unstable();
        Ok(lines)
    }

    fn visits(&self) -> u64 {
        self.visits
    }
}
