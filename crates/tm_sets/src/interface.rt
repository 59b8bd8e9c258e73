//! What every representation of the sets answers, by what it contains and not by how it is kept.
//!
//! That cores and lines are below the numbers that the sets were made for is asked for and not tested. The questions of
//! a step count the entries that they visit, which bounds what they cost; `holds` asks without a count, and changes
//! nothing. Which line an access touches is known to `ia_word`, what follows from a conflict to `tm_core`.

ghost use Rattle.std.specs.Prelude.{◌≡◌, ◌<◌, ◌≤◌, ◌^◌, ℕ, Bool, ◌&&◌, not, nat_eq, true, is_err, Option, IsSome, IfOk};
ghost use Rattle.std.specs.Prelude.{OnOk, OnErr, IsTrue};
ghost use Rattle.std.specs.FinSet as set;
ghost use Rattle.std.specs.List.Sorted.{IsStrictlyIncreasing};
ghost use Rattle.tm_sets.specs.Content.{Content, with_line, without_core, is_full};
ghost use Rattle.tm_sets.specs.Content.{IsMaskOf, other_on_line, other_writes_line, AreSlots};
ghost use Rattle.tm_sets.specs.declared.interface.Kind.{Kind};

use crate::fault::{Full, NoMemory};
use std::alloc::Global;

/// How a core used a line.
#[derive(Clone, Copy, PartialEq, Eq, Debug)]
pub enum Kind {
    /// A load: the line is in the read set.
    Read,
    /// A store: the line is in the write set.
    Write,
}

/// A set of triples of a core, a line and a kind, bounded for each core and kind.
///
/// Each call is asked for cores and lines below the numbers that the set was made for. Only `listing` takes memory.
pub trait Sets {
    /// What it contains, however it is kept, with the slot of each line that a core has written.
    ghost content: { Self → Content };

    /// The number of entries visited so far by `has`, `others_on` and `writers_on`.
    ghost visited: { Self → ℕ };

    /// Adds a line to a core's read set or write set. `Full` (31), and nothing changed, exactly where the line is new
    /// there and the core has as many lines of this kind as it has room for. Each line that has a slot keeps it.
    fn add(&mut self, core: u8, line: u32, kind: Kind) -> Result<(), Full>
        requires core { core < (content self.old).fixed.cores }
        requires line { line < (content self.old).fixed.line_count }
        ensures full { is_err result ≡ is_full (content self.old) core kind line }
        ensures ok { OnOk result (content self.new
            ≡ with_line (content self.old) core kind line (content self.new).slots) }
        ensures err { OnErr result (content self.new ≡ content self.old) }
        ensures kept { (written : ℕ) → IsSome ((content self.old).slots core written)
            → (content self.new).slots core written ≡ (content self.old).slots core written }
        ensures others { (other : ℕ) → (nat_eq other core ≡ true → ⊥)
            → (content self.new).slots other ≡ (content self.old).slots other }
        ensures visits { visited self.new ≡ visited self.old };

    /// Whether the line is in this set of the core.
    fn has(&mut self, core: u8, line: u32, kind: Kind) -> bool
        requires core { core < (content self.old).fixed.cores }
        requires line { line < (content self.old).fixed.line_count }
        ensures value { result ≡ set.contains ((content self.old).lines core kind) line }
        ensures same { content self.new ≡ content self.old }
        ensures visits { visited self.old ≤ visited self.new };

    /// The other cores that have the line in either set: bit k for core k.
    fn others_on(&mut self, line: u32, core: u8) -> u64
        requires core { core < (content self.old).fixed.cores }
        requires line { line < (content self.old).fixed.line_count }
        ensures mask { IsMaskOf result (content self.old).fixed.cores (other_on_line (content self.old) line core) }
        ensures below { result < 2 ^ (content self.old).fixed.cores }
        ensures same { content self.new ≡ content self.old }
        ensures visits { visited self.old ≤ visited self.new };

    /// The other cores that have the line in their write set: bit k for core k.
    fn writers_on(&mut self, line: u32, core: u8) -> u64
        requires core { core < (content self.old).fixed.cores }
        requires line { line < (content self.old).fixed.line_count }
        ensures mask { IsMaskOf result (content self.old).fixed.cores (other_writes_line (content self.old) line core) }
        ensures below { result < 2 ^ (content self.old).fixed.cores }
        ensures same { content self.new ≡ content self.old }
        ensures visits { visited self.old ≤ visited self.new };

    /// How many lines this set of the core has.
    fn count(&self, core: u8, kind: Kind) -> u32
        requires { core < (content self.now).fixed.cores }
        ensures { result ≡ set.len ((content self.now).lines core kind) };

    /// How many lines of this kind a core has room for.
    fn room_for(&self, kind: Kind) -> u32
        ensures { result ≡ (content self.now).fixed.room kind };

    /// Whether the line is in this set of the core, with no visit counted.
    fn holds(&self, core: u8, line: u32, kind: Kind) -> bool
        requires core { core < (content self.now).fixed.cores }
        requires line { line < (content self.now).fixed.line_count }
        ensures { result ≡ set.contains ((content self.now).lines core kind) line };

    /// Whether a core has the same lines in its read set, and the same in its write set, as the core of this number has
    /// in other sets of this representation, which may be made for other numbers of cores, lines and room. It takes no
    /// memory.
    fn is_same(&self, other: &Self, core: u8) -> bool
        requires here { core < (content self.now).fixed.cores }
        requires there { core < (content other.now).fixed.cores }
        ensures lines { IsTrue result
            → (kind : Kind) → (content self.now).lines core kind ≡ (content other.now).lines core kind }
        ensures all { ((kind : Kind) → (content self.now).lines core kind ≡ (content other.now).lines core kind)
            → IsTrue result };

    /// Whether other sets of this representation were made for the same numbers of cores and lines, and with the same
    /// room.
    fn is_like(&self, other: &Self) -> bool
        ensures fixed { IsTrue result → (content self.now).fixed ≡ (content other.now).fixed }
        ensures all { (content self.now).fixed ≡ (content other.now).fixed → IsTrue result };

    /// Gives a core the lines that the core of this number has in other sets of this representation, which were made
    /// alike, in place of its own: of both kinds. Slots of the core's lines are new ones. It takes no memory; the time
    /// is that of the core's lines in both.
    fn copy_core(&mut self, other: &Self, core: u8)
        requires here { core < (content self.old).fixed.cores }
        requires alike { (content other.now).fixed ≡ (content self.old).fixed }
        ensures lines { (kind : Kind) → (content self.new).lines core kind ≡ (content other.now).lines core kind }
        ensures elsewhere { (c : ℕ) → (nat_eq c core ≡ true → ⊥)
            → (kind : Kind) → (content self.new).lines c kind ≡ (content self.old).lines c kind }
        ensures slots { (c : ℕ) → (nat_eq c core ≡ true → ⊥)
            → (content self.new).slots c ≡ (content self.old).slots c }
        ensures fixed { (content self.new).fixed ≡ (content self.old).fixed }
        ensures visits { visited self.new ≡ visited self.old };

    /// The slot of a line that the core has written, and nothing for any other line: a number below the core's room for
    /// written lines, and for each of them another one. It stays the line's slot until `clear` of the core.
    fn slot(&self, core: u8, line: u32) -> Option<u32>
        requires core { core < (content self.now).fixed.cores }
        requires line { line < (content self.now).fixed.line_count }
        ensures value { result ≡ (content self.now).slots core line }
        ensures all { AreSlots (content self.now) };

    /// Takes away the lines of a core, of both kinds, and no others.
    fn clear(&mut self, core: u8)
        requires { core < (content self.old).fixed.cores }
        ensures content { content self.new ≡ without_core (content self.old) core }
        ensures visits { visited self.new ≡ visited self.old };

    /// The lines of this set of the core, ascending. `NoMemory` (32) where there is no memory for the list.
    fn listing(&self, alloc: Global, core: u8, kind: Kind) -> Result<Vec<u32>, NoMemory>
        requires { core < (content self.now).fixed.cores }
        ensures ascending { IfOk result (λ lines. IsStrictlyIncreasing lines.items) }
        ensures same { IfOk result (λ lines. set.from_list lines.items ≡ (content self.now).lines core kind) };

    /// How many entries `has`, `others_on` and `writers_on` have visited so far. The count never falls, and stays at
    /// `u64::MAX`.
    fn visits(&self) -> u64
        ensures { result ≡ visited self.now };
}
