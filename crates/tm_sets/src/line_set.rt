//! A bounded set of lines, kept as a plain list, each line once and in the order in which they came.
//!
//! A line's place does not change until all are taken away, so that it serves as the line's slot. Room is reserved when
//! the set is made; a listing is sorted, the list never is. It is used by `plain` alone.

ghost use Rattle.std.specs.Prelude.{◌≡◌, ◌<◌, ◌≤◌, ◌&&◌, not, nat_le, length, is_err, is_some, IsSome, ℕ, [], IfOk};
ghost use Rattle.std.specs.Prelude.{IfSome, OnOk};
ghost use Rattle.std.specs.Prelude.{OnErr, IsTrue};
ghost use Rattle.std.specs.FinSet as set;
ghost use Rattle.std.specs.List.Sorted.{IsStrictlyIncreasing};
ghost use Rattle.tm_sets.specs.LineSet.{lines_of, place_of};

use crate::fault::{Full, NoMemory};
use std::alloc::Global;
use std::marker::Model;

/// The lines of one kind that one core has loaded from or stored to.
#[derive(Drop)]
pub struct LineSet {
    /// Each line once, in the order in which they came.
    lines: Vec<u32>,
    room: usize,
}

impl Model for LineSet {
    ghost use Rattle.std.specs.Prelude.{◌≡◌, ◌≤◌, length, vec_capacity};
    ghost use Rattle.std.specs.FinSet as set;
    ghost use Rattle.tm_sets.specs.LineSet.{BoundedLines, bounded_lines_code, lines_of};

    ghost Value = { BoundedLines };

    ghost coded = { bounded_lines_code };

    ghost view = { λ a. record { order = a.lines.items; room = a.room } };

    ghost invariant = { λ a. (set.len (lines_of a.lines.items) ≡ length a.lines.items)
        × (length a.lines.items ≤ a.room)
        × (a.room ≤ vec_capacity a.lines)
        × (a.room ≤ 4096) };
}

impl LineSet {
    /// An empty set with room for so many lines, which is reserved here.
    pub fn with_room(alloc: Global, room: u32) -> Result<LineSet, NoMemory>
        requires { room ≤ 4096 }
        ensures lines { IfOk result (λ made. made.order ≡ []) }
        ensures room { IfOk result (λ made. made.room ≡ room) }
    {
        let room = room as usize;
        let lines = Vec::with_capacity(alloc, room)?;
        Ok(LineSet { lines, room })
    }

    /// How many lines it has.
    pub fn count(&self) -> u32
        ensures { result ≡ set.len (lines_of self.now.order) }
    {
        self.lines.as_slice().len() as u32
    }

    /// The place of a line in the list.
    pub fn place(&self, line: u32) -> Option<usize>
        ensures place { result ≡ place_of self.now.order line }
        ensures found { is_some result ≡ set.contains (lines_of self.now.order) line }
        ensures below { IfSome result (λ place. place < 4096) }
    {
        place_in(&self.lines, line)
    }

    /// Adds a line; `Full`, and nothing changed, exactly where it is new and there is no room for it.
    pub fn add(&mut self, line: u32) -> Result<(), Full>
        ensures full { is_err result ≡ (not (set.contains (lines_of self.old.order) line)
            && nat_le self.old.room (set.len (lines_of self.old.order))) }
        ensures ok { OnOk result (lines_of self.new.order ≡ set.insert (lines_of self.old.order) line) }
        ensures order { (other : ℕ) → IsSome (place_of self.old.order other)
            → place_of self.new.order other ≡ place_of self.old.order other }
        ensures within { length self.new.order ≤ self.new.room }
        ensures room { self.new.room ≡ self.old.room }
        ensures err { OnErr result (self.new ≡ self.old) }
    {
        if self.place(line).is_some() {
            return Ok(());
        }
        if self.lines.as_slice().len() == self.room {
            return Err(Full);
        }
        self.lines.push(line).unwrap();
        Ok(())
    }

    /// Whether another has the same lines, in any order.
    pub fn is_same(&self, other: &LineSet) -> bool
        ensures lines { IsTrue result → lines_of self.now.order ≡ lines_of other.now.order }
        ensures all { lines_of self.now.order ≡ lines_of other.now.order → IsTrue result }
    {
        self.count() == other.count() && are_within(&self.lines, &other.lines)
    }

    /// Takes all lines away.
    pub fn clear(&mut self)
        ensures lines { self.new.order ≡ [] }
        ensures room { self.new.room ≡ self.old.room }
    {
        self.lines.clear();
    }

    /// Has the lines of another with as much room, in their order, in place of its own.
    pub fn copy_from(&mut self, other: &LineSet)
        requires { other.now.room ≡ self.old.room }
        ensures lines { self.new.order ≡ other.now.order }
        ensures room { self.new.room ≡ self.old.room }
    {
        self.lines.clear();
        self.lines.extend_from_slice(&other.lines).unwrap();
    }

    /// The lines, ascending.
    pub fn listing(&self, alloc: Global) -> Result<Vec<u32>, NoMemory>
        ensures ascending { IfOk result (λ lines. IsStrictlyIncreasing lines.items) }
        ensures same { IfOk result (λ lines. set.from_list lines.items ≡ lines_of self.now.order) }
    {
        let mut lines = Vec::from_slice(alloc, &self.lines)?;
        lines.sort_unstable();
        Ok(lines)
    }
}

/// The place of a line in a list of lines.
fn place_in(lines: &[u32], line: u32) -> Option<usize>
    ensures place { result ≡ place_of lines.now line }
    ensures found { is_some result ≡ set.contains (lines_of lines.now) line }
    ensures below { IfSome result (λ place. place < length lines.now) }
{
    for (place, other) in lines.iter().enumerate() {
        if *other == line {
            return Some(place);
        }
    }
    None
}

/// Whether each line of a list is in another list.
fn are_within(lines: &[u32], others: &[u32]) -> bool
    ensures { result ≡ set.is_subset (lines_of lines.now) (lines_of others.now) }
{
    for line in lines {
        if place_in(others, *line).is_none() {
            return false;
        }
    }
    true
}
