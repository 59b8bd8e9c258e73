//! Lines of the sets of a core: those of now, and those that joined a list.
//!
//! [`joined`] tells no line that left: a set grows step by step, and is given up as a whole, which the outcome or a
//! hit says. Lines are numbers of 64 bytes each, and are told in the order of the new list.

ghost use Rattle.std.specs.Prelude.{◌≡◌, ◌&&◌, ◌||◌, IfOk, OnOk, nat_eq, not, true, ℕ};
ghost use Rattle.std.specs.FinSet as set;
ghost use Rattle.tm_core.specs.Theorem.{lines_shown, view_at};
ghost use Rattle.tm_page.specs.Applied.{is_listed};

use std::alloc::{AllocError, Global};
use tm_core::{Machine, RunFault};
use tm_sets::Kind;

/// The lines of a core's read set or write set.
pub fn lines_of(
    alloc: Global,
    machine: &Machine,
    core: u8,
    kind: Kind,
) -> Result<Vec<u32>, RunFault>
    ensures { IfOk result (λ lines. (line : ℕ) → is_listed lines.items line
        ≡ set.contains (lines_shown (view_at machine.now core) kind) line) }
{
    machine.sets(alloc, core, kind)
}

/// Those of the second list that do not stand in the first. Where both ascend, and the first has all but few of the
/// second, it takes one step for each line, and goes over the first list for those few.
pub fn joined(alloc: Global, old: &[u32], new: &[u32]) -> Result<Vec<u32>, AllocError>
    ensures { IfOk result (λ lines. (line : ℕ) → is_listed lines.items line
        ≡ (is_listed new.now line && not (is_listed old.now line))) }
{
    let mut lines = Vec::new(alloc);
    let mut place = 0;
    for index in 0..new.len() {
        place = join(&mut lines, old, place, new[index])?;
    }
    Ok(lines)
}

// Adds a line, where it does not stand in this list, as perhaps at this place. Answers at which place the next may.
#[tactic(auto, using(crate::proofs::Lists::line_stays))]
fn join(lines: &mut Vec<u32>, old: &[u32], place: usize, new: u32) -> Result<usize, AllocError>
    ensures { OnOk result ((line : ℕ) → is_listed lines.new.items line
        ≡ (is_listed lines.old.items line || (nat_eq line new && not (is_listed old.now line)))) }
{
    if stands_at(old, place, new) {
        return Ok(place.saturating_add(1));
    }
    join_apart(lines, old, new)?;
    Ok(place)
}

// Whether a line stands at a place of a list.
#[tactic(auto, using(crate::proofs::Lists::stands_there))]
fn stands_at(lines: &[u32], place: usize, line: u32) -> bool
    ensures { result ≡ true → is_listed lines.now line ≡ true }
{
    place < lines.len() && lines[place] == line
}

// Adds a line, where it does not stand in this list.
#[tactic(auto, using(crate::proofs::Lists::line_joins, crate::proofs::Lists::line_stays))]
fn join_apart(lines: &mut Vec<u32>, old: &[u32], new: u32) -> Result<(), AllocError>
    ensures { OnOk result ((line : ℕ) → is_listed lines.new.items line
        ≡ (is_listed lines.old.items line || (nat_eq line new && not (is_listed old.now line)))) }
{
    if stands_in(old, new) {
        return Ok(());
    }
    lines.push(new)?;
    Ok(())
}

// Whether a line stands in a list.
fn stands_in(lines: &[u32], line: u32) -> bool
    ensures { result ≡ is_listed lines.now line }
{
    lines.iter().any(|other| line == *other)
}
