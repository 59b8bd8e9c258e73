//! Symbols in the order of their addresses: [`marks_of`] sorts them once, and [`standing_at`] then finds those of an
//! address by halving.
//!
//! Those at one address stay in the order of the source or of the table. Names are borrowed, as they are shown.

ghost use Rattle.std.specs.Prelude.{◌≡◌, IfOk, length, map};
ghost use Rattle.std.specs.List.Sorted.{IsNonDecreasingBy, IsPermutation};
ghost use Rattle.symbols.specs.Shown.{shown_name};
ghost use Rattle.symbols.specs.Marks.{marks_at};

use crate::symbol::Symbol;
use std::alloc::{AllocError, Global};

/// Where a symbol stands, and its name as it is shown.
#[derive(Clone, Copy)]
pub struct Mark<'a> {
    /// The address.
    pub address: u32,
    /// The name, as [`Symbol::shown`] has it.
    pub name: &'a [u8],
}

/// Each symbol's address and name, in the order of the addresses; of several at one address in the order of the list.
///
/// [`AllocError`] where there is no memory for them.
pub fn marks_of<'a>(alloc: Global, symbols: &'a [Symbol]) -> Result<Vec<Mark<'a>>, AllocError>
    ensures sorted { IfOk result (λ marks. IsNonDecreasingBy (λ m. m.address) marks.items) }
    ensures names { IfOk result (λ marks. IsPermutation (map (λ s. shown_name s.name.items) symbols.now)
        (map (λ m. m.name.now) marks.items)) }
{
    let mut marks = Vec::new(alloc);
    for symbol in symbols {
        marks.push(Mark {
            address: symbol.value(),
            name: symbol.shown(),
        })?;
    }
    marks.sort_by_key(|mark| mark.address)?;
    Ok(marks)
}

/// Those that stand at an address, of marks in the order of their addresses.
pub fn standing_at<'m, 'a>(marks: &'m [Mark<'a>], at: u32) -> &'m [Mark<'a>]
    requires { IsNonDecreasingBy (λ (m : Mark). m.address) marks.now }
    ensures { result.now ≡ marks_at marks.now at }
{
    let first = marks.partition_point(|mark| mark.address < at);
    let end = marks.partition_point(|mark| mark.address <= at);
    &marks[first..end]
}
