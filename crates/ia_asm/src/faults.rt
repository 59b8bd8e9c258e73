//! The faults of items, and which of them is told.

ghost use Rattle.std.specs.Prelude.{◌≡◌, refl, List};
ghost use Rattle.ia_resolve.specs.Symbols.{known};
ghost use Rattle.ia_layout.specs.Placement.{EntryPlace, end_fault, org_fault, item_fault, place_fault, first_fault};
ghost use Rattle.ia_layout.specs.Contents.{entry_place, IsBounded};
ghost use Rattle.ia_layout.specs.Parts.{Keeps, keeps_both};
ghost use Rattle.ia_asm.specs.Faults.{with_next};
ghost use Rattle.ia_asm.specs.Takers.{faults_with};

use ia_item::{Field, Item};
use ia_layout::{PlacedEntry, Taker};
use ia_resolve::{PlaceFault, Table, first_of, resolve_field, resolve_template};
use std::alloc::AllocError;

/// Whether an item ends more than 2^28 bytes from the base, or past 2^32.
fn end_fault(base: u32, end: u128) -> Option<PlaceFault>
    ensures { result ≡ end_fault base end }
{
    if end > u128::from(base) + (1 << 28) || end > 1 << 32 {
        Some(PlaceFault::Range)
    } else {
        None
    }
}

fn org_fault(number: Option<u64>) -> Option<PlaceFault>
    ensures { result ≡ org_fault number }
{
    match number {
        None => Some(PlaceFault::Range),
        Some(n) => {
            if n < 1 << 32 {
                None
            } else {
                Some(PlaceFault::Range)
            }
        }
    }
}

/// What is wrong with an item.
#[tactic(auto, unfolding(ia_layout::specs::Placement::item_fault))]
fn place_fault(symbols: &Table, base: u32, spot: &PlacedEntry) -> Option<PlaceFault>
    requires { IsBounded spot.now }
    ensures { result ≡ place_fault (known symbols.now.values.entries) base (entry_place spot.now) }
{
    let end = end_fault(base, spot.at + u128::from(spot.size));
    match &spot.entry.item {
        Item::Label(_) => None,
        Item::Equ(_, _) => spot.fault,
        Item::Code(template) => first_of(resolve_template(symbols, spot.at, template).fault, end),
        Item::Byte(expression) => first_of(
            resolve_field(symbols, spot.at, Field::Byte, expression).fault,
            end,
        ),
        Item::Text(_) => end,
        Item::Numbers(_) => end,
        Item::Long(expression) => first_of(
            resolve_field(symbols, spot.at, Field::Long, expression).fault,
            end,
        ),
        Item::Reserve(_) => first_of(spot.fault, end),
        Item::Align(_) => end,
        Item::Org(number) => org_fault(*number),
    }
}

/// The fault found so far and its line, after one more fault of a line.
fn with_next(
    found: Option<(PlaceFault, u32)>,
    fault: Option<PlaceFault>,
    line: u32,
) -> Option<(PlaceFault, u32)>
    ensures { result ≡ with_next found fault line }
{
    match found {
        None => match fault {
            None => None,
            Some(fault) => Some((fault, line)),
        },
        Some((first, at)) => {
            if line != at {
                return found;
            }
            match first_of(Some(first), fault) {
                None => None,
                Some(fault) => Some((fault, at)),
            }
        }
    }
}

/// Takes places, and keeps the first line that has a fault, and its first fault.
#[derive(Drop)]
pub struct FaultSearch<'t> {
    /// The values of the symbols.
    pub symbols: &'t Table,
    /// The address of the code.
    pub base: u32,
    /// The fault and the line, if one is found so far.
    pub found: Option<(PlaceFault, u32)>,
}

impl<'t> FaultSearch<'t> {
    /// No fault yet.
    pub fn new(symbols: &'t Table, base: u32) -> FaultSearch<'t>
        ensures { (ps : List EntryPlace) → faults_with result ps
            ≡ first_fault (known symbols.now.values.entries) base ps }
    {
        FaultSearch {
            symbols,
            base,
            found: None,
        }
    }
}

impl<'a, 't> Taker<'a> for FaultSearch<'t> {
    ghost Taken = { Keeps faults_with };

    ghost stays = { λ t more. refl };

    ghost goes_on = { keeps_both faults_with };

    fn take(&mut self, spot: &PlacedEntry<'a, '_>) -> Result<(), AllocError> {
        let fault = place_fault(self.symbols, self.base, spot);
        self.found = with_next(self.found, fault, spot.entry.line);
        Ok(())
    }
}
