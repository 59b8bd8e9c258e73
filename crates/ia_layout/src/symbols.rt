//! The symbols of a source with their values: labels by the place of their line, `equ` by its expression. Items are
//! taken in the order of the source.

ghost use Rattle.std.specs.Prelude.{◌≡◌, refl, OnOk};
ghost use Rattle.indexmap.specs.IndexMap.{insert_all};
ghost use Rattle.ia_item.specs.Names.{same_symbol};
ghost use Rattle.ia_layout.specs.Placement.{item_definition, definition};
ghost use Rattle.ia_layout.specs.Contents.{entry_place, symbols_with, IsBounded};
ghost use Rattle.ia_layout.specs.Parts.{Keeps, keeps_both};

use crate::layout::PlacedEntry;
use crate::taker::Taker;
use ia_item::Item;
use ia_resolve::Table;
use std::alloc::AllocError;

/// Takes in a label or `equ`.
#[tactic(auto, unfolding(crate::specs::Placement::item_definition))]
fn define(table: &mut Table, spot: &PlacedEntry) -> Result<(), AllocError>
    requires { IsBounded spot.now }
    ensures { OnOk result (table.new.values.entries
        ≡ insert_all same_symbol table.old.values.entries (definition (entry_place spot.now))) }
{
    match &spot.entry.item {
        Item::Label(definition) => match table.values.insert(definition.symbol, spot.at as i128) {
            Ok(_) => Ok(()),
            Err(_) => Err(AllocError),
        },
        Item::Equ(definition, _) => match table
            .values
            .insert(definition.symbol, i128::from(spot.critical_value))
        {
            Ok(_) => Ok(()),
            Err(_) => Err(AllocError),
        },
        _ => Ok(()),
    }
}

impl<'a> Taker<'a> for Table {
    ghost Taken = { Keeps symbols_with };

    ghost stays = { λ t more. refl };

    ghost goes_on = { keeps_both symbols_with };

    fn take(&mut self, spot: &PlacedEntry<'a, '_>) -> Result<(), AllocError> {
        define(self, spot)
    }
}
