//! The symbols of a source by their names.

ghost use Rattle.std.specs.Prelude.{◌≡◌, ◌-◌, ◌^◌, ◌∷◌, [], refl, map, OnOk, negsuc, ◌≤ℤ◌};
ghost use Rattle.indexmap.specs.IndexMap.{insert_all};
ghost use Rattle.ia_item.specs.Names.{same_name};
ghost use Rattle.ia_layout.specs.Contents.{entry_place, IsBounded};
ghost use Rattle.ia_layout.specs.Parts.{Keeps, keeps_both};
ghost use Rattle.ia_asm.specs.Assemblies.{definition, value_modulo, symbol_modulo};
ghost use Rattle.ia_asm.specs.Takers.{names_with};

use ia_item::{Item, Name};
use ia_layout::{PlacedEntry, Taker};
use indexmap::IndexMap;
use std::alloc::{AllocError, Global};

/// Takes places, and keeps the symbols that are defined there, with their values modulo 2^32.
#[derive(Drop)]
pub struct NamedValues<'a> {
    /// The symbols so far, in the order of the source.
    pub symbols: IndexMap<Name<'a>, u32>,
}

/// A symbol's value modulo 2^32.
fn value_modulo(value: i128) -> u32
    requires { negsuc (2 ^ 31 - 1) ≤ℤ value }
    ensures { result ≡ value_modulo value }
{
    if value >= 0 {
        (value as u128 % (1 << 32)) as u32
    } else {
        (value + (1 << 32)) as u32
    }
}

fn insert<'a>(
    table: &mut IndexMap<Name<'a>, u32>,
    name: Name<'a>,
    value: i128,
) -> Result<(), AllocError>
    requires { negsuc (2 ^ 31 - 1) ≤ℤ value }
    ensures { OnOk result (table.new.entries
        ≡ insert_all same_name table.old.entries (map symbol_modulo ((name.entry, value) ∷ []))) }
{
    match table.insert(name, value_modulo(value)) {
        Ok(_) => Ok(()),
        Err(_) => Err(AllocError),
    }
}

/// Takes in a label or `equ`.
#[tactic(auto, unfolding(crate::specs::Assemblies::item_definition))]
fn define<'a>(
    table: &mut IndexMap<Name<'a>, u32>,
    spot: &PlacedEntry<'a, '_>,
) -> Result<(), AllocError>
    requires { IsBounded spot.now }
    ensures { OnOk result (table.new.entries
        ≡ insert_all same_name table.old.entries (map symbol_modulo (definition (entry_place spot.now)))) }
{
    match &spot.entry.item {
        Item::Label(definition) => insert(table, definition.name, spot.at as i128),
        Item::Equ(definition, _) => insert(table, definition.name, i128::from(spot.critical_value)),
        _ => Ok(()),
    }
}

impl<'a> NamedValues<'a> {
    /// No symbols yet.
    pub fn new(alloc: Global) -> NamedValues<'a>
        ensures { result.symbols.entries ≡ [] }
    {
        NamedValues {
            symbols: IndexMap::new(alloc),
        }
    }
}

impl<'a> Taker<'a> for NamedValues<'a> {
    ghost Taken = { Keeps names_with };

    ghost stays = { λ t more. refl };

    ghost goes_on = { keeps_both names_with };

    fn take(&mut self, spot: &PlacedEntry<'a, '_>) -> Result<(), AllocError> {
        define(&mut self.symbols, spot)
    }
}
