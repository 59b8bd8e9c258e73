//! The values of symbols: a trait, so that an expression is read with none of them, or with those of a table.

ghost use Rattle.std.specs.Prelude.{◌≡◌, Option, None, ℤ};
ghost use Rattle.ia_item.specs.declared.symbol.Symbol.{Symbol as SymbolOf};
ghost use Rattle.ia_resolve.specs.Symbols.{known};

use ia_item::Symbol;
use indexmap::IndexMap;

/// Values of symbols.
pub trait SymbolValues {
    // The value of each symbol that has one.
    ghost env: { Self → SymbolOf → Option ℤ };

    /// The value of a symbol.
    fn get(&self, symbol: &Symbol) -> Option<i128>
        ensures { result ≡ env self.now symbol.now };
}

/// No symbol has a value.
#[derive(Clone, Copy)]
pub struct NoSymbols;

impl SymbolValues for NoSymbols {
    ghost env = { λ _ _. None };

    fn get(&self, _symbol: &Symbol) -> Option<i128> {
        None
    }
}

/// Symbols in the order in which they are defined.
#[derive(Drop)]
pub struct Table {
    pub values: IndexMap<Symbol, i128>,
}

impl SymbolValues for Table {
    ghost env = { λ t. known t.values.entries };

    fn get(&self, symbol: &Symbol) -> Option<i128> {
        self.values.get(symbol).copied()
    }
}
