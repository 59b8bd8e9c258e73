//! What is found among the symbols of a program, which stand in the order of its source or of its table of symbols.
//!
//! [`value_of`] looks for a name, [`first_at`] for an address, and [`first_nearest`] and [`last_nearest`] for what
//! stands nearest below one. These two differ where several symbols stand at one address: traces and places of code
//! name the first of them, and counts and lines of memory the last. Those on a line are told by their own
//! [`Symbol::line`]. Nothing is sorted here: who asks for each address in turn sorts them once, by `marks`.

ghost use Rattle.std.specs.Prelude.{◌≡◌, ◌==◌, find, reverse};
ghost use Rattle.std.specs.Option.{option_copied, option_map};
ghost use Rattle.std.specs.Str.{bytes_eq};
ghost use Rattle.symbols.specs.Symbols.{first_nearest, greatest_below, is_named, last_nearest, stands_at, symbol_in};

use crate::symbol::Symbol;

/// The value of the first symbol of this name.
pub fn value_of(symbols: &[Symbol], name: &[u8]) -> Option<u32>
    ensures { result ≡ symbol_in symbols.now name.now }
{
    let symbol = symbols.iter().find(|symbol| symbol.name() == name)?;
    Some(symbol.value())
}

/// The first symbol that stands at an address.
pub fn first_at(symbols: &[Symbol], address: u32) -> Option<&Symbol>
    ensures { option_copied result ≡ find (stands_at address) symbols.now }
{
    symbols.iter().find(|symbol| symbol.value() == address)
}

/// The symbol with the greatest value below `end`: of several the first.
pub fn first_nearest(symbols: &[Symbol], end: u64) -> Option<&Symbol>
    ensures { option_copied result ≡ first_nearest symbols.now end }
{
    match greatest_below(symbols, end) {
        Some(at) => first_at(symbols, at),
        None => None,
    }
}

/// The symbol with the greatest value below `end`: of several the last.
pub fn last_nearest(symbols: &[Symbol], end: u64) -> Option<&Symbol>
    ensures { option_copied result ≡ last_nearest symbols.now end }
{
    match greatest_below(symbols, end) {
        Some(at) => last_at(symbols, at),
        None => None,
    }
}

// The greatest value of a symbol below an end.
fn greatest_below(symbols: &[Symbol], end: u64) -> Option<u32>
    ensures { result ≡ greatest_below symbols.now end }
{
    symbols
        .iter()
        .map(|symbol| symbol.value())
        .filter(|value| u64::from(*value) < end)
        .max()
}

// The last symbol of this value.
fn last_at(symbols: &[Symbol], value: u32) -> Option<&Symbol>
    ensures { option_copied result ≡ find (stands_at value) (reverse symbols.now) }
{
    symbols.iter().rev().find(|symbol| symbol.value() == value)
}
