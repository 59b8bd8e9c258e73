//! Symbols by their numbers, which are compared in place of names from here on; a definition keeps the name for what is
//! told.

use crate::name::Name;

/// A symbol, by the number of its whole name among the names of a source: two symbols are one where their numbers are
/// the same.
#[derive(Clone, Copy, PartialEq, Eq, Hash)]
pub struct Symbol {
    /// Its number.
    pub number: usize,
}

/// A symbol where a line defines it.
#[derive(Clone, Copy)]
pub struct Definition<'a> {
    /// Its name, as it is written there.
    pub name: Name<'a>,
    /// The symbol of that name.
    pub symbol: Symbol,
}
