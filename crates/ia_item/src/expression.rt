//! Expressions whose symbols stand for whole names: sums and differences of numbers and symbols.

use crate::symbol::Symbol;

/// A number or a symbol.
#[derive(Clone, Copy)]
pub enum ScopedAtom {
    /// A number.
    Number(u64),
    /// A number above u64::MAX.
    Huge,
    /// The value of a symbol.
    Symbol(Symbol),
}

/// An atom that is added or taken away.
#[derive(Clone, Copy)]
pub struct ScopedTerm {
    /// Whether it is taken away.
    pub negative: bool,
    /// What is added or taken away.
    pub atom: ScopedAtom,
}

/// A sum of 1 to 16 terms.
#[derive(Drop)]
pub struct ScopedExpression {
    /// Its terms, in the order of the source.
    pub terms: Vec<ScopedTerm>,
}
