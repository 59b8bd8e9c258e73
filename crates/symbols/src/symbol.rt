//! A symbol: a name, as it is and as it is shown, and what it stands for.
//!
//! A name is kept whole, with the label that a local one belongs to in front; what is shown is kept only where it is
//! another text, which is seldom.

ghost use Rattle.std.specs.Prelude.{◌≡◌, ◌++◌, ◌/◌, IfOk, true};
ghost use Rattle.std.specs.List.{list_all};
ghost use Rattle.std.specs.Char.{is_ascii_graphic};
ghost use Rattle.symbols.specs.Shown.{shown_name, shown_of};

use crate::shown::shown_otherwise;
use std::alloc::{AllocError, Global};

/// A symbol of a program: a label or a constant of a source, or a symbol of an executable.
#[derive(Debug, Drop)]
pub struct Symbol {
    name: Vec<u8>,
    // The name as it is shown, where that is another text.
    shown: Option<Vec<u8>>,
    value: u32,
    ghost is_shown: { shown_of name.items shown ≡ shown_name name.items },
}

impl Symbol {
    /// The symbol of a name and a value. The name is kept whole: of a local label with the label that it belongs to,
    /// its scope, in front; of another symbol the scope is empty.
    pub fn of(alloc: Global, scope: &[u8], own: &[u8], value: u32) -> Result<Symbol, AllocError>
        ensures name { IfOk result (λ symbol. symbol.name.items ≡ scope.now ++ own.now) }
        ensures value { IfOk result (λ symbol. symbol.value ≡ value) }
    {
        let mut name = Vec::from_slice(alloc, scope)?;
        name.extend_from_slice(own)?;
        let shown = shown_otherwise(alloc, name.as_slice())?;
        Ok(Symbol { name, shown, value })
    }

    /// The whole name, as `start.next`: that of an executable's symbol can hold any byte but NUL.
    pub fn name(&self) -> &[u8]
        ensures { result.now ≡ self.now.name.items }
    {
        self.name.as_slice()
    }

    /// The whole name, as [`shown_name`](crate::shown_name) shows it.
    #[tactic(auto, using(crate::proofs::Showing::graphic_text))]
    pub fn shown(&self) -> &[u8]
        ensures text { result.now ≡ shown_name self.now.name.items }
        ensures graphic { list_all is_ascii_graphic result.now ≡ true }
    {
        match &self.shown {
            Some(shown) => shown.as_slice(),
            None => self.name.as_slice(),
        }
    }

    /// An address, or the value of a constant modulo 2^32.
    pub fn value(&self) -> u32
        ensures { result ≡ self.now.value }
    {
        self.value
    }

    /// The number of the line of 64 bytes that it begins on.
    pub fn line(&self) -> u32
        ensures { result ≡ self.now.value / 64 }
    {
        self.value / 64
    }
}
