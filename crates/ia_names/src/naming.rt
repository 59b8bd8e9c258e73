//! The symbols of names, as lines are read from the top: a label, then the local ones that belong to it. How many parts
//! there may be can be limited.

use crate::cut::is_local;
use crate::names::Names;
use crate::numbering::descend;
use ia_item::{Definition, Name, Scope, Symbol};
use indexmap::IndexSet;
use std::alloc::{AllocError, Global};

impl<'a> Names<'a> {
    ghost use Rattle.std.specs.Prelude.{◌≡◌, [], length, IfOk};
    ghost use Rattle.ia_item.specs.Names.{whole_name};
    ghost use Rattle.ia_names.specs.Locals.{whole_of};
    ghost use Rattle.ia_names.specs.Namings.{IsNamed, Grows};

    /// No names yet, and no label.
    #[tactic(auto, using(crate::proofs::Trees::bare))]
    pub fn new(alloc: Global) -> Names<'a>
        ensures { result.scope.text.now ≡ [] }
    {
        Names {
            nodes: IndexSet::new(alloc),
            most: usize::MAX,
            number: 0,
            scope: Scope::new(b""),
        }
    }

    /// How many parts of names there are.
    pub fn count(&self) -> usize
        ensures { result ≡ length self.now.nodes.keys }
    {
        self.nodes.len()
    }

    /// Refuses new parts of names, as if no memory was left, where there are this many.
    pub fn limit(&mut self, most: usize)
        ensures most { self.new.most ≡ most }
        ensures scope { self.new.scope ≡ self.old.scope }
        ensures grows { Grows self.old self.new }
    {
        self.most = most;
    }

    /// Goes back before the first label. What has a number keeps it.
    #[tactic(auto, using(crate::proofs::Trees::length_wholes, crate::proofs::Trees::first_whole))]
    pub fn leave(&mut self)
        ensures scope { self.new.scope.text.now ≡ [] }
        ensures grows { Grows self.old self.new }
    {
        self.number = 0;
        self.scope = Scope::new(b"");
    }

    /// The symbol of a name behind the label.
    pub fn symbol(&mut self, own: &'a [u8]) -> Result<Symbol, AllocError>
        ensures scope { self.new.scope ≡ self.old.scope }
        ensures grows { Grows self.old self.new }
        ensures named { IfOk result (λ s. IsNamed self.new s (whole_of self.old.scope.text.now own.now)) }
    {
        let from = if is_local(own) { self.number } else { 0 };
        let number = descend(&mut self.nodes, self.most, from, own)?;
        Ok(Symbol { number })
    }

    /// The name of a name behind the label, as it is written.
    fn name(&self, own: &'a [u8]) -> Name<'a>
        ensures { whole_name result ≡ whole_of self.now.scope.text.now own.now }
    {
        if is_local(own) {
            Name::local(&self.scope, own)
        } else {
            Name::new(own)
        }
    }

    /// A name behind the label, and its symbol.
    pub fn definition(&mut self, own: &'a [u8]) -> Result<Definition<'a>, AllocError>
        ensures scope { self.new.scope ≡ self.old.scope }
        ensures grows { Grows self.old self.new }
        ensures name { IfOk result (λ d. whole_name d.name ≡ whole_of self.old.scope.text.now own.now) }
        ensures named { IfOk result (λ d. IsNamed self.new d.symbol (whole_of self.old.scope.text.now own.now)) }
    {
        let symbol = self.symbol(own)?;
        Ok(Definition {
            name: self.name(own),
            symbol,
        })
    }

    /// Goes on behind this label, whose symbol that is.
    pub fn enter(&mut self, own: &'a [u8], symbol: Symbol)
        requires { IsNamed self.old symbol own.now }
        ensures scope { self.new.scope.text.now ≡ own.now }
        ensures grows { Grows self.old self.new }
    {
        self.number = symbol.number;
        self.scope = Scope::new(own);
    }
}
