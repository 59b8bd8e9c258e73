//! Entries that may take so much.

ghost use Rattle.std.specs.Prelude.{◌≡◌, [], ◌++◌, ◌∷◌, OnOk};

use ia_item::{Entry, Item, ScopedExpression};
use std::alloc::{AllocError, Global};

/// An entry itself, in bytes.
const ENTRY: usize = 120;

/// What the allocator adds to memory of an entry's own, in bytes.
const OWN: usize = 16;

/// A term of an expression, in bytes.
const TERM: usize = 24;

/// Entries, and how much they may take.
#[derive(Drop)]
pub struct EntryList<'a> {
    /// The entries, in the order in which they were added.
    pub list: Vec<Entry<'a>>,
    /// What they take, in bytes. From usize::MAX on it stays.
    pub taken: usize,
    /// What they may take, in bytes.
    pub most: usize,
}

/// What an expression takes, in bytes.
fn expression_weight(expression: &ScopedExpression) -> usize {
    expression
        .terms
        .len()
        .saturating_mul(TERM)
        .saturating_add(OWN)
}

/// What an expression takes, in bytes, where there is one.
fn any_weight(expression: &Option<ScopedExpression>) -> usize {
    match expression {
        Some(expression) => expression_weight(expression),
        None => 0,
    }
}

/// What an item takes behind its entry, in bytes.
fn weight(item: &Item) -> usize {
    match item {
        Item::Code(template) => {
            any_weight(&template.number).saturating_add(any_weight(&template.displacement))
        }
        Item::Equ(_, expression) => expression_weight(expression),
        Item::Byte(expression) => expression_weight(expression),
        Item::Long(expression) => expression_weight(expression),
        Item::Reserve(expression) => expression_weight(expression),
        Item::Numbers(bytes) => bytes.len().saturating_add(OWN),
        _ => 0,
    }
}

impl<'a> EntryList<'a> {
    /// No entries, which may take all that there is.
    pub fn new(alloc: Global) -> EntryList<'a>
        ensures { result.list.items ≡ [] }
    {
        EntryList {
            list: Vec::new(alloc),
            taken: 0,
            most: usize::MAX,
        }
    }

    /// Lets further entries take so many bytes.
    pub fn allow(&mut self, more: usize)
        ensures { self.new.list ≡ self.old.list }
    {
        self.most = self.taken.saturating_add(more);
    }

    /// Adds an entry, or refuses it as if no memory was left.
    pub fn push(&mut self, entry: Entry<'a>) -> Result<(), AllocError>
        ensures { OnOk result (self.new.list.items ≡ self.old.list.items ++ entry.entry ∷ []) }
    {
        let taken = self
            .taken
            .saturating_add(ENTRY)
            .saturating_add(weight(&entry.item));
        if taken > self.most {
            return Err(AllocError);
        }
        self.list.push(entry)?;
        self.taken = taken;
        Ok(())
    }
}
