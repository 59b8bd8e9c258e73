//! The base that a source sets.

ghost use Rattle.std.specs.Prelude.{◌≡◌, ◌++◌, ℕ, List, None, refl};
ghost use Rattle.ia_item.specs.declared.item.Entry.{Entry as EntryOf};
ghost use Rattle.ia_layout.specs.Placement.{org_value, base_or, base_of};
ghost use Rattle.ia_layout.specs.Contents.{or_base, base_with};
ghost use Rattle.ia_layout.specs.Parts.{Keeps, keeps_both};

use ia_item::{Entry, Item, Walk};
use std::alloc::AllocError;

fn org_value(number: Option<u64>) -> u32
    ensures { result ≡ org_value number }
{
    match number {
        None => 0,
        Some(n) => { if n < 1 << 32 { n as u32 } else { 0 } }
    }
}

/// The base that an item sets.
#[tactic(auto, unfolding(crate::specs::Placement::base_or))]
fn org_of(item: &Item) -> Option<u32>
    ensures { (base : ℕ) → base_or item.now base ≡ or_base result base }
{
    match item {
        Item::Org(number) => Some(org_value(*number)),
        _ => None,
    }
}

/// The first base that entries set.
fn first_org(entries: &[Entry]) -> Option<u32>
    ensures { (more : List EntryOf) → base_of (entries.now ++ more) ≡ or_base result (base_of more) }
{
    for entry in entries {
        if let Some(base) = org_of(&entry.item) {
            return Some(base);
        }
    }
    None
}

/// A walk that keeps the first base that entries set.
#[derive(Drop)]
pub struct FirstOrg {
    /// The base, if one is set so far.
    pub found: Option<u32>,
}

impl FirstOrg {
    /// None is set so far.
    pub fn new() -> FirstOrg
        ensures { result.found ≡ None }
    {
        FirstOrg { found: None }
    }

    /// The base that is set, or 100h.
    pub fn base(&self) -> u32
        ensures { result ≡ or_base self.now.found 0x100 }
    {
        match self.found {
            None => 0x100,
            Some(base) => base,
        }
    }
}

impl<'a> Walk<'a> for FirstOrg {
    ghost Walked = { Keeps base_with };

    ghost stays = { λ w more. refl };

    ghost goes_on = { keeps_both base_with };

    fn go_over(&mut self, entries: &[Entry<'a>]) -> Result<(), AllocError> {
        if self.found.is_none() {
            self.found = first_org(entries);
        }
        Ok(())
    }
}
