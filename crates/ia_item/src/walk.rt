//! Going over the entries of a source.

use crate::item::Entry;
use std::alloc::AllocError;

/// What goes over the entries of a source in their order, some of them at a time.
pub trait Walk<'a> {
    ghost use Rattle.std.specs.Prelude.{List, ◌++◌, [], OnOk};
    ghost use Rattle.ia_item.specs.declared.item.Entry.{Entry as EntryOf};
    ghost use Rattle.ia_item.specs.Fits.{AllFit};

    // What going over entries makes of it.
    ghost Walked: { Self → List EntryOf → Self → Type 0 };

    /// Goes over the next entries.
    fn go_over(&mut self, entries: &[Entry<'a>]) -> Result<(), AllocError>
        requires { AllFit entries.now }
        ensures { OnOk result (Walked self.old entries.now self.new) };

    ghost stays: { (w : Self) → Walked w [] w };

    ghost goes_on: { (a b c : Self) (es fs : List EntryOf) → Walked a es b → Walked b fs c → Walked a (es ++ fs) c };
}
