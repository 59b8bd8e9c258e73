//! Registers before and behind a step: [`changes`] has those that differ, by their new values.
//!
//! A register that was written with its own value is none of them. Of which core they are, and that an abort puts
//! back more than a step writes, is not known here.

ghost use Rattle.std.specs.Prelude.{◌≡◌, unwrap_or};
ghost use Rattle.tm_page.specs.Applied.{patched, patched_list};

use crate::delta::Changes;
use ia_regs::{Flags, Regs};

// A register behind a step, where it changed.
fn changed(old: u32, new: u32) -> Option<u32>
    ensures { unwrap_or result old ≡ new }
{
    if old == new { None } else { Some(new) }
}

// The flags behind a step, where they changed.
fn changed_flags(old: Flags, new: Flags) -> Option<Flags>
    ensures { unwrap_or result old ≡ new }
{
    if old == new { None } else { Some(new) }
}

/// What is other in the second of two.
pub fn changes(old: &Regs, new: &Regs) -> Changes
    ensures { patched result old.now ≡ new.now }
{
    Changes {
        gpr: changed_row(&old.gpr, &new.gpr),
        flags: changed_flags(old.flags, new.flags),
        eip: changed(old.eip, new.eip),
    }
}

// The general registers behind a step that changed.
fn changed_row(old: &[u32; 8], new: &[u32; 8]) -> [Option<u32>; 8]
    ensures { patched_list result old.now ≡ new.now }
{
    let mut row = [None; 8];
    for number in 0..8 {
        row[number] = changed(old[number], new[number]);
    }
    row
}
