//! Listings with labels: [`list_labelled`] sorts the labels, and then writes.
//!
//! Their order takes memory, whose want is told before the first line is written. The lines are those of `listing`,
//! gathered, and handed on at the end or where they are much.

ghost use Rattle.std.specs.Prelude.{ℕ, IfOk, List, length};
ghost use Rattle.std.specs.Io.KnownBytes.{Appends};
ghost use Rattle.std.specs.List.Sorted.{IsNonDecreasingBy};
ghost use Rattle.elide_asm.specs.Labelled.{IsListed};
ghost use Rattle.symbols.specs.declared.marks.Mark.{Mark};

use crate::listing::write_listing;
use elide_device::Gathered;
use elide_places::Places;
use elide_program::ProgramRefusal;
use std::alloc::Global;
use symbols::{Mark, marks_of};
use text_out::{Out, WriteFault};

/// Writes the listing of some code at an address with these places' labels, and gives the device back.
///
/// Above each line stands a line `NAME:` for each label at its address, whose name stands there as
/// [`symbols::Symbol::shown`] has it; of several in the order of the source or of the executable's table. Code that
/// is no instruction of the subset is shown by its bytes, with what it is: all bytes of the instruction, where its
/// length is sure, but up to the next label. A label within an instruction of the subset is not written.
///
/// Want of memory for the order of the labels is told before anything is written.
pub fn list_labelled<O: Out + Drop>(
    alloc: Global,
    code: &[u8],
    base: u32,
    places: &Places,
    out: O,
) -> Result<O, ProgramRefusal>
    ensures { IfOk result (λ given. (marks : List Mark) × (text : List ℕ)
        × IsListed marks code.now base (length code.now) text
        × Appends (O.device out).contents (O.device given).contents text) }
{
    let marks = marks_of(alloc, places.labels())?;
    let written = write_gathered(code, base, marks.as_slice(), out);
    drop(marks);
    let out = written?;
    Ok(out)
}

// Writes the listing with these labels, many lines at a time.
fn write_gathered<O: Out + Drop>(
    code: &[u8],
    base: u32,
    marks: &[Mark<'_>],
    out: O,
) -> Result<O, WriteFault>
    requires { IsNonDecreasingBy (λ (m : Mark). m.address) marks.now }
    ensures { IfOk result (λ given. (text : List ℕ) × IsListed marks.now code.now base (length code.now) text
        × Appends (O.device out).contents (O.device given).contents text) }
{
    let mut page = Gathered::new(out);
    write_listing(code, base, marks, &mut page)?;
    let out = page.finish()?;
    Ok(out)
}
