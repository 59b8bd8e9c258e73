//! Pieces of a page's data, none of which has a `<`.
//!
//! What the data is made of escapes each `<` (`page_text`). Here each piece is looked at once more before it is
//! written, so that, whatever made it, nothing in the data ends the element that it stands in.

ghost use Rattle.std.specs.Prelude.{◌≡◌, ◌⊎◌, Err, IfErr, OnOk};
ghost use Rattle.std.specs.List.{list_all};
ghost use Rattle.elide_setup.specs.Refused.{IsUntold, IsUnwritten};
ghost use Rattle.text_out.specs.Writing.{Wrote};
ghost use Rattle.page_run.specs.Plain.{ArePlain, WrotePlain, is_unmarked};

use elide_setup::Refusal;
use std::alloc::AllocError;
use text_out::{Out, ToVec, WriteFault};

/// Writes a piece of the data. One with a `<` is refused as a device that fails is, 5 `Write`: none is made.
pub fn put_plain<O: Out>(text: &[u8], out: &mut O) -> Result<(), Refusal>
    ensures text { OnOk result (Wrote (O.device out.old) (O.device out.new) text.now) }
    ensures plain { OnOk result (ArePlain text.now) }
    ensures refused { IfErr result IsUnwritten }
{
    if !are_unmarked(text) {
        return Err(Refusal::from(WriteFault::Write));
    }
    out.put(text)?;
    Ok(())
}

fn are_unmarked(text: &[u8]) -> bool
    ensures { result ≡ list_all is_unmarked text.now }
{
    text.iter().all(|byte| *byte != b'<')
}

/// Writes a piece that was made in memory, where it was. Its only failure is want of memory.
pub fn put_piece<O: Out>(
    made: Result<(), Refusal>,
    piece: &ToVec,
    out: &mut O,
) -> Result<(), Refusal>
    ensures text { OnOk result (WrotePlain (O.device out.old) (O.device out.new)) }
    ensures refused { IfErr result (λ why. (made ≡ Err why) ⊎ IsUntold why) }
{
    if piece.failures > 0 {
        return Err(Refusal::from(AllocError));
    }
    made?;
    put_plain(piece.bytes.as_slice(), out)
}
