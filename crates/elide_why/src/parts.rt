//! The parts of a line: what stands before an instruction, the instruction, and what stands behind it.
//!
//! [`write_parts`] writes them one after another, as an instruction goes to a device and not to a page. Where the
//! device fails a beginning of the line stands. The two texts around are those of `lines` and `interference`.

ghost use Rattle.std.specs.Prelude.{◌++◌};
ghost use Rattle.text_out.specs.Writing.{Writes};
ghost use Rattle.elide_why.specs.Lines.{insn_words};

use crate::words::Words;
use ia_insn::Insn;
use ia_text::write_insn;
use text_out::{Out, WriteFault};

/// Writes what stands before an instruction, the one that is told, if one is, and what stands behind it.
///
/// [`WriteFault::Write`], where the device failed: a beginning of them was written.
pub fn write_parts<O: Out>(
    front: &[u8],
    words: &Words<'_>,
    back: &[u8],
    out: &mut O,
) -> Result<(), WriteFault>
    ensures { Writes (O.device out.old) (O.device out.new)
        (front.now ++ (insn_words words.now.insn words.now.eip ++ back.now)) result }
{
    out.put(front)?;
    write_words(words.insn, words.eip, out)?;
    out.put(back)?;
    Ok(())
}

// An instruction, where there is one.
fn write_words<O: Out>(insn: Option<Insn>, at: u32, out: &mut O) -> Result<(), WriteFault>
    ensures { Writes (O.device out.old) (O.device out.new) (insn_words insn at) result }
{
    match insn {
        Some(insn) => write_insn(&insn, at, out),
        None => Ok(()),
    }
}
