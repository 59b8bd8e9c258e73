//! The line of an abort from outside of the program: what came, the instruction that was next, when the transaction
//! began.
//!
//! [`write_interference`] makes what stands before and behind the instruction, and then writes in the order of the
//! line. Such an abort has no reason in the program: those that have one are told in `lines`.

ghost use Rattle.std.specs.Prelude.{◌≡◌, ◌+◌, ◌≤◌, ◌++◌};
ghost use Rattle.arrayvec.specs.ArrayVec.{array_vec_len};
ghost use Rattle.text_out.specs.Writing.{Writes};
ghost use Rattle.tm_hist.specs.Lines.{interference_word};
ghost use Rattle.elide_why.specs.Interference.{interference_back, interference_front, interference_line, space_before};

use crate::parts::write_parts;
use crate::words::Words;
use ia_insn::Insn;
use text_out::page::{Page, push, push_decimal, push_eight};
use text_out::{Out, WriteFault};
use tm_hist::interference_text;
use tm_model::Interference;
use tm_why::push_begun;

/// Writes the outcome line of an abort from outside of the program with this status: what came, the place and text of
/// the instruction that was next, and when the transaction began.
///
/// [`WriteFault::Write`], where the device failed: a beginning of the line was written.
pub fn write_interference<O: Out>(
    core: u8,
    interference: Interference,
    status: u32,
    begun: Option<u64>,
    words: &Words<'_>,
    out: &mut O,
) -> Result<(), WriteFault>
    ensures { Writes (O.device out.old) (O.device out.new)
        (interference_line core (interference_word interference) status begun words.now) result }
{
    let mut front = Page::new();
    push_front(&mut front, core, interference, status, words);
    let mut back = Page::new();
    push_back(&mut back, begun);
    write_parts(front.as_slice(), words, back.as_slice(), out)
}

// What stands before the instruction.
#[tactic(auto, unfolding(crate::specs::Interference::interference_front))]
fn push_front(page: &mut Page, core: u8, interference: Interference, status: u32, words: &Words<'_>)
    requires { array_vec_len page.old ≡ 0 }
    ensures { page.new.items
        ≡ page.old.items ++ interference_front core (interference_word interference) status words.now }
{
    push_decimal(page, u64::from(core));
    push(page, b" aborted ");
    push_eight(page, status);
    push(page, b" ");
    push(page, interference_text(interference));
    push(page, b" at ");
    push(page, words.place.as_slice());
    push_space(page, words.insn);
}

// A space, where an instruction stands behind it.
fn push_space(page: &mut Page, insn: Option<Insn>)
    requires { array_vec_len page.old + 1 ≤ 4096 }
    ensures { page.new.items ≡ page.old.items ++ space_before insn }
{
    if insn.is_some() {
        push(page, b" ");
    }
}

// What stands behind it, and the line's end.
#[tactic(auto, unfolding(crate::specs::Interference::interference_back))]
fn push_back(page: &mut Page, begun: Option<u64>)
    requires { array_vec_len page.old ≡ 0 }
    ensures { page.new.items ≡ page.old.items ++ interference_back begun }
{
    push_begun(page, begun);
    push(page, b"\n");
}
