//! The line of an abort with its reason, from `aborted` and the status to the line's end.
//!
//! [`write_abort`] first makes what stands before and behind the instruction, on pages of fixed room, and then writes
//! in the order of the line. What is told depends on the cause: of a conflict who hit, of want of room the line, of a
//! stop where the subset ends the code there. The reason is found by `tm_why`, and its words by `words`.

ghost use Rattle.std.specs.Prelude.{◌≡◌, ◌+◌, ◌≤◌, ◌++◌};
ghost use Rattle.arrayvec.specs.ArrayVec.{array_vec_len};
ghost use Rattle.text_out.specs.Writing.{Writes};
ghost use Rattle.elide_why.specs.Lines.{abort_back, abort_front, abort_line, begun_told, cause_text};
ghost use Rattle.elide_why.specs.Lines.{hit_words, line_text, no_room_text, outside_words, place_words, stored_told};

use crate::parts::write_parts;
use crate::subset::{push_outside, push_symbols};
use crate::words::Words;
use text_out::page::{Page, push, push_decimal, push_eight, push_hex};
use text_out::{Out, WriteFault};
use tm_hist::stop_text;
use tm_model::AbortReason;
use tm_sets::Kind;
use tm_why::{Reason, StandingHit, hit_word, push_begun, push_stored};

/// Writes the outcome line of an abort with this status, and its reason behind it.
///
/// [`WriteFault::Write`], where the device failed: a beginning of the line was written.
pub fn write_abort<O: Out>(
    core: u8,
    status: u32,
    reason: &Reason,
    words: &Words<'_>,
    out: &mut O,
) -> Result<(), WriteFault>
    ensures { Writes (O.device out.old) (O.device out.new) (abort_line core status reason.now words.now) result }
{
    let mut front = Page::new();
    push_front(&mut front, core, status, reason, words);
    let mut back = Page::new();
    push_back(&mut back, reason);
    write_parts(front.as_slice(), words, back.as_slice(), out)
}

// What stands before the instruction that is told.
#[tactic(auto, unfolding(crate::specs::Lines::abort_front))]
fn push_front(page: &mut Page, core: u8, status: u32, reason: &Reason, words: &Words<'_>)
    requires { array_vec_len page.old ≡ 0 }
    ensures { page.new.items ≡ page.old.items ++ abort_front core status reason.now words.now }
{
    push_decimal(page, u64::from(core));
    push(page, b" aborted ");
    push_eight(page, status);
    push(page, b" ");
    push_cause(page, reason, words);
}

// What stands behind it: when a store was made that hit as it drained, when a transaction began that was hit, and the
// line's end.
#[tactic(auto, unfolding(crate::specs::Lines::abort_back))]
fn push_back(page: &mut Page, reason: &Reason)
    requires { array_vec_len page.old ≡ 0 }
    ensures { page.new.items ≡ page.old.items ++ abort_back reason.now }
{
    push_stored(page, stored_told(reason.cause, reason.transaction.hit));
    push_begun(page, begun_told(reason.cause, reason.transaction.begun));
    push(page, b"\n");
}

// At which step a store was made that hit when it reached memory, where that is told.
fn stored_told(cause: AbortReason, hit: Option<StandingHit>) -> Option<u64>
    ensures { result ≡ stored_told cause hit }
{
    match cause {
        AbortReason::Conflict => hit?.stored,
        AbortReason::Capacity(_, _) => None,
        AbortReason::Nest => None,
        AbortReason::Explicit(_) => None,
        AbortReason::Breakpoint => None,
        AbortReason::Stop(_) => None,
        AbortReason::NotAllowed => None,
    }
}

// When a transaction began, where that is told.
fn begun_told(cause: AbortReason, begun: Option<u64>) -> Option<u64>
    ensures { result ≡ begun_told cause begun }
{
    match cause {
        AbortReason::Conflict => begun,
        AbortReason::Capacity(_, _) => None,
        AbortReason::Nest => None,
        AbortReason::Explicit(_) => None,
        AbortReason::Breakpoint => None,
        AbortReason::Stop(_) => None,
        AbortReason::NotAllowed => None,
    }
}

fn push_cause(page: &mut Page, reason: &Reason, words: &Words<'_>)
    requires { array_vec_len page.old + 1800 ≤ 4096 }
    ensures { page.new.items ≡ page.old.items ++ cause_text reason.now.cause reason.now words.now }
{
    match reason.cause {
        AbortReason::Conflict => {
            push(page, b"conflict");
            push_hit(page, reason.transaction.hit, words);
        }
        AbortReason::Capacity(kind, line) => push_no_room(page, kind, line, words),
        AbortReason::Nest => push(page, b"nested deeper than 7"),
        AbortReason::Explicit(argument) => {
            push(page, b"xabort 0x");
            push_hex(page, u32::from(argument));
        }
        AbortReason::Breakpoint => push(page, b"#BP"),
        AbortReason::Stop(stop) => {
            push(page, stop_text(stop));
            push_code(page, words);
        }
        AbortReason::NotAllowed => push(page, b"not in a transaction: "),
    }
}

// Where the subset ends, the code that stands there.
fn push_code(page: &mut Page, words: &Words<'_>)
    requires { array_vec_len page.old + 320 ≤ 4096 }
    ensures { page.new.items ≡ page.old.items ++ outside_words words.now.outside }
{
    if let Some(outside) = &words.outside {
        push_outside(page, outside);
    }
}

// Which line was hit, how, when, by whom, and where the instruction stands that did, where that is known.
fn push_hit(page: &mut Page, hit: Option<StandingHit>, words: &Words<'_>)
    requires { array_vec_len page.old + 1700 ≤ 4096 }
    ensures { page.new.items ≡ page.old.items ++ hit_words hit words.now }
{
    let Some(hit) = hit else {
        return;
    };
    push(page, b" ");
    push_line(page, hit.hit.line, words);
    push(page, hit_word(&hit));
    push_decimal(page, hit.step);
    push(page, b" by core ");
    push_decimal(page, u64::from(hit.core));
    push_place(page, &hit, words);
}

// Where the instruction stands by which the step hit, where that is known: of a drain, the one that made the store.
fn push_place(page: &mut Page, hit: &StandingHit, words: &Words<'_>)
    requires { array_vec_len page.old + 1200 ≤ 4096 }
    ensures { page.new.items ≡ page.old.items ++ place_words hit.now words.now }
{
    if !hit.is_placed() {
        return;
    }
    push(page, b", ");
    push(page, words.place.as_slice());
    push(page, b" ");
}

// What had no room, and on which line.
fn push_no_room(page: &mut Page, kind: Kind, line: u32, words: &Words<'_>)
    requires { array_vec_len page.old + 200 ≤ 4096 }
    ensures { page.new.items ≡ page.old.items ++ no_room_text kind line words.now }
{
    match kind {
        Kind::Read => push(page, b"reads: no room for "),
        Kind::Write => push(page, b"writes: no room for "),
    }
    push_line(page, line, words);
}

// A line by its number, and the symbols on it.
fn push_line(page: &mut Page, line: u32, words: &Words<'_>)
    requires { array_vec_len page.old + 130 ≤ 4096 }
    ensures text { page.new.items ≡ page.old.items ++ line_text line words.now }
    ensures len { array_vec_len page.new ≤ array_vec_len page.old + 130 }
{
    push(page, b"line ");
    push_hex(page, line);
    push_symbols(page, words.symbols.as_slice());
}
