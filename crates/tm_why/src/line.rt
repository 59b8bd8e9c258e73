//! The line that tells why a core's next step is an abort.
//!
//! [`write_reason`] puts it together in a row of fixed room and hands it to the device as one: the core, the
//! machine's reason, the hit, if one stands, and when the transaction began. Which steps have such a line, and what
//! stands around it, is for the commands to say.

ghost use Rattle.std.specs.Prelude.{◌≡◌, ◌+◌, ◌≤◌, ◌++◌, length};
ghost use Rattle.arrayvec.specs.ArrayVec.{array_vec_len};
ghost use Rattle.text_out.specs.Writing.{Writes};
ghost use Rattle.tm_why.specs.Lines.{begun_words, cause_word, hit_word, hit_words, place_words, reason_line};
ghost use Rattle.tm_why.specs.Lines.{stored_words, use_word};

use crate::reason::Reason;
use crate::row::StandingHit;
use text_out::page::{Page, push, push_decimal, push_eight, push_hex};
use text_out::{Out, WriteFault};
use tm_hist::stop_text;
use tm_model::AbortReason;
use tm_sets::Kind;

/// Writes why the next step of a core is an abort: the machine's reason, the hit that doomed its transaction, if one
/// did, and when that began. Steps are counted from 1.
pub fn write_reason<O: Out>(core: u8, reason: &Reason, out: &mut O) -> Result<(), WriteFault>
    ensures { Writes (O.device out.old) (O.device out.new) (reason_line core reason.now) result }
{
    let mut row = Page::new();
    push_reason(&mut row, core, reason);
    out.put(row.as_slice())?;
    Ok(())
}

fn push_reason(row: &mut Page, core: u8, reason: &Reason)
    requires { array_vec_len row.old ≡ 0 }
    ensures { row.new.items ≡ row.old.items ++ reason_line core reason.now }
{
    push(row, b"core ");
    push_decimal(row, u64::from(core));
    push(row, b": ");
    push(row, cause_word(reason.cause));
    push_hit(row, reason.transaction.hit);
    push_begun(row, reason.transaction.begun);
    push(row, b"\n");
}

fn cause_word(cause: AbortReason) -> &'static [u8]
    ensures text { result.now ≡ cause_word cause }
    ensures short { length result.now ≤ 20 }
{
    match cause {
        AbortReason::Conflict => b"conflict",
        AbortReason::Capacity(_, _) => b"capacity",
        AbortReason::Nest => b"nested deeper than 7",
        AbortReason::Explicit(_) => b"xabort",
        AbortReason::Breakpoint => b"#BP",
        AbortReason::Stop(stop) => stop_text(stop),
        AbortReason::NotAllowed => b"not in a transaction",
    }
}

/// How a step used a line, as it is told before the number of the step.
pub fn use_word(kind: Kind) -> &'static [u8]
    ensures text { result.now ≡ use_word kind }
    ensures short { length result.now ≤ 18 }
{
    match kind {
        Kind::Read => b": read at step ",
        Kind::Write => b": written at step ",
    }
}

/// How a line was hit, as it is told before the number of the step that hit it.
pub fn hit_word(hit: &StandingHit) -> &'static [u8]
    ensures text { result.now ≡ hit_word hit.now }
    ensures short { length result.now ≤ 18 }
{
    if hit.is_drain {
        b": drained at step "
    } else {
        use_word(hit.hit.kind)
    }
}

// Where the instruction stands by which the step hit, where that is known.
fn push_place(row: &mut Page, hit: &StandingHit)
    requires { array_vec_len row.old + 20 ≤ 4096 }
    ensures text { row.new.items ≡ row.old.items ++ place_words hit.now }
    ensures len { array_vec_len row.new ≤ array_vec_len row.old + 20 }
{
    if hit.is_placed() {
        push(row, b" at ");
        push_eight(row, hit.eip);
    }
}

/// Adds at which step a store was made that hit when it reached memory, where that is told.
pub fn push_stored(row: &mut Page, stored: Option<u64>)
    requires { array_vec_len row.old + 60 ≤ 4096 }
    ensures text { row.new.items ≡ row.old.items ++ stored_words stored }
    ensures len { array_vec_len row.new ≤ array_vec_len row.old + 60 }
{
    if let Some(stored) = stored {
        push(row, b", stored at step ");
        push_decimal(row, stored);
    }
}

// The line that was hit, and by which step.
fn push_hit(row: &mut Page, hit: Option<StandingHit>)
    requires { array_vec_len row.old + 300 ≤ 4096 }
    ensures text { row.new.items ≡ row.old.items ++ hit_words hit }
    ensures len { array_vec_len row.new ≤ array_vec_len row.old + 300 }
{
    if let Some(hit) = hit {
        push(row, b" line ");
        push_hex(row, hit.hit.line);
        push(row, hit_word(&hit));
        push_decimal(row, hit.step);
        push(row, b" by core ");
        push_decimal(row, u64::from(hit.core));
        push_place(row, &hit);
        push_stored(row, hit.stored);
    }
}

/// Adds when a transaction began, where that is told.
pub fn push_begun(row: &mut Page, begun: Option<u64>)
    requires { array_vec_len row.old + 60 ≤ 4096 }
    ensures text { row.new.items ≡ row.old.items ++ begun_words begun }
    ensures len { array_vec_len row.new ≤ array_vec_len row.old + 60 }
{
    if let Some(begun) = begun {
        push(row, b"; begun at step ");
        push_decimal(row, begun);
    }
}
