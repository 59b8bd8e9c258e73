//! The outcome line of a step that goes on with what the step did.
//!
//! [`write_step`] is the whole line; [`write_front`], [`write_deed`] and [`write_values`] are its parts, for who
//! puts something between or writes lines of another form. The front is that of an outcome line (`tm_hist`), with
//! the address behind it.

ghost use Rattle.std.specs.Prelude.{◌≡◌, ◌+◌, ◌≤◌, ◌++◌, codes};
ghost use Rattle.arrayvec.specs.ArrayVec.{array_vec_len};
ghost use Rattle.text_out.specs.Writing.{Writes};
ghost use Rattle.ia_text.specs.Text.{insn_text};
ghost use Rattle.tm_trace.specs.Lines.{datum_text, deed_text, front_text, insn_behind, step_line, values_text};

use crate::deed::{Datum, Deed};
use debug_command::write_place;
use ia_insn::Insn;
use ia_text::write_insn;
use ia_word::Width;
use symbols::Symbol;
use text_out::page::{Page, push, push_bytes, push_eight, push_hex};
use text_out::text_line::TextLine;
use text_out::{Out, WriteFault};
use tm_hist::push_step;
use tm_model::Outcome;

/// Writes the outcome line of a step, which goes on with what it did: the address, the label there or the nearest
/// below, the instruction, and the numbers that were loaded and stored.
///
/// [`WriteFault::Write`], where the device failed: a beginning of the line was written.
pub fn write_step<O: Out>(
    labels: &[Symbol],
    core: u8,
    outcome: &Outcome,
    deed: &Deed,
    out: &mut O,
) -> Result<(), WriteFault>
    ensures { Writes (O.device out.old) (O.device out.new) (step_line labels.now core outcome.now deed.now) result }
{
    write_front(core, outcome, deed.eip, out)?;
    write_deed(labels, deed, out)?;
    out.put(b"\n")?;
    Ok(())
}

/// Writes the core, what its step was, and an address.
pub fn write_front<O: Out>(
    core: u8,
    outcome: &Outcome,
    eip: u32,
    out: &mut O,
) -> Result<(), WriteFault>
    ensures { Writes (O.device out.old) (O.device out.new) (front_text core outcome.now eip) result }
{
    let mut row = TextLine::new();
    push_front(&mut row, core, outcome, eip);
    out.put(row.as_slice())?;
    Ok(())
}

#[tactic(auto, unfolding(tm_hist::specs::Lines::step_text, crate::specs::Lines::front_text))]
fn push_front(row: &mut TextLine, core: u8, outcome: &Outcome, eip: u32)
    requires { array_vec_len row.old ≡ 0 }
    ensures { row.new.items ≡ row.old.items ++ front_text core outcome.now eip }
{
    push_step(row, core, outcome);
    push(row, b" ");
    push_eight(row, eip);
}

/// Writes what a step did, behind its address.
pub fn write_deed<O: Out>(labels: &[Symbol], deed: &Deed, out: &mut O) -> Result<(), WriteFault>
    ensures { Writes (O.device out.old) (O.device out.new) (deed_text labels.now deed.now) result }
{
    write_place(labels, deed.eip, out)?;
    write_behind(deed.insn, deed.eip, out)?;
    write_values(deed, out)
}

/// Writes the numbers that a step loaded and stored, each behind a space.
pub fn write_values<O: Out>(deed: &Deed, out: &mut O) -> Result<(), WriteFault>
    ensures { Writes (O.device out.old) (O.device out.new) (values_text deed.now) result }
{
    let mut values = Page::new();
    push_values(&mut values, deed);
    out.put(values.as_slice())?;
    Ok(())
}

// An instruction behind a space, where there is one.
fn write_behind<O: Out>(insn: Option<Insn>, at: u32, out: &mut O) -> Result<(), WriteFault>
    ensures { Writes (O.device out.old) (O.device out.new) (insn_behind insn at) result }
{
    match insn {
        Some(insn) => write_spaced(&insn, at, out),
        None => Ok(()),
    }
}

fn write_spaced<O: Out>(insn: &Insn, at: u32, out: &mut O) -> Result<(), WriteFault>
    ensures { Writes (O.device out.old) (O.device out.new) (codes " " ++ insn_text insn.now at) result }
{
    out.put(b" ")?;
    write_insn(insn, at, out)
}

fn push_values(page: &mut Page, deed: &Deed)
    requires { array_vec_len page.old ≡ 0 }
    ensures { page.new.items ≡ page.old.items ++ values_text deed.now }
{
    push_datum(page, deed.loaded);
    push_datum(page, deed.stored);
}

#[tactic(auto, unfolding(crate::specs::Lines::datum_text))]
fn push_datum(page: &mut Page, datum: Option<Datum>)
    requires { array_vec_len page.old + 20 ≤ 4096 }
    ensures text { page.new.items ≡ page.old.items ++ datum_text datum }
    ensures len { array_vec_len page.new ≤ array_vec_len page.old + 20 }
{
    let Some(datum) = datum else {
        return;
    };
    push(page, b" [");
    push_hex(page, datum.address);
    push(page, b"]=");
    match datum.width {
        Width::B => push_bytes(page, &[(datum.value % 256) as u8]),
        Width::D => push_eight(page, datum.value),
    }
}
