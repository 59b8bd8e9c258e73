//! The line of a step: [`write_step`].
//!
//! It is an array: the core, a letter for what the step was, the registers that changed, and the object of
//! `members`, where there is one. The end of the line and the comma between two are written by `page_telling`. What
//! the core did before is handed in, since a delta has only what it does behind.

ghost use Rattle.std.specs.Prelude.{OnOk};
ghost use Rattle.text_out.specs.Writing.{Wrote};
ghost use Rattle.page_steps.specs.Reading.{IsInRange, ReadsAs};
ghost use Rattle.page_steps.specs.Steps.{step_text};

use crate::members::write_members;
use crate::numbers::write_numbers;
use crate::registers::changed_registers;
use crate::words::kind_letter;
use page_text::write_number;
use text_out::{Out, WriteFault};
use tm_model::CoreState;
use tm_page::PageDelta;

/// Writes a step: its core, what it was, the registers that changed, and what else did. `before` is what the core did
/// before it. The line is JSON, in which a reader finds the delta. On 5 `Write` a beginning of it was written.
#[tactic(auto, using(crate::proofs::Reading::step_reads))]
pub fn write_step<O: Out>(
    delta: &PageDelta,
    before: CoreState,
    out: &mut O,
) -> Result<(), WriteFault>
    ensures text { OnOk result (Wrote (O.device out.old) (O.device out.new) (step_text delta.now before)) }
    ensures reads { IsInRange delta.now → ReadsAs delta.now before (step_text delta.now before) }
{
    out.put(b"[")?;
    write_number(u64::from(delta.core), out)?;
    out.put(b",\"")?;
    out.put(kind_letter(delta.outcome))?;
    out.put(b"\",")?;
    write_numbers(changed_registers(&delta.registers).as_slice(), out)?;
    write_members(delta, before, out)?;
    out.put(b"]")?;
    Ok(())
}
