//! The beginning of a run's object: the outcomes of its steps, written as they are made.
//!
//! [`put_front`] comes once, then [`put_outcome`] for each step, whose number says whether a comma stands before it;
//! the caller counts them from 1. Where outcomes are not asked for, there is `null` in place of the list. It is closed
//! by [`put_back`](crate::put_back).

ghost use Rattle.std.specs.Prelude.{◌≡◌, ◌++◌, IfErr, IfOk, OnOk, codes, if◌then◌else◌, nat_lt, string_bytes};
ghost use Rattle.text_out.specs.Writing.{Wrote};
ghost use Rattle.serde_json.specs.Events.{SendsValue};
ghost use Rattle.serde_json.specs.Written.{comma_if, compact_text};
ghost use Rattle.elide_json.specs.Outcomes.{outcome_value, row_text, run_front};
ghost use Rattle.elide_json.specs.Refused.{IsUnsaid};

use crate::text::text_of;
use crate::words::{event_of, name_of_outcome, send_optional, stop_of_outcome};
use elide_object::{send_number, send_text, send_text_or_null};
use elide_setup::Refusal;
use serde::{Described, Serialize, Serializer};
use std::alloc::{AllocError, Global};
use text_out::Out;
use tm_hist::status_of;
use tm_model::Outcome;

// What a step of a core was.
#[derive(Clone, Copy)]
struct OutcomeRow {
    // The step, from 1.
    step: u64,
    core: u8,
    outcome: Outcome,
}

impl Described for OutcomeRow {
    ghost writes = { λ row. SendsValue (outcome_value row.step row.core row.outcome) };
}

impl Serialize for OutcomeRow {
    fn serialize<S: Serializer>(&self, out: &mut S) -> Result<(), S::Error> {
        let outcome = self.outcome;
        out.begin_map(Some(6))?;
        send_number("step", self.step, out)?;
        send_number("core", u64::from(self.core), out)?;
        send_text("outcome", name_of_outcome(outcome), out)?;
        send_text_or_null("stop", stop_of_outcome(outcome), out)?;
        send_optional("status", status_of(outcome), out)?;
        send_text_or_null("event", event_of(outcome), out)?;
        out.end_map()
    }
}

/// Writes what stands before the outcomes, which are a list where they are asked for, and null where they are not.
pub fn put_front<O: Out>(traces: bool, out: &mut O) -> Result<(), Refusal>
    ensures wrote { OnOk result (Wrote (O.device out.old) (O.device out.new) (run_front traces)) }
    ensures unsaid { IfErr result IsUnsaid }
{
    put(b"{\"format\":1,\"command\":\"run\",\"outcomes\":", out)?;
    put(opening(traces), out)
}

fn opening(traces: bool) -> &'static [u8]
    ensures { result.now ≡ (if traces then codes "[" else codes "null") }
{
    if traces { b"[" } else { b"null" }
}

/// Writes the outcome of the step of this number, from 1, which was this core's, behind a comma where others stand
/// before it.
pub fn put_outcome<O: Out>(
    alloc: Global,
    step: u64,
    core: u8,
    outcome: Outcome,
    out: &mut O,
) -> Result<(), Refusal>
    ensures wrote { OnOk result (Wrote (O.device out.old) (O.device out.new) (row_text step core outcome)) }
    ensures unsaid { IfErr result IsUnsaid }
{
    let row = OutcomeRow {
        step,
        core,
        outcome,
    };
    let text = text_of_row(alloc, row)?;
    put_row(step, text.as_bytes(), out)
}

fn text_of_row(alloc: Global, row: OutcomeRow) -> Result<String, AllocError>
    ensures { IfOk result (λ text. string_bytes text ≡ compact_text (outcome_value row.step row.core row.outcome)) }
{
    text_of(alloc, &row)
}

fn put_row<O: Out>(step: u64, text: &[u8], out: &mut O) -> Result<(), Refusal>
    ensures wrote { OnOk result (Wrote (O.device out.old) (O.device out.new) (comma_if (nat_lt 1 step) ++ text.now)) }
    ensures unsaid { IfErr result IsUnsaid }
{
    put(comma(step), out)?;
    put(text, out)
}

// What stands before the outcome of the step of this number.
fn comma(step: u64) -> &'static [u8]
    ensures { result.now ≡ comma_if (nat_lt 1 step) }
{
    if step > 1 { b"," } else { b"" }
}

/// Writes bytes.
pub fn put<O: Out>(bytes: &[u8], out: &mut O) -> Result<(), Refusal>
    ensures wrote { OnOk result (Wrote (O.device out.old) (O.device out.new) bytes.now) }
    ensures unsaid { IfErr result IsUnsaid }
{
    out.put(bytes)?;
    Ok(())
}
