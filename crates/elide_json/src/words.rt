//! Words, and members whose value may be missing: these are sent as `null`, so that each object has the same members.
//!
//! [`send_optional`] sends a member; the other calls say the word of a state or an outcome, and where there is
//! none. They send nothing.

ghost use Rattle.std.specs.Prelude.{◌≡◌, OnOk};
ghost use Rattle.std.specs.Option.{option_copied};
ghost use Rattle.elide_object.specs.Object.{SendsMember};
ghost use Rattle.elide_json.specs.Words.{number_or_null, outcome_event, outcome_name, outcome_stop};
ghost use Rattle.elide_json.specs.Words.{state_name, state_stop};

use serde::Serializer;
use tm_hist::{interference_name, stop_name};
use tm_model::{CoreState, Outcome};

/// Sends a number, or null.
pub fn send_optional<S: Serializer>(
    name: &str,
    number: Option<u32>,
    out: &mut S,
) -> Result<(), S::Error>
    ensures { OnOk result (SendsMember name.now (number_or_null number) (S.written out.old) (S.written out.new)) }
{
    out.key(name)?;
    match number {
        Some(number) => out.u64(u64::from(number)),
        None => out.unit(),
    }
}

/// What a core is doing.
pub fn name_of_state(state: CoreState) -> &'static str
    ensures { result.now ≡ state_name state }
{
    match state {
        CoreState::Running => "run",
        CoreState::Mid => "mid",
        CoreState::Open(_) => "tx",
        CoreState::Condemned(_) => "condemned",
        CoreState::Stopped(_) => "stop",
    }
}

/// Why it has stopped, where it has.
pub fn stop_of_state(state: CoreState) -> Option<&'static str>
    ensures { option_copied result ≡ state_stop state }
{
    match state {
        CoreState::Stopped(stop) => Some(stop_name(stop)),
        _ => None,
    }
}

/// What a step was.
pub fn name_of_outcome(outcome: Outcome) -> &'static str
    ensures { result.now ≡ outcome_name outcome }
{
    match outcome {
        Outcome::Plain => "plain",
        Outcome::Loaded => "loaded",
        Outcome::Stopped(_) => "stopped",
        Outcome::Idle => "idle",
        Outcome::Begun => "begun",
        Outcome::Inside => "inside",
        Outcome::Committed => "committed",
        Outcome::Aborted(_) => "aborted",
        Outcome::AbortedBy(_, _) => "aborted",
        Outcome::Drained => "drained",
    }
}

/// Why a core stopped at a step, where it did.
pub fn stop_of_outcome(outcome: Outcome) -> Option<&'static str>
    ensures { option_copied result ≡ outcome_stop outcome }
{
    match outcome {
        Outcome::Stopped(stop) => Some(stop_name(stop)),
        _ => None,
    }
}

/// What aborted a transaction from outside of the program, where a step was that.
pub fn event_of(outcome: Outcome) -> Option<&'static str>
    ensures { option_copied result ≡ outcome_event outcome }
{
    match outcome {
        Outcome::AbortedBy(interference, _) => Some(interference_name(interference)),
        _ => None,
    }
}
