//! Checks that ends violate, as they are sent in an object, each with a schedule to such an end.
//!
//! [`send_violations`] finds the option of a check by its place: those of `--check` come first, then those of
//! `--forbid`. The same as lines is `violated`'s.

ghost use Rattle.std.specs.Prelude.{OnOk, codes, slice_get};
ghost use Rattle.std.specs.Option.{option_copied};
ghost use Rattle.elide_object.specs.Object.{SendsMember, list_value, text_or_null};
ghost use Rattle.serde_json.specs.Events.{SendsValue};
ghost use Rattle.elide_outcomes.specs.Object.{forbid_value, option_value, violation_value};

use elide_args::OutcomesOptions;
use elide_object::{send_schedule, send_text, send_text_or_null};
use serde::Serializer;
use tm_model::Pick;
use tm_outcomes::Violation;

/// Sends the checks that ends violate.
pub fn send_violations<S: Serializer>(
    options: &OutcomesOptions<'_>,
    violations: &[Violation],
    out: &mut S,
) -> Result<(), S::Error>
    ensures { OnOk result (SendsMember (codes "violations") (list_value (violation_value options.now) violations.now)
        (S.written out.old) (S.written out.new)) }
{
    out.key("violations")?;
    send_list(options, violations, out)
}

fn send_list<S: Serializer>(
    options: &OutcomesOptions<'_>,
    violations: &[Violation],
    out: &mut S,
) -> Result<(), S::Error>
    ensures { OnOk result (SendsValue (list_value (violation_value options.now) violations.now)
        (S.written out.old) (S.written out.new)) }
{
    out.begin_seq(Some(violations.len()))?;
    for told in violations {
        send_violation(options, told, out)?;
    }
    out.end_seq()
}

fn send_violation<S: Serializer>(
    options: &OutcomesOptions<'_>,
    told: &Violation,
    out: &mut S,
) -> Result<(), S::Error>
    ensures { OnOk result (SendsValue (violation_value options.now told.now) (S.written out.old) (S.written out.new)) }
{
    let picks = told.schedule.as_slice();
    let behind = told.check.saturating_sub(options.checks.len());
    match options.checks.get(told.check) {
        Some(text) => send_option("--check", Some(*text), picks, out),
        None => send_forbidden(options, behind, picks, out),
    }
}

// Sends the check of `--forbid` with this index, and the steps to its end.
fn send_forbidden<S: Serializer>(
    options: &OutcomesOptions<'_>,
    index: usize,
    picks: &[Pick],
    out: &mut S,
) -> Result<(), S::Error>
    ensures { OnOk result (SendsValue (forbid_value (slice_get options.now.forbids.items index) picks.now)
        (S.written out.old) (S.written out.new)) }
{
    match options.forbids.get(index) {
        Some(text) => send_option("--forbid", Some(*text), picks, out),
        None => send_option("--forbid", None, picks, out),
    }
}

fn send_option<S: Serializer>(
    name: &str,
    text: Option<&str>,
    picks: &[Pick],
    out: &mut S,
) -> Result<(), S::Error>
    ensures { OnOk result (SendsValue (option_value name.now (text_or_null (option_copied text.entry)) picks.now)
        (S.written out.old) (S.written out.new)) }
{
    out.begin_map(Some(3))?;
    send_text("option", name, out)?;
    send_text_or_null("text", text, out)?;
    send_schedule("schedule", picks, out)?;
    out.end_map()
}
