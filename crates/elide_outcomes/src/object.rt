//! The object that `--json` prints of a search (docs/JSON.md, "outcomes").
//!
//! [`tell_object`] is the one call. It makes the whole text and then writes it. The outcomes are in their order
//! already; the exit status in it is the search's, made here, and not that of a page. Labels are not told: values are
//! numbers.

ghost use Rattle.std.specs.Prelude.{◌≡◌, IfErr, IfOk, OnOk, Some, codes, false, string_bytes, true};
ghost use Rattle.elide_setup.specs.Refused.{IsUntold};
ghost use Rattle.elide_args.specs.Asked.{texts_of};
ghost use Rattle.elide_object.specs.Object.{SendsMember, list_value, object_text};
ghost use Rattle.serde_json.specs.Events.{SendsValue};
ghost use Rattle.elide_outcomes.specs.Object.{IsObjectWritten, cycle_value, front_members, outcome_value};
ghost use Rattle.elide_outcomes.specs.Object.{search_object, search_value, stop_value, stuck_value};
ghost use Rattle.elide_outcomes.specs.Sent.{SendsFront, object_value};

use crate::search_object::SearchObject;
use crate::sending::send_violations;
use crate::verdict::Answer;
use elide_args::OutcomesOptions;
use elide_object::{
    object_line, send_flag, send_number, send_numbers, send_schedule, send_text, send_texts,
};
use elide_program::has_store_buffer;
use elide_setup::{Fault, Refusal};
use serde::{Described, Serialize, Serializer};
use std::alloc::{AllocError, Global};
use text_out::Out;
use tm_core::RunFault;
use tm_hist::stop_name;
use tm_outcomes::{Cycle, FoundOutcome, ReachedStop, Search, Stuck};

/// Prints the object of a search whose outcomes stand in the order in which they are told, with the words of `--show`.
pub fn tell_object<O: Out>(
    alloc: Global,
    options: &OutcomesOptions<'_>,
    words: &[&str],
    search: &Search,
    out: &mut O,
) -> Result<(), Refusal>
    ensures ok { OnOk result (IsObjectWritten options.now (texts_of words.now) search.now
        (O.device out.old).contents (O.device out.new).contents) }
    ensures err { IfErr result IsUntold }
{
    let status = Answer::of(options.asks_stuck, search).status();
    match line_of(alloc, options, words, status, search) {
        Ok(line) => {
            out.put(line.as_bytes())?;
            Ok(())
        }
        Err(_) => Err(Refusal::Fault(Fault::Run(RunFault::NoMemory))),
    }
}

fn line_of(
    alloc: Global,
    options: &OutcomesOptions<'_>,
    show: &[&str],
    status: u64,
    search: &Search,
) -> Result<String, AllocError>
    ensures { IfOk result (λ line. string_bytes line ≡ object_text (search_value options.now (texts_of show.now)
        status search.now)) }
{
    object_line(
        alloc,
        &SearchObject {
            options,
            show,
            status,
            has_stores: has_store_buffer(&options.machine),
            search,
        },
    )
}

impl Described for SearchObject<'_, '_> {
    ghost writes = { λ o. SendsValue (object_value o) };
}

impl Serialize for SearchObject<'_, '_> {
    fn serialize<S: Serializer>(&self, out: &mut S) -> Result<(), S::Error> {
        if self.has_stores {
            send_with_room(self, out)
        } else {
            send_parts(self, out)
        }
    }
}

// Where no store may be pending.
fn send_parts<S: Serializer>(object: &SearchObject<'_, '_>, out: &mut S) -> Result<(), S::Error>
    ensures { OnOk result (SendsValue (search_object object.now.options.now (texts_of object.now.show.now)
        object.now.status false object.now.search.now) (S.written out.old) (S.written out.new)) }
{
    out.begin_map(Some(11))?;
    send_front(object, out)?;
    send_number("status", object.status, out)?;
    out.end_map()
}

// Where some may, with whether a step waited for room among them.
fn send_with_room<S: Serializer>(object: &SearchObject<'_, '_>, out: &mut S) -> Result<(), S::Error>
    ensures { OnOk result (SendsValue (search_object object.now.options.now (texts_of object.now.show.now)
        object.now.status true object.now.search.now) (S.written out.old) (S.written out.new)) }
{
    out.begin_map(Some(12))?;
    send_front(object, out)?;
    send_flag("waited", object.search.waited, out)?;
    send_number("status", object.status, out)?;
    out.end_map()
}

// What is told of each search.
fn send_front<S: Serializer>(object: &SearchObject<'_, '_>, out: &mut S) -> Result<(), S::Error>
    ensures { OnOk result (SendsFront (front_members object.now.options.now (texts_of object.now.show.now)
        object.now.search.now) (S.written out.old) (S.written out.new)) }
{
    let search = object.search;
    send_number("format", 1, out)?;
    send_text("command", "outcomes", out)?;
    send_texts("show", object.show, out)?;
    send_outcomes(search.outcomes.as_slice(), out)?;
    send_violations(object.options, search.violations.as_slice(), out)?;
    send_stops(search.stops.as_slice(), out)?;
    send_stuck(&search.stuck, out)?;
    send_cycle(&search.cycle, out)?;
    send_number("states", u64::from(search.states), out)?;
    send_flag("whole", !search.is_cut, out)
}

fn send_outcomes<S: Serializer>(outcomes: &[FoundOutcome], out: &mut S) -> Result<(), S::Error>
    ensures { OnOk result (SendsMember (codes "outcomes") (list_value outcome_value outcomes.now)
        (S.written out.old) (S.written out.new)) }
{
    out.key("outcomes")?;
    send_list(outcomes, out)
}

fn send_list<S: Serializer>(outcomes: &[FoundOutcome], out: &mut S) -> Result<(), S::Error>
    ensures { OnOk result (SendsValue (list_value outcome_value outcomes.now) (S.written out.old) (S.written out.new)) }
{
    out.begin_seq(Some(outcomes.len()))?;
    for told in outcomes {
        send_outcome(told, out)?;
    }
    out.end_seq()
}

fn send_outcome<S: Serializer>(told: &FoundOutcome, out: &mut S) -> Result<(), S::Error>
    ensures { OnOk result (SendsValue (outcome_value told.now) (S.written out.old) (S.written out.new)) }
{
    out.begin_map(Some(3))?;
    send_numbers("values", told.values.as_slice(), out)?;
    send_number("ends", u64::from(told.ends), out)?;
    send_schedule("schedule", told.schedule.as_slice(), out)?;
    out.end_map()
}

fn send_stops<S: Serializer>(stops: &[ReachedStop], out: &mut S) -> Result<(), S::Error>
    ensures { OnOk result (SendsMember (codes "stops") (list_value stop_value stops.now)
        (S.written out.old) (S.written out.new)) }
{
    out.key("stops")?;
    send_stop_list(stops, out)
}

fn send_stop_list<S: Serializer>(stops: &[ReachedStop], out: &mut S) -> Result<(), S::Error>
    ensures { OnOk result (SendsValue (list_value stop_value stops.now) (S.written out.old) (S.written out.new)) }
{
    out.begin_seq(Some(stops.len()))?;
    for told in stops {
        send_stop(told, out)?;
    }
    out.end_seq()
}

fn send_stop<S: Serializer>(told: &ReachedStop, out: &mut S) -> Result<(), S::Error>
    ensures { OnOk result (SendsValue (stop_value told.now) (S.written out.old) (S.written out.new)) }
{
    out.begin_map(Some(2))?;
    send_text("cause", stop_name(told.why), out)?;
    send_schedule("schedule", told.schedule.as_slice(), out)?;
    out.end_map()
}

fn send_stuck<S: Serializer>(stuck: &Option<Stuck>, out: &mut S) -> Result<(), S::Error>
    ensures { OnOk result
        (SendsMember (codes "stuck") (stuck_value stuck.now) (S.written out.old) (S.written out.new)) }
{
    out.key("stuck")?;
    match stuck {
        Some(stuck) => send_stuck_states(stuck, out),
        None => out.unit(),
    }
}

fn send_stuck_states<S: Serializer>(stuck: &Stuck, out: &mut S) -> Result<(), S::Error>
    ensures { OnOk result (SendsValue (stuck_value (Some stuck.now)) (S.written out.old) (S.written out.new)) }
{
    out.begin_map(Some(2))?;
    send_number("states", u64::from(stuck.states), out)?;
    send_schedule("schedule", stuck.schedule.as_slice(), out)?;
    out.end_map()
}

fn send_cycle<S: Serializer>(cycle: &Option<Cycle>, out: &mut S) -> Result<(), S::Error>
    ensures { OnOk result
        (SendsMember (codes "cycle") (cycle_value cycle.now) (S.written out.old) (S.written out.new)) }
{
    out.key("cycle")?;
    match cycle {
        Some(cycle) => send_cycle_states(cycle, out),
        None => out.unit(),
    }
}

fn send_cycle_states<S: Serializer>(cycle: &Cycle, out: &mut S) -> Result<(), S::Error>
    ensures { OnOk result (SendsValue (cycle_value (Some cycle.now)) (S.written out.old) (S.written out.new)) }
{
    out.begin_map(Some(3))?;
    send_number("states", u64::from(cycle.states), out)?;
    send_schedule("schedule", cycle.schedule.as_slice(), out)?;
    send_schedule("steps", cycle.steps.as_slice(), out)?;
    out.end_map()
}
