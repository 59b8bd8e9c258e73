//! A search as an object, which sends itself to a writer: the shape, and its members in their order.
//!
//! The command that replays the run is a text already, made by `object`, since it can want memory. A check is sent as
//! the option that says it, by its place among `--check`, `--forbid`, `--stop`, `--expect-halt`. The exit status in it
//! is the search's: a page that cannot be written is told later.

ghost use Rattle.std.specs.Prelude.{◌≡◌, OnOk, codes, if◌then◌else◌};
ghost use Rattle.std.specs.Option.{option_copied};
ghost use Rattle.elide_object.specs.Object.{SendsMember, list_value, text_or_null};
ghost use Rattle.elide_program.specs.Settings.{has_store_buffer};
ghost use Rattle.serde_json.specs.Data.{member, no_members, string};
ghost use Rattle.serde_json.specs.Events.{SendsMembers, SendsValue};
ghost use Rattle.elide_hunt.specs.Object.{check_value, counts_value, cycle_value, late_value, loop_value, option_value};
ghost use Rattle.elide_hunt.specs.Object.{runs_value, search_status, told_cycle};
ghost use Rattle.tm_hunt.specs.Cycle.{loop_of};
ghost use Rattle.elide_hunt.specs.Sent.{failure_of, members_behind, object_value, sent_failure};

use crate::cycle::MOST_TOLD;
use crate::late::Late;
use crate::report::{Beside, Counts, counts_of};
use elide_args::HuntOptions;
use elide_object::{send_number, send_schedule, send_text, send_text_or_null};
use elide_program::has_store_buffer;
use serde::{Described, Serialize, Serializer};
use tm_hunt::{Cycle, Found};
use tm_model::Pick;

/// What a search came to.
#[derive(Clone, Copy)]
pub struct HuntObject<'a, 'o> {
    /// In how many of the runs that passed each core stopped.
    pub ended: u32,
    /// How many of them reached the limit on steps.
    pub cut: u32,
    /// The run that failed, if any.
    pub failure: Option<FailureObject<'a, 'o>>,
}

/// A run that failed.
#[derive(Clone, Copy)]
pub struct FailureObject<'a, 'o> {
    /// The options, which say its check.
    pub options: &'a HuntOptions<'o>,
    /// The run, with its shortened schedule and how much of it decides.
    pub found: &'a Found,
    /// What is told beside it.
    pub beside: &'a Beside,
    /// The command that replays what decides of it, or makes the run again.
    pub replay: &'a str,
}

impl Described for HuntObject<'_, '_> {
    ghost writes = { λ o. SendsValue (object_value o) };
}

impl Serialize for HuntObject<'_, '_> {
    fn serialize<S: Serializer>(&self, out: &mut S) -> Result<(), S::Error> {
        out.begin_map(Some(5))?;
        send_number("format", 1, out)?;
        send_text("command", "hunt", out)?;
        send_runs(self.ended, self.cut, out)?;
        send_failure(&self.failure, out)?;
        send_number("status", self.status(), out)?;
        out.end_map()
    }
}

impl HuntObject<'_, '_> {
    // The exit status.
    fn status(&self) -> u64
        ensures { result ≡ search_status self.now.failure }
    {
        match self.failure {
            Some(_) => 3,
            None => 0,
        }
    }
}

fn send_runs<S: Serializer>(ended: u32, cut: u32, out: &mut S) -> Result<(), S::Error>
    ensures { OnOk result (SendsMember (codes "runs") (runs_value ended cut) (S.written out.old) (S.written out.new)) }
{
    out.key("runs")?;
    out.begin_map(Some(2))?;
    send_number("ended", u64::from(ended), out)?;
    send_number("cut", u64::from(cut), out)?;
    out.end_map()
}

fn send_failure<S: Serializer>(
    failure: &Option<FailureObject<'_, '_>>,
    out: &mut S,
) -> Result<(), S::Error>
    ensures { OnOk result
        (SendsMember (codes "failure") (failure_of failure.now) (S.written out.old) (S.written out.new)) }
{
    out.key("failure")?;
    match failure {
        Some(failure) => failure.send(out),
        None => out.unit(),
    }
}

impl FailureObject<'_, '_> {
    fn send<S: Serializer>(&self, out: &mut S) -> Result<(), S::Error>
        ensures { OnOk result (SendsValue (sent_failure self.now) (S.written out.old) (S.written out.new)) }
    {
        let failure = &self.found.failure;
        out.begin_map(Some(self.members()))?;
        send_number("run", u64::from(self.found.run), out)?;
        send_check(self.options, failure.check, out)?;
        send_counts("before", self.beside.before, out)?;
        send_counts("after", counts_of(failure.picks.as_slice()), out)?;
        send_number("deciding", failure.front as u64, out)?;
        send_schedule("schedule", failure.deciding(), out)?;
        send_cycle(self.beside.cycle, failure.picks.as_slice(), out)?;
        self.send_rest(out)
    }

    // How many members it has.
    fn members(&self) -> usize
        ensures { result ≡ (if has_store_buffer self.now.options.now.machine then 9 else 8) }
    {
        if has_store_buffer(&self.options.machine) {
            9
        } else {
            8
        }
    }

    // Sends the stores that are late, where stores may be pending, and the command.
    fn send_rest<S: Serializer>(&self, out: &mut S) -> Result<(), S::Error>
        ensures { OnOk result (SendsMembers (members_behind self.now) (S.written out.old) (S.written out.new)) }
    {
        if has_store_buffer(&self.options.machine) {
            send_lates(self.beside.lates.as_slice(), out)?;
            self.send_replay(out)
        } else {
            self.send_replay(out)
        }
    }

    // Sends the command, which is the last member.
    fn send_replay<S: Serializer>(&self, out: &mut S) -> Result<(), S::Error>
        ensures { OnOk result (SendsMembers (member (codes "replay") (string self.now.replay.now) no_members)
            (S.written out.old) (S.written out.new)) }
    {
        send_text("replay", self.replay, out)?;
        out.end_map()
    }
}

// Sends the stores that are late.
fn send_lates<S: Serializer>(lates: &[Late], out: &mut S) -> Result<(), S::Error>
    ensures { OnOk result (SendsMember (codes "delayed") (list_value late_value lates.now) (S.written out.old)
        (S.written out.new)) }
{
    out.key("delayed")?;
    send_each(lates, out)
}

fn send_each<S: Serializer>(lates: &[Late], out: &mut S) -> Result<(), S::Error>
    ensures { OnOk result (SendsValue (list_value late_value lates.now) (S.written out.old) (S.written out.new)) }
{
    out.begin_seq(Some(lates.len()))?;
    for late in lates {
        send_late(late, out)?;
    }
    out.end_seq()
}

fn send_late<S: Serializer>(late: &Late, out: &mut S) -> Result<(), S::Error>
    ensures { OnOk result (SendsValue (late_value late.now) (S.written out.old) (S.written out.new)) }
{
    out.begin_map(Some(5))?;
    send_number("core", u64::from(late.core), out)?;
    send_number("stored", late.stored, out)?;
    send_number("store", u64::from(late.store_eip), out)?;
    send_number("loaded", late.loaded, out)?;
    send_number("load", u64::from(late.load_eip), out)?;
    out.end_map()
}

// Sends the option that says the check with this index.
fn send_check<S: Serializer>(
    options: &HuntOptions<'_>,
    check: usize,
    out: &mut S,
) -> Result<(), S::Error>
    ensures { OnOk result
        (SendsMember (codes "check") (check_value options.now check) (S.written out.old) (S.written out.new)) }
{
    out.key("check")?;
    if let Some(text) = options.checks.get(check) {
        return send_option("--check", Some(*text), out);
    }
    let behind = check.saturating_sub(options.checks.len());
    if let Some(text) = options.forbids.get(behind) {
        return send_option("--forbid", Some(*text), out);
    }
    match options
        .stops
        .get(behind.saturating_sub(options.forbids.len()))
    {
        Some(text) => send_option("--stop", Some(*text), out),
        None => send_option("--expect-halt", None, out),
    }
}

fn send_option<S: Serializer>(name: &str, text: Option<&str>, out: &mut S) -> Result<(), S::Error>
    ensures { OnOk result
        (SendsValue (option_value name.now (text_or_null (option_copied text.entry))) (S.written out.old)
        (S.written out.new)) }
{
    out.begin_map(Some(2))?;
    send_text("option", name, out)?;
    send_text_or_null("text", text, out)?;
    out.end_map()
}

fn send_counts<S: Serializer>(name: &str, counts: Counts, out: &mut S) -> Result<(), S::Error>
    ensures { OnOk result (SendsMember name.now (counts_value counts) (S.written out.old) (S.written out.new)) }
{
    out.key(name)?;
    out.begin_map(Some(3))?;
    send_number("steps", counts.steps as u64, out)?;
    send_number("switches", counts.switches as u64, out)?;
    send_number("events", counts.events as u64, out)?;
    out.end_map()
}

// Sends the loop that a run of these steps comes to, if any.
fn send_cycle<S: Serializer>(
    cycle: Option<Cycle>,
    picks: &[Pick],
    out: &mut S,
) -> Result<(), S::Error>
    ensures { OnOk result
        (SendsMember (codes "cycle") (cycle_value picks.now cycle) (S.written out.old) (S.written out.new)) }
{
    out.key("cycle")?;
    match cycle {
        Some(cycle) => send_told(cycle, picks, out),
        None => out.unit(),
    }
}

// Sends a loop of a run of these steps.
fn send_told<S: Serializer>(cycle: Cycle, picks: &[Pick], out: &mut S) -> Result<(), S::Error>
    ensures { OnOk result
        (SendsValue (told_cycle cycle (loop_of picks.now cycle)) (S.written out.old) (S.written out.new)) }
{
    out.begin_map(Some(3))?;
    send_number("start", cycle.start as u64, out)?;
    send_number("steps", cycle.steps as u64, out)?;
    send_loop(cycle.steps_of(picks), out)?;
    out.end_map()
}

// Sends the steps, where they are few.
fn send_loop<S: Serializer>(steps: &[Pick], out: &mut S) -> Result<(), S::Error>
    ensures { OnOk result
        (SendsMember (codes "schedule") (loop_value steps.now) (S.written out.old) (S.written out.new)) }
{
    if steps.len() > MOST_TOLD {
        out.key("schedule")?;
        return out.unit();
    }
    send_schedule("schedule", steps, out)
}
