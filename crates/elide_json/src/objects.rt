//! The objects of commands, and the end of a run's.
//!
//! [`put_replay`], [`put_threads`] and [`put_back`] each make the rows of memory, then the whole text, and write it
//! last, so that want of memory leaves no half of it. The last one writes what stands behind the outcomes, for which
//! the brace in front is left away: the front and the outcomes are `outcomes`'.

ghost use Rattle.std.specs.Prelude.{◌≡◌, ◌≤◌, IfErr, IfOk, OnOk, codes, drop, if◌then◌else◌, length, string_bytes};
ghost use Rattle.std.specs.Option.{option_copied};
ghost use Rattle.text_out.specs.Writing.{Wrote};
ghost use Rattle.elide_object.specs.Object.{SendsMember, object_text};
ghost use Rattle.serde_json.specs.Events.{SendsValue};
ghost use Rattle.elide_json.specs.Objects.{replay_value, run_members, running_value, threads_value};
ghost use Rattle.elide_json.specs.Outcomes.{run_back};
ghost use Rattle.elide_json.specs.Refused.{IsUnsaid, IsUnsent};
ghost use Rattle.elide_setup.specs.Faults.{want};
ghost use Rattle.elide_json.specs.Shown.{sent_members, sent_replay, sent_run, sent_threads};
ghost use Rattle.elide_json.specs.Sent.{SendsFront};

use crate::cores::send_cores;
use crate::memory::{DumpRow, Rows, ShowRow, send_dumps, send_shows};
use crate::outcomes::put;
use elide_object::{
    object_line, send_flag, send_number, send_numbers, send_text, send_text_or_null,
};
use elide_program::MemoryParts;
use elide_setup::Refusal;
use serde::{Described, Serialize, Serializer};
use std::alloc::Global;
use text_out::Out;
use tm_core::Machine;

/// What an object tells: a machine, and what is asked for of its memory.
#[derive(Clone, Copy)]
pub struct Subject<'a> {
    /// The machine.
    pub machine: &'a Machine,
    /// The parts and the doublewords that are asked for.
    pub parts: &'a MemoryParts,
    /// The texts that asked for the doublewords.
    pub texts: &'a [&'a str],
}

// A machine, and the rows of its memory.
#[derive(Clone, Copy)]
struct Shown<'a> {
    machine: &'a Machine,
    dumps: &'a [DumpRow],
    shows: &'a [ShowRow],
}

impl Shown<'_> {
    fn send<S: Serializer>(&self, out: &mut S) -> Result<(), S::Error>
        ensures { OnOk result (SendsFront (sent_members self.now) (S.written out.old) (S.written out.new)) }
    {
        send_cores(self.machine, out)?;
        send_dumps(self.dumps, out)?;
        send_shows(self.shows, out)
    }
}

// What stands behind the outcomes of a run.
#[derive(Clone, Copy)]
struct RunEnd<'a> {
    shown: Shown<'a>,
    // The cores that have not stopped, where it is expected that all do.
    running: Option<&'a [u32]>,
    status: u8,
}

impl Described for RunEnd<'_> {
    ghost writes = { λ o. SendsValue (sent_run o) };
}

impl Serialize for RunEnd<'_> {
    fn serialize<S: Serializer>(&self, out: &mut S) -> Result<(), S::Error> {
        out.begin_map(Some(5))?;
        self.shown.send(out)?;
        send_running(self.running, out)?;
        send_number("status", u64::from(self.status), out)?;
        out.end_map()
    }
}

fn send_running<S: Serializer>(running: Option<&[u32]>, out: &mut S) -> Result<(), S::Error>
    ensures { OnOk result
        (SendsMember (codes "running") (running_value (option_copied running.entry)) (S.written out.old)
        (S.written out.new)) }
{
    match running {
        Some(cores) => send_numbers("running", cores, out),
        None => send_text_or_null("running", None, out),
    }
}

// A machine that was run again.
#[derive(Clone, Copy)]
struct ReplayObject<'a> {
    shown: Shown<'a>,
    agrees: bool,
    status: u8,
}

impl Described for ReplayObject<'_> {
    ghost writes = { λ o. SendsValue (sent_replay o) };
}

impl Serialize for ReplayObject<'_> {
    fn serialize<S: Serializer>(&self, out: &mut S) -> Result<(), S::Error> {
        out.begin_map(Some(7))?;
        send_number("format", 1, out)?;
        send_text("command", "replay", out)?;
        self.shown.send(out)?;
        send_flag("agree", self.agrees, out)?;
        send_number("status", u64::from(self.status), out)?;
        out.end_map()
    }
}

// A machine that threads ran.
#[derive(Clone, Copy)]
struct ThreadsObject<'a> {
    shown: Shown<'a>,
}

impl Described for ThreadsObject<'_> {
    ghost writes = { λ o. SendsValue (sent_threads o) };
}

impl Serialize for ThreadsObject<'_> {
    fn serialize<S: Serializer>(&self, out: &mut S) -> Result<(), S::Error> {
        out.begin_map(Some(6))?;
        send_number("format", 1, out)?;
        send_text("command", "threads", out)?;
        self.shown.send(out)?;
        send_number("status", 0, out)?;
        out.end_map()
    }
}

fn shown_of<'a>(machine: &'a Machine, rows: &'a Rows) -> Shown<'a>
    ensures machine { result.machine.now ≡ machine.now }
    ensures dumps { result.dumps.now ≡ rows.now.dumps.items }
    ensures shows { result.shows.now ≡ rows.now.shows.items }
{
    Shown {
        machine,
        dumps: rows.dumps.as_slice(),
        shows: rows.shows.as_slice(),
    }
}

/// Writes the object of a machine that was run again, and the exit status of whether both runs ended alike.
pub fn put_replay<O: Out>(
    alloc: Global,
    subject: Subject<'_>,
    agrees: bool,
    status: u8,
    out: &mut O,
) -> Result<(), Refusal>
    ensures unsent { IfErr result (IsUnsent subject.entry.machine.now.memory subject.entry.parts.now) }
    ensures wrote { OnOk result (Wrote (O.device out.old) (O.device out.new)
        (object_text (replay_value subject.entry.machine.now subject.entry.parts.now subject.entry.texts.now
        agrees status))) }
{
    let machine = subject.machine;
    let rows = Rows::of_memory(alloc, machine.view(), subject.parts, subject.texts)?;
    let shown = shown_of(machine, &rows);
    let line = line_of_replay(
        alloc,
        ReplayObject {
            shown,
            agrees,
            status,
        },
    )?;
    put(line.as_bytes(), out)
}

/// Writes the object of a machine that threads ran.
pub fn put_threads<O: Out>(
    alloc: Global,
    machine: &Machine,
    parts: &MemoryParts,
    texts: &[&str],
    out: &mut O,
) -> Result<(), Refusal>
    ensures unsent { IfErr result (IsUnsent machine.now.memory parts.now) }
    ensures wrote { OnOk result (Wrote (O.device out.old) (O.device out.new)
        (object_text (threads_value machine.now parts.now texts.now))) }
{
    let rows = Rows::of_memory(alloc, machine.view(), parts, texts)?;
    let shown = shown_of(machine, &rows);
    let line = line_of_threads(alloc, ThreadsObject { shown })?;
    put(line.as_bytes(), out)
}

/// Writes what stands behind the outcomes of a run, which were a list where they are asked for: the machine, the cores
/// that have not stopped, where it is expected that all do, and the exit status.
pub fn put_back<O: Out>(
    alloc: Global,
    subject: Subject<'_>,
    traces: bool,
    running: Option<&[u32]>,
    status: u8,
    out: &mut O,
) -> Result<(), Refusal>
    ensures unsent { IfErr result (IsUnsent subject.entry.machine.now.memory subject.entry.parts.now) }
    ensures wrote { OnOk result (Wrote (O.device out.old) (O.device out.new)
        (run_back traces (run_members subject.entry.machine.now subject.entry.parts.now subject.entry.texts.now
        (option_copied running.entry) status))) }
{
    let machine = subject.machine;
    let rows = Rows::of_memory(alloc, machine.view(), subject.parts, subject.texts)?;
    let shown = shown_of(machine, &rows);
    let line = line_of_run(
        alloc,
        RunEnd {
            shown,
            running,
            status,
        },
    )?;
    put(closing(traces), out)?;
    put_others(line.as_bytes(), out)
}

fn closing(traces: bool) -> &'static [u8]
    ensures { result.now ≡ (if traces then codes "]," else codes ",") }
{
    if traces { b"]," } else { b"," }
}

// Writes the bytes behind the first.
fn put_others<O: Out>(line: &[u8], out: &mut O) -> Result<(), Refusal>
    requires { 1 ≤ length line.now }
    ensures wrote { OnOk result (Wrote (O.device out.old) (O.device out.new) (drop 1 line.now)) }
    ensures unsaid { IfErr result IsUnsaid }
{
    put(&line[1..], out)
}

fn line_of_replay(alloc: Global, object: ReplayObject<'_>) -> Result<String, Refusal>
    ensures text { IfOk result (λ line. string_bytes line ≡ object_text (sent_replay object.entry)) }
    ensures want { IfErr result (λ why. why ≡ want) }
{
    Ok(object_line(alloc, &object)?)
}

fn line_of_threads(alloc: Global, object: ThreadsObject<'_>) -> Result<String, Refusal>
    ensures text { IfOk result (λ line. string_bytes line ≡ object_text (sent_threads object.entry)) }
    ensures want { IfErr result (λ why. why ≡ want) }
{
    Ok(object_line(alloc, &object)?)
}

fn line_of_run(alloc: Global, object: RunEnd<'_>) -> Result<String, Refusal>
    ensures text { IfOk result (λ line. string_bytes line ≡ object_text (sent_run object.entry)) }
    ensures want { IfErr result (λ why. why ≡ want) }
{
    Ok(object_line(alloc, &object)?)
}
