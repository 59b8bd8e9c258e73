//! What is printed of a search for a failing run, as lines.
//!
//! [`tell_lines`] writes one line where no run failed, and else the run and its check, how long its schedule was and
//! is, the loop, the stores that are late, and the command that replays it. All of it is known before the first line:
//! what is told beside the run is made in `command` and handed in as [`Beside`]. As an object a search is `object`'s.

ghost use Rattle.std.specs.Prelude.{◌≡◌, ◌+◌, ◌≤◌, ◌++◌, OnOk};
ghost use Rattle.arrayvec.specs.ArrayVec.{array_vec_len};
ghost use Rattle.text_out.specs.Writing.{Wrote};
ghost use Rattle.elide_hunt.specs.Lines.{check_text, counts_line, counts_of, counts_text, deciding_text};
ghost use Rattle.elide_hunt.specs.Lines.{events_text, failure_text, front_text, none_line, run_front, search_text};
ghost use Rattle.elide_hunt.specs.Lines.{some_text};

use crate::cycle::put_cycle;
use crate::late::{Late, put_lates};
use crate::replay::put_line;
use arrayvec::ArrayVec;
use elide_args::HuntOptions;
use text_out::page::{push, push_decimal};
use text_out::{Failed, Out};
use tm_hunt::{Cycle, Found, Search, events, switches};
use tm_model::Pick;

/// How long a schedule is.
#[derive(Clone, Copy)]
pub struct Counts {
    /// How many steps it has.
    pub steps: usize,
    /// How often the core changes.
    pub switches: usize,
    /// How many of its steps come under an event.
    pub events: usize,
}

/// What is told of a run that failed, beside the run.
#[derive(Drop)]
pub struct Beside {
    /// How long its schedule was before it was shortened.
    pub before: Counts,
    /// The loop that it comes to, where one is found.
    pub cycle: Option<Cycle>,
    /// Its stores that are late past a load.
    pub lates: Vec<Late>,
}

/// How long this one is.
pub fn counts_of(picks: &[Pick]) -> Counts
    ensures { result ≡ counts_of picks.now }
{
    Counts {
        steps: picks.len(),
        switches: switches(picks),
        events: events(picks),
    }
}

/// A line of numbers.
pub type HuntLine = ArrayVec<u8, 320>;

/// Prints the lines of a search, with what is told beside its failure.
pub fn tell_lines<O: Out>(
    options: &HuntOptions<'_>,
    search: &Search,
    beside: &Beside,
    out: &mut O,
) -> Result<(), Failed>
    ensures { OnOk result
        (Wrote (O.device out.old) (O.device out.new) (search_text options.now beside.now search.now)) }
{
    match &search.found {
        Some(found) => tell_failure(options, found, beside, out),
        None => tell_none(search.ended, search.cut, out),
    }
}

// Tells that no run failed, how many ended and how many reached the limit.
fn tell_none<O: Out>(ended: u32, cut: u32, out: &mut O) -> Result<(), Failed>
    ensures { OnOk result (Wrote (O.device out.old) (O.device out.new) (none_line ended cut)) }
{
    let mut line = HuntLine::new();
    push_none(&mut line, ended, cut);
    out.put(line.as_slice())
}

#[tactic(auto, unfolding(crate::specs::Lines::none_line))]
fn push_none(line: &mut HuntLine, ended: u32, cut: u32)
    requires { array_vec_len line.old ≡ 0 }
    ensures { line.new.items ≡ line.old.items ++ none_line ended cut }
{
    push(line, b"no failure in ");
    push_decimal(line, u64::from(ended) + u64::from(cut));
    push(line, b" runs: ");
    push_decimal(line, u64::from(ended));
    push(line, b" ended, ");
    push_decimal(line, u64::from(cut));
    push(line, b" reached the limit\n");
}

// Tells the run that failed, what it failed, how long its schedule was and is, how much of it decides, the loop that it
// comes to, its stores that are late, and the command that replays what decides.
fn tell_failure<O: Out>(
    options: &HuntOptions<'_>,
    found: &Found,
    beside: &Beside,
    out: &mut O,
) -> Result<(), Failed>
    ensures { OnOk result
        (Wrote (O.device out.old) (O.device out.new) (failure_text options.now beside.now found.now)) }
{
    put_run(found.run, out)?;
    put_check(options, found.failure.check, out)?;
    put_counts(
        beside.before,
        counts_of(found.failure.picks.as_slice()),
        found.failure.front,
        out,
    )?;
    put_cycle(beside.cycle, found.failure.picks.as_slice(), out)?;
    put_lates(beside.lates.as_slice(), out)?;
    put_line(options, found.run, found.failure.deciding(), out)
}

fn put_run<O: Out>(run: u32, out: &mut O) -> Result<(), Failed>
    ensures { OnOk result (Wrote (O.device out.old) (O.device out.new) (run_front run)) }
{
    let mut line = HuntLine::new();
    push_run(&mut line, run);
    out.put(line.as_slice())
}

#[tactic(auto, unfolding(crate::specs::Lines::run_front))]
fn push_run(line: &mut HuntLine, run: u32)
    requires { array_vec_len line.old ≡ 0 }
    ensures { line.new.items ≡ line.old.items ++ run_front run }
{
    push(line, b"run ");
    push_decimal(line, u64::from(run));
    push(line, b" fails ");
}

// Tells how long a schedule was, how long it is, and how many of its steps decide.
fn put_counts<O: Out>(
    before: Counts,
    after: Counts,
    front: usize,
    out: &mut O,
) -> Result<(), Failed>
    ensures { OnOk result (Wrote (O.device out.old) (O.device out.new) (counts_line before after front)) }
{
    let mut line = HuntLine::new();
    push_change(&mut line, before, after, front);
    out.put(line.as_slice())
}

#[tactic(auto, unfolding(crate::specs::Lines::counts_line))]
fn push_change(line: &mut HuntLine, before: Counts, after: Counts, front: usize)
    requires { array_vec_len line.old ≡ 0 }
    ensures { line.new.items ≡ line.old.items ++ counts_line before after front }
{
    push(line, b"\n");
    push_counts(line, before);
    push(line, b"; shortened to ");
    push_counts(line, after);
    push_deciding(line, front, after.steps);
    push(line, b"\n");
}

// Adds how many of the first steps decide, where they are not all.
#[tactic(auto, unfolding(crate::specs::Lines::deciding_text))]
fn push_deciding(line: &mut HuntLine, front: usize, steps: usize)
    requires { array_vec_len line.old ≤ 240 }
    ensures text { line.new.items ≡ line.old.items ++ deciding_text front steps }
    ensures len { array_vec_len line.new ≤ array_vec_len line.old + 71 }
{
    if front < steps {
        push_front(line, front);
    }
}

// Adds how many of the first steps decide, behind which each core steps in turn.
fn push_front(line: &mut HuntLine, front: usize)
    requires { array_vec_len line.old ≤ 240 }
    ensures text { line.new.items ≡ line.old.items ++ front_text front }
    ensures len { array_vec_len line.new ≤ array_vec_len line.old + 71 }
{
    if front == 0 {
        push(line, b"; each core in turn from the start");
    } else {
        push_some(line, front as u64);
    }
}

fn push_some(line: &mut HuntLine, front: u64)
    requires { array_vec_len line.old ≤ 240 }
    ensures text { line.new.items ≡ line.old.items ++ some_text front }
    ensures len { array_vec_len line.new ≤ array_vec_len line.old + 71 }
{
    push(line, b"; its first ");
    push_decimal(line, front);
    push(line, b" decide, behind them each core in turn");
}

#[tactic(auto, unfolding(crate::specs::Lines::counts_text))]
fn push_counts(line: &mut HuntLine, counts: Counts)
    requires { array_vec_len line.old ≤ 128 }
    ensures text { line.new.items ≡ line.old.items ++ counts_text counts }
    ensures len { array_vec_len line.new ≤ array_vec_len line.old + 90 }
{
    push(line, b"steps ");
    push_decimal(line, counts.steps as u64);
    push(line, b", switches ");
    push_decimal(line, counts.switches as u64);
    push_events(line, counts.events as u64);
}

// Adds how many events there are, where there are any.
fn push_events(line: &mut HuntLine, count: u64)
    requires { array_vec_len line.old ≤ 192 }
    ensures text { line.new.items ≡ line.old.items ++ events_text count }
    ensures len { array_vec_len line.new ≤ array_vec_len line.old + 29 }
{
    if count != 0 {
        push(line, b", events ");
        push_decimal(line, count);
    }
}

// Writes the option that says the check with this index.
fn put_check<O: Out>(options: &HuntOptions<'_>, check: usize, out: &mut O) -> Result<(), Failed>
    ensures { OnOk result (Wrote (O.device out.old) (O.device out.new) (check_text options.now check)) }
{
    if let Some(text) = options.checks.get(check) {
        return put_both(b"--check ", text, out);
    }
    let behind = check.saturating_sub(options.checks.len());
    if let Some(text) = options.forbids.get(behind) {
        return put_both(b"--forbid ", text, out);
    }
    match options
        .stops
        .get(behind.saturating_sub(options.forbids.len()))
    {
        Some(text) => put_both(b"--stop ", text, out),
        None => out.put(b"--expect-halt"),
    }
}

fn put_both<O: Out>(name: &[u8], text: &str, out: &mut O) -> Result<(), Failed>
    ensures { OnOk result (Wrote (O.device out.old) (O.device out.new) (name.now ++ text.now)) }
{
    out.put(name)?;
    out.put(text.as_bytes())
}
