//! The third pass over a run: why its steps aborted or stopped, by [`write_reasons`].
//!
//! Each step up to the last of the page is made with its line, as `elide_why` tells it, and of a step that has a
//! reason and stands in the page what follows the outcome's words is written. Steps behind it are made alone. A run
//! that has another length than in the first pass is refused.

ghost use Rattle.std.specs.Prelude.{◌≡◌, ◌≢◌, ◌+◌, ◌^◌, ◌≤◌, ◌||◌, ℕ, IfErr, IfOk, List, OnErr, OnOk, codes, is_some};
ghost use Rattle.elide_setup.specs.Refused.{IsUntold, IsUnwritten};
ghost use Rattle.text_out.specs.Writing.{Wrote};
ghost use Rattle.elide_setup.specs.Runs.{IsMachineStep};
ghost use Rattle.page_run.specs.Plain.{ArePlain};
ghost use Rattle.page_run.specs.Refused.{IsNotTold};
ghost use Rattle.elide_page.specs.Reasons.{AreReasonsOf, IsPiece, ReasonsEach, has_reason, is_told, reason_front};
ghost use Rattle.elide_page.specs.Reasons.{reason_text};
ghost use Rattle.elide_page.specs.Refused.{IsUnreasoned};

use crate::job::Job;
use elide_device::Silent;
use elide_setup::{Refusal, StepMaker, new_machine};
use elide_why::Teller;
use page_run::{Stretch, Window, put_plain};
use page_text::{REASON, write_number, write_string};
use std::alloc::{AllocError, Global};
use text_out::{Out, ToVec, WriteFault};
use tm_core::Machine;
use tm_model::{Outcome, Pick};

/// Writes why steps aborted or stopped, each by its number in the page. Gives the device back.
pub fn write_reasons<O: Out + Drop>(job: &Job<'_>, out: O) -> Result<O, Refusal>
    ensures text { IfOk result (λ last. (text : List ℕ) × AreReasonsOf job.now.stretch text
        × Wrote (O.device out) (O.device last) text) }
    ensures refused { IfErr result (IsNotTold job.now.stretch) }
{
    let subject = &job.subject;
    let loaded = subject.loaded;
    let teller = Teller::new(
        job.stretch.alloc,
        &loaded.setup.program,
        loaded.setup.limits,
        subject.path,
        loaded.places,
        true,
    )?;
    write_steps(job.stretch, teller, out)
}

// As [`write_reasons`], by what tells the reasons.
fn write_steps<T: Reasoner + Drop, O: Out + Drop>(
    stretch: Stretch<'_>,
    teller: T,
    out: O,
) -> Result<O, Refusal>
    ensures text { IfOk result (λ last. (text : List ℕ) × AreReasonsOf stretch.entry text
        × Wrote (O.device out) (O.device last) text) }
    ensures refused { IfErr result (IsNotTold stretch.entry) }
{
    let alloc = stretch.alloc;
    let machine = new_machine(alloc, stretch.setup)?;
    let cores = machine.cores();
    let out = put_front(out)?;
    let mut reasoning = Reasoning {
        alloc,
        machine,
        teller,
        window: stretch.window,
        made: 0,
        some: false,
        out,
    };
    stretch
        .course
        .walk(alloc, cores, false, &mut reasoning, &mut Silent)?;
    let Reasoning { out, made, .. } = reasoning;
    check_total(made, stretch.total)?;
    put_end(out)
}

// That so many steps were made as the run has. A schedule makes the steps again that it made as it was surveyed.
fn check_total(made: u64, total: u64) -> Result<(), Refusal>
    ensures all { OnOk result (made ≡ total) }
    ensures others { OnErr result (made ≢ total) }
    ensures refused { IfErr result IsUnwritten }
{
    if made != total {
        return Err(Refusal::from(WriteFault::Write));
    }
    Ok(())
}

// The beginning of the object.
fn put_front<O: Out + Drop>(out: O) -> Result<O, Refusal>
    ensures text { IfOk result (λ last. Wrote (O.device out) (O.device last) (codes ",\n\"why\":{")) }
    ensures refused { IfErr result IsUnwritten }
{
    let mut out = out;
    put_plain(b",\n\"why\":{", &mut out)?;
    Ok(out)
}

// The end of the object, and of the data.
fn put_end<O: Out + Drop>(out: O) -> Result<O, Refusal>
    ensures text { IfOk result (λ last. Wrote (O.device out) (O.device last) (codes "}}")) }
    ensures refused { IfErr result IsUnwritten }
{
    let mut out = out;
    put_plain(b"}}", &mut out)?;
    Ok(out)
}

/// What makes a machine's step and writes its line with its reason. A trait, since what a walk comes to is known of a
/// maker whose type names no lifetime.
trait Reasoner {
    /// Makes a step, and writes its line.
    fn reason(
        &mut self,
        machine: &mut Machine,
        pick: Pick,
        line: &mut ToVec,
    ) -> Result<Outcome, Refusal>
        ensures step { IfOk result (λ outcome. IsMachineStep machine.old pick outcome machine.new) }
        ensures refused { IfErr result (IsUnreasoned machine.old pick) };
}

impl Reasoner for Teller<'_> {
    fn reason(
        &mut self,
        machine: &mut Machine,
        pick: Pick,
        line: &mut ToVec,
    ) -> Result<Outcome, Refusal> {
        self.step(machine, pick, line)
    }
}

// A machine the reasons of whose steps are written.
#[derive(Drop)]
struct Reasoning<T, O> {
    alloc: Global,
    machine: Machine,
    teller: T,
    window: Window,
    // How many steps were made.
    made: u64,
    // Whether a reason was written.
    some: bool,
    out: O,
}

impl<T: Reasoner, O: Out> StepMaker for Reasoning<T, O> {
    ghost takes = { λ before steps after. ReasonsEach
        (record {
          machine = before.machine;
          window = before.window;
          made = before.made;
          some = before.some;
          device = O.device before.out;
        })
        steps
        (record {
          machine = after.machine;
          window = after.window;
          made = after.made;
          some = after.some;
          device = O.device after.out;
        }) };

    ghost refuses = { λ reasoning pick why. IsUnreasoned reasoning.machine pick why };

    fn make_step(&mut self, pick: Pick) -> Result<Outcome, Refusal> {
        let made = one_more(self.made)?;
        let is_past = self.made >= self.window.to;
        let step = take_step(
            self.alloc,
            is_past,
            &mut self.machine,
            &mut self.teller,
            pick,
        )?;
        let standing = Standing {
            window: self.window,
            made: self.made,
            number: made,
            some: self.some,
        };
        let some = put_step(self.alloc, standing, &step, &mut self.out)?;
        self.some = some;
        self.made = made;
        Ok(step.outcome)
    }
}

// The number of steps behind one more.
fn one_more(made: u64) -> Result<u64, Refusal>
    ensures next { IfOk result (λ next. next ≡ made + 1) }
    ensures none { OnErr result (2 ^ 64 ≤ made + 1) }
    ensures refused { IfErr result IsUnwritten }
{
    match made.checked_add(1) {
        Some(next) => Ok(next),
        None => Err(Refusal::from(WriteFault::Write)),
    }
}

// A step that was made, with its line.
#[derive(Drop)]
struct MadeStep {
    outcome: Outcome,
    line: Vec<u8>,
}

// Makes a step, with its line where it is not behind the last of the page. Its only failure beside the machine's is
// want of memory.
fn take_step<T: Reasoner>(
    alloc: Global,
    is_past: bool,
    machine: &mut Machine,
    teller: &mut T,
    pick: Pick,
) -> Result<MadeStep, Refusal>
    ensures step { IfOk result (λ step. IsMachineStep machine.old pick step.outcome machine.new) }
    ensures refused { IfErr result (IsUnreasoned machine.old pick) }
{
    let mut line = ToVec::new(Vec::new(alloc));
    if is_past {
        let outcome = machine.make_step(pick)?;
        return Ok(MadeStep {
            outcome,
            line: line.bytes,
        });
    }
    let told = teller.reason(machine, pick, &mut line);
    if line.failures > 0 {
        return Err(Refusal::from(AllocError));
    }
    let outcome = told?;
    Ok(MadeStep {
        outcome,
        line: line.bytes,
    })
}

// Where a step stands.
#[derive(Clone, Copy)]
struct Standing {
    window: Window,
    // Behind how many others.
    made: u64,
    number: u64,
    // Whether a reason was written before it.
    some: bool,
}

// Writes why a step aborted or stopped, where it did and stands in the page. Answers whether a reason was written so
// far.
fn put_step<O: Out>(
    alloc: Global,
    standing: Standing,
    step: &MadeStep,
    out: &mut O,
) -> Result<bool, Refusal>
    requires { standing.number ≡ standing.made + 1 }
    ensures piece { OnOk result (IsPiece standing.window standing.made standing.some step.now.outcome
        (O.device out.old) (O.device out.new)) }
    ensures some { IfOk result
        (λ is. is ≡ (standing.some || is_told standing.window standing.made step.now.outcome)) }
    ensures refused { IfErr result IsUntold }
{
    let Standing {
        window,
        made,
        number,
        some,
    } = standing;
    match words_told(window, made, step.outcome) {
        None => Ok(some),
        Some(words) => {
            let reason = behind_words(step.line.as_slice(), words);
            let place = number.saturating_sub(window.from);
            put_reason(alloc, some, place, reason, out)?;
            Ok(true)
        }
    }
}

// How many words stand before the reason in the line of a step behind so many others, where it stands in the page and
// has one.
fn words_told(window: Window, made: u64, outcome: Outcome) -> Option<usize>
    ensures { is_some result ≡ is_told window made outcome }
{
    if !window.holds(made) {
        return None;
    }
    words_before(outcome)
}

// Writes the reason of a step of the page, behind a comma where there was another.
fn put_reason<O: Out>(
    alloc: Global,
    some: bool,
    step: u64,
    reason: &[u8],
    out: &mut O,
) -> Result<(), Refusal>
    ensures text { OnOk result (Wrote (O.device out.old) (O.device out.new) (reason_text some step reason.now)) }
    ensures plain { OnOk result (ArePlain (reason_text some step reason.now)) }
    ensures refused { IfErr result IsUntold }
{
    let text = reason_of(alloc, some, step, reason)?;
    put_plain(text.as_slice(), out)
}

// A device in memory fails for want of it alone.
fn reason_of(alloc: Global, some: bool, step: u64, reason: &[u8]) -> Result<Vec<u8>, AllocError>
    ensures { IfOk result (λ text. text.items ≡ reason_text some step reason.now) }
{
    let mut text = ToVec::new(Vec::new(alloc));
    match write_reason(some, step, reason, &mut text) {
        Ok(()) => Ok(text.bytes),
        Err(_) => Err(AllocError),
    }
}

fn write_reason<O: Out>(some: bool, step: u64, reason: &[u8], out: &mut O) -> Result<(), WriteFault>
    ensures { OnOk result (Wrote (O.device out.old) (O.device out.new) (reason_text some step reason.now)) }
{
    out.put(before_reason(some))?;
    write_number(step, out)?;
    out.put(b"\":")?;
    write_string(reason, REASON, out)?;
    Ok(())
}

fn before_reason(some: bool) -> &'static [u8]
    ensures { result.now ≡ reason_front some }
{
    if some { b",\n\"" } else { b"\n\"" }
}

// How many words stand before the reason in the line of an outcome that has one.
fn words_before(outcome: Outcome) -> Option<usize>
    ensures { is_some result ≡ has_reason outcome }
{
    match outcome {
        Outcome::Stopped(_) => Some(2),
        Outcome::Aborted(_) | Outcome::AbortedBy(_, _) => Some(3),
        Outcome::Plain
        | Outcome::Loaded
        | Outcome::Idle
        | Outcome::Begun
        | Outcome::Inside
        | Outcome::Committed
        | Outcome::Drained => None,
    }
}

// What stands behind so many words of a line, without the line's end.
fn behind_words(line: &[u8], words: usize) -> &[u8] {
    let mut place = 0;
    let mut left = words;
    'bytes: while place < line.len() && left > 0 {
        if line[place] == b' ' {
            left -= 1;
        }
        place += 1;
    }
    without_end(&line[place..])
}

fn without_end(line: &[u8]) -> &[u8] {
    match line {
        [front @ .., b'\n'] => front,
        line => line,
    }
}
