//! Runs over a schedule, listed or drawn: [`Course::walk`] and [`Course::walk_recorded`], by whatever [`StepMaker`]
//! makes the steps.
//!
//! A list goes by portions, in which steps of one core side by side are made at once; steps that are drawn go one by
//! one, as the next pick waits for the outcome of the last. A list is recorded before its first step, a draw while it
//! is made. What a step prints is its maker's own; that all cores of a list exist is asked by [`Course::check_cores`]
//! before the machine moves, or else by the step.

ghost use Rattle.std.specs.Prelude.{◌≡◌, ◌≤◌, ◌++◌, ◌∷◌, [], if◌then◌else◌, length, replicate, take, true};
ghost use Rattle.std.specs.Prelude.{◌<◌, ◌⊎◌, ℕ, ⊤, All, Err, IfErr, IfOk, IsErr, List, None, Ok, OnOk, Some};
ghost use Rattle.std.specs.Prelude.{is_some, not};
ghost use Rattle.tm_core.specs.declared.fault.RunFault.TheVariants as run;
ghost use Rattle.tm_hist.specs.declared.board.StepFault.{StepFault};
ghost use Rattle.tm_model.specs.declared.outcome.Outcome.{Outcome};
ghost use Rattle.tm_model.specs.declared.outcome.Pick.{Pick};
ghost use Rattle.elide_setup.specs.Drawing.{ComeAs};
ghost use Rattle.elide_setup.specs.Recorded.{IsRecorded};
ghost use Rattle.elide_setup.specs.Refused.{IsNextDrawn, IsNextOf, IsNoCore, IsNoStep, IsNoWalk};
ghost use Rattle.elide_setup.specs.Refused.{IsStepRefused, IsUnrecorded, NamesNoCore};
ghost use Rattle.elide_setup.specs.Rounds.{AreGoing, IsDrawnOut, IsOut, is_stop};
ghost use Rattle.elide_setup.specs.declared.fault.Fault.TheVariants as fault;
ghost use Rattle.elide_setup.specs.declared.fault.Refusal.{Refusal};
ghost use Rattle.elide_setup.specs.declared.fault.Refusal.TheVariants as refusal;
ghost use Rattle.elide_setup.specs.Runs.{AreBoardSteps, AreMachineSteps};
ghost use Rattle.elide_setup.specs.Schedules.{AreOf, kept_of, listed_in, lone_pick, most_of, picks_made, picks_told};
ghost use Rattle.elide_setup.specs.Schedules.{schedule_made};
ghost use Rattle.tm_hist.specs.Board.{IsOwedNext, SameBoard};
ghost use Rattle.elide_setup.specs.Walks.{Leads};

use crate::fault::{Fault, Refusal};
use crate::keeper::{Keeper, Unkept};
use crate::picking::{DrainedPicker, PickSource};
use crate::plan::{Course, Drawn};
use crate::recorded::{record, record_drawn};
use crate::recording::walk_written;
use crate::side_by_side::{is_lone, lone_chunks};
use elide_device::Progress;
use elide_program::Paths;
use std::alloc::Global;
use tm_core::{Machine, NoSuchCore, RunFault};
use tm_hist::{Board, StepFault};
use tm_model::{Outcome, Pick};
use tm_pick::Going;

/// After how many steps it is told how far a run is.
pub const PORTION: usize = 65536;

/// How many steps of one core side by side are made as a run: fewer cost less one by one.
const SHORTEST: usize = 3;

/// What makes the steps of a run.
pub trait StepMaker {
    // What steps do, each a pick with its outcome.
    ghost takes: { Self → List (Pick × Outcome) → Self → Type 0 };

    // Why a step of a pick may be refused.
    ghost refuses: { Self → Pick → Refusal → Type 0 } = { λ _ _ _. ⊤ };

    /// Makes one step of a pick's core, under its event where it has one.
    fn make_step(&mut self, pick: Pick) -> Result<Outcome, Refusal>
        ensures made { IfOk result (λ outcome. takes self.old ((pick, outcome) ∷ []) self.new) }
        ensures refused { IfErr result (refuses self.old pick) };

    /// Makes steps of a core side by side, under no event: one at least, and at most so many, 1 or more. Answers how
    /// many.
    fn make_run(&mut self, core: u8, most: u32) -> Result<u32, Refusal>
        requires { 1 ≤ most }
        ensures steps { IfOk result (λ count. (steps : List (Pick × Outcome))
            × (picks_made steps ≡ replicate count (lone_pick core)) × takes self.old steps self.new) }
        ensures some { IfOk result (λ count. 1 ≤ count) }
        ensures most { IfOk result (λ count. count ≤ most) }
        ensures refused { IfErr result (refuses self.old (lone_pick core)) }
    {
        self.make_step(Pick { core, event: None })?;
        Ok(1)
    }
}

impl StepMaker for Machine {
    ghost takes = { AreMachineSteps };

    ghost refuses = { IsNoCore };

    // Inlined, so that a walk that drops the outcome pays nothing for it.
    #[inline(always)]
    fn make_step(&mut self, pick: Pick) -> Result<Outcome, Refusal> {
        match pick.event {
            None => told(self.step(pick.core)),
            Some(event) => told(self.step_under(pick.core, event)),
        }
    }

    // One call, in which a step costs a third of what it costs by itself. Where stores may be pending, one step: of
    // those of that call it is not told which were drains that came by themselves.
    fn make_run(&mut self, core: u8, most: u32) -> Result<u32, Refusal> {
        if self.stores() == 0 {
            self.nothing_pending();
            return told(self.steps_alone(core, most));
        }
        self.make_step(Pick { core, event: None })?;
        Ok(1)
    }
}

impl StepMaker for Board {
    ghost takes = { AreBoardSteps };

    ghost refuses = { IsNoStep };

    #[inline(always)]
    fn make_step(&mut self, pick: Pick) -> Result<Outcome, Refusal> {
        // By this it is known, before the step and behind it, that the machine is the run of the history.
        self.is_run();
        let outcome = board_step(self, pick)?;
        self.is_run();
        Ok(outcome)
    }

    // Several at once, whole transactions too; the idle step of a core that has stopped, and a refusal, one by one, and
    // so where stores may be pending.
    fn make_run(&mut self, core: u8, most: u32) -> Result<u32, Refusal> {
        let made = board_steps(self, core, most);
        if made > 0 {
            return Ok(made);
        }
        self.make_step(Pick { core, event: None })?;
        Ok(1)
    }
}

// Up to so many steps of a core side by side, under no event. None, where there is no such core, where stores may be
// pending, or where it has stopped or the history is full.
fn board_steps(board: &mut Board, core: u8, most: u32) -> u32
    ensures steps { (steps : List (Pick × Outcome)) × (picks_made steps ≡ replicate result (lone_pick core))
        × AreBoardSteps board.old steps board.new }
    ensures most { result ≤ most }
{
    // As in `make_step`, before the steps and behind them.
    board.is_run();
    if core >= board.cores() {
        return 0;
    }
    if board.limits().stores > 0 {
        return 0;
    }
    let made = board.steps(core, most);
    board.is_run();
    made
}

// One step of a pick's core, under its event where it has one.
#[inline(always)]
fn board_step(board: &mut Board, pick: Pick) -> Result<Outcome, Refusal>
    ensures same { SameBoard board.old board.new }
    ensures ok { IfOk result (λ outcome. board.new.history ≡ board.old.history ++ (pick.core, outcome) ∷ []) }
    ensures under { IfOk result (λ outcome. IsOwedNext pick.event board.old pick.core outcome) }
    ensures refused { IfErr result (IsNoStep board.old pick) }
{
    board_told(board.step_by(pick))
}

// A board's answer, with the fault of a step that was not made.
#[inline(always)]
fn board_told(made: Result<Outcome, StepFault>) -> Result<Outcome, Refusal>
    ensures made { IfOk result (λ outcome. made ≡ Ok outcome) }
    ensures refused { IfErr result (λ why. (cause : StepFault) × (made ≡ Err cause)
        × (why ≡ refusal.Fault (fault.Step cause))) }
{
    Ok(made?)
}

// A machine's answer to a step or to several of one core, where there is no such core as the fault of a run.
#[inline(always)]
fn told<T: Copy>(made: Result<T, NoSuchCore>) -> Result<T, Refusal>
    ensures made { IfOk result (λ value. made ≡ Ok value) }
    ensures refused { IfErr result (λ why. IsErr made × (why ≡ refusal.Fault (fault.Run run.NoSuchCore))) }
{
    Ok(made?)
}

impl Course {
    /// How many steps there are at most: those of a list, or those that may be drawn.
    pub fn most(&self) -> u64
        ensures { result ≡ most_of self.now }
    {
        match self {
            Course::Listed(steps) => steps.len() as u64,
            Course::Drawn(drawn) => u64::from(drawn.most),
        }
    }

    /// That each pick of a list is of a core, of so many.
    pub fn check_cores(&self, cores: u8) -> Result<(), Refusal>
        ensures fit { OnOk result (All (λ (pick : Pick). pick.core < cores) (listed_in self.now)) }
        ensures none { IfErr result (NamesNoCore (listed_in self.now) cores) }
    {
        match self {
            Course::Listed(steps) => check_each(steps.as_slice(), cores),
            Course::Drawn(_) => Ok(()),
        }
    }

    /// Makes the steps on a machine of so many cores, 1 to 64: those of the list, or those that are drawn until all
    /// cores have stopped or the limit is reached. Answers the picks of those that were drawn, where `keeps` asks for
    /// them, each with the event that aborted it; else it takes no memory.
    pub fn walk<S: StepMaker, G: Progress>(
        &self,
        alloc: Global,
        cores: u8,
        keeps: bool,
        maker: &mut S,
        progress: &mut G,
    ) -> Result<Vec<Pick>, Refusal>
        requires { cores ≤ 64 }
        ensures refused { IfErr result (IsNoWalk S.takes S.refuses self.now cores maker.old) }
        ensures walked { IfOk result (λ kept. (steps : List (Pick × Outcome)) × AreOf self.now (picks_made steps)
            × Leads S.takes maker.old steps maker.new × (kept.items ≡ kept_of self.now keeps steps)
            × IsOut self.now cores steps) }
    {
        let mut kept = Vec::new(alloc);
        let walked = self.walk_kept(cores, keeps, &mut kept, maker, progress);
        progress.end();
        // Only now: the progress has ended for a walk that was refused, too.
        walked?;
        Ok(kept)
    }

    // What [`Course::walk`] does, with a list that is empty, for what is kept.
    fn walk_kept<S: StepMaker, G: Progress>(
        &self,
        cores: u8,
        keeps: bool,
        kept: &mut Vec<Pick>,
        maker: &mut S,
        progress: &mut G,
    ) -> Result<(), Refusal>
        requires cores { cores ≤ 64 }
        requires none { kept.old.items ≡ [] }
        ensures refused { IfErr result (IsNoWalk S.takes S.refuses self.now cores maker.old) }
        ensures walked { IfOk result (λ _. (steps : List (Pick × Outcome)) × AreOf self.now (picks_made steps)
            × Leads S.takes maker.old steps maker.new × (kept.new.items ≡ kept_of self.now keeps steps)
            × IsOut self.now cores steps) }
    {
        match self {
            Course::Listed(steps) => walk_list(steps.as_slice(), maker, progress),
            Course::Drawn(drawn) => walk_asked(*drawn, cores, keeps, kept, maker, progress),
        }
    }

    /// Makes the steps as [`Course::walk`] does, and writes the schedule that came about where there is a path: a list
    /// before its steps are made, and steps that are drawn as they are made.
    pub fn walk_recorded<S: StepMaker, P: Paths, G: Progress>(
        &self,
        alloc: Global,
        cores: u8,
        path: Option<&str>,
        maker: &mut S,
        paths: &mut P,
        progress: &mut G,
    ) -> Result<(), Refusal>
        requires { cores ≤ 64 }
        ensures refused { IfErr result (λ why. IsNoWalk S.takes S.refuses self.now cores maker.old why
            ⊎ IsUnrecorded path.entry why) }
        ensures walked { IfOk result (λ _. (steps : List (Pick × Outcome)) × AreOf self.now (picks_made steps)
            × Leads S.takes maker.old steps maker.new
            × IsRecorded (P.content paths.new) path.entry (schedule_made self.now (picks_told steps))
            × IsOut self.now cores steps) }
    {
        match self {
            Course::Listed(steps) => {
                record(path, steps.as_slice(), paths)?;
                self.walk(alloc, cores, false, maker, progress)?;
                Ok(())
            }
            Course::Drawn(drawn) => {
                let walked = walk_written(*drawn, cores, path, maker, paths, progress);
                progress.end();
                walked
            }
        }
    }

    /// Writes the schedule that came about, where there is a path: the list, or the steps that were kept of those that
    /// were drawn.
    pub fn record<P: Paths>(
        &self,
        path: Option<&str>,
        kept: &[Pick],
        paths: &mut P,
    ) -> Result<(), Refusal>
        ensures written { OnOk result (IsRecorded (P.content paths.new) path.entry (schedule_made self.now kept.now)) }
        ensures failed { IfErr result (IsUnrecorded path.entry) }
    {
        match self {
            Course::Listed(steps) => record(path, steps.as_slice(), paths),
            Course::Drawn(drawn) => record_drawn(path, drawn.may_tell(), kept, paths),
        }
    }
}

// That each of these picks is of a core, of so many.
fn check_each(steps: &[Pick], cores: u8) -> Result<(), Refusal>
    ensures fit { OnOk result (All (λ (pick : Pick). pick.core < cores) steps.now) }
    ensures none { IfErr result (NamesNoCore steps.now cores) }
{
    for pick in steps {
        if pick.core >= cores {
            return Err(Refusal::Fault(Fault::Run(RunFault::NoSuchCore)));
        }
    }
    Ok(())
}

// Makes the steps of a list, a portion after another.
fn walk_list<S: StepMaker, G: Progress>(
    steps: &[Pick],
    maker: &mut S,
    progress: &mut G,
) -> Result<(), Refusal>
    ensures refused { IfErr result (IsStepRefused S.takes S.refuses (IsNextOf steps.now) maker.old) }
    ensures walked { IfOk result (λ _. (made : List (Pick × Outcome)) × (picks_made made ≡ steps.now)
        × Leads S.takes maker.old made maker.new) }
{
    let mut index = 0;
    while index < steps.len() {
        progress.tell(index as u64, steps.len() as u64, "steps");
        let count = PORTION.min(steps.len() - index);
        walk_portion(&steps[index..index + count], maker)?;
        index += count;
    }
    Ok(())
}

// Makes the steps of one portion, those of one core side by side as a run.
fn walk_portion<S: StepMaker>(steps: &[Pick], maker: &mut S) -> Result<(), Refusal>
    requires { length steps.now ≤ 65536 }
    ensures refused { IfErr result (IsStepRefused S.takes S.refuses (IsNextOf steps.now) maker.old) }
    ensures walked { IfOk result (λ _. (made : List (Pick × Outcome)) × (picks_made made ≡ steps.now)
        × Leads S.takes maker.old made maker.new) }
{
    let mut index = 0;
    while index < steps.len() {
        let count = walk_front(&steps[index..], maker)?;
        index += count;
    }
    Ok(())
}

// Makes the first step of a list, or the run that it begins with. Answers how many steps that are.
#[inline(always)]
fn walk_front<S: StepMaker>(steps: &[Pick], maker: &mut S) -> Result<usize, Refusal>
    requires some { 1 ≤ length steps.now }
    requires few { length steps.now ≤ 65536 }
    ensures steps { IfOk result (λ count. (made : List (Pick × Outcome)) × (picks_made made ≡ take count steps.now)
        × Leads S.takes maker.old made maker.new) }
    ensures some { IfOk result (λ count. 1 ≤ count) }
    ensures most { IfOk result (λ count. count ≤ length steps.now) }
    ensures refused { IfErr result (IsStepRefused S.takes S.refuses (IsNextOf steps.now) maker.old) }
{
    let first = steps[0];
    let count = run_length(first.core, steps);
    if count < SHORTEST {
        maker.make_step(first)?;
        return Ok(1);
    }
    walk_run(first.core, count as u32, maker)?;
    Ok(count)
}

// How many of the first of these steps are of this core, under no event.
#[inline(always)]
fn run_length(core: u8, steps: &[Pick]) -> usize
    ensures alike { take result steps.now ≡ replicate result (lone_pick core) }
    ensures most { result ≤ length steps.now }
{
    let mut count = lone_chunks(core, steps);
    while count < steps.len() && is_lone(steps[count], core) {
        count += 1;
    }
    count
}

// Makes so many steps of a core under no event.
fn walk_run<S: StepMaker>(core: u8, count: u32, maker: &mut S) -> Result<(), Refusal>
    ensures refused { IfErr result
        (IsStepRefused S.takes S.refuses (IsNextOf (replicate count (lone_pick core))) maker.old) }
    ensures walked { IfOk result (λ _. (made : List (Pick × Outcome))
        × (picks_made made ≡ replicate count (lone_pick core)) × Leads S.takes maker.old made maker.new) }
{
    let mut done = 0;
    while done < count {
        let made = maker.make_run(core, count - done)?;
        done += made;
    }
    Ok(())
}

// The steps that are drawn. Where they are asked for they are kept behind those of a list, each with the event that its
// outcome tells.
fn walk_asked<S: StepMaker, G: Progress>(
    drawn: Drawn,
    cores: u8,
    keeps: bool,
    kept: &mut Vec<Pick>,
    maker: &mut S,
    progress: &mut G,
) -> Result<(), Refusal>
    requires { cores ≤ 64 }
    ensures refused { IfErr result (λ why. IsStepRefused S.takes S.refuses (IsNextDrawn drawn cores) maker.old why
        ⊎ (why ≡ refusal.Fault (fault.Run run.NoMemory))) }
    ensures walked { IfOk result (λ _. (steps : List (Pick × Outcome)) × ComeAs drawn (picks_made steps)
        × Leads S.takes maker.old steps maker.new
        × (kept.new.items ≡ kept.old.items ++ (if keeps then picks_told steps else []))
        × IsDrawnOut (not (is_some drawn.seed)) cores drawn.most steps) }
{
    if keeps {
        return walk_drawn(drawn, cores, kept, maker, progress);
    }
    walk_drawn(drawn, cores, &mut Unkept, maker, progress)
}

/// Makes the steps that are drawn on a machine of so many cores, 1 to 64. Each is kept, with its outcome, as the keeper
/// does.
pub fn walk_drawn<S: StepMaker, K: Keeper, G: Progress>(
    drawn: Drawn,
    cores: u8,
    keeper: &mut K,
    maker: &mut S,
    progress: &mut G,
) -> Result<(), Refusal>
    requires { cores ≤ 64 }
    ensures refused { IfErr result (λ why. IsStepRefused S.takes S.refuses (IsNextDrawn drawn cores) maker.old why
        ⊎ K.fails why) }
    ensures walked { IfOk result (λ _. (steps : List (Pick × Outcome)) × ComeAs drawn (picks_made steps)
        × Leads S.takes maker.old steps maker.new × Leads K.keeps keeper.old steps keeper.new
        × IsDrawnOut (not (is_some drawn.seed)) cores drawn.most steps) }
{
    if drawn.has_own_drains() {
        let source = DrainedPicker::new(drawn);
        return walk_picked(drawn, cores, source, keeper, maker, progress);
    }
    walk_picked(drawn, cores, drawn.picker(), keeper, maker, progress)
}

// Makes the steps that this source picks.
fn walk_picked<Q: PickSource + Drop, S: StepMaker, K: Keeper, G: Progress>(
    drawn: Drawn,
    cores: u8,
    mut source: Q,
    keeper: &mut K,
    maker: &mut S,
    progress: &mut G,
) -> Result<(), Refusal>
    requires cores { cores ≤ 64 }
    requires begun { Q.is_behind drawn [] source }
    requires none { ComeAs drawn [] }
    requires turn { drawn.seed ≡ None → Q.turn source ≡ Some None }
    ensures refused { IfErr result (λ why. IsStepRefused S.takes S.refuses (IsNextDrawn drawn cores) maker.old why
        ⊎ K.fails why) }
    ensures walked { IfOk result (λ _. (steps : List (Pick × Outcome)) × ComeAs drawn (picks_made steps)
        × Leads S.takes maker.old steps maker.new × Leads K.keeps keeper.old steps keeper.new
        × IsDrawnOut (not (is_some drawn.seed)) cores drawn.most steps) }
{
    let mut going = Going::all(cores);
    for number in 0..drawn.most {
        if going.is_empty() {
            return Ok(());
        }
        if number as usize % PORTION == 0 {
            progress.tell(u64::from(number), u64::from(drawn.most), "steps");
        }
        let pick = source.next_pick(&going);
        let outcome = maker.make_step(pick)?;
        settle(&mut going, pick, outcome);
        keeper.keep(pick, outcome)?;
    }
    Ok(())
}

// Takes a core out that has stopped with a step.
#[inline(always)]
fn settle(going: &mut Going, pick: Pick, outcome: Outcome)
    ensures { (cores : ℕ) (steps : List (Pick × Outcome)) → AreGoing cores steps going.old →
        AreGoing cores (steps ++ (pick, outcome) ∷ []) going.new }
{
    if !is_stop(outcome) {
        return;
    }
    going.remove(pick.core);
}

// Whether a core has stopped with this outcome.
#[inline(always)]
fn is_stop(outcome: Outcome) -> bool
    ensures { result ≡ is_stop outcome }
{
    match outcome {
        Outcome::Stopped(_) => true,
        _ => false,
    }
}
