//! What is kept of a run.

ghost use Rattle.std.specs.Prelude.{◌≡◌, ◌+◌, ◌^◌, ◌<◌, ◌≤◌, ◌++◌, ◌∷◌, [], IfOk, OnErr, OnOk, Some, true};

use crate::columns::{Columns, StepKind};
use crate::fate::{Fate, fate_at};
use crate::frame::Sheet;
use crate::label::{Label, LineLabels};
use crate::picture::{Picture, draw};
use crate::rows::{MOST_CORES, Rows};
use crate::spans::{Arrow, Hit, Span, Spans, Step, is_drawn};
use crate::step_text::StepText;
use crate::svg::Svg;
use crate::variables::Variables;
use crate::window::Window;
use std::alloc::{AllocError, Global};
use text_out::{Out, WriteFault};
use tm_model::Outcome;

/// What a picture of a window of a run shows, told step by step from the run's first step on, of which the steps of
/// transactions that reach into the window count also where they lie before and behind it.
#[derive(Drop)]
pub struct Timeline {
    window: Window,
    cores: u8,
    // The number of the next step.
    next: u32,
    // The open transaction of each core.
    open: [Option<Transaction>; MOST_CORES],
    picture: Picture,
    variables: Variables,
}

// An open transaction.
#[derive(Clone, Copy)]
struct Transaction {
    // The step of its XBEGIN.
    begin: u32,
    // The hit that doomed it.
    hit: Option<Hit>,
}

impl Timeline {
    ghost use Rattle.tm_timeline.specs.Fates.{fate_at};
    ghost use Rattle.tm_timeline.specs.Told.{AddsBar, GrowBars, Grows, IsBlank, IsEnded, SameSteps, bars, is_few};
    ghost use Rattle.tm_timeline.specs.declared.fate.Fate.{Fate};

    /// A run of so many cores, of which no step is told.
    pub fn new(alloc: Global, cores: u8, window: Window) -> Result<Timeline, AllocError>
        ensures { IfOk result (IsBlank window) }
    {
        let picture = if window.is_detailed() {
            Picture::Few(Spans::new(alloc))
        } else {
            Picture::Many(Columns::new(alloc, cores)?)
        };
        Ok(Timeline {
            window,
            cores,
            next: 0,
            open: [None; MOST_CORES],
            picture,
            variables: Variables::new(alloc),
        })
    }

    /// One more variable that is drawn below the cores, where transactions are drawn one by one. Of more than 64 the
    /// first are.
    pub fn add_variable(&mut self, alloc: Global, name: Label) -> Result<(), AllocError>
        ensures { SameSteps self.old self.new }
    {
        match self.picture {
            Picture::Few(_) => self.variables.add(alloc, name),
            Picture::Many(_) => Ok(()),
        }
    }

    /// Tells what memory has at a variable, the first of which is 0, behind the steps that were told.
    pub fn tell_variable(&mut self, index: usize, value: u32) -> Result<(), AllocError>
        ensures { SameSteps self.old self.new }
    {
        self.variables.tell(index, self.window, self.next, value)
    }

    /// Whether the next step is drawn as one, with what it did.
    pub fn shows_steps(&self) -> bool {
        self.shows_lines() && self.window.has_ticks()
    }

    /// Tells what the last step did that was told and is drawn as one.
    pub fn describe(&mut self, text: StepText) -> Result<(), AllocError>
        ensures { SameSteps self.old self.new }
    {
        match &mut self.picture {
            Picture::Few(spans) => spans.describe_last(text),
            Picture::Many(_) => Ok(()),
        }
    }

    /// The number of the next step, counted from 0.
    pub fn next(&self) -> u32
        ensures { result ≡ self.now.next }
    {
        self.next
    }

    /// Tells that a core waited in its steps outside of transactions from this one on, counted from 0.
    pub fn waited(&mut self, core: u8, from: u32)
        ensures { SameSteps self.old self.new }
    {
        match &mut self.picture {
            Picture::Few(spans) => spans.mark_waits(core, from),
            Picture::Many(_) => {}
        }
    }

    /// Whether a hit of the next step is drawn with its line.
    pub fn shows_lines(&self) -> bool {
        matches!(self.picture, Picture::Few(_)) && self.window.contains(self.next)
    }

    /// Whether a core has a transaction that no step has hit.
    pub fn is_open(&self, core: u8) -> bool {
        match self.transaction(core) {
            Some(transaction) => transaction.hit.is_none(),
            None => false,
        }
    }

    // The open transaction of a core.
    fn transaction(&self, core: u8) -> Option<Transaction> {
        if usize::from(core) < MOST_CORES {
            self.open[usize::from(core)]
        } else {
            None
        }
    }

    fn set(&mut self, core: u8, transaction: Option<Transaction>)
        ensures next { self.new.next ≡ self.old.next }
        ensures window { self.new.window ≡ self.old.window }
        ensures picture { self.new.picture ≡ self.old.picture }
    {
        if usize::from(core) < MOST_CORES {
            self.open[usize::from(core)] = transaction;
        }
    }

    /// Tells that the next step, of core `by`, hits the open transaction of another core. To be told before the step
    /// is.
    pub fn hit(&mut self, victim: u8, by: u8, on: Option<tm_model::Hit>) -> Result<(), AllocError>
        ensures { SameSteps self.old self.new }
    {
        let Some(transaction) = self.transaction(victim) else {
            return Ok(());
        };
        if transaction.hit.is_some() {
            return Ok(());
        }
        let step = self.next;
        let hit = Hit { step, by, on };
        let begin = transaction.begin;
        self.set(
            victim,
            Some(Transaction {
                begin,
                hit: Some(hit),
            }),
        );
        if !self.window.contains(step) {
            return Ok(());
        }
        match &mut self.picture {
            Picture::Few(spans) => spans.add_arrow(Arrow { victim, hit }),
            Picture::Many(columns) => {
                columns.count_hit(self.window, step);
                Ok(())
            }
        }
    }

    /// Tells the next step: its core and what it was. Where transactions are drawn one by one, and the step is in the
    /// window, a commit or an abort adds the bar of a transaction that came to this by this step.
    pub fn note(&mut self, core: u8, outcome: Outcome) -> Result<(), AllocError>
        ensures next { self.old.next + 1 < 2 ^ 32 → self.new.next ≡ self.old.next + 1 }
        ensures grows { Grows self.old self.new }
        ensures bar { OnOk result ((what : Fate) → fate_at outcome ≡ Some what → is_few self.old.picture ≡ true →
            self.old.window.from ≤ self.old.next → self.old.next < self.old.window.to →
            AddsBar self.old.picture self.new.picture core self.old.next what) }
    {
        let step = self.next;
        self.next = step.saturating_add(1);
        self.begin(core, step, outcome);
        self.keep(step, core, outcome)?;
        match fate_at(outcome) {
            Some(fate) => self.end(core, step, fate),
            None => Ok(()),
        }
    }

    // Begins a transaction of a core, where this step does.
    fn begin(&mut self, core: u8, step: u32, outcome: Outcome)
        ensures next { self.new.next ≡ self.old.next }
        ensures window { self.new.window ≡ self.old.window }
        ensures picture { self.new.picture ≡ self.old.picture }
    {
        if outcome == Outcome::Begun {
            let begun = Transaction {
                begin: step,
                hit: None,
            };
            self.set(core, Some(begun));
        }
    }

    // Keeps a step, where the window has it.
    fn keep(&mut self, number: u32, core: u8, outcome: Outcome) -> Result<(), AllocError>
        ensures next { self.new.next ≡ self.old.next }
        ensures window { self.new.window ≡ self.old.window }
        ensures kind { is_few self.new.picture ≡ is_few self.old.picture }
        ensures bars { bars self.new.picture ≡ bars self.old.picture }
    {
        let window = self.window;
        if !window.contains(number) {
            return Ok(());
        }
        match &mut self.picture {
            Picture::Many(columns) => {
                columns.count_step(window, number, core, kind_of(outcome));
                Ok(())
            }
            Picture::Few(spans) if window.has_ticks() => spans.add_step(Step {
                number,
                core,
                outcome,
                waits: false,
                text: None,
            }),
            Picture::Few(_) => Ok(()),
        }
    }

    // Ends the transaction of a core by this step.
    fn end(&mut self, core: u8, step: u32, fate: Fate) -> Result<(), AllocError>
        ensures next { self.new.next ≡ self.old.next }
        ensures grows { Grows self.old self.new }
        ensures bar { OnOk result (is_few self.old.picture ≡ true → self.old.window.from ≤ step →
            step < self.old.window.to → AddsBar self.old.picture self.new.picture core step fate) }
    {
        let window = self.window;
        let span = self.ended(core, step, fate);
        self.set(core, None);
        if is_drawn(window, span) {
            self.add(span)
        } else {
            Ok(())
        }
    }

    // The transaction of a core that ends with this step.
    fn ended(&self, core: u8, step: u32, fate: Fate) -> Span
        ensures begin { result.begin ≤ step }
        ensures ended { step < u32.MAX → IsEnded result core step fate }
    {
        let (begin, hit) = match self.transaction(core) {
            Some(transaction) => (transaction.begin.min(step), transaction.hit),
            None => (step, None),
        };
        Span {
            core,
            begin,
            end: step.saturating_add(1),
            hit,
            fate,
        }
    }

    // Keeps a transaction that has a step in the window.
    #[tactic(auto, using(crate::proofs::Growing::grown_same, crate::proofs::Growing::grown_one))]
    fn add(&mut self, span: Span) -> Result<(), AllocError>
        ensures next { self.new.next ≡ self.old.next }
        ensures grows { Grows self.old self.new }
        ensures bars { OnOk result (is_few self.old.picture ≡ true →
            bars self.new.picture ≡ bars self.old.picture ++ span ∷ []) }
    {
        let window = self.window;
        match &mut self.picture {
            Picture::Few(spans) => spans.add_span(span),
            Picture::Many(columns) => {
                columns.settle(window, &span);
                Ok(())
            }
        }
    }

    /// Tells that the run has ended: what is open stays open, or doomed.
    pub fn finish(&mut self) -> Result<(), AllocError>
        ensures next { self.new.next ≡ self.old.next }
        ensures grows { Grows self.old self.new }
    {
        let last = self.next.saturating_sub(1);
        for core in 0..self.cores {
            self.finish_core(core, last)?;
        }
        Ok(())
    }

    // Ends the transaction of a core that is open at the end of the run, whose last step is this one.
    #[tactic(auto, using(crate::proofs::Growing::grows_self))]
    fn finish_core(&mut self, core: u8, last: u32) -> Result<(), AllocError>
        ensures next { self.new.next ≡ self.old.next }
        ensures grows { Grows self.old self.new }
    {
        let Some(transaction) = self.transaction(core) else {
            return Ok(());
        };
        let fate = match transaction.hit {
            Some(_) => Fate::Doomed,
            None => Fate::Open,
        };
        self.end(core, last, fate)
    }

    /// Writes the picture as SVG: of these cores, under a title, with the symbols of lines.
    ///
    /// [`WriteFault::Write`], where the device failed: a beginning of the picture was written.
    pub fn write<L: LineLabels, O: Out>(
        &self,
        title: &Label,
        rows: &Rows,
        labels: &L,
        out: &mut O,
    ) -> Result<(), WriteFault> {
        let sheet = Sheet {
            window: self.window,
            rows,
            title,
            cores: self.cores,
        };
        let mut svg = Svg::new(out);
        draw(&mut svg, &sheet, &self.picture, &self.variables, labels);
        svg.finish()
    }
}

// Where a step is counted.
fn kind_of(outcome: Outcome) -> StepKind {
    match outcome {
        Outcome::Begun
        | Outcome::Inside
        | Outcome::Committed
        | Outcome::Aborted(_)
        | Outcome::AbortedBy(_, _) => StepKind::Inside,
        // What drains was stored outside of transactions, also where its core is in one now.
        Outcome::Plain | Outcome::Loaded | Outcome::Stopped(_) | Outcome::Drained => {
            StepKind::Outside
        }
        Outcome::Idle => StepKind::Idle,
    }
}
