//! A window of few steps: each transaction, each hit and each step.

ghost use Rattle.std.specs.Prelude.{◌≡◌, ◌<◌, ◌≤◌, ◌++◌, ◌∷◌, ◌↔◌, [], IsTrue, OnErr, OnOk};

use crate::fate::Fate;
use crate::step_text::StepText;
use crate::window::Window;
use std::alloc::{AllocError, Global};
use tm_model::Outcome;

/// A hit in a run: who doomed a transaction, and when.
#[derive(Clone, Copy)]
pub struct Hit {
    /// The step that hit it.
    pub step: u32,
    /// The core of that step.
    pub by: u8,
    /// The line and how the step used it, where that is known.
    pub on: Option<tm_model::Hit>,
}

/// A transaction of a core.
#[derive(Clone, Copy)]
pub struct Span {
    /// The core.
    pub core: u8,
    /// The step of its XBEGIN.
    pub begin: u32,
    /// The step behind its last: behind the commit, the abort or the run.
    pub end: u32,
    /// The hit that doomed it.
    pub hit: Option<Hit>,
    /// What it came to.
    pub fate: Fate,
}

/// An arrow: a hit, and the core whose transaction it dooms.
#[derive(Clone, Copy)]
pub struct Arrow {
    /// The core of the transaction.
    pub victim: u8,
    /// The hit.
    pub hit: Hit,
}

/// A step that is drawn.
#[derive(Clone, Copy)]
pub struct Step {
    /// Its number.
    pub number: u32,
    /// Its core.
    pub core: u8,
    /// What it was.
    pub outcome: Outcome,
    /// Whether its core waited.
    pub waits: bool,
    /// The index of the text that tells what it did, where that is told.
    pub text: Option<usize>,
}

/// What a picture of few steps shows.
#[derive(Drop)]
pub struct Spans {
    /// The transactions, in the order of their ends.
    pub spans: Vec<Span>,
    /// The hits, in the order of their steps.
    pub arrows: Vec<Arrow>,
    /// The steps, where they are drawn one by one.
    pub steps: Vec<Step>,
    // What they did, where that is told.
    texts: Vec<StepText>,
}

impl Spans {
    /// Nothing so far.
    pub fn new(alloc: Global) -> Spans
        ensures { result.spans.items ≡ [] }
    {
        Spans {
            spans: Vec::new(alloc),
            arrows: Vec::new(alloc),
            steps: Vec::new(alloc),
            texts: Vec::new(alloc),
        }
    }

    /// Takes up a step of the window.
    pub fn add_step(&mut self, step: Step) -> Result<(), AllocError>
        ensures { self.new.spans.items ≡ self.old.spans.items }
    {
        self.steps.push(step)?;
        Ok(())
    }

    /// What a step did, where that is told.
    pub fn text_of(&self, step: Step) -> Option<&StepText> {
        self.texts.as_slice().get(step.text?)
    }

    /// Takes up what the last step did.
    pub fn describe_last(&mut self, text: StepText) -> Result<(), AllocError>
        ensures { self.new.spans.items ≡ self.old.spans.items }
    {
        let index = self.texts.len();
        self.texts.push(text)?;
        let count = self.steps.len();
        if count > 0 {
            self.steps[count - 1].text = Some(index);
        }
        Ok(())
    }

    /// Marks the steps of a core outside of transactions, from this one on, as steps in which it waited.
    pub fn mark_waits(&mut self, core: u8, from: u32)
        ensures { self.new.spans.items ≡ self.old.spans.items }
    {
        for step in self.steps.iter_mut() {
            step.waits = step.waits || (step.core == core && step.number >= from);
        }
    }

    /// Takes up a hit in the window.
    pub fn add_arrow(&mut self, arrow: Arrow) -> Result<(), AllocError>
        ensures { self.new.spans.items ≡ self.old.spans.items }
    {
        self.arrows.push(arrow)?;
        Ok(())
    }

    /// Takes up a transaction that has ended.
    pub fn add_span(&mut self, span: Span) -> Result<(), AllocError>
        ensures ok { OnOk result (self.new.spans.items ≡ self.old.spans.items ++ span ∷ []) }
        ensures err { OnErr result (self.new.spans.items ≡ self.old.spans.items) }
    {
        self.spans.push(span)?;
        Ok(())
    }
}

/// Whether a transaction has a step in a window.
pub fn is_drawn(window: Window, span: Span) -> bool
    ensures { IsTrue result ↔ (span.begin < window.to) × (window.from < span.end) }
{
    span.begin < window.to && window.from < span.end
}
