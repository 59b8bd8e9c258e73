//! A window of many steps: columns of steps, with shares of what became of them.

ghost use Rattle.std.specs.Prelude.{◌≤◌, ◌^◌};

use crate::fate::Fate;
use crate::spans::Span;
use crate::window::Window;
use std::alloc::{AllocError, Global};

/// How many columns there are for few cores, of 3 pixels each.
const MANY: u32 = 372;

/// How many columns there are for more than 32 cores, of 6 pixels each, so that a picture stays below 500,000 bytes.
const FEW: u32 = 186;

/// What became of the steps of a core in a column.
#[derive(Clone, Copy)]
pub struct Share {
    /// In transactions that were committed.
    pub committed: u32,
    /// In those that a conflict aborted.
    pub conflict: u32,
    /// In those that something else aborted.
    pub other: u32,
    /// In those that are open, doomed ones too.
    pub open: u32,
    /// Outside of transactions.
    pub outside: u32,
    /// Of a core that had stopped.
    pub idle: u32,
}

impl Share {
    /// No steps.
    pub const NONE: Share = Share {
        committed: 0,
        conflict: 0,
        other: 0,
        open: 0,
        outside: 0,
        idle: 0,
    };

    /// How many steps there are up to this layer, from below.
    pub fn up_to(&self, layer: Layer) -> u64
        ensures { result ≤ 2 ^ 35 }
    {
        let committed = u64::from(self.committed);
        let conflict = committed + u64::from(self.conflict);
        let other = conflict + u64::from(self.other);
        let open = other + u64::from(self.open);
        match layer {
            Layer::Committed => committed,
            Layer::Conflict => conflict,
            Layer::Other => other,
            Layer::Open => open,
            Layer::Outside => open + u64::from(self.outside),
        }
    }

    /// How many steps there are in this layer.
    pub fn of(&self, layer: Layer) -> u32 {
        match layer {
            Layer::Committed => self.committed,
            Layer::Conflict => self.conflict,
            Layer::Other => self.other,
            Layer::Open => self.open,
            Layer::Outside => self.outside,
        }
    }

    /// How many steps there are in all.
    pub fn all(&self) -> u64
        ensures { result ≤ 2 ^ 36 }
    {
        self.up_to(Layer::Outside) + u64::from(self.idle)
    }

    /// Gives the steps of the open transaction to what it came to.
    pub fn settle(&mut self, fate: Fate) {
        let count = self.open;
        match fate {
            Fate::Committed => self.committed = self.committed.saturating_add(count),
            Fate::Conflict(_) => self.conflict = self.conflict.saturating_add(count),
            Fate::Other(_) | Fate::Outside(_, _) => {
                self.other = self.other.saturating_add(count);
            }
            Fate::Doomed | Fate::Open => return,
        }
        self.open = 0;
    }

    /// Counts a step.
    pub fn count(&mut self, kind: StepKind) {
        match kind {
            StepKind::Inside => self.open = self.open.saturating_add(1),
            StepKind::Outside => self.outside = self.outside.saturating_add(1),
            StepKind::Idle => self.idle = self.idle.saturating_add(1),
        }
    }
}

/// Where a step is counted.
#[derive(Clone, Copy)]
pub enum StepKind {
    /// In a transaction, also its first and its last step.
    Inside,
    /// Outside of transactions.
    Outside,
    /// Of a core that had stopped.
    Idle,
}

/// A layer of the columns of a core.
#[derive(Clone, Copy)]
pub enum Layer {
    /// Committed transactions, at the bottom.
    Committed,
    /// Conflicts.
    Conflict,
    /// Other aborts.
    Other,
    /// Transactions that have not ended.
    Open,
    /// Outside of transactions.
    Outside,
}

impl Layer {
    /// The class of its area.
    pub fn class(self) -> &'static str {
        match self {
            Layer::Committed => "k",
            Layer::Conflict => "x",
            Layer::Other => "o",
            Layer::Open => "p",
            Layer::Outside => "q",
        }
    }

    /// What its steps are, in words.
    pub fn meaning(self) -> &'static str {
        match self {
            Layer::Committed => "steps in committed transactions",
            Layer::Conflict => "steps in transactions that a conflict aborted",
            Layer::Other => "steps in other transactions that were aborted",
            Layer::Open => "steps in a transaction that has not ended",
            Layer::Outside => "steps outside of transactions",
        }
    }
}

/// What a picture of many steps shows.
#[derive(Drop)]
pub struct Columns {
    /// How many columns there are.
    pub count: u32,
    // The shares of the columns of core 0, then those of core 1, and so on.
    shares: Vec<Share>,
    /// How many hits there are in each column.
    pub hits: Vec<u32>,
    ghost some: { 1 ≤ count },
    ghost most: { count ≤ 372 },
}

impl Columns {
    /// Columns without steps, for so many cores.
    pub fn new(alloc: Global, cores: u8) -> Result<Columns, AllocError> {
        let count = if cores > 32 { FEW } else { MANY };
        let all = usize::from(cores) * count as usize;
        Ok(Columns {
            count,
            shares: vec![in alloc; Share::NONE; all]?,
            hits: vec![in alloc; 0; count as usize]?,
        })
    }

    // Where the share of a column of a core stands.
    fn index_of(&self, core: u8, column: u32) -> usize {
        usize::from(core) * self.count as usize + column as usize
    }

    /// The share of a column of a core.
    pub fn share(&self, core: u8, column: u32) -> Share {
        let index = self.index_of(core, column);
        match self.shares.as_slice().get(index) {
            Some(share) => *share,
            None => Share::NONE,
        }
    }

    // Changes a share.
    fn set(&mut self, core: u8, column: u32, share: Share) {
        let index = self.index_of(core, column);
        if index < self.shares.len() {
            self.shares[index] = share;
        }
    }

    /// Counts a step of the window.
    pub fn count_step(&mut self, window: Window, step: u32, core: u8, kind: StepKind) {
        let column = window.column(step, self.count);
        let mut share = self.share(core, column);
        share.count(kind);
        self.set(core, column, share);
    }

    /// Counts a hit in the window.
    pub fn count_hit(&mut self, window: Window, step: u32) {
        let column = window.column(step, self.count) as usize;
        if column < self.hits.len() {
            let hits = self.hits[column];
            self.hits[column] = hits.saturating_add(1);
        }
    }

    /// Gives the steps of a transaction that has ended to what it came to.
    pub fn settle(&mut self, window: Window, span: &Span) {
        let first = window.column(span.begin, self.count);
        let last = window.column(span.end.saturating_sub(1), self.count);
        for column in first..last + 1 {
            let mut share = self.share(span.core, column);
            share.settle(span.fate);
            self.set(span.core, column, share);
        }
    }

    /// The steps of a core in all columns.
    pub fn whole(&self, core: u8) -> Share {
        let mut whole = Share::NONE;
        for column in 0..self.count {
            let share = self.share(core, column);
            whole.add(&share);
        }
        whole
    }

    /// The most hits of a column.
    pub fn most_hits(&self) -> u32 {
        let mut most = 0;
        for hits in self.hits.as_slice() {
            most = most.max(*hits);
        }
        most
    }
}

impl Share {
    // Adds the steps of another share.
    fn add(&mut self, other: &Share) {
        self.committed = self.committed.saturating_add(other.committed);
        self.conflict = self.conflict.saturating_add(other.conflict);
        self.other = self.other.saturating_add(other.other);
        self.open = self.open.saturating_add(other.open);
        self.outside = self.outside.saturating_add(other.outside);
        self.idle = self.idle.saturating_add(other.idle);
    }
}
