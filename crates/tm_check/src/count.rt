//! How often a run's transactions committed or aborted: of all cores or of one, for any cause or for one kind.
//!
//! [`Count::of`] goes through the whole history at each call, and asks the outcomes alone: aborts of one status are
//! of one kind, whatever hit them. Who hit whom is not known here, but by `tm_why`.

ghost use Rattle.std.specs.Prelude.{◌≡◌, ◌≤◌, length};
ghost use Rattle.tm_hist.specs.History.{pairs_of};
ghost use Rattle.tm_check.specs.Counts.{are_same, count_in, is_among, is_commit, is_counted, is_of_kind};
ghost use Rattle.tm_check.specs.Counts.{is_wanted_abort};

use tm_hist::{Board, History};
use tm_model::{Interference, Outcome};
use tm_status::{Cause, status};

/// Whose steps are counted.
#[derive(Clone, Copy, PartialEq, Eq, Debug)]
pub enum Cores {
    /// Those of all cores.
    All,
    /// Those of the core of this number.
    One(u8),
}

/// A kind of aborts, as their outcomes tell it.
#[derive(Clone, Copy, PartialEq, Eq, Debug)]
pub enum AbortKind {
    /// For a cause in the program with this status, nested or not (SDM volume 1, 16.3.5). Statuses tell no cause apart
    /// from another of the same bits.
    Program(Cause),
    /// By this from outside of the program.
    Outside(Interference),
}

/// What is counted in a run's history.
#[derive(Clone, Copy, PartialEq, Eq, Debug)]
pub enum Count {
    /// The transactions that committed.
    Commits(Cores),
    /// Those that aborted: of one kind, or all.
    Aborts(Option<AbortKind>, Cores),
}

impl Count {
    /// How many there are in a board's history.
    pub fn of(self, board: &Board) -> u32
        ensures { result ≡ count_in self board.now.history }
    {
        // For its contract: the history is short enough to be counted in 32 bits.
        let _few = board.made();
        self.of_steps(board.history())
    }

    // How many there are in a history.
    fn of_steps(self, history: History<'_>) -> u32
        requires { length (pairs_of history) ≤ 16777216 }
        ensures { result ≡ count_in self (pairs_of history.entry) }
    {
        let mut number: u32 = 0;
        'steps: for index in 0..history.len() {
            let Some((core, outcome)) = history.get(index) else {
                unreachable!();
            };
            if self.is_counted(core, outcome) {
                number += 1;
            }
        }
        number
    }

    // Whether a step is counted.
    fn is_counted(self, core: u8, outcome: Outcome) -> bool
        ensures { result ≡ is_counted self (core, outcome) }
    {
        match self {
            Count::Commits(cores) => cores.has(core) && is_commit(outcome),
            Count::Aborts(kind, cores) => cores.has(core) && is_wanted_abort(kind, outcome),
        }
    }
}

impl Cores {
    // Whether a core is among them.
    fn has(self, core: u8) -> bool
        ensures { result ≡ is_among self core }
    {
        match self {
            Cores::All => true,
            Cores::One(one) => core == one,
        }
    }
}

// Whether a transaction commits.
fn is_commit(outcome: Outcome) -> bool
    ensures { result ≡ is_commit outcome }
{
    matches!(outcome, Outcome::Committed)
}

// Whether a transaction aborts, of this kind where one is given.
fn is_wanted_abort(kind: Option<AbortKind>, outcome: Outcome) -> bool
    ensures { result ≡ is_wanted_abort kind outcome }
{
    match kind {
        Some(kind) => is_of_kind(kind, outcome),
        None => matches!(outcome, Outcome::Aborted(_) | Outcome::AbortedBy(_, _)),
    }
}

// Whether an outcome is an abort of this kind.
fn is_of_kind(kind: AbortKind, outcome: Outcome) -> bool
    ensures { result ≡ is_of_kind kind outcome }
{
    match (kind, outcome) {
        (AbortKind::Program(cause), Outcome::Aborted(told)) => {
            told == status(cause, false) || told == status(cause, true)
        }
        (AbortKind::Outside(by), Outcome::AbortedBy(other, _status)) => are_same(by, other),
        _ => false,
    }
}

// Whether two aborts came from outside by the same.
fn are_same(by: Interference, other: Interference) -> bool
    ensures { result ≡ are_same by other }
{
    match (by, other) {
        (Interference::Interrupt, Interference::Interrupt) => true,
        (Interference::Eviction, Interference::Eviction) => true,
        (Interference::Snoop, Interference::Snoop) => true,
        _ => false,
    }
}
