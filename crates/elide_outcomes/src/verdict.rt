//! What a search came to: whether all is told, and whether something is wrong.
//!
//! [`Answer::of`] asks first whether the search was cut: then what it found is told all the same, but it is no whole
//! answer. Cut or faulty, the command ends with 3. States without a way to an end are wrong only where `--stuck` asks
//! for them.

ghost use Rattle.std.specs.Prelude.{◌≡◌};
ghost use Rattle.elide_outcomes.specs.Verdict.{answer_of, has_stops, has_violations, is_faulty, search_status};

use tm_outcomes::{ReachedStop, Search, Violation};

/// What a search came to.
#[derive(Clone, Copy, PartialEq, Eq)]
pub enum Answer {
    /// All outcomes are told, and nothing that was asked for is wrong.
    Whole,
    /// The limit on states was reached.
    Cut,
    /// An end that violates a check was found, a stop that was looked for, or, where it was asked for, a state without
    /// a way to an end or a cycle that can be made for ever.
    Faulty,
}

impl Answer {
    /// That of a search, where states without a way to an end, and cycles, are asked for or are not.
    pub fn of(asks_stuck: bool, search: &Search) -> Answer
        ensures { result ≡ answer_of asks_stuck search.now }
    {
        if search.is_cut {
            return Answer::Cut;
        }
        if is_faulty(asks_stuck, search) {
            Answer::Faulty
        } else {
            Answer::Whole
        }
    }

    /// The exit status.
    pub fn status(self) -> u64
        ensures { result ≡ search_status self }
    {
        match self {
            Answer::Whole => 0,
            Answer::Cut | Answer::Faulty => 3,
        }
    }
}

fn is_faulty(asks_stuck: bool, search: &Search) -> bool
    ensures { result ≡ is_faulty asks_stuck search.now }
{
    has_violations(search.violations.as_slice())
        || has_stops(search.stops.as_slice())
        || (asks_stuck && (search.stuck.is_some() || search.cycle.is_some()))
}

fn has_violations(violations: &[Violation]) -> bool
    ensures { result ≡ has_violations violations.now }
{
    violations.len() > 0
}

fn has_stops(stops: &[ReachedStop]) -> bool
    ensures { result ≡ has_stops stops.now }
{
    stops.len() > 0
}
