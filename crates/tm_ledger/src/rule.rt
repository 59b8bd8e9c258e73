//! The ledger and its tokens are seats of a table of one word, and here is the rule of what each of them knows.

use atomic_table::{Join, Play, Split, Table, TableRule};
use std::alloc::Global;
use std::collections::LinkedList;

/// What a seat of the table knows: the ledger the progress of all lines, a token that of its own. No value of it is
/// made.
pub struct SeatView<M> {
    /// Whether it is the ledger.
    pub keeps: bool,
    /// The progress of each line.
    pub all: LinkedList<M>,
    /// The line of the token.
    pub line: u64,
    /// The progress of that line.
    pub progress: Option<M>,
}

/// The progress that a seat knows is the one in the ledger.
pub struct ProgressAgrees;

impl<M> TableRule<M, SeatView<M>, ()> for ProgressAgrees {
    ghost use Rattle.std.specs.Prelude.{[]};
    ghost use Rattle.tm_ledger.specs.Rules.{ViewsAgree, keeper_of};

    ghost holds = { λ _ s. ViewsAgree s.views };

    ghost first = { λ _. keeper_of [] };
}

/// The ledger gets a new line with the progress that is said, and holds its token.
pub struct Opens;

impl<M> Play<M, SeatView<M>> for Opens {
    ghost use Rattle.tm_ledger.specs.Rules.{OpensLine};

    ghost then = { OpensLine };
}

/// The line whose token the ledger holds gets the progress that is said.
pub struct Notes;

impl<M> Play<M, SeatView<M>> for Notes {
    ghost use Rattle.tm_ledger.specs.Rules.{WritesLine};

    ghost then = { WritesLine };
}

/// The ledger takes a token in, or gives out the one that it holds.
pub struct Hands;

impl<M> Split<SeatView<M>> for Hands {
    ghost use Rattle.tm_ledger.specs.Rules.{keeper_of, token_of};

    ghost left = { λ v. keeper_of v.all };

    ghost right = { λ v. token_of v.line v.progress };
}

impl<M> Join<SeatView<M>> for Hands {
    ghost use Rattle.tm_ledger.specs.Rules.{keeper_with, spent_view};

    ghost both = { λ v w. keeper_with v.all w.line w.progress };

    ghost spent = { spent_view };
}

/// The table that the seats belong to.
pub type LedgerTable<M> = Table<M, SeatView<M>, (), ProgressAgrees, Global>;
