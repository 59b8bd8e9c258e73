//! Seats, and the desk that they belong to.
//!
//! A [`Seat`] goes into its worker's thread and comes back with what its turns came to. It is written under the
//! desk's lock alone, together with its line in the ledger; reading it needs no lock. A seat of another desk does
//! not fit: the identity is part of its type.

ghost use Rattle.std.specs.Prelude.{◌≡◌, ◌<◌, length, Some, slice_get, slice_set};
ghost use Rattle.tm_work.specs.Seats.{seat_with};

use crate::progress::{Progress, Receipt};
use std::marker::{Brand, Model};
use tm_ledger::{Ledger, LedgerIdentity, Token};

/// Which desk it is, the board that the desk was given, and the events that turns at it may come under. Each call of a
/// function generic in it picks all three.
pub trait DeskIdentity: LedgerIdentity {
    ghost use Rattle.tm_hist.specs.Board.{ShownBoard};
    ghost use Rattle.tm_pick.specs.declared.events.Events.{Events};

    ghost given: { ShownBoard };

    ghost events: { Events };
}

impl DeskIdentity for Brand {
    ghost use Rattle.tm_pick.specs.declared.events.Events.TheVariants.{Never};
    ghost use Rattle.tm_work.specs.Opening.{no_board};

    ghost given = { no_board };

    ghost events = { Never };
}

/// One core's place at the desk. Contracts see it as the core and what its turns came to.
#[derive(Drop)]
pub struct Seat<J: DeskIdentity> {
    core: u8,
    progress: Progress,
    token: Option<Token<J, Progress>>,
}

impl<J: DeskIdentity> Model for Seat<J> {
    ghost use Rattle.std.specs.Prelude.{◌≡◌, ◌<◌, length, Some};
    ghost use Rattle.tm_work.specs.Seats.{SeatProgress, seat_with};

    ghost Value = { SeatProgress };

    ghost view = { λ s. seat_with s.core s.progress };

    ghost invariant = { λ s. (s.token ≡ Some (s.core, Some s.progress)) × (s.core < length J.given.program.entries) };
}

impl<J: DeskIdentity> Seat<J> {
    // The seat that has this token.
    pub(crate) fn new(core: u8, progress: Progress, token: Token<J, Progress>) -> Seat<J>
        requires token { token ≡ (core, Some progress) }
        requires core { core < length J.given.program.entries }
        ensures { result ≡ seat_with core progress }
    {
        Seat {
            core,
            progress,
            token: Some(token),
        }
    }

    // Writes a progress here and into the ledger, which had the progress that was here.
    pub(crate) fn note(&mut self, ledger: &mut Ledger<J, Progress>, progress: Progress)
        ensures was { slice_get ledger.old self.old.core ≡ Some self.old.progress }
        ensures ledger { ledger.new ≡ slice_set ledger.old self.old.core progress }
        ensures seat { self.new ≡ seat_with self.old.core progress }
        ensures core { self.old.core < length J.given.program.entries }
    {
        // Noting uses the token up and gives another, so that no old progress is noted over a new one.
        let Some(token) = self.token.take() else {
            unreachable!()
        };
        self.token = Some(ledger.note(token, &progress));
        self.progress = progress;
    }

    /// The core's number.
    pub fn core(&self) -> u8
        ensures is { result ≡ self.now.core }
        ensures given { result < length J.given.program.entries }
    {
        self.core
    }

    // What its turns came to.
    pub(crate) fn progress(&self) -> Progress
        ensures { result ≡ self.now.progress }
    {
        self.progress
    }

    /// How many steps its turns made.
    pub fn steps(&self) -> u64
        ensures { result ≡ self.now.progress.steps }
    {
        self.progress.steps
    }

    /// The last of these steps.
    pub fn last(&self) -> Option<Receipt>
        ensures { result ≡ self.now.progress.last }
    {
        self.progress.last
    }

    /// Whether a turn found the core stopped or the history full.
    pub fn ended(&self) -> bool
        ensures { result ≡ self.now.progress.ended }
    {
        self.progress.ended
    }
}
