//! Drains of the stores that are late, where stores may be pending: [`DeskState::turns_drained`].
//!
//! A store is late that was pending when the burst before began: so others' steps can come between a store and its
//! drain, and every store drains in the end, but for those that are pending where a worker's budget is used. How long a
//! burst is and who makes it is `manner`'s.

ghost use Rattle.std.specs.Prelude.{◌≡◌, ◌<◌, ◌≤◌, ◌+◌, ◌++◌, ◌∷◌, [], IfNone, IfSome, drop, false, length, min, true};
ghost use Rattle.std.specs.Prelude.{if◌then◌else◌};
ghost use Rattle.tm_core.specs.Theorem.{pending_at};
ghost use Rattle.tm_model.specs.declared.outcome.Outcome.TheVariants as outcome;
ghost use Rattle.tm_pick.specs.Drawn.{AreDrawn};
ghost use Rattle.tm_work.specs.Late.{AreDrained, IsDrainedBurst, IsDry, drains_of, is_drain_of};
ghost use Rattle.tm_work.specs.Seats.{AreTurns, IsStepMade};

use crate::desk_state::DeskState;
use crate::progress::{Progress, Receipt};
use crate::seat::{DeskIdentity, Seat};
use tm_hist::Board;
use tm_model::{Event, Outcome};
use tm_pick::Interferer;

impl<J: DeskIdentity> DeskState<J> {
    // Up to so many turns of a seat, as `turns_under` makes them, behind drains of the stores that are late, which are
    // among the turns. Late are then the stores that were pending behind these drains and have not drained since.
    pub(crate) fn turns_drained(
        &mut self,
        seat: &mut Seat<J>,
        most: u32,
        events: &mut Interferer,
        late: &mut usize,
    ) -> u32
        requires events { AreDrawn J.events events.old }
        ensures kinds { events.new ≡ events.old }
        ensures turns { AreTurns seat.old most result seat.new }
        ensures late { IsDrainedBurst self.old.0 self.new.0 seat.old.core (min late.old most) late.new }
    {
        let drained = self.drain(seat, (*late).min(most as usize) as u32);
        let pending = pending_of(&self.board, seat.core());
        let begun = self.board.made();
        let made = self.turns_under(seat, most - drained, events);
        let gone = drains_behind(&self.board, seat.core(), begun);
        *late = pending.saturating_sub(gone as usize);
        drained + made
    }

    // Up to so many drains of a seat's core, of its oldest stores, and how many they were: fewer only where none is
    // pending any more, or where the core is stopped or the history full.
    #[tactic(auto, using(crate::proofs::Late::drained_on, crate::proofs::Late::drained_first))]
    fn drain(&mut self, seat: &mut Seat<J>, most: u32) -> u32
        ensures drained { AreDrained self.old.0 self.new.0 seat.old.core most result }
        ensures core { seat.new.core ≡ seat.old.core }
        ensures steps { seat.new.progress.steps ≡ seat.old.progress.steps + result }
        ensures ended { seat.new.progress.ended ≡ seat.old.progress.ended }
    {
        for drained in 0..most {
            if !self.drain_oldest(seat) {
                return drained;
            }
        }
        most
    }

    // The drain of the oldest store of a seat's core. There is none where `try_drain` makes none.
    fn drain_oldest(&mut self, seat: &mut Seat<J>) -> bool
        ensures drained { result ≡ true →
            self.new.0.history ≡ self.old.0.history ++ (seat.old.core, outcome.Drained) ∷ [] }
        ensures turn { result ≡ true → seat.new.progress.steps ≡ seat.old.progress.steps + 1 }
        ensures core { seat.new.core ≡ seat.old.core }
        ensures ended { seat.new.progress.ended ≡ seat.old.progress.ended }
        ensures dry { result ≡ false → IsDry self.old.0 seat.old.core }
        ensures none { result ≡ false → (self.new.0 ≡ self.old.0) × (seat.new ≡ seat.old) }
    {
        let DeskState { board, ledger } = self;
        let Some(receipt) = try_drain(board, seat.core()) else {
            return false;
        };
        // As in `turn`.
        let steps = seat.steps().wrapping_add(1);
        let progress = Progress {
            steps,
            last: Some(receipt),
            ended: seat.ended(),
        };
        seat.note(ledger, progress);
        true
    }
}

// The drain of the oldest store of the core, and its receipt. There is none where none is pending, where the core is
// stopped or the history full.
fn try_drain(board: &mut Board, core: u8) -> Option<Receipt>
    requires { core < length board.old.program.entries }
    ensures some { IfSome result (λ r. IsStepMade board.old board.new core r) }
    ensures drained { IfSome result (λ r. r.outcome ≡ outcome.Drained) }
    ensures none { IfNone result ((board.new ≡ board.old) × IsDry board.old core) }
{
    if pending_of(board, core) == 0 || board.is_stopped(core) {
        return None;
    }
    let index = board.made();
    if index == board.limit() {
        return None;
    }
    let Ok(outcome) = board.step_under(core, Event::Drain) else {
        unreachable!()
    };
    Some(Receipt {
        index: index as usize,
        outcome,
    })
}

// How many stores of the core are pending.
fn pending_of(board: &Board, core: u8) -> usize
    requires { core < length board.now.program.entries }
    ensures { result ≡ length (pending_at board.now.machine core) }
{
    // By this it is known that the machine has the cores of the program.
    let _cores = board.cores();
    let Ok(stores) = board.machine().pending(core) else {
        unreachable!()
    };
    stores.len()
}

// How many stores of the core drained with the steps from this one on.
fn drains_behind(board: &Board, core: u8, from: u64) -> u32
    ensures { result ≡ drains_of core (drop from board.now.history) }
{
    let mut count = 0;
    for index in from..board.made() {
        let (own, outcome) = board.history().get(index as usize).unwrap();
        count += drains_in(core, own, outcome);
    }
    count
}

// How many stores of a core drain with a step: one, where it is a drain of that core.
fn drains_in(core: u8, own: u8, outcome: Outcome) -> u32
    ensures one { result ≡ if is_drain_of core (own, outcome) then 1 else 0 }
    ensures few { result ≤ 1 }
{
    if own != core {
        return 0;
    }
    match outcome {
        Outcome::Drained => 1,
        _ => 0,
    }
}
