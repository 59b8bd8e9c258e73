//! What lies under the desk's lock: the board, and a ledger of what each seat knows of it.
//!
//! A turn makes a step and then notes it, in the seat and in the ledger; a row of turns makes its steps first and
//! notes them once. Where no step is to be made the seat learns that it has ended. For how long the lock is kept is
//! decided by `desk` and `manner`. That a row of turns begins with
//! drains is `draining`'s.

ghost use Rattle.std.specs.Prelude.{◌≡◌, ◌<◌, ◌≤◌, ◌⊎◌, true, length, All, IfSome, IfNone};
ghost use Rattle.tm_hist.specs.Board.{IsFull, IsStopped, TellsOf};
ghost use Rattle.tm_pick.specs.Drawn.{AreDrawn};
ghost use Rattle.tm_pick.specs.Kinds.{IsOfKinds};
ghost use Rattle.tm_pick.specs.declared.kinds.Kinds.{Kinds};
ghost use Rattle.tm_work.specs.Seats.{AreStepsMade, AreTurns, HaveNoProgress, IsLast, IsLater, IsStepMade, IsTurn};
ghost use Rattle.tm_work.specs.Seats.{IsWorkedOn, SeatTells, Tells};

use crate::progress::{Progress, Receipt};
use crate::seat::{DeskIdentity, Seat};
use std::collections::VecDeque;
use std::marker::Model;
use tm_hist::Board;
use tm_ledger::Ledger;
use tm_model::{Event, Outcome, Pick};
use tm_pick::Interferer;

/// The board, with a ledger of what each seat knows of it.
#[derive(Drop)]
pub(crate) struct DeskState<J: DeskIdentity> {
    pub(crate) board: Board,
    pub(crate) ledger: Ledger<J, Progress>,
}

impl<J: DeskIdentity> Model for DeskState<J> {
    ghost use Rattle.std.specs.Prelude.{List};
    ghost use Rattle.std.specs.Coded.{coded×, coded_list};
    ghost use Rattle.tm_hist.specs.Board.{ShownBoard};
    ghost use Rattle.tm_hist.specs.contracts.board.Board.{the_row as board_row};
    ghost use Rattle.tm_work.specs.declared.progress.Progress.{Progress};
    ghost use Rattle.tm_work.specs.contracts.progress.Progress.{the_row as progress_row};
    ghost use Rattle.tm_work.specs.Seats.{IsDisturbed, LedgerAgrees};

    ghost Value = { ShownBoard × List Progress };

    ghost coded = { coded× board_row.coded (coded_list progress_row.coded) };

    ghost view = { λ h. (h.board, h.ledger) };

    ghost invariant = { λ h. LedgerAgrees J.given h.board h.ledger × IsDisturbed J.events J.given h.board };
}

impl<J: DeskIdentity> DeskState<J> {
    // The board that was given, where no seat had a turn.
    pub(crate) fn new(board: Board, ledger: Ledger<J, Progress>) -> DeskState<J>
        requires board { board ≡ J.given }
        requires ledger { HaveNoProgress ledger }
    {
        DeskState { board, ledger }
    }

    pub(crate) fn into_board(self) -> Board
        ensures is { result ≡ self.0 }
        ensures worked { IsWorkedOn J.events J.given result }
    {
        let DeskState { board, ledger: _ } = self;
        board.is_run();
        board
    }

    // A step of the seat's core under this event, or under none; or a look where there is none to make.
    pub(crate) fn turn(&mut self, seat: &mut Seat<J>, event: Option<Event>) -> Option<Receipt>
        requires event { (kinds : Kinds) × AreDrawn J.events kinds × IsOfKinds kinds event }
        ensures turn { IsTurn seat.old result seat.new }
        ensures told { IfSome result (λ r. TellsOf event r.outcome) }
    {
        let DeskState { board, ledger } = self;
        let Some(receipt) = try_step(board, seat.core(), event) else {
            let progress = Progress {
                steps: seat.steps(),
                last: seat.last(),
                ended: true,
            };
            seat.note(ledger, progress);
            return None;
        };
        // The ledger tells that this does not wrap.
        let steps = seat.steps().wrapping_add(1);
        let progress = Progress {
            steps,
            last: Some(receipt),
            ended: seat.ended(),
        };
        seat.note(ledger, progress);
        Some(receipt)
    }

    // Up to so many turns of a seat, and how many made a step: fewer where one made none. The ledger hears of them
    // once, at the end.
    pub(crate) fn turns(&mut self, seat: &mut Seat<J>, most: u32) -> u32
        ensures turns { AreTurns seat.old most result seat.new }
        ensures later { 0 < result → IsLater seat.old.progress.last seat.new.progress.last }
        ensures none { result ≡ 0 → seat.new.progress.last ≡ seat.old.progress.last }
    {
        let DeskState { board, ledger } = self;
        let mut progress = seat.progress();
        let made = make_steps(board, seat.core(), &mut progress, most);
        seat.note(ledger, progress);
        made
    }

    // Up to so many turns of a seat, each under the event that comes with it.
    pub(crate) fn turns_under(
        &mut self,
        seat: &mut Seat<J>,
        most: u32,
        events: &mut Interferer,
    ) -> u32
        requires events { AreDrawn J.events events.old }
        ensures kinds { events.new ≡ events.old }
        ensures turns { AreTurns seat.old most result seat.new }
    {
        let mut made = 0;
        while made < most {
            let (quiet, event) = events.steps_before(most - made);
            let steps = self.turns(seat, quiet);
            made += steps;
            if steps < quiet {
                return made;
            }
            if event.is_some() {
                if self.turn(seat, event).is_none() {
                    return made;
                }
                made += 1;
            }
        }
        made
    }

    // Compares a seat with the ledger, where it changes nothing.
    fn settle(&mut self, seat: Seat<J>)
        ensures same { self.new.0 ≡ self.old.0 }
        ensures told { Tells J.given self.new.0 seat.core seat.progress }
    {
        let mut seat = seat;
        let progress = Progress {
            steps: seat.steps(),
            last: seat.last(),
            ended: seat.ended(),
        };
        seat.note(&mut self.ledger, progress);
    }

    pub(crate) fn settle_all(&mut self, seats: Vec<Seat<J>>)
        ensures same { self.new.0 ≡ self.old.0 }
        ensures told { All (SeatTells J.given self.new.0) seats.items }
    {
        for seat in seats {
            self.settle(seat);
        }
    }

    pub(crate) fn settle_others(&mut self, seats: VecDeque<Seat<J>>)
        ensures same { self.new.0 ≡ self.old.0 }
        ensures told { All (SeatTells J.given self.new.0) seats.items }
    {
        for seat in seats {
            self.settle(seat);
        }
    }
}

// Up to so many steps of a core with this progress, which goes on with them, and how many were made: fewer where the
// core is stopped or the history full.
fn make_steps(board: &mut Board, core: u8, progress: &mut Progress, most: u32) -> u32
    requires { core < length board.old.program.entries }
    ensures most { result ≤ most }
    ensures made { AreStepsMade board.old board.new core progress.old progress.new result }
    ensures fewer { result < most → progress.new.ended ≡ true }
    ensures all { result ≡ most → progress.new.ended ≡ progress.old.ended }
{
    let made = board.steps(core, most);
    let last = last_of(board, made, progress.last);
    *progress = Progress {
        // The ledger tells that this does not wrap.
        steps: progress.steps.wrapping_add(u64::from(made)),
        last,
        ended: progress.ended || made < most,
    };
    made
}

// The receipt of the last step, where so many were made; without any, what it was before.
fn last_of(board: &Board, made: u32, before: Option<Receipt>) -> Option<Receipt>
    ensures few { length board.now.history ≤ board.now.limit }
    ensures limited { length board.now.history ≤ 16777216 }
    ensures none { made ≡ 0 → result ≡ before }
    ensures last { 0 < made → 0 < length board.now.history → IsLast board.now result }
{
    let steps = board.made();
    if made == 0 || steps == 0 {
        return before;
    }
    let index = (steps - 1) as usize;
    let (_core, outcome) = board.history().get(index).unwrap();
    Some(Receipt { index, outcome })
}

// One step of the core under this event, or under none, and its receipt. There is none where the core is stopped or the
// history full.
fn try_step(board: &mut Board, core: u8, event: Option<Event>) -> Option<Receipt>
    requires { core < length board.old.program.entries }
    ensures some { IfSome result (λ r. IsStepMade board.old board.new core r) }
    ensures told { IfSome result (λ r. TellsOf event r.outcome) }
    ensures none { IfNone result ((board.new ≡ board.old) × (IsStopped board.old core ⊎ IsFull board.old)) }
{
    if board.is_stopped(core) {
        return None;
    }
    let index = board.made();
    if index == board.limit() {
        return None;
    }
    let Ok(outcome) = board.step_by(Pick { core, event }) else {
        unreachable!()
    };
    Some(Receipt {
        index: index as usize,
        outcome,
    })
}
