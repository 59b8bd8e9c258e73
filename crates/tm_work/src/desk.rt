//! The desk that threads share: a board under a lock, with a seat for each core.
//!
//! [`Desk::open`] takes all memory and gives out the seats; [`Desk::turn`] and its like make steps of one seat
//! while they have the lock; [`Desk::close`] takes the board back and holds the seats against the ledger. How a
//! step is made and noted stands in `desk_state`. Threads are started by `workers`: a desk knows of none.

ghost use Rattle.std.specs.Prelude.{◌≡◌, ◌<◌, ◌++◌, ◌∷◌, [], length, All, IfOk, IfErr, IfSome, None, false};
ghost use Rattle.tm_model.specs.Runs.{is_aborted_by};
ghost use Rattle.tm_pick.specs.Drawn.{AreDrawn};
ghost use Rattle.tm_work.specs.Seats.{AreSeats, AreTurns, IsLater, IsTurn, IsWorkedOn, SeatTells, no_progress};
ghost use Rattle.tm_work.specs.Seats.{seat_with};
ghost use Rattle.tm_work.specs.Faults.{board_in, IsNoMemory};

use crate::desk_state::DeskState;
use crate::fault::WorkFault;
use crate::opening::Opening;
use crate::patient::PatientLock;
use crate::progress::{Progress, Receipt};
use crate::seat::{DeskIdentity, Seat};
use std::alloc::Global;
use std::collections::VecDeque;
use std::sync::{MutexGuard, Wait};
use tm_hist::Board;
use tm_ledger::Ledger;
use tm_pick::Interferer;

// So many steps of all seats wait for the lock itself, which goes from one thread to the next once they sleep for it: a
// short program is run in turns.
const FIRST_STEPS: u64 = 1 << 16;

/// A board under a lock, for threads that have a seat each. Only `open` takes memory, and only `turn`
/// and `turns` wait.
#[derive(Drop)]
pub struct Desk<J: DeskIdentity> {
    state: PatientLock<DeskState<J>>,
    // How many of the first steps are each seat's.
    first: u64,
    has_store_buffer: bool,
}

impl<J: DeskIdentity> Desk<J> {
    /// The desk, and one seat a core, in order, of which none had a turn. `NoMemory` (61), with the board as it was.
    pub fn open(alloc: Global, opening: Opening) -> Result<(Desk<J>, Vec<Seat<J>>), WorkFault>
        requires name { opening.table ≡ J.table }
        requires given { opening.given ≡ J.given }
        ensures seats { IfOk result (λ r. AreSeats r.1.items (length J.given.program.entries)) }
        ensures refused { IfErr result (λ e. IsNoMemory e × (board_in e ≡ J.given)) }
    {
        let (mut ledger, board) = opening.named::<J>();
        let cores = board.cores();
        let has_store_buffer = board.limits().stores > 0;
        let Ok(mut seats) = Vec::with_capacity(alloc, usize::from(cores)) else {
            return Err(WorkFault::NoMemory(board));
        };
        for core in 0..cores {
            seats.push_reserved(seat_of(&mut ledger, core));
        }
        let state = PatientLock::new(DeskState::new(board, ledger), cores);
        let first = FIRST_STEPS / u64::from(cores.max(1));
        let desk = Desk {
            state,
            first,
            has_store_buffer,
        };
        Ok((desk, seats))
    }

    /// One step of the seat's core, which is one more pair of the board's history; or nothing, exactly where the core
    /// is stopped or the history full. So no step is idle, and none is an abort from outside. The receipt is then the
    /// seat's last one, and its index is greater than that of the one before.
    pub fn turn(&self, rt: &impl Wait, seat: &mut Seat<J>) -> Option<Receipt>
        ensures turn { IsTurn seat.old result seat.new }
        ensures alone { IfSome result (λ r. is_aborted_by r.outcome ≡ false) }
    {
        self.state.lock(rt).turn(seat, None)
    }

    /// Up to so many turns of the seat's core under one lock, and how many steps they made: fewer only where the core
    /// stopped or the history is full, as `turn` finds it. The receipt of the last of these steps is then the seat's.
    pub fn turns(&self, rt: &impl Wait, seat: &mut Seat<J>, most: u32) -> u32
        ensures turns { AreTurns seat.old most result seat.new }
        ensures later { 0 < result → IsLater seat.old.progress.last seat.new.progress.last }
        ensures none { result ≡ 0 → seat.new.progress.last ≡ seat.old.progress.last }
    {
        self.held_for(rt, seat).turns(seat, most)
    }

    /// Up to so many turns of the seat's core under one lock, each under the event that comes with it, and how many
    /// steps they made: fewer only where the core stopped or the history is full. Without events it is `turns`.
    pub fn turns_under(
        &self,
        rt: &impl Wait,
        seat: &mut Seat<J>,
        most: u32,
        events: &mut Interferer,
    ) -> u32
        requires events { AreDrawn J.events events.old }
        ensures kinds { events.new ≡ events.old }
        ensures turns { AreTurns seat.old most result seat.new }
    {
        self.held_for(rt, seat).turns_under(seat, most, events)
    }

    /// As [`Desk::turns_under`], where stores may be pending, behind drains of the seat's stores that are late, which
    /// are among the turns, as far as there are so many. Late are then those that were pending behind these drains and
    /// have not drained since.
    pub fn turns_drained(
        &self,
        rt: &impl Wait,
        seat: &mut Seat<J>,
        most: u32,
        events: &mut Interferer,
        late: &mut usize,
    ) -> u32
        requires events { AreDrawn J.events events.old }
        ensures kinds { events.new ≡ events.old }
        ensures turns { AreTurns seat.old most result seat.new }
    {
        self.held_for(rt, seat)
            .turns_drained(seat, most, events, late)
    }

    // Whether stores may be pending.
    pub(crate) fn has_store_buffer(&self) -> bool {
        self.has_store_buffer
    }

    // The board, held for a burst of this seat.
    fn held_for<'a>(&'a self, rt: &'a impl Wait, seat: &Seat<J>) -> MutexGuard<'a, DeskState<J>> {
        if seat.steps() < self.first {
            self.state.lock(rt)
        } else {
            self.state.take(rt)
        }
    }

    // The board, held: no turn begins before what is answered is dropped.
    pub(crate) fn hold<'a>(&'a self, rt: &'a impl Wait) -> MutexGuard<'a, DeskState<J>> {
        self.state.lock(rt)
    }

    /// The board, with what the seats' turns made of it. Its history goes on from the one that the board had when the
    /// desk was opened, its machine is the run of it, each outcome is the owed one, each abort from outside of the
    /// program is of the events that turns may come under, and what these seats say is so. Of a core whose seat is not
    /// handed in, no contract says how many of the steps are its own.
    pub fn close(self, seats: Vec<Seat<J>>) -> Board
        ensures worked { IsWorkedOn J.events J.given result }
        ensures seats { All (SeatTells J.given result) seats.items }
    {
        let mut state = self.state.into_inner();
        state.settle_all(seats);
        state.into_board()
    }

    // As [`Desk::close`], of seats in two lists.
    pub(crate) fn close_both(self, seats: Vec<Seat<J>>, others: VecDeque<Seat<J>>) -> Board
        ensures worked { IsWorkedOn J.events J.given result }
        ensures seats { All (SeatTells J.given result) seats.items }
        ensures others { All (SeatTells J.given result) others.items }
    {
        let mut state = self.state.into_inner();
        state.settle_all(seats);
        state.settle_others(others);
        state.into_board()
    }
}

// The seat of the next core, with a line of the ledger.
fn seat_of<J: DeskIdentity>(ledger: &mut Ledger<J, Progress>, core: u8) -> Seat<J>
    requires next { core ≡ length ledger.old }
    requires core { core < length J.given.program.entries }
    ensures ledger { ledger.new ≡ ledger.old ++ no_progress ∷ [] }
    ensures seat { result ≡ seat_with core no_progress }
{
    let progress = Progress {
        steps: 0,
        last: None,
        ended: false,
    };
    Seat::new(core, progress, ledger.open(&progress))
}
