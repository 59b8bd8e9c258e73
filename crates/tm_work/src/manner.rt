//! How a worker makes its steps, until its budget is used or its core makes none.
//!
//! [`Gated`] calls a gate, makes one turn, and calls it again. [`Steady`] meets the others (`meeting`), makes a
//! burst of turns under one lock, each under the event that comes with it (`plan`), and tells its watch now and
//! then. Where stores may be pending, a burst begins with drains. The threads are `workers`'.

ghost use Rattle.std.specs.Prelude.{◌≡◌, ◌<◌};
ghost use Rattle.tm_pick.specs.declared.events.Events.{Events};
ghost use Rattle.tm_pick.specs.declared.events.Events.TheVariants.{Never};
ghost use Rattle.tm_work.specs.Bursts.{IsBurst};
ghost use Rattle.tm_pick.specs.Drawn.{AreDrawn};
ghost use Rattle.tm_pick.specs.declared.kinds.Kinds.{Kinds};
ghost use Rattle.tm_work.specs.Seats.{AreTurns};
ghost use Rattle.tm_work.specs.Workers.{IsDone};

use crate::desk::Desk;
use crate::gate::Gate;
use crate::meeting::Meeting;
use crate::plan::EventPlan;
use crate::seat::{DeskIdentity, Seat};
use crate::watch::Watch;
use std::sync::Wait;
use tm_pick::Interferer;

// More than so many steps of a worker lie between two numbers that it tells its watch.
const PORTION: u32 = 4096;

/// What the worker of a seat does until its budget is used or its core makes no further step.
pub(crate) trait Manner: Sync {
    // What draws the events that come with the turns.
    ghost events: { Self → Events };

    // The seat comes back with what its turns came to.
    fn work<J: DeskIdentity, R: Wait>(
        &self,
        rt: &R,
        desk: &Desk<J>,
        seat: Seat<J>,
        budget: u32,
    ) -> Seat<J>
        requires fresh { seat.progress.steps ≡ 0 }
        requires events { J.events ≡ events self.now }
        ensures { IsDone seat.core budget result };

    // The stack of this core's thread in bytes, where it is not to be the system's own size.
    fn stack_bytes(&self, core: u8) -> Option<usize>;

    // Hears that the threads of all workers but so many were started.
    fn started(&self, missing: usize);
}

/// A step at a time, each told to a gate.
#[derive(Drop)]
pub(crate) struct Gated<'a, G: Gate> {
    pub(crate) gate: &'a G,
}

impl<'a, G: Gate> Manner for Gated<'a, G> {
    ghost events = { λ _. Never };

    fn work<J: DeskIdentity, R: Wait>(
        &self,
        rt: &R,
        desk: &Desk<J>,
        seat: Seat<J>,
        budget: u32,
    ) -> Seat<J> {
        let mut seat = seat;
        for done in 0..budget {
            self.gate.before(seat.core(), done);
            let Some(receipt) = desk.turn(rt, &mut seat) else {
                return seat;
            };
            self.gate.after(seat.core(), &receipt.outcome);
        }
        seat
    }

    fn stack_bytes(&self, core: u8) -> Option<usize> {
        self.gate.stack_bytes(core)
    }

    fn started(&self, _missing: usize) {}
}

/// How many steps a worker makes under one lock.
#[derive(Clone, Copy, PartialEq, Eq, Debug)]
pub enum Burst {
    /// Always as many; 0 counts as 1.
    Fixed(u32),
    /// One to three at first, so that workers which began at different times meet; then 17 to 47, which a program's
    /// loops are seldom a multiple of.
    Varying,
}

impl Burst {
    // How many steps come next, after so many.
    fn next(self, done: u32) -> u32
        ensures some { 0 < result }
        ensures is { IsBurst self done result }
    {
        match self {
            Burst::Fixed(steps) => steps.max(1),
            Burst::Varying if done < 64 => 1 + done % 3,
            // The upper bits of a product with an odd number: any two values of `done` give unlike ones.
            Burst::Varying => 17 + (done.wrapping_mul(0x9e37_79b9) >> 16) % 31,
        }
    }
}

// The turns of a worker, a burst of them under one lock after another. A type for each way, so that a worker pays
// nothing for drains where no store may be pending.
trait Turns {
    // The kinds of the events that come with them.
    ghost kinds: { Self → Kinds };

    // Makes a burst, of up to so many, and tells how many made a step.
    fn make<J: DeskIdentity, R: Wait>(
        &mut self,
        rt: &R,
        desk: &Desk<J>,
        seat: &mut Seat<J>,
        most: u32,
    ) -> u32
        requires events { AreDrawn J.events (kinds self.old) }
        ensures same { kinds self.new ≡ kinds self.old }
        ensures turns { AreTurns seat.old most result seat.new };
}

// Each under the event that comes with it.
#[derive(Drop)]
struct Undrained {
    events: Interferer,
}

impl Turns for Undrained {
    ghost kinds = { λ turns. turns.events };

    #[inline(always)]
    fn make<J: DeskIdentity, R: Wait>(
        &mut self,
        rt: &R,
        desk: &Desk<J>,
        seat: &mut Seat<J>,
        most: u32,
    ) -> u32 {
        desk.turns_under(rt, seat, most, &mut self.events)
    }
}

// The same, where stores may be pending. A burst begins with the drains of those that are late: they were pending when
// the burst before began, so that others' steps could come between, and every store drains in the end.
#[derive(Drop)]
struct Drained {
    events: Interferer,
    late: usize,
}

impl Turns for Drained {
    ghost kinds = { λ turns. turns.events };

    fn make<J: DeskIdentity, R: Wait>(
        &mut self,
        rt: &R,
        desk: &Desk<J>,
        seat: &mut Seat<J>,
        most: u32,
    ) -> u32 {
        desk.turns_drained(rt, seat, most, &mut self.events, &mut self.late)
    }
}

/// Several steps under one lock, each under the event that a plan has for it, and a meeting with the other workers
/// before the first ones. A watch hears of them now and then.
#[derive(Drop)]
pub(crate) struct Steady<'a, W: Watch> {
    burst: Burst,
    plan: EventPlan,
    meeting: Meeting,
    watch: &'a W,
}

impl<'a, W: Watch> Steady<'a, W> {
    pub(crate) fn new(burst: Burst, plan: EventPlan, workers: usize, watch: &'a W) -> Steady<'a, W>
        ensures { result.plan ≡ plan }
    {
        Steady {
            burst,
            plan,
            meeting: Meeting::new(workers),
            watch,
        }
    }

    // Makes the steps of a seat, in bursts of these turns.
    fn work_by<T: Turns + Drop, J: DeskIdentity, R: Wait>(
        &self,
        rt: &R,
        desk: &Desk<J>,
        seat: Seat<J>,
        budget: u32,
        turns: T,
    ) -> Seat<J>
        requires fresh { seat.progress.steps ≡ 0 }
        requires events { AreDrawn J.events (T.kinds turns) }
        ensures { IsDone seat.core budget result }
    {
        let mut seat = seat;
        let mut turns = turns;
        let mut left = budget;
        let mut due = budget.saturating_sub(PORTION);
        while left > 0 {
            self.meeting.meet();
            let most = self.burst.next(budget - left).min(left);
            if turns.make(rt, desk, &mut seat, most) < most {
                break;
            }
            left -= most;
            if left < due {
                due = left.saturating_sub(PORTION);
                self.tell(&seat);
            }
        }
        self.meeting.leave(1);
        seat
    }

    // Tells the watch how long the history was with the seat's last step. The seat knows, so no worker counts for all.
    fn tell<J: DeskIdentity>(&self, seat: &Seat<J>) {
        if let Some(receipt) = seat.last() {
            self.watch.reached((receipt.index as u64).saturating_add(1));
        }
    }
}

impl<'a, W: Watch + Sync> Manner for Steady<'a, W> {
    ghost events = { λ steady. steady.plan.events };

    // Bursts, each of which begins with a meeting.
    fn work<J: DeskIdentity, R: Wait>(
        &self,
        rt: &R,
        desk: &Desk<J>,
        seat: Seat<J>,
        budget: u32,
    ) -> Seat<J> {
        let events = self.plan.of_core(seat.core());
        if desk.has_store_buffer() {
            return self.work_by(rt, desk, seat, budget, Drained { events, late: 0 });
        }
        self.work_by(rt, desk, seat, budget, Undrained { events })
    }

    fn stack_bytes(&self, _core: u8) -> Option<usize> {
        None
    }

    // Nobody waits for whom no thread was made, nor for who started the others.
    fn started(&self, missing: usize) {
        self.meeting.leave(missing.saturating_add(1));
    }
}
