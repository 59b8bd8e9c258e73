//! What is asked of a machine before a step: the place, the cause and the lines of the core's transaction.
//!
//! [`Asked::before`] comes before the step, which may end that transaction; [`Asked::step`] adds the outcome behind it.
//! Why the step is an abort is known from its preview; where it is none, its cause stands for nothing. Whom a step hits
//! is asked in `hits`.

ghost use Rattle.std.specs.Prelude.{◌≡◌, ◌<◌, IfSome, length};
ghost use Rattle.tm_core.specs.Theorem.{ShownMachine, view_at};
ghost use Rattle.elide_stats.specs.Causes.{cause_for, cause_for_stop};
ghost use Rattle.elide_stats.specs.Counted.{IsAskedOf, IsReason, IsStep};
ghost use Rattle.elide_stats.specs.Hits.{IsConflict, is_store};

use tm_core::Machine;
use tm_model::{AbortReason, Counts, Outcome};
use tm_rule::Stop;
use tm_sets::Kind;
use tm_stats::{AbortCause, Conflict, Step};

/// What a machine tells of the next step of a core.
#[derive(Clone, Copy)]
pub struct Asked {
    // The EIP of the core's registers before its open transaction: that of the XBEGIN, also where the step is it.
    place: u32,
    // Why the step aborts of its own, where it does.
    cause: AbortCause,
    // The lines of its read set and write set.
    lines: Counts,
}

impl Asked {
    /// Asks a machine before a step of a core, which is an abort for this reason, where it is one.
    pub fn before(machine: &Machine, core: u8, reason: Option<AbortReason>) -> Asked
        requires core { core < length machine.now.views }
        requires reason { IsReason machine.now core reason }
        ensures { IsAskedOf machine.now core result }
    {
        Asked {
            place: place_of(machine, core),
            cause: cause_of(reason),
            lines: machine.counts(core).unwrap(),
        }
    }

    /// The step, once its outcome is known.
    pub fn step(self, core: u8, outcome: Outcome) -> Step
        ensures { (machine : ShownMachine) → IsAskedOf machine core self → IsStep machine core outcome result }
    {
        Step {
            core,
            place: self.place,
            outcome,
            cause: self.cause,
            reads: self.lines.reads,
            writes: self.lines.writes,
        }
    }
}

// The EIP of a core before its open transaction, or now, where it has none.
fn place_of(machine: &Machine, core: u8) -> u32
    requires { core < length machine.now.views }
    ensures { result ≡ (view_at machine.now core).base.eip }
{
    machine.base_regs(core).unwrap().eip
}

// The cause of a step that is an abort for this reason. Any, where it is none.
fn cause_of(reason: Option<AbortReason>) -> AbortCause
    ensures { IfSome reason (λ reason. result ≡ cause_for reason) }
{
    match reason {
        Some(reason) => cause_for(reason),
        None => AbortCause::Conflict,
    }
}

// The cause that a reason is counted as.
fn cause_for(reason: AbortReason) -> AbortCause
    ensures { result ≡ cause_for reason }
{
    match reason {
        AbortReason::Conflict => AbortCause::Conflict,
        AbortReason::Capacity(Kind::Read, _line) => AbortCause::ReadCapacity,
        AbortReason::Capacity(Kind::Write, _line) => AbortCause::WriteCapacity,
        AbortReason::Nest => AbortCause::Nest,
        AbortReason::Explicit(argument) => AbortCause::Explicit(argument),
        AbortReason::Breakpoint => AbortCause::Breakpoint,
        AbortReason::Stop(stop) => cause_for_stop(stop),
        AbortReason::NotAllowed => AbortCause::NotAllowed,
    }
}

fn cause_for_stop(stop: Stop) -> AbortCause
    ensures { result ≡ cause_for_stop stop }
{
    match stop {
        Stop::Divide => AbortCause::Divide,
        Stop::Breakpoint => AbortCause::Breakpoint,
        Stop::Undefined => AbortCause::Undefined,
        Stop::Protection => AbortCause::Protection,
        Stop::Halt => AbortCause::Halt,
        Stop::Range => AbortCause::Range,
        Stop::CodeStore => AbortCause::CodeStore,
        Stop::Fetch => AbortCause::Fetch,
        Stop::NotInSubset => AbortCause::NotInSubset,
    }
}

/// How a step of the instruction at this address hits the open transaction of another core on a line; on which bytes is
/// told of once it was made.
pub fn conflict_of(machine: &Machine, by: u32, victim: u8, line: u32, kind: Kind) -> Conflict
    requires { victim < length machine.now.views }
    ensures { IsConflict machine.now by victim line kind result }
{
    Conflict {
        line,
        by,
        victim: place_of(machine, victim),
        stores: is_store(kind),
        is_apart: false,
    }
}

fn is_store(kind: Kind) -> bool
    ensures { result ≡ is_store kind }
{
    match kind {
        Kind::Read => false,
        Kind::Write => true,
    }
}
