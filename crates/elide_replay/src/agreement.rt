//! Whether a board's machine and a serial run ended alike.
//!
//! [`agreement_of`] compares memory, then that there are as many cores, then of each its registers, its stop and its
//! stores that are pending. It takes no agreement for granted: that a board's own history always agrees is proved of
//! `tm_hist`. Nothing is printed, and no step is made.

ghost use Rattle.std.specs.Prelude.{◌≡◌, ◌↔◌, ◌<◌, IsTrue, length};
ghost use Rattle.tm_hist.specs.Board.{stop_shown};
ghost use Rattle.tm_hist.specs.Replay.{Replays, memory_of};
ghost use Rattle.tm_core.specs.Theorem.{view_at};
ghost use Rattle.elide_replay.specs.Alike.{SameCore, SameCores, SamePending, SameRegs, SameStop};
ghost use Rattle.elide_replay.specs.Told.{agreement_status, is_agreement};

use tm_core::Machine;
use tm_hist::{Board, Serial};
use tm_model::CoreState;
use tm_rule::Stop;

/// Whether a schedule on a board and a history on one memory ended alike.
#[derive(Clone, Copy, PartialEq, Eq, Debug)]
pub enum Agreement {
    /// Memory, registers, stops and what is pending are the same.
    Agrees,
    /// Some of them are not.
    Differs,
}

impl Agreement {
    /// Whether they did.
    pub fn is_alike(self) -> bool
        ensures { result ≡ is_agreement self }
    {
        match self {
            Agreement::Agrees => true,
            Agreement::Differs => false,
        }
    }

    /// The exit status.
    pub fn status(self) -> u8
        ensures { result ≡ agreement_status self }
    {
        match self {
            Agreement::Agrees => 0,
            Agreement::Differs => 1,
        }
    }
}

/// Compares a board's machine with a serial run, which need not be that of the board's history. They agree exactly
/// where memory is the same, both have as many cores, and of each core the registers (those before an open
/// transaction), the stop and the pending stores are the same. Takes no memory.
pub fn agreement_of(board: &Board, serial: &Serial) -> Agreement
    ensures { result ≡ Agreement.Agrees ↔ Replays board.now serial.now }
{
    if is_alike(board, serial) {
        Agreement::Agrees
    } else {
        Agreement::Differs
    }
}

fn is_alike(board: &Board, serial: &Serial) -> bool
    ensures { IsTrue result ↔ Replays board.now serial.now }
{
    let machine = board.machine();
    has_memory_of(machine, serial) && has_cores_of(machine, serial)
}

fn has_memory_of(machine: &Machine, serial: &Serial) -> bool
    ensures { IsTrue result ↔ (memory_of serial.now ≡ machine.now.memory) }
{
    serial.memory() == machine.view()
}

// Whether each core is the same, and the serial run has no other.
fn has_cores_of(machine: &Machine, serial: &Serial) -> bool
    ensures { IsTrue result ↔ SameCores machine.now serial.now }
{
    let cores = machine.cores();
    if serial.stop(cores).is_ok() {
        return false;
    }
    for core in 0..cores {
        if !is_same_core(machine, serial, core) {
            return false;
        }
    }
    true
}

fn is_same_core(machine: &Machine, serial: &Serial, core: u8) -> bool
    requires { core < length machine.now.views }
    ensures { IsTrue result ↔ SameCore machine.now serial.now core }
{
    has_regs_of(machine, serial, core)
        && has_stop_of(machine, serial, core)
        && has_pending_of(machine, serial, core)
}

fn has_regs_of(machine: &Machine, serial: &Serial, core: u8) -> bool
    requires { core < length machine.now.views }
    ensures { IsTrue result ↔ SameRegs machine.now serial.now core }
{
    match (machine.base_regs(core), serial.regs(core)) {
        (Ok(shown), Ok(regs)) => regs == shown,
        _ => false,
    }
}

fn has_stop_of(machine: &Machine, serial: &Serial, core: u8) -> bool
    requires { core < length machine.now.views }
    ensures { IsTrue result ↔ SameStop machine.now serial.now core }
{
    match serial.stop(core) {
        Ok(stop) => stop == stop_of(machine, core),
        Err(_) => false,
    }
}

// Whether the same stores of a core are pending.
fn has_pending_of(machine: &Machine, serial: &Serial, core: u8) -> bool
    requires { core < length machine.now.views }
    ensures { IsTrue result ↔ SamePending machine.now serial.now core }
{
    let (Ok(shown), Ok(stores)) = (machine.pending(core), serial.pending(core)) else {
        return false;
    };
    if stores.len() != shown.len() {
        return false;
    }
    for index in 0..stores.len() {
        if stores[index] != shown[index] {
            return false;
        }
    }
    true
}

// Why a core that the machine has stopped, where it has.
fn stop_of(machine: &Machine, core: u8) -> Option<Stop>
    requires { core < length machine.now.views }
    ensures { result ≡ stop_shown (view_at machine.now core).mode }
{
    match machine.state(core) {
        Ok(CoreState::Stopped(stop)) => Some(stop),
        _ => None,
    }
}
