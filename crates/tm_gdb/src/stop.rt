//! Why a target stands, and the reply that tells it: [`push_stop`].
//!
//! Each move ends with a [`Stop`], made in `moves`, `run` or `back`; the reply has its signal, its reason and the
//! thread. A core that stops by HLT ends nothing ([`stop_of`]), as others may go on.

ghost use Rattle.std.specs.Prelude.{◌≡◌, ◌+◌, ◌≤◌, ◌<◌, ◌++◌, ◌∷◌, [], codes};
ghost use Rattle.arrayvec.specs.ArrayVec.{array_vec_len};
ghost use Rattle.hex.specs.Hex.{encode_lower};
ghost use Rattle.tm_gdb.specs.Stops.{halted_by, reason_text, signal_digits, signal_for, stop_digits, stop_of};
ghost use Rattle.tm_gdb.specs.Stops.{stop_text};
ghost use Rattle.tm_gdb.specs.Stops.{watch_text};

use gdb_packet::Bytes;
use gdb_target::push_thread;
use text_out::page::{push, push_eight};
use tm_model::Outcome;
use tm_rule::Stop as CoreStop;

/// The signal that gdb is told of a core that stopped.
#[derive(Clone, Copy, PartialEq, Eq, Debug)]
pub enum Signal {
    /// SIGTRAP: INT3.
    Trap,
    /// SIGILL: #UD, or bytes that are no instruction of the subset.
    Illegal,
    /// SIGFPE: #DE.
    Float,
    /// SIGSEGV: #GP, and what lies outside of memory or stores to the code.
    Segment,
}

/// Why a target stands.
#[derive(Clone, Copy, PartialEq, Eq, Debug)]
pub enum Stop {
    /// It has made the step that was asked, or none yet.
    Stepped,
    /// No more steps can be made: the schedule has ended, the cores that go on have stopped, or the history is full.
    End,
    /// No more steps can be taken back.
    Begin,
    /// The core whose turn it is is at a breakpoint.
    Break,
    /// The core sees other bytes at the watchpoint of this address than before its last step.
    Watch(u32),
    /// The core has stopped, and not by HLT.
    Halted(Signal),
}

// The signal of a core that stops.
fn signal_for(why: CoreStop) -> Option<Signal>
    ensures { result ≡ signal_for why }
{
    match why {
        CoreStop::Halt => None,
        CoreStop::Breakpoint => Some(Signal::Trap),
        CoreStop::Undefined | CoreStop::NotInSubset => Some(Signal::Illegal),
        CoreStop::Divide => Some(Signal::Float),
        CoreStop::Protection | CoreStop::Range | CoreStop::CodeStore | CoreStop::Fetch => {
            Some(Signal::Segment)
        }
    }
}

// What is told of a core that stops.
fn halted_by(signal: Option<Signal>) -> Option<Stop>
    ensures { result ≡ halted_by signal }
{
    match signal {
        Some(signal) => Some(Stop::Halted(signal)),
        None => None,
    }
}

/// What a step tells by which a core stops: nothing of HLT.
pub fn stop_of(outcome: Outcome) -> Option<Stop>
    ensures { result ≡ stop_of outcome }
{
    match outcome {
        Outcome::Stopped(why) => halted_by(signal_for(why)),
        Outcome::Plain
        | Outcome::Loaded
        | Outcome::Idle
        | Outcome::Begun
        | Outcome::Inside
        | Outcome::Committed
        | Outcome::Aborted(_)
        | Outcome::AbortedBy(_, _)
        | Outcome::Drained => None,
    }
}

fn push_signal(row: &mut Bytes, signal: Signal)
    requires { array_vec_len row.old + 2 ≤ 16384 }
    ensures text { row.new.items ≡ row.old.items ++ signal_digits signal }
    ensures len { array_vec_len row.new ≡ array_vec_len row.old + 2 }
{
    match signal {
        Signal::Trap => push(row, b"05"),
        Signal::Illegal => push(row, b"04"),
        Signal::Float => push(row, b"08"),
        Signal::Segment => push(row, b"0b"),
    }
}

fn push_digits(row: &mut Bytes, stop: Stop)
    requires { array_vec_len row.old + 2 ≤ 16384 }
    ensures text { row.new.items ≡ row.old.items ++ stop_digits stop }
    ensures len { array_vec_len row.new ≡ array_vec_len row.old + 2 }
{
    match stop {
        Stop::Halted(signal) => push_signal(row, signal),
        Stop::Stepped => push(row, b"05"),
        Stop::End => push(row, b"05"),
        Stop::Begin => push(row, b"05"),
        Stop::Break => push(row, b"05"),
        Stop::Watch(_) => push(row, b"05"),
    }
}

fn push_watch(row: &mut Bytes, address: u32)
    requires { array_vec_len row.old + 15 ≤ 16384 }
    ensures text { row.new.items ≡ row.old.items ++ watch_text address }
    ensures len { array_vec_len row.new ≡ array_vec_len row.old + 15 }
{
    push(row, b"watch:");
    push_eight(row, address);
    push(row, b";");
}

fn push_reason(row: &mut Bytes, stop: Stop)
    requires { array_vec_len row.old + 20 ≤ 16384 }
    ensures text { row.new.items ≡ row.old.items ++ reason_text stop }
    ensures len { array_vec_len row.new ≤ array_vec_len row.old + 20 }
{
    match stop {
        Stop::Stepped => push(row, b""),
        Stop::End => push(row, b"replaylog:end;"),
        Stop::Begin => push(row, b"replaylog:begin;"),
        Stop::Break => push(row, b"swbreak:;"),
        Stop::Watch(address) => push_watch(row, address),
        Stop::Halted(_) => push(row, b""),
    }
}

// The thread that is told.
fn push_core(row: &mut Bytes, core: u8)
    requires few { core < 64 }
    requires room { array_vec_len row.old + 10 ≤ 16384 }
    ensures { row.new.items ≡ row.old.items ++ codes "thread:" ++ encode_lower ((core + 1) ∷ []) ++ codes ";" }
{
    push(row, b"thread:");
    push_thread(row, core);
    push(row, b";");
}

/// Adds the reply that tells why a target stands, and at which core.
#[tactic(auto, unfolding(crate::specs::Stops::stop_text))]
pub fn push_stop(row: &mut Bytes, stop: Stop, core: u8)
    requires few { core < 64 }
    requires empty { row.old.items ≡ [] }
    ensures text { row.new.items ≡ stop_text stop core }
{
    push(row, b"T");
    push_digits(row, stop);
    push_reason(row, stop);
    push_core(row, core);
}
