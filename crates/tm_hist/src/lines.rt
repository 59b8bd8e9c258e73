//! The lines that are printed of a run: of an outcome, of the cores' states and their pending stores, and of bytes in
//! memory.
//!
//! Each line is put together in a row of fixed room and handed to the device as one, so that printing takes no
//! memory; the first that the device refuses ends the call. Their forms are those of docs/FORMATS.md. Which cores
//! and bytes are printed, and in which order with other text, is for the caller to say.

ghost use Rattle.std.specs.Prelude.{◌≡◌, ◌+◌, ◌-◌, ◌*◌, ◌%◌, ◌^◌, ◌≤◌, ◌<◌, ◌++◌, length};
ghost use Rattle.std.specs.List.{flat_map};
ghost use Rattle.arrayvec.specs.ArrayVec.{array_vec_len};
ghost use Rattle.text_out.specs.Writing.{Writes};
ghost use Rattle.tm_hist.specs.Lines.{core_line, core_text, cores_text, dump_line, dump_lines, flag_sum, flags_text};
ghost use Rattle.tm_hist.specs.Lines.{interference_word, outcome_line, pending_line, pending_text, pendings_text};
ghost use Rattle.tm_hist.specs.Lines.{register_text, regs_text, state_text, state_word, status_of, step_text, stop_word};
ghost use Rattle.tm_hist.specs.Lines.{value_text};
ghost use Rattle.tm_hist.specs.Machine.{core_count, depth_of};

use ia_exec::Store;
use ia_regs::{Flags, Regs};
use ia_word::Width;
use text_out::page::{push, push_bytes, push_eight};
use text_out::text_line::{TextLine, push_number};
use text_out::{Out, WriteFault};
use tm_core::{Machine, NoSuchCore};
use tm_model::{CoreState, Interference, Outcome};
use tm_rule::Stop;

/// The word of a stop.
pub fn stop_name(stop: Stop) -> &'static str
    ensures text { result.now ≡ stop_word stop }
    ensures short { length result.now ≤ 13 }
{
    match stop {
        Stop::Divide => "#DE",
        Stop::Breakpoint => "#BP",
        Stop::Undefined => "#UD",
        Stop::Protection => "#GP",
        Stop::Halt => "HLT",
        Stop::Range => "range",
        Stop::CodeStore => "code-store",
        Stop::Fetch => "fetch",
        Stop::NotInSubset => "not-in-subset",
    }
}

/// The bytes of [`stop_name`].
pub fn stop_text(stop: Stop) -> &'static [u8]
    ensures text { result.now ≡ stop_word stop }
    ensures short { length result.now ≤ 13 }
{
    stop_name(stop).as_bytes()
}

/// The word of what aborted a transaction from outside of the program: `interrupt`, `eviction` or `snoop`.
pub fn interference_name(interference: Interference) -> &'static str
    ensures text { result.now ≡ interference_word interference }
    ensures short { length result.now ≤ 9 }
{
    match interference {
        Interference::Interrupt => "interrupt",
        Interference::Eviction => "eviction",
        Interference::Snoop => "snoop",
    }
}

/// The bytes of [`interference_name`].
pub fn interference_text(interference: Interference) -> &'static [u8]
    ensures text { result.now ≡ interference_word interference }
    ensures short { length result.now ≤ 9 }
{
    interference_name(interference).as_bytes()
}

/// How deep the transaction is that is open, or that a conflict hit; 0 outside of transactions.
pub fn depth_of(state: CoreState) -> u8
    ensures { result ≡ depth_of state }
{
    match state {
        CoreState::Running | CoreState::Mid | CoreState::Stopped(_) => 0,
        CoreState::Open(depth) | CoreState::Condemned(depth) => depth,
    }
}

/// The status of an abort, where a step was one.
pub fn status_of(outcome: Outcome) -> Option<u32>
    ensures { result ≡ status_of outcome }
{
    match outcome {
        Outcome::Aborted(status) | Outcome::AbortedBy(_, status) => Some(status),
        Outcome::Plain
        | Outcome::Loaded
        | Outcome::Stopped(_)
        | Outcome::Idle
        | Outcome::Begun
        | Outcome::Inside
        | Outcome::Committed
        | Outcome::Drained => None,
    }
}

/// Adds what a core is doing: `run`, `mid`, `tx` and the depth, `condemned`, or `stop:` and why.
pub fn push_state(row: &mut TextLine, state: CoreState)
    requires { array_vec_len row.old + 18 ≤ 160 }
    ensures text { row.new.items ≡ row.old.items ++ state_word state }
    ensures len { array_vec_len row.new ≤ array_vec_len row.old + 18 }
{
    match state {
        CoreState::Running => push(row, b"run"),
        CoreState::Mid => push(row, b"mid"),
        CoreState::Open(depth) => {
            push(row, b"tx");
            push_number(row, depth);
        }
        CoreState::Condemned(_depth) => push(row, b"condemned"),
        CoreState::Stopped(stop) => {
            push(row, b"stop:");
            push(row, stop_text(stop));
        }
    }
}

/// The flags' bits, each at its place in EFLAGS, and no other.
pub fn flag_bits(flags: Flags) -> u16
    ensures { result ≡ flag_sum flags }
{
    use bitflags::Flags as _;
    Flags::of(
        flags.carry(),
        flags.parity(),
        flags.adjust(),
        flags.zero(),
        flags.sign(),
        flags.overflow(),
    )
    .bits()
}

fn push_flags(row: &mut TextLine, flags: Flags)
    requires { array_vec_len row.old + 3 ≤ 160 }
    ensures text { row.new.items ≡ row.old.items ++ flags_text flags }
    ensures len { array_vec_len row.new ≡ array_vec_len row.old + 3 }
{
    let mut digits = [0; 4];
    let _ = hex::encode_to_slice(&flag_bits(flags).to_be_bytes(), &mut digits);
    push(row, &digits[1..]);
}

// A register's value behind its name.
#[tactic(auto, unfolding(crate::specs::Lines::register_text))]
fn push_register(row: &mut TextLine, name: &[u8], value: u32)
    requires room { array_vec_len row.old + 13 ≤ 160 }
    requires short { length name.now ≡ 5 }
    ensures text { row.new.items ≡ row.old.items ++ register_text name.now value }
    ensures len { array_vec_len row.new ≡ array_vec_len row.old + 13 }
{
    push(row, name);
    push_eight(row, value);
}

#[tactic(auto, unfolding(crate::specs::Lines::regs_text))]
fn push_regs(row: &mut TextLine, regs: &Regs)
    requires { array_vec_len row.old + 127 ≤ 160 }
    ensures text { row.new.items ≡ row.old.items ++ regs_text regs.now }
    ensures len { array_vec_len row.new ≡ array_vec_len row.old + 127 }
{
    push_register(row, b" eax=", regs.get(0));
    push_register(row, b" ecx=", regs.get(1));
    push_register(row, b" edx=", regs.get(2));
    push_register(row, b" ebx=", regs.get(3));
    push_register(row, b" esp=", regs.get(4));
    push_register(row, b" ebp=", regs.get(5));
    push_register(row, b" esi=", regs.get(6));
    push_register(row, b" edi=", regs.get(7));
    push_register(row, b" eip=", regs.eip);
    push(row, b" flags=");
    push_flags(row, regs.flags);
}

#[tactic(auto, unfolding(crate::specs::Lines::core_line))]
fn push_core(row: &mut TextLine, core: u8, state: CoreState, regs: &Regs)
    requires { array_vec_len row.old ≡ 0 }
    ensures { row.new.items ≡ row.old.items ++ core_line core state regs.now }
{
    push(row, b"core ");
    push_number(row, core);
    push(row, b" ");
    push_state(row, state);
    push_regs(row, regs);
    push(row, b"\n");
}

/// Writes the state line of a core that the machine has.
///
/// [`WriteFault::Write`], where the device failed: a beginning of the line was written.
pub fn write_core<O: Out>(machine: &Machine, core: u8, out: &mut O) -> Result<(), WriteFault>
    requires { core < core_count machine.now }
    ensures { Writes (O.device out.old) (O.device out.new) (core_text machine.now core) result }
{
    let mut row = TextLine::new();
    let state = machine.state(core).unwrap();
    let regs = machine.regs(core).unwrap();
    push_core(&mut row, core, state, &regs);
    out.put(row.as_slice())?;
    Ok(())
}

// The state lines of all cores.
fn write_cores<O: Out>(machine: &Machine, out: &mut O) -> Result<(), WriteFault>
    ensures { Writes (O.device out.old) (O.device out.new) (cores_text machine.now) result }
{
    for core in 0..machine.cores() {
        write_core(machine, core, out)?;
    }
    Ok(())
}

// What is stored, in as many digits as it is wide.
fn push_value(row: &mut TextLine, width: Width, value: u32)
    requires { array_vec_len row.old + 8 ≤ 160 }
    ensures text { row.new.items ≡ row.old.items ++ value_text width value }
    ensures len { array_vec_len row.new ≤ array_vec_len row.old + 8 }
{
    match width {
        Width::B => push_bytes(row, &[(value % 256) as u8]),
        Width::D => push_eight(row, value),
    }
}

#[tactic(auto, unfolding(crate::specs::Lines::pending_line))]
fn push_pending(row: &mut TextLine, core: u8, store: &Store)
    requires { array_vec_len row.old ≡ 0 }
    ensures { row.new.items ≡ row.old.items ++ pending_line core store.now }
{
    push(row, b"pending ");
    push_number(row, core);
    push(row, b" ");
    push_eight(row, store.addr);
    push(row, b" ");
    push_value(row, store.width, store.value);
    push(row, b"\n");
}

// The line of a store of a core that is pending.
fn write_store<O: Out>(core: u8, store: &Store, out: &mut O) -> Result<(), WriteFault>
    ensures { Writes (O.device out.old) (O.device out.new) (pending_line core store.now) result }
{
    let mut row = TextLine::new();
    push_pending(&mut row, core, store);
    out.put(row.as_slice())?;
    Ok(())
}

// The lines of stores of a core that are pending.
fn write_stores<O: Out>(core: u8, stores: &[Store], out: &mut O) -> Result<(), WriteFault>
    ensures { Writes (O.device out.old) (O.device out.new) (flat_map (pending_line core) stores.now) result }
{
    for store in stores {
        write_store(core, store, out)?;
    }
    Ok(())
}

/// Writes a line for each store of a core that is pending, the oldest first, and nothing where there is no such core.
///
/// [`WriteFault::Write`], where the device failed: a beginning of the lines was written.
pub fn write_pending<O: Out>(machine: &Machine, core: u8, out: &mut O) -> Result<(), WriteFault>
    ensures { Writes (O.device out.old) (O.device out.new) (pending_text machine.now core) result }
{
    match machine.pending(core) {
        Ok(stores) => write_stores(core, stores, out),
        Err(NoSuchCore) => Ok(()),
    }
}

// The lines of all stores that are pending, a core behind the other.
fn write_pendings<O: Out>(machine: &Machine, out: &mut O) -> Result<(), WriteFault>
    ensures { Writes (O.device out.old) (O.device out.new) (pendings_text machine.now) result }
{
    for core in 0..machine.cores() {
        write_pending(machine, core, out)?;
    }
    Ok(())
}

/// Writes the state lines of all cores, in order, and then a line for each store that is pending.
///
/// [`WriteFault::Write`], where the device failed: a beginning of the lines was written.
pub fn write_state<O: Out>(machine: &Machine, out: &mut O) -> Result<(), WriteFault>
    ensures { Writes (O.device out.old) (O.device out.new) (state_text machine.now) result }
{
    write_cores(machine, out)?;
    write_pendings(machine, out)
}

/// Adds the core and what its step was, as an outcome line begins, to an empty row.
#[tactic(auto, unfolding(crate::specs::Lines::step_text))]
pub fn push_step(row: &mut TextLine, core: u8, outcome: &Outcome)
    requires { array_vec_len row.old ≡ 0 }
    ensures text { row.new.items ≡ row.old.items ++ step_text core outcome.now }
    ensures len { array_vec_len row.new ≤ 30 }
{
    push_number(row, core);
    push(row, b" ");
    match outcome {
        Outcome::Plain => push(row, b"plain"),
        Outcome::Loaded => push(row, b"loaded"),
        Outcome::Stopped(stop) => {
            push(row, b"stopped ");
            push(row, stop_text(*stop));
        }
        Outcome::Idle => push(row, b"idle"),
        Outcome::Begun => push(row, b"begun"),
        Outcome::Inside => push(row, b"inside"),
        Outcome::Committed => push(row, b"committed"),
        Outcome::Aborted(status) => {
            push(row, b"aborted ");
            push_eight(row, *status);
        }
        Outcome::AbortedBy(interference, status) => {
            push(row, b"aborted ");
            push_eight(row, *status);
            push(row, b" ");
            push(row, interference_text(*interference));
        }
        Outcome::Drained => push(row, b"drained"),
    }
}

#[tactic(auto, unfolding(crate::specs::Lines::step_text, crate::specs::Lines::outcome_line))]
fn push_outcome(row: &mut TextLine, core: u8, outcome: &Outcome)
    requires { array_vec_len row.old ≡ 0 }
    ensures { row.new.items ≡ row.old.items ++ outcome_line core outcome.now }
{
    push_step(row, core, outcome);
    push(row, b"\n");
}

/// Writes the outcome line of a step.
///
/// [`WriteFault::Write`], where the device failed: a beginning of the line was written.
pub fn write_outcome<O: Out>(core: u8, outcome: &Outcome, out: &mut O) -> Result<(), WriteFault>
    ensures { Writes (O.device out.old) (O.device out.new) (outcome_line core outcome.now) result }
{
    let mut row = TextLine::new();
    push_outcome(&mut row, core, outcome);
    out.put(row.as_slice())?;
    Ok(())
}

// The address of the line with this index.
fn line_address(at: u32, index: usize) -> u32
    ensures { result ≡ (at + 16 * index) % 2 ^ 32 }
{
    at.wrapping_add((index % 0x1000_0000) as u32 * 16)
}

fn push_dump_line(row: &mut TextLine, bytes: &[u8], at: u32, index: usize)
    requires empty { array_vec_len row.old ≡ 0 }
    requires within { 16 * index < length bytes.now }
    ensures { row.new.items ≡ row.old.items ++ dump_line bytes.now at index }
{
    push_eight(row, line_address(at, index));
    push(row, b" ");
    let rest = &bytes[16 * index..];
    push_bytes(row, &rest[..rest.len().min(16)]);
    push(row, b"\n");
}

fn write_dump_line<O: Out>(
    bytes: &[u8],
    at: u32,
    index: usize,
    out: &mut O,
) -> Result<(), WriteFault>
    requires { 16 * index < length bytes.now }
    ensures { Writes (O.device out.old) (O.device out.new) (dump_line bytes.now at index) result }
{
    let mut row = TextLine::new();
    push_dump_line(&mut row, bytes, at, index);
    out.put(row.as_slice())?;
    Ok(())
}

/// Writes the dump lines of bytes that stand at an address: 16 a line, addresses modulo 2^32.
///
/// [`WriteFault::Write`], where the device failed: a beginning of the lines was written.
pub fn write_dump<O: Out>(bytes: &[u8], at: u32, out: &mut O) -> Result<(), WriteFault>
    ensures { Writes (O.device out.old) (O.device out.new) (dump_lines bytes.now at) result }
{
    for index in 0..bytes.len().div_ceil(16) {
        write_dump_line(bytes, at, index, out)?;
    }
    Ok(())
}
