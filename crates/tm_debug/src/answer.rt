//! What most commands answer: a step, breakpoints, registers, memory and listings.
//!
//! A call tests its numbers first; what is out of range is refused in a line, and changes nothing. The steps of a
//! run are in `run`, and what needs memory for its answer in `back`, `sets` and `why`. Which call a line leads to
//! is said in `session`.

ghost use Rattle.std.specs.Prelude.{◌≡◌, ◌==◌, ◌++◌, ◌<◌, IfSome, length};
ghost use Rattle.std.specs.List.{position};
ghost use Rattle.arrayvec.specs.ArrayVec.{array_vec_len};
ghost use Rattle.text_out.specs.Writing.{Writes};
ghost use Rattle.tm_debug.specs.Session.{StepAnswer, TellsAnswer, break_front, break_line, core_named, cores_of};
ghost use Rattle.tm_debug.specs.Session.{done_line};
ghost use Rattle.tm_debug.specs.Session.{list_answer, mem_answer, ok_line, value_of, regs_answer, set_break};
ghost use Rattle.tm_debug.specs.Session.{run_ending, some_lines, unset_break};
ghost use Rattle.debug_command.specs.Places.{place_text};
ghost use Rattle.debug_command.specs.Refusals.{refusal_line};
ghost use Rattle.text_out.specs.TextLine.{line_end};

use crate::state::{MOST_BREAKPOINTS, RunCheck, SessionState};
use crate::told::{make_step, write_told};
use debug_command::{CommandRefusal, Manner, Range, refuse, write_labelled, write_place};
use ia_image::Program;
use symbols::Symbol;
use text_out::page::{push, push_eight};
use text_out::text_line::{TextLine, push_number};
use text_out::{Out, WriteFault};
use tm_core::Machine;
use tm_hist::{StepFault, write_core, write_dump};
use tm_model::{Event, Pick};

/// Tells that there is no core of a number.
pub fn refuse_core<O: Out>(state: &SessionState, out: &mut O) -> Result<(), WriteFault>
    ensures { Writes (O.device out.old) (O.device out.new)
        (refusal_line state.now.manner (CommandRefusal.NoSuchCore (cores_of (value_of state.now)))) result }
{
    refuse(
        state.manner,
        CommandRefusal::NoSuchCore(state.board.cores()),
        out,
    )
}

/// Tells that a command was done.
fn agree<O: Out>(out: &mut O) -> Result<(), WriteFault>
    ensures { Writes (O.device out.old) (O.device out.new) ok_line result }
{
    out.put(b"ok\n")?;
    Ok(())
}

/// The core of this number.
pub fn core_of(state: &SessionState, core: u64) -> Option<u8>
    ensures named { result ≡ core_named (value_of state.now) core }
    ensures exists { IfSome result (λ c. c < length state.now.board.machine.views) }
{
    if core < u64::from(state.board.cores()) {
        Some(core as u8)
    } else {
        None
    }
}

/// A step of a core, under an event or under none.
pub fn step<O: Out>(
    state: &mut SessionState,
    core: u64,
    event: Option<Event>,
    out: &mut O,
) -> Result<(), WriteFault>
    ensures { TellsAnswer (StepAnswer (value_of state.old) core event) (O.device out.old) (O.device out.new)
        (value_of state.new) result }
{
    let Some(core) = core_of(state, core) else {
        return refuse_core(state, out);
    };
    let manner = state.manner;
    match make_step(state, Pick { core, event }) {
        Ok(told) => write_told(state.told_labels(), core, &told, out),
        Err(StepFault::NoSuchCore) => refuse_core(state, out),
        Err(StepFault::LimitReached) => refuse(manner, CommandRefusal::LimitReached, out),
    }
}

fn push_break(row: &mut TextLine, core: u8, address: u32)
    requires { array_vec_len row.old ≡ 0 }
    ensures { row.new.items ≡ row.old.items ++ break_front core address }
{
    push(row, b"break ");
    push_number(row, core);
    push(row, b" ");
    push_eight(row, address);
}

// Where a place is told, and the end of its line.
fn end_line<O: Out>(labels: &[Symbol], address: u32, out: &mut O) -> Result<(), WriteFault>
    ensures { Writes (O.device out.old) (O.device out.new) (place_text labels.now address ++ line_end) result }
{
    write_place(labels, address, out)?;
    out.put(b"\n")?;
    Ok(())
}

// The line of a breakpoint.
fn write_break<O: Out>(
    labels: &[Symbol],
    core: u8,
    address: u32,
    out: &mut O,
) -> Result<(), WriteFault>
    ensures { Writes (O.device out.old) (O.device out.new) (break_line labels.now core address) result }
{
    let mut row = TextLine::new();
    push_break(&mut row, core, address);
    out.put(row.as_slice())?;
    end_line(labels, address, out)
}

/// The line that ends a run, and none where it goes on.
pub fn end_run<O: Out>(state: &SessionState, check: RunCheck, out: &mut O) -> Result<(), WriteFault>
    ensures { Writes (O.device out.old) (O.device out.new) (run_ending (value_of state.now) check) result }
{
    match check {
        RunCheck::AllStopped => out.put(b"all stopped\n")?,
        RunCheck::PlanEnded => out.put(b"the schedule has ended\n")?,
        RunCheck::NoCore(count) => refuse(state.manner, CommandRefusal::NoSuchCore(count), out)?,
        RunCheck::Full => refuse(state.manner, CommandRefusal::LimitReached, out)?,
        RunCheck::AtBreakpoint(core, address) => {
            write_break(state.told_labels(), core, address, out)?
        }
        RunCheck::Go(_pick) => out.put(b"")?,
    }
    Ok(())
}

// Where a breakpoint stands in the list.
fn position_of(breakpoints: &[u32], address: u32) -> Option<usize>
    ensures { result ≡ position (λ b. b == address) breakpoints.now }
{
    breakpoints.iter().position(|b| *b == address)
}

/// Sets a breakpoint, or says why not.
pub fn set_breakpoint(state: &mut SessionState, address: u64) -> Result<(), CommandRefusal>
    ensures { (result, value_of state.new) ≡ set_break (value_of state.old) address }
{
    if address > u64::from(u32::MAX) {
        return Err(CommandRefusal::OutOfRange(Range::Addresses));
    }
    let address = address as u32;
    if position_of(state.breakpoints.as_slice(), address).is_some() {
        return Ok(());
    }
    if state.breakpoints.len() == MOST_BREAKPOINTS {
        return Err(CommandRefusal::TooManyBreakpoints);
    }
    state.breakpoints.push(address);
    Ok(())
}

/// Takes a breakpoint away, or says why not.
pub fn clear_breakpoint(state: &mut SessionState, address: u64) -> Result<(), CommandRefusal>
    ensures { (result, value_of state.new) ≡ unset_break (value_of state.old) address }
{
    if address > u64::from(u32::MAX) {
        return Err(CommandRefusal::OutOfRange(Range::Addresses));
    }
    if let Some(index) = position_of(state.breakpoints.as_slice(), address as u32) {
        let _ = state.breakpoints.remove(index);
    }
    Ok(())
}

/// Tells that a command was done, or why not.
pub fn tell_done<O: Out>(
    manner: Manner,
    done: Result<(), CommandRefusal>,
    out: &mut O,
) -> Result<(), WriteFault>
    ensures { Writes (O.device out.old) (O.device out.new) (done_line manner done) result }
{
    match done {
        Ok(()) => agree(out),
        Err(refusal) => refuse(manner, refusal, out),
    }
}

/// The state line of a core.
pub fn regs<O: Out>(state: &SessionState, core: u64, out: &mut O) -> Result<(), WriteFault>
    ensures { Writes (O.device out.old) (O.device out.new) (regs_answer (value_of state.now) core) result }
{
    match core_of(state, core) {
        Some(core) => write_core(state.board.machine(), core, out),
        None => refuse_core(state, out),
    }
}

/// Dump lines of memory.
pub fn mem<O: Out>(
    manner: Manner,
    machine: &Machine,
    at: u64,
    count: u64,
    out: &mut O,
) -> Result<(), WriteFault>
    ensures { Writes (O.device out.old) (O.device out.new) (mem_answer manner machine.now at count) result }
{
    let memory = machine.view();
    if !(1..=256).contains(&count)
        || at > u64::from(u32::MAX)
        || at > memory.len() as u64
        || count > memory.len() as u64 - at
    {
        return refuse(manner, CommandRefusal::OutOfRange(Range::Bytes), out);
    }
    let from = at as usize;
    write_dump(&memory[from..from + count as usize], at as u32, out)
}

// So many listing lines of some code at an address, with the names of labels above them.
fn write_lines<O: Out>(
    labels: &[Symbol],
    code: &[u8],
    at: u32,
    count: u8,
    out: &mut O,
) -> Result<(), WriteFault>
    ensures { Writes (O.device out.old) (O.device out.new) (some_lines labels.now count code.now at) result }
{
    if count == 0 {
        return Ok(());
    }
    let shown = write_labelled(labels, code, at, out)?;
    write_lines(
        labels,
        &code[usize::from(shown)..],
        at.wrapping_add(u32::from(shown)),
        count - 1,
        out,
    )
}

/// A listing.
pub fn list<O: Out>(
    manner: Manner,
    labels: &[Symbol],
    program: &Program,
    at: u64,
    count: u64,
    out: &mut O,
) -> Result<(), WriteFault>
    ensures { Writes (O.device out.old) (O.device out.new) (list_answer manner labels.now program.now at count) result }
{
    let code = program.code();
    let base = u64::from(program.base());
    if !(1..=64).contains(&count) || at < base || at - base >= code.len() as u64 {
        return refuse(manner, CommandRefusal::OutOfRange(Range::Lines), out);
    }
    write_lines(
        labels,
        &code[(at - base) as usize..],
        at as u32,
        count as u8,
        out,
    )
}
