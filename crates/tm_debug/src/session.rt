//! A session: lines are read and answered one after another, by [`Session::serve`] or [`serve_in`].
//!
//! A line is read, what it requests made out and done, its answer written, and then in a spoken session the prompt:
//! a next line is read only when all of that stands. `quit`, the end of the input and an [`Interruption`] end it,
//! and each gives the board back. What is answered stands in `answer`, `run` and the modules that have a command's
//! name.

ghost use Rattle.std.specs.Prelude.{◌≡◌, ℕ, List, Err, false, true};
ghost use Rattle.text_out.specs.Writing.{Writes};
ghost use Rattle.tm_debug.specs.Session.{Answers, AnswersBroken, Ends, bye_line, start, start_in, value_of};
ghost use Rattle.tm_debug.specs.Serving.{IsLine, IsSession, Replies, RepliesBroken, Responds, RespondsBroken};
ghost use Rattle.tm_debug.specs.Serving.{TakesMemory, WantsMemory, devices, given_back, request_of};
ghost use Rattle.tm_debug.specs.Faults.{session_board, session_code};

use crate::answer::{clear_breakpoint, list, mem, regs, set_breakpoint, step, tell_done};
use crate::back::back;
use crate::help::help;
use crate::input::In;
use crate::interruption::{Interruption, answer_result};
use crate::line::{InputLine, MOST_BYTES, read_line};
use crate::pending::pending;
use crate::prompt::prompt;
use crate::run::run;
use crate::sets::sets;
use crate::state::{SessionState, Way};
use crate::why::why;
use debug_command::{
    CommandRefusal, DebugCommand, Manner, Names, read_command, refuse, split_word,
};
use std::alloc::Global;
use std::fmt;
use std::sync::Wait;
use symbols::Symbol;
use text_out::{Out, WriteFault};
use thiserror::Error;
use tm_hist::Board;
use tm_model::Pick;

/// Why a session ended before its input did. Each gives the board back, after the steps that were made.
#[derive(Drop, Error)]
pub enum SessionFault {
    /// The device that commands come from failed (76). The lines that were read stand answered, and nothing more was
    /// done.
    #[error("Read")]
    Read(Board),
    /// The device that answers go to failed (77). At most a rest of the answer to the last line that was read is
    /// missing; of a run, a rest of the outcome line of its last step.
    #[error("Write")]
    Write(Board),
    /// There was no memory for the answer to `sets`, or for the board of `back` or `why` (78). The answers before it
    /// were written.
    #[error("NoMemory")]
    NoMemory(Board),
}

/// The fault's name, without the board.
impl fmt::Debug for SessionFault {
    fn fmt<W: fmt::Write>(&self, f: &mut fmt::Formatter<W>) -> fmt::Result {
        match self {
            SessionFault::Read(_) => f.write_str("Read(..)"),
            SessionFault::Write(_) => f.write_str("Write(..)"),
            SessionFault::NoMemory(_) => f.write_str("NoMemory(..)"),
        }
    }
}

impl SessionFault {
    /// The fault's number.
    pub fn code(&self) -> u8
        ensures { result ≡ session_code self.now }
    {
        match self {
            SessionFault::Read(_) => 76,
            SessionFault::Write(_) => 77,
            SessionFault::NoMemory(_) => 78,
        }
    }

    /// The board.
    pub fn board(self) -> Board
        ensures { result ≡ session_board self }
    {
        match self {
            SessionFault::Read(board)
            | SessionFault::Write(board)
            | SessionFault::NoMemory(board) => board,
        }
    }
}

/// What a line requests.
#[derive(Clone, Copy, PartialEq, Eq)]
pub enum Request {
    /// Nothing: the line is blank.
    Nothing,
    /// It is refused.
    Refuse(CommandRefusal),
    /// A command. The end of the input requests `quit`.
    Do(DebugCommand),
}

// What the bytes of a line request, by these symbols.
#[tactic(auto, unfolding(crate::specs::Serving::request_of))]
fn text_request(symbols: &[Symbol], line: &[u8]) -> Request
    ensures { result ≡ request_of symbols.now line.now }
{
    if line.len() > MOST_BYTES {
        return Request::Refuse(CommandRefusal::LongLine);
    }
    let (word, _) = split_word(line);
    if word.is_empty() {
        return Request::Nothing;
    }
    match read_command(symbols, line) {
        Ok(command) => Request::Do(command),
        Err(refusal) => Request::Refuse(refusal),
    }
}

// Does a command.
fn act<O: Out>(
    alloc: Global,
    state: &mut SessionState,
    command: DebugCommand,
    out: &mut O,
) -> Result<(), Interruption>
    ensures answer { Ends (Answers command (value_of state.old)) (AnswersBroken command (value_of state.old))
        (O.device out.old) (O.device out.new) (value_of state.old) (value_of state.new) result }
    ensures memory { result ≡ Err Interruption.NoMemory → TakesMemory command }
{
    match command {
        DebugCommand::Step(core, event) => answer_result(step(state, core, event, out)),
        DebugCommand::Run(count) => answer_result(run(state, Way::InTurn, count, out)),
        DebugCommand::Next(count) => answer_result(run(state, Way::AlongPlan, count, out)),
        DebugCommand::Back(count) => back(alloc, state, count, out),
        DebugCommand::Break(address) => {
            answer_result(tell_done(state.manner, set_breakpoint(state, address), out))
        }
        DebugCommand::Clear(address) => {
            answer_result(tell_done(state.manner, clear_breakpoint(state, address), out))
        }
        DebugCommand::Regs(core) => answer_result(regs(state, core, out)),
        DebugCommand::Mem(at, count) => answer_result(mem(
            state.manner,
            state.board.machine(),
            at,
            count,
            out,
        )),
        DebugCommand::Sets(core) => sets(alloc, state, core, out),
        DebugCommand::Why(core) => why(alloc, state, core, out),
        DebugCommand::Pending(core) => answer_result(pending(state, core, out)),
        DebugCommand::List(at, count) => answer_result(list(
            state.manner,
            state.told_labels(),
            state.board.program(),
            at,
            count,
            out,
        )),
        DebugCommand::Help => answer_result(help(out)),
        DebugCommand::Quit => answer_result(part(out)),
    }
}

// The parting word.
fn part<O: Out>(out: &mut O) -> Result<(), WriteFault>
    ensures { Writes (O.device out.old) (O.device out.new) bye_line result }
{
    out.put(b"bye\n")?;
    Ok(())
}

// Answers a line.
fn respond<O: Out>(
    alloc: Global,
    state: &mut SessionState,
    request: Request,
    out: &mut O,
) -> Result<(), Interruption>
    ensures answer { Ends (Responds request (value_of state.old)) (RespondsBroken request (value_of state.old))
        (O.device out.old) (O.device out.new) (value_of state.old) (value_of state.new) result }
    ensures memory { result ≡ Err Interruption.NoMemory → WantsMemory request }
{
    match request {
        Request::Nothing => Ok(()),
        Request::Refuse(refusal) => answer_result(refuse(state.manner, refusal, out)),
        Request::Do(command) => act(alloc, state, command, out),
    }
}

// Answers a line, and asks for the next.
fn reply<O: Out>(
    alloc: Global,
    state: &mut SessionState,
    request: Request,
    out: &mut O,
) -> Result<(), Interruption>
    ensures answer { Ends (Replies request (value_of state.old)) (RepliesBroken request (value_of state.old))
        (O.device out.old) (O.device out.new) (value_of state.old) (value_of state.new) result }
    ensures memory { result ≡ Err Interruption.NoMemory → WantsMemory request }
{
    let manner = state.manner;
    respond(alloc, state, request, out)?;
    answer_result(prompt(manner, out))
}

// What a line requests in this state.
fn line_request(state: &SessionState, line: &InputLine) -> Request
    ensures text { (text : List ℕ) → IsLine text line.now → result ≡ request_of (value_of state.now).symbols text }
    ensures end { line.now ≡ InputLine.End → result ≡ Request.Do DebugCommand.Quit }
{
    match line {
        InputLine::End => Request::Do(DebugCommand::Quit),
        InputLine::Text(row) => text_request(state.names.symbols.as_slice(), row.as_slice()),
        InputLine::Long => Request::Refuse(CommandRefusal::LongLine),
    }
}

// Whether a request ends the session.
fn is_end(request: Request) -> bool
    ensures end { result ≡ true → request ≡ Request.Do DebugCommand.Quit }
    ensures other { result ≡ false → request ≡ Request.Do DebugCommand.Quit → ⊥ }
{
    matches!(request, Request::Do(DebugCommand::Quit))
}

// Answers lines up to the first that ends the session. The prompt before the first is the caller's: from there on the
// session begins as a plain one.
fn serve_lines<W: Wait, I: In, O: Out>(
    rt: &W,
    alloc: Global,
    state: &mut SessionState,
    input: &mut I,
    out: &mut O,
) -> Result<(), Interruption>
    ensures { IsSession Manner.Plain (value_of state.old)
        (devices (I.failed input.old) (I.remaining input.old) (O.device out.old))
        (devices (I.failed input.new) (I.remaining input.new) (O.device out.new))
        (given_back result state.new.board) }
{
    'lines: for _ in rt.forever() {
        let line = match read_line(rt, input) {
            Ok(line) => line,
            Err(_) => return Err(Interruption::Read),
        };
        let request = line_request(state, &line);
        if is_end(request) {
            // No prompt comes behind it, as no further line is read.
            return respond(alloc, state, request, out);
        }
        reply(alloc, state, request, out)?;
    }
    unreachable!()
}

// Answers the lines of the input from this state on, behind the first prompt.
fn serve_from<W: Wait, I: In, O: Out>(
    rt: &W,
    alloc: Global,
    state: SessionState,
    input: &mut I,
    out: &mut O,
) -> Result<Board, SessionFault>
    ensures { IsSession Manner.Plain (value_of state)
        (devices (I.failed input.old) (I.remaining input.old) (O.device out.old))
        (devices (I.failed input.new) (I.remaining input.new) (O.device out.new)) result }
{
    let mut state = state;
    match serve_lines(rt, alloc, &mut state, input, out) {
        Ok(()) => Ok(state.board),
        Err(Interruption::Read) => Err(SessionFault::Read(state.board)),
        Err(Interruption::Write) => Err(SessionFault::Write(state.board)),
        Err(Interruption::NoMemory) => Err(SessionFault::NoMemory(state.board)),
    }
}

/// A session of commands over a board.
pub struct Session<'a, I: In, O: Out, B = Board> {
    input: &'a mut I,
    out: &'a mut O,
    // Its type is a parameter so that the clauses of a call that takes the session can speak of the devices that it
    // left: they cannot where a field's declared type owns memory.
    board: B,
}

impl<'a, I: In, O: Out> Session<'a, I, O> {
    /// A session that reads commands from one device and writes answers to another. Takes no memory.
    pub fn new(board: Board, input: &'a mut I, out: &'a mut O) -> Session<'a, I, O>
        ensures board { result.board ≡ board }
        ensures input { result.input ≡ input.entry }
        ensures out { result.out ≡ out.entry }
    {
        Session { input, out, board }
    }

    /// Answers the lines of the input, up to `quit` or the input's end, and gives the board back after the steps that
    /// were made. Waits for its input only.
    ///
    /// Nothing behind the line that ends the session is read. [`SessionFault`] tells what ended it before, and how much
    /// of the answers was written: the board has made the steps that they tell, the last of which may not stand there
    /// whole.
    // `self.exit.0` is the input that the call left, and `self.exit.1.0` the device for answers.
    pub fn serve<W: Wait>(self, rt: &W, alloc: Global) -> Result<Board, SessionFault>
        ensures { IsSession Manner.Plain (start self.entry.board)
            (devices (I.failed self.entry.input.now) (I.remaining self.entry.input.now) (O.device self.entry.out.now))
            (devices (I.failed self.exit.0.now) (I.remaining self.exit.0.now) (O.device self.exit.1.0.now)) result }
    {
        let Session { input, out, board } = self;
        serve_from(rt, alloc, SessionState::plain(alloc, board), input, out)
    }
}

/// Answers the lines of an input with a board, as [`Session::serve`] of these three does.
pub fn serve<W: Wait, I: In, O: Out>(
    rt: &W,
    alloc: Global,
    board: Board,
    input: &mut I,
    out: &mut O,
) -> Result<Board, SessionFault>
    ensures { IsSession Manner.Plain (start board)
        (devices (I.failed input.old) (I.remaining input.old) (O.device out.old))
        (devices (I.failed input.new) (I.remaining input.new) (O.device out.new)) result }
{
    Session::new(board, input, out).serve(rt, alloc)
}

/// Answers the lines of an input with a board in this manner: plainly as [`serve`] does, or spoken, with a prompt
/// before each line is read. The plan has the core of each step that `next` makes: the first is that of the board's
/// first step. Commands may write addresses by the names' symbols, and the answers of a spoken session tell them by the
/// names' labels, and of each step what it did.
pub fn serve_in<W: Wait, I: In, O: Out>(
    rt: &W,
    alloc: Global,
    manner: Manner,
    plan: Vec<Pick>,
    names: Names,
    board: Board,
    input: &mut I,
    out: &mut O,
) -> Result<Board, SessionFault>
    ensures { IsSession manner (start_in manner plan.items names.symbols.items names.labels.items board)
        (devices (I.failed input.old) (I.remaining input.old) (O.device out.old))
        (devices (I.failed input.new) (I.remaining input.new) (O.device out.new)) result }
{
    match prompt(manner, out) {
        Ok(()) => serve_from(
            rt,
            alloc,
            SessionState::new(manner, plan, names, board),
            input,
            out,
        ),
        Err(_) => Err(SessionFault::Write(board)),
    }
}
