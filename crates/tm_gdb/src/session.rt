//! A session: bytes are read, and the packets among them answered: [`serve`].
//!
//! A byte is heard at a time. A packet that is whole is acknowledged first, so that gdb knows of it while a run
//! goes on; then it is carried out (`answer`), and its answer written and kept, in case gdb asks to hear it once
//! more. How packets and commands are read is `gdb_packet`'s.

ghost use Rattle.std.specs.Prelude.{◌≡◌, ◌∷◌, ◌++◌, ℕ, List, Err, IfErr, IfOk, None, OnErr, OnOk, Some};
ghost use Rattle.std.specs.Prelude.{[]};
ghost use Rattle.std.specs.Prelude.{false, option_to_list, true};
ghost use Rattle.std.specs.Io.KnownBytes.{Keeps};
ghost use Rattle.gdb_packet.specs.Packet.{framed};
ghost use Rattle.gdb_packet.specs.Reading.{Hears, IsBehind};
ghost use Rattle.text_out.specs.Writing.{Rose, Wrote};
ghost use Rattle.tm_hist.specs.Board.{SameBoard};
ghost use Rattle.tm_debug.specs.Serving.{devices};
ghost use Rattle.tm_gdb.specs.Answers.{Answers};
ghost use Rattle.tm_gdb.specs.Serving.{FailsToRead, IsSession, ServesInput, start};
ghost use Rattle.tm_gdb.specs.Sessions.{IsAnswered, IsDone, acknowledgement, acknowledges_behind, again_text, is_end};
ghost use Rattle.tm_gdb.specs.Sessions.{reply_text};
ghost use Rattle.tm_gdb.specs.States.{IsAnswering, IsHeard, Puts, session_value};
ghost use Rattle.tm_gdb.specs.Values.{picks_in, value_of};

use crate::answer::carry_out;
use crate::target::Target;
use gdb_packet::{Bytes, Command, Heard, Question, Reader, read_command, write_packet};
use std::alloc::Global;
use std::sync::Wait;
use text_out::{Failed, Out};
use tm_debug::{In, SessionFault};
use tm_hist::Board;
use tm_model::Pick;

/// What ends a session before its input or gdb does.
#[derive(Clone, Copy, PartialEq, Eq, Debug)]
pub enum Interruption {
    /// The device that packets come from failed.
    Read,
    /// The device that answers go to failed.
    Write,
    /// There was no memory for an answer.
    NoMemory,
}

/// What a session keeps.
#[derive(Drop)]
pub struct Session {
    target: Target,
    reader: Reader,
    // Whether packets are acknowledged.
    acknowledges: bool,
    // The last answer, which gdb may ask to hear once more.
    last: Option<Bytes>,
}

// Writes bytes.
fn put<O: Out>(bytes: &[u8], out: &mut O) -> Result<(), Interruption>
    ensures { Puts bytes.now (O.device out.old) (O.device out.new) result }
{
    match out.put(bytes) {
        Ok(()) => Ok(()),
        Err(Failed) => Err(Interruption::Write),
    }
}

// Writes the packet that tells these bytes.
#[inline(never)]
fn put_packet<O: Out>(bytes: &Bytes, out: &mut O) -> Result<(), Interruption>
    ensures { Puts (framed bytes.now.items) (O.device out.old) (O.device out.new) result }
{
    match write_packet(bytes.as_slice(), out) {
        Ok(()) => Ok(()),
        Err(_) => Err(Interruption::Write),
    }
}

// Writes the answer to a command. `k` wants none: gdb goes without a word.
fn put_reply<O: Out>(command: &Command, answer: &Bytes, out: &mut O) -> Result<(), Interruption>
    ensures { Puts (reply_text command.now answer.now.items) (O.device out.old) (O.device out.new) result }
{
    match command {
        Command::Ask(Question::Kill) => Ok(()),
        _ => put_packet(answer, out),
    }
}

// The next byte, or nothing at the end.
fn next_byte<I: In>(input: &mut I) -> Result<Option<u8>, Interruption>
    ensures byte { IfOk result (λ byte. (bytes : List ℕ) → I.remaining input.old ≡ Some bytes → (rest : List ℕ)
        × (I.remaining input.new ≡ Some rest) × (bytes ≡ option_to_list byte ++ rest) × (byte ≡ None → rest ≡ [])) }
    ensures kept { OnOk result (I.failed input.new ≡ I.failed input.old) }
    ensures err { IfErr result (λ fault. fault ≡ Interruption.Read) }
    ensures stays { OnErr result (Keeps (I.remaining input.old) (I.remaining input.new)) }
    ensures rose { OnErr result (Rose (I.failed input.old) (I.failed input.new)) }
{
    let mut byte = [0];
    match input.get(&mut byte) {
        Ok(count) => Ok(if count == 0 { None } else { Some(byte[0]) }),
        Err(Failed) => Err(Interruption::Read),
    }
}

// Whether a command ends the session.
fn is_end(command: &Command) -> bool
    ensures { result ≡ is_end command.now }
{
    match command {
        Command::Ask(Question::Detach)
        | Command::Ask(Question::Kill)
        | Command::Ask(Question::KillAnswered) => true,
        _ => false,
    }
}

// Whether packets are acknowledged behind a command.
fn acknowledges_behind(command: &Command, wanted: bool) -> bool
    ensures { result ≡ acknowledges_behind command.now wanted }
{
    match command {
        Command::Ask(Question::NoAcknowledgements) => false,
        _ => wanted,
    }
}

// What is large stands in functions of their own that are not inlined: a stack that is small has to hold the bytes of a
// packet and those of its answer, and not what hearing the one and writing the other keep there, too.
impl Session {
    #[inline(never)]
    fn new(board: Board, plan: Option<Vec<Pick>>) -> Session
        ensures value { session_value result ≡ start board (picks_in plan) }
        ensures reader { IsBehind [] result.reader }
    {
        Session {
            target: Target::new(board, plan),
            reader: Reader::new(),
            acknowledges: true,
            last: None,
        }
    }

    // Does what a command says and writes its answer.
    fn reply<O: Out>(
        &mut self,
        alloc: Global,
        command: &Command,
        out: &mut O,
    ) -> Result<(), Interruption>
        ensures ok { OnOk result ((answer : List ℕ)
            × Answers command.now (value_of self.old.target) answer (value_of self.new.target)
            × ((session_value self.new).last ≡ Some answer)
            × Wrote (O.device out.old) (O.device out.new) (reply_text command.now answer)) }
        ensures reader { self.new.reader ≡ self.old.reader }
        ensures acknowledges { self.new.acknowledges ≡ self.old.acknowledges }
        ensures answering { IsAnswering self.old self.new (O.device out.old) (O.device out.new) result }
    {
        let mut row = Bytes::new();
        match carry_out(alloc, &mut self.target, command, &mut row) {
            Ok(()) => {}
            Err(_) => return Err(Interruption::NoMemory),
        }
        let written = put_reply(command, &row, out);
        self.last = Some(row);
        written
    }

    // Answers a packet, and tells whether the session goes on.
    fn respond<O: Out>(
        &mut self,
        alloc: Global,
        packet: &[u8],
        out: &mut O,
    ) -> Result<bool, Interruption>
        ensures done { IfOk result (λ goes_on. (text : List ℕ)
            × IsAnswered packet.now (session_value self.old) text (session_value self.new) goes_on
            × Wrote (O.device out.old) (O.device out.new) text) }
        ensures reader { self.new.reader ≡ self.old.reader }
        ensures answering { IsAnswering self.old self.new (O.device out.old) (O.device out.new) result }
    {
        let command = read_command(packet);
        self.acknowledge(out)?;
        self.reply(alloc, &command, out)?;
        // Behind the answer: the packet that wants no more of them is still acknowledged.
        self.acknowledges = acknowledges_behind(&command, self.acknowledges);
        Ok(!is_end(&command))
    }

    // Tells gdb that a packet was received, where it wants to know.
    fn acknowledge<O: Out>(&self, out: &mut O) -> Result<(), Interruption>
        ensures { Puts (acknowledgement self.now.acknowledges) (O.device out.old) (O.device out.new) result }
    {
        if self.acknowledges {
            put(b"+", out)
        } else {
            Ok(())
        }
    }

    // Hears a byte.
    #[inline(never)]
    fn hear_byte(&mut self, byte: u8) -> Heard
        ensures hears { (since : List ℕ) → IsBehind since self.old.reader
            → Hears (since ++ byte ∷ []) result self.new.reader }
        ensures value { session_value self.new ≡ session_value self.old }
    {
        self.reader.hear(byte)
    }

    // Does what is to be done of what was heard, and tells whether the session goes on. A packet that was damaged or
    // is too long is refused by a `-`. The target stands whenever a byte is heard, so that an interrupt stops
    // nothing.
    fn act<O: Out>(
        &mut self,
        alloc: Global,
        heard: &Heard,
        out: &mut O,
    ) -> Result<bool, Interruption>
        ensures done { IfOk result (λ goes_on. (text : List ℕ)
            × IsDone heard.now (session_value self.old) text (session_value self.new) goes_on
            × Wrote (O.device out.old) (O.device out.new) text) }
        ensures reader { self.new.reader ≡ self.old.reader }
        ensures answering { IsAnswering self.old self.new (O.device out.old) (O.device out.new) result }
    {
        match heard {
            Heard::Packet(bytes) => self.respond(alloc, bytes.as_slice(), out),
            Heard::Damaged => refuse(out),
            Heard::TooLong => refuse(out),
            Heard::Resend => self.resend(out),
            Heard::Nothing => Ok(true),
            Heard::Interrupt => Ok(true),
            Heard::Received => Ok(true),
            Heard::Stray(_) => Ok(true),
        }
    }

    // Hears a byte and does what is to be done of what it completes.
    fn hear<O: Out>(&mut self, alloc: Global, byte: u8, out: &mut O) -> Result<bool, Interruption>
        ensures heard { IfOk result (λ goes_on. IsHeard byte self.old.reader self.new.reader (session_value self.old)
            (session_value self.new) goes_on (O.device out.old) (O.device out.new)) }
        ensures answering { IsAnswering self.old self.new (O.device out.old) (O.device out.new) result }
    {
        let heard = self.hear_byte(byte);
        self.act(alloc, &heard, out)
    }

    // Writes the last answer once more, if there was one.
    fn resend<O: Out>(&self, out: &mut O) -> Result<bool, Interruption>
        ensures puts { Puts (again_text (session_value self.now).last) (O.device out.old) (O.device out.new) result }
        ensures on { IfOk result (λ goes_on. goes_on ≡ true) }
    {
        let Some(last) = &self.last else {
            return Ok(true);
        };
        put_packet(last, out)?;
        Ok(true)
    }
}

// Tells gdb to send its packet once more.
fn refuse<O: Out>(out: &mut O) -> Result<bool, Interruption>
    ensures puts { Puts (45 ∷ []) (O.device out.old) (O.device out.new) result }
    ensures on { IfOk result (λ goes_on. goes_on ≡ true) }
{
    put(b"-", out)?;
    Ok(true)
}

// Hears the bytes of the input, up to its end or that of the session.
fn serve_bytes<W: Wait, I: In, O: Out>(
    rt: &W,
    alloc: Global,
    session: &mut Session,
    input: &mut I,
    out: &mut O,
) -> Result<(), Interruption>
    requires { IsBehind [] session.old.reader }
    ensures ok { OnOk result (ServesInput (I.remaining input.old) (I.remaining input.new) (session_value session.old)
        (O.device out.old) (O.device out.new) session.new.target.board) }
    ensures same { SameBoard session.old.target.board session.new.target.board }
    ensures read { result ≡ Err Interruption.Read → Rose (I.failed input.old) (I.failed input.new) }
    ensures read_packets { result ≡ Err Interruption.Read → FailsToRead (I.remaining input.old) (I.remaining input.new)
        (session_value session.old) (O.device out.old) (O.device out.new) session.new.target.board }
    ensures write { result ≡ Err Interruption.Write
        → Rose (O.device out.old).failures (O.device out.new).failures }
{
    'bytes: for _ in rt.forever() {
        let found = next_byte(input)?;
        let byte = match found {
            Some(byte) => byte,
            None => return Ok(()),
        };
        let goes_on = session.hear(alloc, byte, out)?;
        if !goes_on {
            return Ok(());
        }
    }
    unreachable!()
}

/// Answers the packets of an input with a board, up to gdb's `detach` or `kill` or the input's end, and gives the
/// board back after the steps that were made. A continued run of all cores goes along the schedule, each pick behind
/// as many steps as stand before it; without one the cores go on in turn. Waits for its input only.
///
/// A packet that was damaged or is too long is refused by a `-`, and other bytes between packets are not answered.
/// [`SessionFault`] tells what ended the session before: a device that failed (76, 77), or want of memory for the board
/// of the first steps or for the lines of a set (78).
pub fn serve<W: Wait, I: In, O: Out>(
    rt: &W,
    alloc: Global,
    board: Board,
    plan: Option<Vec<Pick>>,
    input: &mut I,
    out: &mut O,
) -> Result<Board, SessionFault>
    ensures { IsSession board (picks_in plan)
        (devices (I.failed input.old) (I.remaining input.old) (O.device out.old))
        (devices (I.failed input.new) (I.remaining input.new) (O.device out.new)) result }
{
    let mut session = Session::new(board, plan);
    match serve_bytes(rt, alloc, &mut session, input, out) {
        Ok(()) => Ok(session.target.board),
        Err(Interruption::Read) => Err(SessionFault::Read(session.target.board)),
        Err(Interruption::Write) => Err(SessionFault::Write(session.target.board)),
        Err(Interruption::NoMemory) => Err(SessionFault::NoMemory(session.target.board)),
    }
}
