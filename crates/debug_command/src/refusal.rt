//! Faults that a line is answered with.

ghost use Rattle.std.specs.Prelude.{◌≡◌, ◌++◌};
ghost use Rattle.arrayvec.specs.ArrayVec.{array_vec_len};
ghost use Rattle.text_out.specs.Writing.{Writes};
ghost use Rattle.debug_command.specs.Refusals.{arguments_line, cores_line, plain_line, range_line, refusal_code};
ghost use Rattle.debug_command.specs.Refusals.{refusal_line};
ghost use Rattle.debug_command.specs.Refusals.{spoken_line};

use crate::command::CommandName;
use crate::manner::Manner;
use text_out::page::push;
use text_out::text_line::{TextLine, push_number};
use text_out::{Out, WriteFault};
use thiserror::Error;

/// The numbers that a command takes within a range.
#[derive(Clone, Copy, PartialEq, Eq, Debug, Drop)]
pub enum Range {
    /// Steps of a run, in turn or along the plan: 1 to 100,000.
    Steps,
    /// Steps that are taken back: 1 to as many as were made.
    Made,
    /// Addresses of breakpoints, below 2^32.
    Addresses,
    /// Bytes of memory: 1 to 256, all of them in memory.
    Bytes,
    /// Lines of a listing: 1 to 64, the first of them in the code.
    Lines,
}

/// Why a command was not done. The session goes on.
#[derive(Clone, Copy, PartialEq, Eq, Debug, Drop, Error)]
pub enum CommandRefusal {
    /// The first word is no command (70).
    #[error("UnknownCommand")]
    UnknownCommand,
    /// The line has more than 256 bytes (70).
    #[error("LongLine")]
    LongLine,
    /// The arguments of this command are too many or too few, or one is no number (71).
    #[error("BadArgument")]
    BadArgument(CommandName),
    /// An address is neither a number nor written by a symbol of the program (71).
    #[error("NoSuchSymbol")]
    NoSuchSymbol,
    /// There is no core of this number, of so many (72).
    #[error("NoSuchCore")]
    NoSuchCore(u8),
    /// A number is out of its range (73).
    #[error("OutOfRange")]
    OutOfRange(Range),
    /// The history is full (74).
    #[error("LimitReached")]
    LimitReached,
    /// 64 breakpoints are set (75).
    #[error("TooManyBreakpoints")]
    TooManyBreakpoints,
}

impl CommandRefusal {
    /// The fault's number.
    pub fn code(self) -> u8
        ensures { result ≡ refusal_code self }
    {
        match self {
            CommandRefusal::UnknownCommand | CommandRefusal::LongLine => 70,
            CommandRefusal::BadArgument(_) | CommandRefusal::NoSuchSymbol => 71,
            CommandRefusal::NoSuchCore(_) => 72,
            CommandRefusal::OutOfRange(_) => 73,
            CommandRefusal::LimitReached => 74,
            CommandRefusal::TooManyBreakpoints => 75,
        }
    }
}

// The line with the number alone.
#[tactic(auto, unfolding(crate::specs::Refusals::plain_line))]
fn plain_line(refusal: CommandRefusal) -> &'static [u8]
    ensures { result.now ≡ plain_line refusal }
{
    match refusal {
        CommandRefusal::UnknownCommand | CommandRefusal::LongLine => b"error 70\n",
        CommandRefusal::BadArgument(_) | CommandRefusal::NoSuchSymbol => b"error 71\n",
        CommandRefusal::NoSuchCore(_) => b"error 72\n",
        CommandRefusal::OutOfRange(_) => b"error 73\n",
        CommandRefusal::LimitReached => b"error 74\n",
        CommandRefusal::TooManyBreakpoints => b"error 75\n",
    }
}

// What a command takes behind its name.
#[tactic(auto, unfolding(crate::specs::Refusals::arguments_line))]
fn arguments_line(name: CommandName) -> &'static [u8]
    ensures { result.now ≡ arguments_line name }
{
    match name {
        CommandName::Step => b"error 71: step takes a core\n",
        CommandName::Run => b"error 71: run takes a number of steps\n",
        CommandName::Next => b"error 71: next takes a number of steps\n",
        CommandName::Back => b"error 71: back takes a number of steps\n",
        CommandName::Break => b"error 71: break takes an address\n",
        CommandName::Clear => b"error 71: clear takes an address\n",
        CommandName::Regs => b"error 71: regs takes a core\n",
        CommandName::Mem => b"error 71: mem takes an address and a number of bytes\n",
        CommandName::Sets => b"error 71: sets takes a core\n",
        CommandName::Why => b"error 71: why takes a core\n",
        CommandName::Pending => b"error 71: pending takes a core, or stands alone\n",
        CommandName::List => b"error 71: list takes an address and a number of lines\n",
        CommandName::Help => b"error 71: help stands alone\n",
        CommandName::Quit => b"error 71: quit stands alone\n",
    }
}

// The range of a number.
#[tactic(auto, unfolding(crate::specs::Refusals::range_line))]
fn range_line(range: Range) -> &'static [u8]
    ensures { result.now ≡ range_line range }
{
    match range {
        Range::Steps => b"error 73: run and next take 1 to 100000 steps\n",
        Range::Made => { b"error 73: back takes 1 step or more, at most as many as were made\n" }
        Range::Addresses => b"error 73: addresses are below 0x100000000\n",
        Range::Bytes => b"error 73: mem takes 1 to 256 bytes, all of them in memory\n",
        Range::Lines => b"error 73: list takes 1 to 64 lines, the first of them in the code\n",
    }
}

// How many cores there are.
#[tactic(auto, unfolding(crate::specs::Refusals::cores_line))]
fn push_cores(row: &mut TextLine, count: u8)
    requires { array_vec_len row.old ≡ 0 }
    ensures { row.new.items ≡ row.old.items ++ cores_line count }
{
    push(row, b"error 72: no such core; of cores there are ");
    push_number(row, count);
    push(row, b"\n");
}

// Tells a refusal with words.
#[tactic(auto, unfolding(crate::specs::Refusals::spoken_line))]
fn speak<O: Out>(refusal: CommandRefusal, out: &mut O) -> Result<(), WriteFault>
    ensures { Writes (O.device out.old) (O.device out.new) (spoken_line refusal) result }
{
    match refusal {
        CommandRefusal::UnknownCommand => out.put(b"error 70: no such command; help lists them\n")?,
        CommandRefusal::LongLine => out.put(b"error 70: a line has at most 256 bytes\n")?,
        CommandRefusal::BadArgument(name) => out.put(arguments_line(name))?,
        CommandRefusal::NoSuchSymbol => {
            out.put(b"error 71: no such symbol; an address is a number, SYM, SYM+N or SYM-N\n")?
        }
        CommandRefusal::NoSuchCore(count) => {
            let mut row = TextLine::new();
            push_cores(&mut row, count);
            out.put(row.as_slice())?;
        }
        CommandRefusal::OutOfRange(range) => out.put(range_line(range))?,
        CommandRefusal::LimitReached => out.put(
            b"error 74: the session has made its most steps\n",
        )?,
        CommandRefusal::TooManyBreakpoints => out.put(b"error 75: 64 breakpoints are set\n")?,
    }
    Ok(())
}

/// Tells a refusal.
pub fn refuse<O: Out>(
    manner: Manner,
    refusal: CommandRefusal,
    out: &mut O,
) -> Result<(), WriteFault>
    ensures { Writes (O.device out.old) (O.device out.new) (refusal_line manner refusal) result }
{
    match manner {
        Manner::Plain => out.put(plain_line(refusal))?,
        Manner::Spoken => speak(refusal, out)?,
    }
    Ok(())
}
