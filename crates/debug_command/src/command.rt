//! Commands as they are read: a line comes in, and its command comes out with its numbers, or why it is none. Names in
//! place of addresses are looked up here; whether a number is in its range is asked where the command is carried out.

ghost use Rattle.std.specs.Prelude.{◌≡◌};
ghost use Rattle.debug_command.specs.Numbers.{number_in};
ghost use Rattle.debug_command.specs.Addresses.{address_in};
ghost use Rattle.debug_command.specs.Commands.{address_and_number, address_result, at_most_one, command_alone};
ghost use Rattle.debug_command.specs.Commands.{command_named, command_of, name_of, number_result, one_address};
ghost use Rattle.debug_command.specs.Commands.{one_number, one_step, step_result};
ghost use Rattle.tm_schedule.specs.Picks.{pick_of_word};

use crate::address::read_address;
use crate::number::number;
use crate::refusal::CommandRefusal;
use crate::words::split_word;
use symbols::Symbol;
use tm_model::Event;
use tm_schedule::pick_of_word;

/// The name of a command.
#[derive(Clone, Copy, PartialEq, Eq, Debug, Drop)]
pub enum CommandName {
    Step,
    Run,
    Next,
    Back,
    Break,
    Clear,
    Regs,
    Mem,
    Sets,
    Why,
    Pending,
    List,
    Help,
    Quit,
}

/// A command with its numbers, of which none is in its range for sure.
#[derive(Clone, Copy, PartialEq, Eq)]
pub enum DebugCommand {
    /// A step of this core, under this event or under none.
    Step(u64, Option<Event>),
    /// So many steps, round by round.
    Run(u64),
    /// So many steps of the plan.
    Next(u64),
    /// Takes so many steps back.
    Back(u64),
    /// Sets a breakpoint at this address.
    Break(u64),
    /// Takes the breakpoint at this address away.
    Clear(u64),
    /// The state of this core.
    Regs(u64),
    /// Bytes of memory: the address of the first, and how many.
    Mem(u64, u64),
    /// The read set and the write set of this core.
    Sets(u64),
    /// Why the next step of this core is an abort.
    Why(u64),
    /// The stores of this core that are pending, or of each core.
    Pending(Option<u64>),
    /// A listing: the address of its first line, and how many lines.
    List(u64, u64),
    /// The commands.
    Help,
    /// The end of the session.
    Quit,
}

#[tactic(auto, unfolding(crate::specs::Commands::name_of))]
fn name_of(word: &[u8]) -> Option<CommandName>
    ensures { result ≡ name_of word.now }
{
    if word == b"step".as_slice() {
        Some(CommandName::Step)
    } else if word == b"run".as_slice() {
        Some(CommandName::Run)
    } else if word == b"next".as_slice() {
        Some(CommandName::Next)
    } else if word == b"back".as_slice() {
        Some(CommandName::Back)
    } else if word == b"break".as_slice() {
        Some(CommandName::Break)
    } else if word == b"clear".as_slice() {
        Some(CommandName::Clear)
    } else if word == b"regs".as_slice() {
        Some(CommandName::Regs)
    } else if word == b"mem".as_slice() {
        Some(CommandName::Mem)
    } else if word == b"sets".as_slice() {
        Some(CommandName::Sets)
    } else if word == b"why".as_slice() {
        Some(CommandName::Why)
    } else if word == b"pending".as_slice() {
        Some(CommandName::Pending)
    } else if word == b"list".as_slice() {
        Some(CommandName::List)
    } else if word == b"help".as_slice() {
        Some(CommandName::Help)
    } else if word == b"quit".as_slice() {
        Some(CommandName::Quit)
    } else {
        None
    }
}

// The number that a word writes.
fn number_of(name: CommandName, word: &[u8]) -> Result<u64, CommandRefusal>
    ensures { result ≡ number_result name (number_in word.now) }
{
    number(word).ok_or(CommandRefusal::BadArgument(name))
}

// The address that a word writes, by a number or a symbol.
fn address_of(name: CommandName, symbols: &[Symbol], word: &[u8]) -> Result<u64, CommandRefusal>
    ensures { result ≡ address_result name word.now (address_in symbols.now word.now) }
{
    match read_address(symbols, word) {
        Some(address) => Ok(address),
        None if word.is_empty() => Err(CommandRefusal::BadArgument(name)),
        None => Err(CommandRefusal::NoSuchSymbol),
    }
}

// The one number that is given.
fn one(name: CommandName, first: &[u8], second: &[u8]) -> Result<u64, CommandRefusal>
    ensures { result ≡ one_number name first.now second.now }
{
    if !second.is_empty() {
        return Err(CommandRefusal::BadArgument(name));
    }
    number_of(name, first)
}

// The one number that is given, or that none is.
fn at_most_one(
    name: CommandName,
    first: &[u8],
    second: &[u8],
) -> Result<Option<u64>, CommandRefusal>
    ensures { result ≡ at_most_one name first.now second.now }
{
    if first.is_empty() {
        return Ok(None);
    }
    let number = one(name, first, second)?;
    Ok(Some(number))
}

// The step that a word says: a number is a core under no event, and any other word that of a schedule.
fn step_of(word: &[u8]) -> Result<(u64, Option<Event>), CommandRefusal>
    ensures { result ≡ step_result (number_in word.now) (pick_of_word word.now) }
{
    if let Some(core) = number(word) {
        return Ok((core, None));
    }
    match pick_of_word(word) {
        Some(pick) => Ok((u64::from(pick.core), pick.event)),
        None => Err(CommandRefusal::BadArgument(CommandName::Step)),
    }
}

// The one step that is given.
fn one_step(first: &[u8], second: &[u8]) -> Result<(u64, Option<Event>), CommandRefusal>
    ensures { result ≡ one_step first.now second.now }
{
    if !second.is_empty() {
        return Err(CommandRefusal::BadArgument(CommandName::Step));
    }
    step_of(first)
}

// The one address that is given.
fn one_address(
    name: CommandName,
    symbols: &[Symbol],
    first: &[u8],
    second: &[u8],
) -> Result<u64, CommandRefusal>
    ensures { result ≡ one_address name symbols.now first.now second.now }
{
    if !second.is_empty() {
        return Err(CommandRefusal::BadArgument(name));
    }
    address_of(name, symbols, first)
}

// The address and the number that are given.
fn two(
    name: CommandName,
    symbols: &[Symbol],
    first: &[u8],
    second: &[u8],
    third: &[u8],
) -> Result<(u64, u64), CommandRefusal>
    ensures { result ≡ address_and_number name symbols.now first.now second.now third.now }
{
    if !third.is_empty() {
        return Err(CommandRefusal::BadArgument(name));
    }
    let address = address_of(name, symbols, first)?;
    let number = number_of(name, second)?;
    Ok((address, number))
}

// A command without arguments.
fn alone(
    name: CommandName,
    first: &[u8],
    command: DebugCommand,
) -> Result<DebugCommand, CommandRefusal>
    ensures { result ≡ command_alone name first.now command }
{
    if first.is_empty() {
        Ok(command)
    } else {
        Err(CommandRefusal::BadArgument(name))
    }
}

// The command of this name with these words behind it.
fn command_named(
    name: CommandName,
    symbols: &[Symbol],
    first: &[u8],
    second: &[u8],
    third: &[u8],
) -> Result<DebugCommand, CommandRefusal>
    ensures { result ≡ command_named name symbols.now first.now second.now third.now }
{
    match name {
        CommandName::Step => {
            let (core, event) = one_step(first, second)?;
            Ok(DebugCommand::Step(core, event))
        }
        CommandName::Run => Ok(DebugCommand::Run(one(name, first, second)?)),
        CommandName::Next => Ok(DebugCommand::Next(one(name, first, second)?)),
        CommandName::Back => Ok(DebugCommand::Back(one(name, first, second)?)),
        CommandName::Break => Ok(DebugCommand::Break(one_address(name, symbols, first, second)?)),
        CommandName::Clear => Ok(DebugCommand::Clear(one_address(name, symbols, first, second)?)),
        CommandName::Regs => Ok(DebugCommand::Regs(one(name, first, second)?)),
        CommandName::Sets => Ok(DebugCommand::Sets(one(name, first, second)?)),
        CommandName::Why => Ok(DebugCommand::Why(one(name, first, second)?)),
        CommandName::Pending => Ok(DebugCommand::Pending(at_most_one(name, first, second)?)),
        CommandName::Mem => {
            let (at, count) = two(name, symbols, first, second, third)?;
            Ok(DebugCommand::Mem(at, count))
        }
        CommandName::List => {
            let (at, count) = two(name, symbols, first, second, third)?;
            Ok(DebugCommand::List(at, count))
        }
        CommandName::Help => alone(name, first, DebugCommand::Help),
        CommandName::Quit => alone(name, first, DebugCommand::Quit),
    }
}

/// The command of a line that is not blank, whose addresses may be written by these symbols.
#[tactic(auto, unfolding(crate::specs::Commands::command_of))]
pub fn read_command(symbols: &[Symbol], line: &[u8]) -> Result<DebugCommand, CommandRefusal>
    ensures { result ≡ command_of symbols.now line.now }
{
    let (word, rest) = split_word(line);
    let Some(name) = name_of(word) else {
        return Err(CommandRefusal::UnknownCommand);
    };
    let (first, rest) = split_word(rest);
    let (second, rest) = split_word(rest);
    let (third, _) = split_word(rest);
    command_named(name, symbols, first, second, third)
}
