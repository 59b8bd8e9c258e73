//! The operands of an instruction at an address, as they are printed.

ghost use Rattle.std.specs.Prelude.{◌≡◌, option_map};
ghost use Rattle.ia_text.specs.Arguments.{operand_arg, count_arg, target, says_short, short_target, shown_arg};
ghost use Rattle.ia_text.specs.Arguments.{first_arg, second_arg, third_arg};

use crate::arg::Arg;
use ia_insn::{Argument, Count, Op, Operand};
use ia_word::Width;

fn operand(width: Width, operand: Operand) -> Arg
    ensures { result ≡ operand_arg width operand }
{
    match operand {
        Operand::Reg(r) => Arg::Register(width, r),
        Operand::Mem(m) => Arg::Place(width, m),
        Operand::Imm(n) => Arg::Number(n),
    }
}

fn count(count: Count) -> Arg
    ensures { result ≡ count_arg count }
{
    match count {
        Count::Imm(n) => Arg::Number(u32::from(n)),
        Count::Cl => Arg::Cl,
    }
}

/// Where a jump of so many bytes goes.
fn target(at: u32, long: u32, distance: u32) -> u32
    ensures { result ≡ target at long distance }
{
    at.wrapping_add(long).wrapping_add(distance)
}

/// Whether a short jump says so.
fn says_short(op: &Op) -> bool
    ensures { result ≡ says_short op.now }
{
    match op {
        Op::LoopJump(_, _) => false,
        _ => true,
    }
}

fn short_target(says: bool, place: u32) -> Arg
    ensures { result ≡ short_target says place }
{
    if says {
        Arg::Short(place)
    } else {
        Arg::Number(place)
    }
}

fn shown_arg(says: bool, at: u32, argument: Argument) -> Arg
    ensures { result ≡ shown_arg says at argument }
{
    match argument {
        Argument::Operand(_, width, place) => operand(width, place),
        Argument::Source(width, from) => operand(width, from),
        Argument::Address(place) => Arg::Address(place),
        Argument::Count(number) => count(number),
        Argument::Byte(number) => Arg::Number(u32::from(number)),
        Argument::Half(number) => Arg::Number(u32::from(number)),
        Argument::Near(long, distance) => Arg::Number(target(at, u32::from(long), distance)),
        Argument::Short(distance) => short_target(says, target(at, 2, distance)),
    }
}

fn shown_if_any(says: bool, at: u32, argument: Option<Argument>) -> Option<Arg>
    ensures { result ≡ option_map (shown_arg says at) argument }
{
    match argument {
        Some(argument) => Some(shown_arg(says, at, argument)),
        None => None,
    }
}

/// The operands of an operation as they are printed, in their order: none, one, two or three.
#[derive(Clone, Copy)]
pub struct Printed {
    /// The destination, where there is one.
    pub first: Option<Arg>,
    /// The source.
    pub second: Option<Arg>,
    /// The number of IMUL with three operands.
    pub third: Option<Arg>,
}

/// The operands of an operation at an address.
pub fn arguments_of(op: &Op, at: u32) -> Printed
    ensures first { result.first ≡ first_arg op.now at }
    ensures second { result.second ≡ second_arg op.now at }
    ensures third { result.third ≡ third_arg op.now at }
{
    let says = says_short(op);
    let operands = op.operands();
    Printed {
        first: shown_if_any(says, at, operands.first),
        second: shown_if_any(says, at, operands.second),
        third: shown_if_any(says, at, operands.third),
    }
}
