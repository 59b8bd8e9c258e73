//! The operands of an instruction in their order, with what is done to each.

ghost use Rattle.std.specs.Prelude.{◌≡◌};
ghost use Rattle.ia_insn.specs.Arguments.{no_operands, one, two, three, operands_of};

use crate::kinds::Count;
use crate::op::Op;
use crate::operand::{Mem, Operand};
use crate::operations::{alu_role, bit_role, exchange_role, unary_role};
use ia_word::Width;

/// What an instruction does to an operand (SDM volume 2, "Instruction Operand Encoding" of each page).
#[derive(Clone, Copy, Debug, PartialEq, Eq)]
pub enum Role {
    /// It is read, and stays as it is.
    Read,
    /// It is written, whatever it was.
    Written,
    /// It is read and written, or, where a condition says so, left as it is.
    Changed,
    /// Neither: the operand of NOP.
    Named,
}

/// One of an instruction's operands.
#[derive(Clone, Copy, Debug, PartialEq, Eq)]
pub enum Argument {
    /// A register or a place in memory.
    Operand(Role, Width, Operand),
    /// A register, a place in memory or a number, which is read.
    Source(Width, Operand),
    /// A place in memory of which only the address is taken: that of LEA.
    Address(Mem),
    /// By how many bits a shift or a rotation goes.
    Count(Count),
    /// A number of 8 bits.
    Byte(u8),
    /// A number of 16 bits.
    Half(u16),
    /// A distance of 32 bits, counted from the end of an instruction of so many bytes: the length, then the distance.
    Near(u8, u32),
    /// A distance that is a sign-extended byte, counted from the end of an instruction of 2 bytes.
    Short(u32),
}

/// The operands of an instruction in the order in which SDM volume 2 lists them: none, one, two or three. An operand
/// that an instruction takes by itself, as EAX or the stack, is not among them.
#[derive(Clone, Copy, Debug, PartialEq, Eq)]
pub struct Arguments {
    /// The destination, where there is one.
    pub first: Option<Argument>,
    /// The source.
    pub second: Option<Argument>,
    /// The number of IMUL with three operands.
    pub third: Option<Argument>,
}

/// No operand.
const NONE: Arguments = Arguments {
    first: None,
    second: None,
    third: None,
};

fn one(first: Argument) -> Arguments
    ensures { result ≡ one first }
{
    Arguments {
        first: Some(first),
        second: None,
        third: None,
    }
}

fn two(first: Argument, second: Argument) -> Arguments
    ensures { result ≡ two first second }
{
    Arguments {
        first: Some(first),
        second: Some(second),
        third: None,
    }
}

fn three(first: Argument, second: Argument, third: Argument) -> Arguments
    ensures { result ≡ three first second third }
{
    Arguments {
        first: Some(first),
        second: Some(second),
        third: Some(third),
    }
}

/// A register of 32 bits.
fn register(role: Role, number: u8) -> Argument
    ensures { result ≡ Argument.Operand role Width.D (Operand.Reg number) }
{
    Argument::Operand(role, Width::D, Operand::Reg(number))
}

/// A register or a place of 32 bits.
fn doubleword(role: Role, operand: Operand) -> Argument
    ensures { result ≡ Argument.Operand role Width.D operand }
{
    Argument::Operand(role, Width::D, operand)
}

/// A register or a place, and what is read beside it.
fn with_source(role: Role, width: Width, to: Operand, from: Operand) -> Arguments
    ensures { result ≡ two (Argument.Operand role width to) (Argument.Source width from) }
{
    two(
        Argument::Operand(role, width, to),
        Argument::Source(width, from),
    )
}

/// A register of 32 bits, and a register or a place that is read into it.
fn register_from(role: Role, reg: u8, width: Width, from: Operand) -> Arguments
    ensures { result ≡ two (Argument.Operand role Width.D (Operand.Reg reg)) (Argument.Operand Role.Read width from) }
{
    two(
        register(role, reg),
        Argument::Operand(Role::Read, width, from),
    )
}

/// A register or a place that is changed, and a register of its width.
fn with_register(width: Width, to: Operand, role: Role, reg: u8) -> Arguments
    ensures { result ≡ two (Argument.Operand Role.Changed width to) (Argument.Operand role width (Operand.Reg reg)) }
{
    two(
        Argument::Operand(Role::Changed, width, to),
        Argument::Operand(role, width, Operand::Reg(reg)),
    )
}

/// The three operands of IMUL with a number.
fn product_by(reg: u8, from: Operand, number: u32) -> Arguments
    ensures { result ≡ three
        (Argument.Operand Role.Written Width.D (Operand.Reg reg))
        (Argument.Operand Role.Read Width.D from)
        (Argument.Source Width.D (Operand.Imm number)) }
{
    three(
        register(Role::Written, reg),
        doubleword(Role::Read, from),
        Argument::Source(Width::D, Operand::Imm(number)),
    )
}

impl Op {
    /// The operands, with what is done to each.
    pub fn operands(&self) -> Arguments
        ensures { result ≡ operands_of self.now }
    {
        match *self {
            Op::Alu(kind, width, to, from) => with_source(alu_role(kind), width, to, from),
            Op::Mov(width, to, from) => with_source(Role::Written, width, to, from),
            Op::Lea(reg, place) => two(register(Role::Written, reg), Argument::Address(place)),
            Op::Xchg(width, to, reg) => with_register(width, to, Role::Changed, reg),
            Op::IncDec(_, width, operand) => one(Argument::Operand(Role::Changed, width, operand)),
            Op::Test(width, left, right) => with_source(Role::Read, width, left, right),
            Op::Unary(kind, operand) => one(doubleword(unary_role(kind), operand)),
            Op::Imul(reg, from) => register_from(Role::Changed, reg, Width::D, from),
            Op::ImulImm(reg, from, number) => product_by(reg, from, number),
            Op::Shift(_, to, count) => two(doubleword(Role::Changed, to), Argument::Count(count)),
            Op::Push(operand) => one(Argument::Source(Width::D, operand)),
            Op::Pop(operand) => one(doubleword(Role::Written, operand)),
            Op::Call(distance) => one(Argument::Near(5, distance)),
            Op::CallTo(operand) => one(doubleword(Role::Read, operand)),
            Op::Ret => NONE,
            Op::RetPop(bytes) => one(Argument::Half(bytes)),
            Op::Jmp(distance) => one(Argument::Near(5, distance)),
            Op::JmpShort(distance) => one(Argument::Short(distance)),
            Op::JmpTo(operand) => one(doubleword(Role::Read, operand)),
            Op::Jcc(_, distance) => one(Argument::Near(6, distance)),
            Op::JccShort(_, distance) => one(Argument::Short(distance)),
            Op::Setcc(_, operand) => one(Argument::Operand(Role::Written, Width::B, operand)),
            Op::Cmovcc(_, reg, from) => register_from(Role::Changed, reg, Width::D, from),
            Op::LoopJump(_, distance) => one(Argument::Short(distance)),
            Op::Extend(_, reg, from) => register_from(Role::Written, reg, Width::B, from),
            Op::Exchange(kind, to, reg) => with_register(Width::D, to, exchange_role(kind), reg),
            Op::Bit(kind, to, bit) => two(doubleword(bit_role(kind), to), Argument::Byte(bit)),
            Op::Nop => NONE,
            Op::NopOf(operand) => one(doubleword(Role::Named, operand)),
            Op::Bare(_) => NONE,
            Op::Xbegin(distance) => one(Argument::Near(6, distance)),
            Op::Xabort(code) => one(Argument::Byte(code)),
        }
    }
}
