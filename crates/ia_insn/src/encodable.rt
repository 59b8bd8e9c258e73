//! Which instructions have a spelling: each field is in the range that its place in the bytes has, and the operands may
//! stand together. That an encoding is read as its instruction is `ia_encode`'s.

ghost use Rattle.std.specs.Prelude.{◌≡◌, ◌↔◌, ◌&&◌, ◌++◌, IsTrue, List, ℕ};
ghost use Rattle.ia_insn.specs.Spelling.{Spells, is_place};
ghost use Rattle.ia_insn.specs.Writing.{fits_base, fits_index, fits_mem, fits_operand, is_signed_byte};
ghost use Rattle.ia_insn.specs.Encoding.{fits_imm, fits_short, fits_count, encodable, is_encodable};
ghost use Rattle.ia_insn.specs.Arguments.{operands_of, fits_argument, fits_where_there, all_fit, may_meet};

use crate::argument::Argument;
use crate::kinds::Count;
use crate::lockable::op_lockable;
use crate::op::{Insn, Op};
use crate::operand::{Mem, Operand};
use ia_word::{ESP, Width};

/// Whether a number is a byte, sign-extended.
pub fn is_signed_byte(number: u32) -> bool
    ensures { result ≡ is_signed_byte number }
{
    number < 128 || number >= 0xffff_ff80
}

fn base_fits(base: Option<u8>) -> bool
    ensures { result ≡ fits_base base }
{
    match base {
        None => true,
        Some(reg) => reg < 8,
    }
}

fn index_fits(index: Option<u8>, scale: u8) -> bool
    ensures { result ≡ fits_index index scale }
{
    match index {
        None => scale == 1,
        Some(reg) => reg < 8 && reg != ESP && matches!(scale, 1 | 2 | 4 | 8),
    }
}

fn mem_fits(place: &Mem) -> bool
    ensures { result ≡ fits_mem place.now }
{
    let Mem {
        base,
        index,
        scale,
        disp: _disp,
    } = *place;
    base_fits(base) && index_fits(index, scale)
}

fn operand_fits(operand: &Operand) -> bool
    ensures { result ≡ fits_operand operand.now }
{
    match operand {
        Operand::Reg(reg) => *reg < 8,
        Operand::Mem(place) => mem_fits(place),
        Operand::Imm(_) => false,
    }
}

fn imm_fits(width: Width, number: u32) -> bool
    ensures { result ≡ fits_imm width number }
{
    match width {
        Width::B => number < 256,
        Width::D => true,
    }
}

fn short_fits(distance: u32) -> bool
    ensures { result ≡ fits_short distance }
{
    is_signed_byte(distance)
}

fn count_fits(count: Count) -> bool
    ensures { result ≡ fits_count count }
{
    match count {
        Count::Imm(_bits) => true,
        Count::Cl => true,
    }
}

fn argument_fits(argument: Argument) -> bool
    ensures { result ≡ fits_argument argument }
{
    match argument {
        Argument::Operand(_, _, operand) => operand_fits(&operand),
        Argument::Source(width, Operand::Imm(number)) => imm_fits(width, number),
        Argument::Source(_, operand) => operand_fits(&operand),
        Argument::Address(place) => mem_fits(&place),
        Argument::Count(count) => count_fits(count),
        Argument::Byte(_number) => true,
        Argument::Half(_number) => true,
        Argument::Near(_length, _distance) => true,
        Argument::Short(distance) => short_fits(distance),
    }
}

fn fits_where_there(argument: Option<Argument>) -> bool
    ensures { result ≡ fits_where_there argument }
{
    match argument {
        None => true,
        Some(argument) => argument_fits(argument),
    }
}

fn is_place(operand: &Operand) -> bool
    ensures { result ≡ is_place operand.now }
{
    matches!(operand, Operand::Mem(_))
}

/// Whether the operands may stand together: one at most is in memory, and of TEST not the second.
fn may_meet(op: &Op) -> bool
    ensures { result ≡ may_meet op.now }
{
    match op {
        Op::Alu(_, _, to, from) => !(is_place(to) && is_place(from)),
        Op::Mov(_, to, from) => !(is_place(to) && is_place(from)),
        Op::Test(_, _, from) => !is_place(from),
        _ => true,
    }
}

fn operands_fit(op: &Op) -> bool
    ensures { result ≡ (all_fit (operands_of op.now) && may_meet op.now) }
{
    let operands = op.operands();
    fits_where_there(operands.first)
        && fits_where_there(operands.second)
        && fits_where_there(operands.third)
        && may_meet(op)
}

fn op_fits(op: &Op) -> bool
    ensures { result ≡ encodable op.now }
{
    operands_fit(op)
}

fn fits(insn: &Insn) -> bool
    ensures { result ≡ is_encodable insn.now }
{
    op_fits(&insn.op) && (!insn.lock || op_lockable(&insn.op))
}

/// Whether some bytes spell the instruction.
pub fn is_encodable(insn: &Insn) -> bool
    ensures test { result ≡ is_encodable insn.now }
    ensures exact { IsTrue result ↔ ((s : List ℕ) × Spells s insn.now) }
{
    fits(insn)
}
