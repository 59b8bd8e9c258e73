//! Opcodes from C0 on whose ModRM byte says which instruction it is. What /n does not allow is refused before SIB and
//! the displacement are read.

ghost use Rattle.ia_insn.specs.Table.{row_C0};
ghost use Rattle.ia_insn.specs.Reading.{Gives, form_at};

use crate::rows::{head_byte, inc_dec, shift};
use ia_insn::{Count, DecodeFault, Op, Operand};
use ia_modrm::{byte, long, operand};
use ia_word::{IncDecOp, UnaryOp, Width};

/// C1: a shift by a number.
#[tactic(auto, unfolding(ia_insn::specs::Table::row_C0))]
pub fn shift_imm(bytes: &[u8]) -> Result<(Op, &[u8]), DecodeFault>
    ensures { Gives (λ x. (x.0, x.1.now)) result (form_at (row_C0 0xC1) bytes.now) }
{
    let (head, rest) = head_byte(bytes)?;
    let Some(kind) = shift(head.reg) else {
        return Err(DecodeFault::NotInSubset);
    };
    let (operand, rest) = operand(head, rest)?;
    let (number, rest) = byte(rest)?;
    Ok((Op::Shift(kind, operand, Count::Imm(number)), rest))
}

/// D1: a shift by 1.
#[tactic(auto, unfolding(ia_insn::specs::Table::row_C0))]
pub fn shift_once(bytes: &[u8]) -> Result<(Op, &[u8]), DecodeFault>
    ensures { Gives (λ x. (x.0, x.1.now)) result (form_at (row_C0 0xD1) bytes.now) }
{
    let (head, rest) = head_byte(bytes)?;
    let Some(kind) = shift(head.reg) else {
        return Err(DecodeFault::NotInSubset);
    };
    let (operand, rest) = operand(head, rest)?;
    Ok((Op::Shift(kind, operand, Count::Imm(1)), rest))
}

/// D3: a shift by CL.
#[tactic(auto, unfolding(ia_insn::specs::Table::row_C0))]
pub fn shift_by_cl(bytes: &[u8]) -> Result<(Op, &[u8]), DecodeFault>
    ensures { Gives (λ x. (x.0, x.1.now)) result (form_at (row_C0 0xD3) bytes.now) }
{
    let (head, rest) = head_byte(bytes)?;
    let Some(kind) = shift(head.reg) else {
        return Err(DecodeFault::NotInSubset);
    };
    let (operand, rest) = operand(head, rest)?;
    Ok((Op::Shift(kind, operand, Count::Cl), rest))
}

/// C6: MOV of a byte, or XABORT behind F8.
#[tactic(auto, unfolding(ia_insn::specs::Table::row_C0, ia_insn::specs::Reading::operand_at))]
pub fn mov_or_xabort(bytes: &[u8]) -> Result<(Op, &[u8]), DecodeFault>
    ensures { Gives (λ x. (x.0, x.1.now)) result (form_at (row_C0 0xC6) bytes.now) }
{
    let (head, rest) = head_byte(bytes)?;
    match (head.mode, head.reg, head.rm) {
        (_, 0, _) => {
            let (operand, rest) = operand(head, rest)?;
            let (number, rest) = byte(rest)?;
            let number = Operand::Imm(u32::from(number));
            Ok((Op::Mov(Width::B, operand, number), rest))
        }
        (3, 7, 0) => {
            let (number, rest) = byte(rest)?;
            Ok((Op::Xabort(number), rest))
        }
        _ => Err(DecodeFault::NotInSubset),
    }
}

/// C7: MOV of a doubleword, or XBEGIN behind F8.
#[tactic(auto, unfolding(ia_insn::specs::Table::row_C0, ia_insn::specs::Reading::operand_at))]
pub fn mov_or_xbegin(bytes: &[u8]) -> Result<(Op, &[u8]), DecodeFault>
    ensures { Gives (λ x. (x.0, x.1.now)) result (form_at (row_C0 0xC7) bytes.now) }
{
    let (head, rest) = head_byte(bytes)?;
    match (head.mode, head.reg, head.rm) {
        (_, 0, _) => {
            let (operand, rest) = operand(head, rest)?;
            let (number, rest) = long(rest)?;
            let number = Operand::Imm(number);
            Ok((Op::Mov(Width::D, operand, number), rest))
        }
        (3, 7, 0) => {
            let (distance, rest) = long(rest)?;
            Ok((Op::Xbegin(distance), rest))
        }
        _ => Err(DecodeFault::NotInSubset),
    }
}

/// F6 /0: TEST of a byte.
#[tactic(auto, unfolding(ia_insn::specs::Table::row_C0))]
pub fn row_f6(bytes: &[u8]) -> Result<(Op, &[u8]), DecodeFault>
    ensures { Gives (λ x. (x.0, x.1.now)) result (form_at (row_C0 0xF6) bytes.now) }
{
    let (head, rest) = head_byte(bytes)?;
    if head.reg != 0 {
        return Err(DecodeFault::NotInSubset);
    }
    let (operand, rest) = operand(head, rest)?;
    let (number, rest) = byte(rest)?;
    let number = Operand::Imm(u32::from(number));
    Ok((Op::Test(Width::B, operand, number), rest))
}

/// F7: TEST /0, NOT, NEG, MUL, IMUL, DIV, IDIV /2 to /7.
#[tactic(auto, unfolding(ia_insn::specs::Table::row_C0))]
pub fn row_f7(bytes: &[u8]) -> Result<(Op, &[u8]), DecodeFault>
    ensures { Gives (λ x. (x.0, x.1.now)) result (form_at (row_C0 0xF7) bytes.now) }
{
    let (head, rest) = head_byte(bytes)?;
    if head.reg == 1 {
        return Err(DecodeFault::NotInSubset);
    }
    let (operand, rest) = operand(head, rest)?;
    match head.reg {
        0 => {
            let (number, rest) = long(rest)?;
            let number = Operand::Imm(number);
            Ok((Op::Test(Width::D, operand, number), rest))
        }
        2 => Ok((Op::Unary(UnaryOp::Not, operand), rest)),
        3 => Ok((Op::Unary(UnaryOp::Neg, operand), rest)),
        4 => Ok((Op::Unary(UnaryOp::Mul, operand), rest)),
        5 => Ok((Op::Unary(UnaryOp::Imul, operand), rest)),
        6 => Ok((Op::Unary(UnaryOp::Div, operand), rest)),
        _ => Ok((Op::Unary(UnaryOp::Idiv, operand), rest)),
    }
}

/// FE: INC /0 and DEC /1 of a byte.
#[tactic(auto, unfolding(ia_insn::specs::Table::row_C0))]
pub fn row_fe(bytes: &[u8]) -> Result<(Op, &[u8]), DecodeFault>
    ensures { Gives (λ x. (x.0, x.1.now)) result (form_at (row_C0 0xFE) bytes.now) }
{
    let (head, rest) = head_byte(bytes)?;
    let Some(kind) = inc_dec(head.reg) else {
        return Err(DecodeFault::NotInSubset);
    };
    let (operand, rest) = operand(head, rest)?;
    Ok((Op::IncDec(kind, Width::B, operand), rest))
}

/// FF: INC /0, DEC /1, CALL /2, JMP /4, PUSH /6.
#[tactic(auto, unfolding(ia_insn::specs::Table::row_C0))]
pub fn row_ff(bytes: &[u8]) -> Result<(Op, &[u8]), DecodeFault>
    ensures { Gives (λ x. (x.0, x.1.now)) result (form_at (row_C0 0xFF) bytes.now) }
{
    let (head, rest) = head_byte(bytes)?;
    if head.reg == 3 || head.reg == 5 || head.reg > 6 {
        return Err(DecodeFault::NotInSubset);
    }
    let (operand, rest) = operand(head, rest)?;
    match head.reg {
        0 => Ok((Op::IncDec(IncDecOp::Inc, Width::D, operand), rest)),
        1 => Ok((Op::IncDec(IncDecOp::Dec, Width::D, operand), rest)),
        2 => Ok((Op::CallTo(operand), rest)),
        4 => Ok((Op::JmpTo(operand), rest)),
        _ => Ok((Op::Push(operand), rest)),
    }
}
