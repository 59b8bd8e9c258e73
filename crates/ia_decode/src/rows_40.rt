//! The opcodes 40 to 7F, behind which the rest of the instruction comes in; the operation and what stands behind it
//! come out. Each names its register, or its condition, in its low bits.

ghost use Rattle.ia_insn.specs.Table.{row_40};
ghost use Rattle.ia_insn.specs.Reading.{Gives, form_at};

use crate::rows::modrm;
use ia_insn::{DecodeFault, Op, Operand};
use ia_modrm::{long, signed_byte};
use ia_word::{Condition, IncDecOp, Width};

/// INC, DEC, PUSH and POP of a register, PUSH and IMUL with a number, the short Jcc.
#[tactic(auto, unfolding(ia_insn::specs::Table::row_40))]
pub fn row_40(opcode: u8, bytes: &[u8]) -> Result<(Op, &[u8]), DecodeFault>
    ensures { Gives (λ x. (x.0, x.1.now)) result (form_at (row_40 opcode) bytes.now) }
{
    match opcode {
        0x40..=0x47 => Ok((
            Op::IncDec(IncDecOp::Inc, Width::D, Operand::Reg(opcode - 0x40)),
            bytes,
        )),
        0x48..=0x4f => Ok((
            Op::IncDec(IncDecOp::Dec, Width::D, Operand::Reg(opcode - 0x48)),
            bytes,
        )),
        0x50..=0x57 => Ok((Op::Push(Operand::Reg(opcode - 0x50)), bytes)),
        0x58..=0x5f => Ok((Op::Pop(Operand::Reg(opcode - 0x58)), bytes)),
        0x68 => {
            let (number, rest) = long(bytes)?;
            let number = Operand::Imm(number);
            Ok((Op::Push(number), rest))
        }
        0x69 => {
            let (reg, operand, rest) = modrm(bytes)?;
            let (number, rest) = long(rest)?;
            Ok((Op::ImulImm(reg, operand, number), rest))
        }
        0x6a => {
            let (number, rest) = signed_byte(bytes)?;
            Ok((Op::Push(Operand::Imm(number)), rest))
        }
        0x6b => {
            let (reg, operand, rest) = modrm(bytes)?;
            let (number, rest) = signed_byte(rest)?;
            Ok((Op::ImulImm(reg, operand, number), rest))
        }
        0x70..=0x7f => {
            let (distance, rest) = signed_byte(bytes)?;
            Ok((Op::JccShort(Condition::of(opcode - 0x70), distance), rest))
        }
        _ => Err(DecodeFault::NotInSubset),
    }
}
