//! The opcodes of one byte, by their row: those below 40 here, since they are eight times the same six, and the others
//! in `rows_40` to `rows_c0`. A prefix is taken off before, in `whole`.

ghost use Rattle.std.specs.Prelude.{◌≡◌, ◌<◌};
ghost use Rattle.ia_insn.specs.Table.{alu_row, one_byte};
ghost use Rattle.ia_insn.specs.Reading.{Gives, form_at};

use crate::rows::{alu, modrm};
use crate::rows_40::row_40;
use crate::rows_80::row_80;
use crate::rows_a0::row_a0;
use crate::rows_c0::row_c0;
use ia_insn::{DecodeFault, Op, Operand};
use ia_modrm::{byte, long};
use ia_word::{AluOp, EAX, Width};

/// The opcodes 8n to 8n+5, by what to add to 8n.
#[tactic(auto, unfolding(ia_insn::specs::Table::alu_row))]
fn alu_row(kind: AluOp, place: u8, bytes: &[u8]) -> Result<(Op, &[u8]), DecodeFault>
    requires { place < 8 }
    ensures { Gives (λ x. (x.0, x.1.now)) result (form_at (alu_row kind place) bytes.now) }
{
    match place {
        0 => {
            let (reg, operand, rest) = modrm(bytes)?;
            Ok((Op::Alu(kind, Width::B, operand, Operand::Reg(reg)), rest))
        }
        1 => {
            let (reg, operand, rest) = modrm(bytes)?;
            Ok((Op::Alu(kind, Width::D, operand, Operand::Reg(reg)), rest))
        }
        2 => {
            let (reg, operand, rest) = modrm(bytes)?;
            Ok((Op::Alu(kind, Width::B, Operand::Reg(reg), operand), rest))
        }
        3 => {
            let (reg, operand, rest) = modrm(bytes)?;
            Ok((Op::Alu(kind, Width::D, Operand::Reg(reg), operand), rest))
        }
        4 => {
            let (number, rest) = byte(bytes)?;
            let number = Operand::Imm(u32::from(number));
            Ok((Op::Alu(kind, Width::B, Operand::Reg(EAX), number), rest))
        }
        5 => {
            let (number, rest) = long(bytes)?;
            let number = Operand::Imm(number);
            Ok((Op::Alu(kind, Width::D, Operand::Reg(EAX), number), rest))
        }
        _ => Err(DecodeFault::NotInSubset),
    }
}

/// What an opcode of one byte and the bytes behind it are.
#[tactic(auto, unfolding(ia_insn::specs::Table::one_byte))]
pub fn one_byte(opcode: u8, bytes: &[u8]) -> Result<(Op, &[u8]), DecodeFault>
    ensures { Gives (λ x. (x.0, x.1.now)) result (form_at (one_byte opcode) bytes.now) }
{
    match opcode {
        0x00..=0x3f => alu_row(alu(opcode / 8), opcode % 8, bytes),
        0x40..=0x7f => row_40(opcode, bytes),
        0x80..=0x9f => row_80(opcode, bytes),
        0xa0..=0xbf => row_a0(opcode, bytes),
        _ => row_c0(opcode, bytes),
    }
}
