//! The opcodes 80 to 9F, most of which have a ModRM byte behind them. A group (80, 81, 83, 8F) names its operation in
//! that byte's middle field, which is read first.

ghost use Rattle.std.specs.Prelude.{◌≡◌, ◌≤◌};
ghost use Rattle.ia_insn.specs.Table.{row_80};
ghost use Rattle.ia_insn.specs.Reading.{Gives, form_at};

use crate::rows::{alu, head_byte, modrm};
use ia_insn::{DecodeFault, Op, Operand};
use ia_modrm::{byte, long, memory, operand, signed_byte};
use ia_word::{BareOp, Width};

/// 80, 81 and 83: ADD to CMP with a number, by /n.
#[tactic(auto, unfolding(ia_insn::specs::Table::row_80))]
fn alu_imm(opcode: u8, bytes: &[u8]) -> Result<(Op, &[u8]), DecodeFault>
    requires low { 0x80 ≤ opcode }
    requires high { opcode ≤ 0x83 }
    ensures { Gives (λ x. (x.0, x.1.now)) result (form_at (row_80 opcode) bytes.now) }
{
    match opcode {
        0x80 => {
            let (reg, operand, rest) = modrm(bytes)?;
            let (number, rest) = byte(rest)?;
            let number = Operand::Imm(u32::from(number));
            Ok((Op::Alu(alu(reg), Width::B, operand, number), rest))
        }
        0x81 => {
            let (reg, operand, rest) = modrm(bytes)?;
            let (number, rest) = long(rest)?;
            let number = Operand::Imm(number);
            Ok((Op::Alu(alu(reg), Width::D, operand, number), rest))
        }
        0x83 => {
            let (reg, operand, rest) = modrm(bytes)?;
            let (number, rest) = signed_byte(rest)?;
            let number = Operand::Imm(number);
            Ok((Op::Alu(alu(reg), Width::D, operand, number), rest))
        }
        _ => Err(DecodeFault::NotInSubset),
    }
}

/// 84 to 8B: TEST, XCHG and MOV of an operand and a register.
#[tactic(auto, unfolding(ia_insn::specs::Table::row_80))]
fn with_register(opcode: u8, bytes: &[u8]) -> Result<(Op, &[u8]), DecodeFault>
    requires low { 0x84 ≤ opcode }
    requires high { opcode ≤ 0x8B }
    ensures { Gives (λ x. (x.0, x.1.now)) result (form_at (row_80 opcode) bytes.now) }
{
    let (reg, operand, rest) = modrm(bytes)?;
    let register = Operand::Reg(reg);
    let op = match opcode {
        0x84 => Op::Test(Width::B, operand, register),
        0x85 => Op::Test(Width::D, operand, register),
        0x86 => Op::Xchg(Width::B, operand, reg),
        0x87 => Op::Xchg(Width::D, operand, reg),
        0x88 => Op::Mov(Width::B, operand, register),
        0x89 => Op::Mov(Width::D, operand, register),
        0x8a => Op::Mov(Width::B, register, operand),
        _ => Op::Mov(Width::D, register, operand),
    };
    Ok((op, rest))
}

/// 8D: LEA.
#[tactic(auto, unfolding(ia_insn::specs::Table::row_80))]
fn lea(bytes: &[u8]) -> Result<(Op, &[u8]), DecodeFault>
    ensures { Gives (λ x. (x.0, x.1.now)) result (form_at (row_80 0x8D) bytes.now) }
{
    let (head, rest) = head_byte(bytes)?;
    if head.mode == 3 {
        return Err(DecodeFault::NotInSubset);
    }
    let (place, rest) = memory(head.mode, head.rm, rest)?;
    Ok((Op::Lea(head.reg, place), rest))
}

/// 8F /0: POP.
#[tactic(auto, unfolding(ia_insn::specs::Table::row_80))]
fn pop(bytes: &[u8]) -> Result<(Op, &[u8]), DecodeFault>
    ensures { Gives (λ x. (x.0, x.1.now)) result (form_at (row_80 0x8F) bytes.now) }
{
    let (head, rest) = head_byte(bytes)?;
    if head.reg != 0 {
        return Err(DecodeFault::NotInSubset);
    }
    let (operand, rest) = operand(head, rest)?;
    Ok((Op::Pop(operand), rest))
}

/// The opcodes 80 to 9F.
#[tactic(auto, unfolding(ia_insn::specs::Table::row_80))]
pub fn row_80(opcode: u8, bytes: &[u8]) -> Result<(Op, &[u8]), DecodeFault>
    ensures { Gives (λ x. (x.0, x.1.now)) result (form_at (row_80 opcode) bytes.now) }
{
    match opcode {
        0x80..=0x83 => alu_imm(opcode, bytes),
        0x84..=0x8b => with_register(opcode, bytes),
        0x8d => lea(bytes),
        0x8f => pop(bytes),
        0x90 => Ok((Op::Nop, bytes)),
        0x91..=0x97 => Ok((Op::Xchg(Width::D, Operand::Reg(opcode - 0x90), 0), bytes)),
        0x98 => Ok((Op::Bare(BareOp::Cwde), bytes)),
        0x99 => Ok((Op::Bare(BareOp::Cdq), bytes)),
        _ => Err(DecodeFault::NotInSubset),
    }
}
