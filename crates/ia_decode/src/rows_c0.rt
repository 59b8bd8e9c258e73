//! The opcodes C0 to FF: shifts by a number or CL, returns, MOV of a number, jumps and calls, and the groups F6, F7, FE
//! and FF, whose operation stands in the ModRM byte.

ghost use Rattle.std.specs.Prelude.{◌≡◌, ◌≤◌};
ghost use Rattle.ia_insn.specs.Table.{row_C0};
ghost use Rattle.ia_insn.specs.Reading.{Gives, form_at};

use crate::groups::{
    mov_or_xabort, mov_or_xbegin, row_f6, row_f7, row_fe, row_ff, shift_by_cl, shift_imm,
    shift_once,
};
use ia_insn::{DecodeFault, Op};
use ia_modrm::{long, signed_byte, word};
use ia_word::{BareOp, LoopOp};

/// The opcodes E0 to FF: jumps, flags, and the groups F6, F7, FE and FF.
#[tactic(auto, unfolding(ia_insn::specs::Table::row_C0))]
fn row_e0(opcode: u8, bytes: &[u8]) -> Result<(Op, &[u8]), DecodeFault>
    requires { 0xE0 ≤ opcode }
    ensures { Gives (λ x. (x.0, x.1.now)) result (form_at (row_C0 opcode) bytes.now) }
{
    match opcode {
        0xe2 => {
            let (distance, rest) = signed_byte(bytes)?;
            Ok((Op::LoopJump(LoopOp::Loop, distance), rest))
        }
        0xe3 => {
            let (distance, rest) = signed_byte(bytes)?;
            Ok((Op::LoopJump(LoopOp::Ecx, distance), rest))
        }
        0xe8 => {
            let (distance, rest) = long(bytes)?;
            Ok((Op::Call(distance), rest))
        }
        0xe9 => {
            let (distance, rest) = long(bytes)?;
            Ok((Op::Jmp(distance), rest))
        }
        0xeb => {
            let (distance, rest) = signed_byte(bytes)?;
            Ok((Op::JmpShort(distance), rest))
        }
        0xf4 => Ok((Op::Bare(BareOp::Hlt), bytes)),
        0xf5 => Ok((Op::Bare(BareOp::Cmc), bytes)),
        0xf6 => row_f6(bytes),
        0xf7 => row_f7(bytes),
        0xf8 => Ok((Op::Bare(BareOp::Clc), bytes)),
        0xf9 => Ok((Op::Bare(BareOp::Stc), bytes)),
        0xfe => row_fe(bytes),
        0xff => row_ff(bytes),
        _ => Err(DecodeFault::NotInSubset),
    }
}

/// The opcodes C0 to FF.
#[tactic(auto, unfolding(ia_insn::specs::Table::row_C0))]
pub fn row_c0(opcode: u8, bytes: &[u8]) -> Result<(Op, &[u8]), DecodeFault>
    ensures { Gives (λ x. (x.0, x.1.now)) result (form_at (row_C0 opcode) bytes.now) }
{
    match opcode {
        0xc1 => shift_imm(bytes),
        0xc2 => {
            let (number, rest) = word(bytes)?;
            Ok((Op::RetPop(number), rest))
        }
        0xc3 => Ok((Op::Ret, bytes)),
        0xc6 => mov_or_xabort(bytes),
        0xc7 => mov_or_xbegin(bytes),
        0xc9 => Ok((Op::Bare(BareOp::Leave), bytes)),
        0xcc => Ok((Op::Bare(BareOp::Int3), bytes)),
        0xd1 => shift_once(bytes),
        0xd3 => shift_by_cl(bytes),
        0xe0.. => row_e0(opcode, bytes),
        _ => Err(DecodeFault::NotInSubset),
    }
}
