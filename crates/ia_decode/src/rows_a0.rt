//! The opcodes A0 to BF: AL or EAX is an operand of most, which no byte names. String instructions among them are
//! outside of the subset.

ghost use Rattle.std.specs.Prelude.{◌≡◌};
ghost use Rattle.ia_insn.specs.Table.{at, row_A0};
ghost use Rattle.ia_insn.specs.Reading.{Gives, form_at};

use ia_insn::{DecodeFault, Mem, Op, Operand};
use ia_modrm::{byte, long};
use ia_word::{EAX, Width};

/// AL or EAX, as an operand.
const ACCUMULATOR: Operand = Operand::Reg(EAX);

/// The place at an address.
fn at(address: u32) -> Operand
    ensures { result ≡ at address }
{
    Operand::Mem(Mem {
        base: None,
        index: None,
        scale: 1,
        disp: address,
    })
}

/// MOV between AL or EAX and an address, TEST of AL or EAX with a number, MOV of a number to a register.
#[tactic(auto, unfolding(ia_insn::specs::Table::row_A0))]
pub fn row_a0(opcode: u8, bytes: &[u8]) -> Result<(Op, &[u8]), DecodeFault>
    ensures { Gives (λ x. (x.0, x.1.now)) result (form_at (row_A0 opcode) bytes.now) }
{
    match opcode {
        0xa0 => {
            let (address, rest) = long(bytes)?;
            Ok((Op::Mov(Width::B, ACCUMULATOR, at(address)), rest))
        }
        0xa1 => {
            let (address, rest) = long(bytes)?;
            Ok((Op::Mov(Width::D, ACCUMULATOR, at(address)), rest))
        }
        0xa2 => {
            let (address, rest) = long(bytes)?;
            Ok((Op::Mov(Width::B, at(address), ACCUMULATOR), rest))
        }
        0xa3 => {
            let (address, rest) = long(bytes)?;
            Ok((Op::Mov(Width::D, at(address), ACCUMULATOR), rest))
        }
        0xa8 => {
            let (number, rest) = byte(bytes)?;
            let number = Operand::Imm(u32::from(number));
            Ok((Op::Test(Width::B, ACCUMULATOR, number), rest))
        }
        0xa9 => {
            let (number, rest) = long(bytes)?;
            let number = Operand::Imm(number);
            Ok((Op::Test(Width::D, ACCUMULATOR, number), rest))
        }
        0xb0..=0xb7 => {
            let (number, rest) = byte(bytes)?;
            let number = Operand::Imm(u32::from(number));
            Ok((Op::Mov(Width::B, Operand::Reg(opcode - 0xb0), number), rest))
        }
        0xb8..=0xbf => {
            let (number, rest) = long(bytes)?;
            let number = Operand::Imm(number);
            Ok((Op::Mov(Width::D, Operand::Reg(opcode - 0xb8), number), rest))
        }
        _ => Err(DecodeFault::NotInSubset),
    }
}
