//! Reads numbers and the bytes of an operand, from the front of a slice. Each function answers what it read and the
//! bytes behind it, and `Short` exactly where the bytes end too early.

ghost use Rattle.std.specs.Prelude.{◌≡◌, ◌<◌, ◌%◌, ◌/◌, ℕ, List, length, Option};
ghost use Rattle.ia_insn.specs.Operands.{Head, head_of};
ghost use Rattle.ia_insn.specs.Reading.{Gives, byte_at, word_at, long_at, signed_at, disp_at, base_at, mem_at};
ghost use Rattle.ia_insn.specs.Reading.{operand_at};
ghost use Rattle.ia_modrm.specs.Heads.{head};

use ia_insn::{DecodeFault, Mem, Operand};
use ia_word::{from_le, sign_extend};

/// The three fields of a ModRM byte (SDM volume 2, "ModR/M and SIB Bytes").
#[derive(Clone, Copy, Debug, PartialEq, Eq)]
pub struct ModRm {
    /// 3 for a register, else a place in memory; 0 to 3.
    pub mode: u8,
    /// A register, or the digit that selects the instruction; 0 to 7.
    pub reg: u8,
    /// A register, or what the place stands on; 0 to 7.
    pub rm: u8,
}

impl ModRm {
    /// The fields of a byte.
    pub fn from_byte(byte: u8) -> ModRm
        ensures fields { head result ≡ head_of byte }
        ensures reg { result.reg < 8 }
    {
        ModRm {
            mode: byte >> 6,
            reg: (byte >> 3) & 7,
            rm: byte & 7,
        }
    }
}

/// The first byte.
pub fn byte(bytes: &[u8]) -> Result<(u8, &[u8]), DecodeFault>
    ensures { Gives (λ x. (x.0, x.1.now)) result (byte_at bytes.now) }
{
    match bytes {
        [] => Err(DecodeFault::Short),
        [first, rest @ ..] => Ok((*first, rest)),
    }
}

/// The number of two bytes, the lowest first.
pub fn word(bytes: &[u8]) -> Result<(u16, &[u8]), DecodeFault>
    ensures { Gives (λ x. (x.0, x.1.now)) result (word_at bytes.now) }
{
    if bytes.len() < 2 {
        return Err(DecodeFault::Short);
    }
    let (front, rest) = bytes.split_at(2);
    Ok((u16::from_le_bytes([front[0], front[1]]), rest))
}

/// The number of four bytes, the lowest first.
pub fn long(bytes: &[u8]) -> Result<(u32, &[u8]), DecodeFault>
    ensures { Gives (λ x. (x.0, x.1.now)) result (long_at bytes.now) }
{
    if bytes.len() < 4 {
        return Err(DecodeFault::Short);
    }
    let (front, rest) = bytes.split_at(4);
    Ok((from_le([front[0], front[1], front[2], front[3]]), rest))
}

/// A byte, sign-extended to 32 bits.
#[tactic(auto, unfolding(ia_insn::specs::Reading::signed_at))]
pub fn signed_byte(bytes: &[u8]) -> Result<(u32, &[u8]), DecodeFault>
    ensures { Gives (λ x. (x.0, x.1.now)) result (signed_at bytes.now) }
{
    let (low, rest) = byte(bytes)?;
    Ok((sign_extend(low), rest))
}

/// A displacement: none in mode 0, a sign-extended byte in mode 1, else 32 bits.
#[tactic(auto, unfolding(ia_insn::specs::Reading::disp_at))]
fn displacement(mode: u8, bytes: &[u8]) -> Result<(u32, &[u8]), DecodeFault>
    ensures { Gives (λ x. (x.0, x.1.now)) result (disp_at mode bytes.now) }
{
    match mode {
        0 => Ok((0, bytes)),
        1 => signed_byte(bytes),
        _ => long(bytes),
    }
}

/// A base and a displacement: in mode 0 the number 5 is no base, but 32 bits of displacement.
#[tactic(auto, unfolding(ia_insn::specs::Reading::base_at))]
fn base(mode: u8, number: u8, bytes: &[u8]) -> Result<(Option<u8>, u32, &[u8]), DecodeFault>
    ensures { Gives (λ x. ((x.0, x.1), x.2.now)) result (base_at mode number bytes.now) }
{
    if mode == 0 && number == 5 {
        let (disp, rest) = long(bytes)?;
        return Ok((None, disp, rest));
    }
    let (disp, rest) = displacement(mode, bytes)?;
    Ok((Some(number), disp, rest))
}

/// The place in memory behind a ModRM byte whose mode is not 3: SIB where rm is 4, and the displacement.
#[tactic(auto, unfolding(ia_insn::specs::Reading::mem_at))]
pub fn memory(mode: u8, rm: u8, bytes: &[u8]) -> Result<(Mem, &[u8]), DecodeFault>
    ensures { Gives (λ x. (x.0, x.1.now)) result (mem_at mode rm bytes.now) }
{
    if rm != 4 {
        let (base, disp, rest) = base(mode, rm, bytes)?;
        let place = Mem {
            base,
            index: None,
            scale: 1,
            disp,
        };
        return Ok((place, rest));
    }
    let (sib, rest) = byte(bytes)?;
    let (base, disp, rest) = base(mode, sib % 8, rest)?;
    let number = sib / 8 % 8;
    let (index, scale) = if number == 4 {
        (None, 1)
    } else {
        (Some(number), 1 << (sib / 64))
    };
    let place = Mem {
        base,
        index,
        scale,
        disp,
    };
    Ok((place, rest))
}

/// The operand that a ModRM byte and the bytes behind it are.
#[tactic(auto, unfolding(ia_insn::specs::Reading::operand_at))]
pub fn operand(modrm: ModRm, bytes: &[u8]) -> Result<(Operand, &[u8]), DecodeFault>
    ensures { Gives (λ x. (x.0, x.1.now)) result (operand_at (head modrm) bytes.now) }
{
    if modrm.mode == 3 {
        return Ok((Operand::Reg(modrm.rm), bytes));
    }
    let (place, rest) = memory(modrm.mode, modrm.rm, bytes)?;
    Ok((Operand::Mem(place), rest))
}
