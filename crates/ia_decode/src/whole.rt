//! Whole instructions: first LOCK is taken off, then the opcode is read with its operands, from left to right, and at
//! last the bytes that it took are counted. Bytes come in; whether more stand behind the instruction is not asked.

ghost use Rattle.std.specs.Prelude.{◌≡◌, ◌++◌, ◌+◌, ◌≤◌, ◌↔◌, ℕ, List, IfOk, IsTrue, Ok, Err, length, take};
ghost use Rattle.ia_insn.specs.declared.op.Insn.{Insn};
ghost use Rattle.ia_insn.specs.Spelling.{Spells, IsShort, IsLockFault, IsOther};
ghost use Rattle.ia_insn.specs.Encoding.{is_encodable};
ghost use Rattle.ia_insn.specs.Reading.{Gives, op_at, insn_at, decoding_of};

use crate::opcodes::one_byte;
use crate::two_byte::{behind_0f, behind_f3};
use ia_insn::{DecodeFault, Insn, Op, is_lockable};
use ia_modrm::byte;

/// An instruction without F0.
#[tactic(auto, unfolding(ia_insn::specs::Reading::op_at))]
fn op(bytes: &[u8]) -> Result<(Op, &[u8]), DecodeFault>
    ensures { Gives (λ x. (x.0, x.1.now)) result (op_at bytes.now) }
{
    let (first, rest) = byte(bytes)?;
    match first {
        0x0f => {
            let (second, rest) = byte(rest)?;
            behind_0f(second, rest)
        }
        0xf3 => {
            let (second, rest) = byte(rest)?;
            behind_f3(second, rest)
        }
        _ => one_byte(first, rest),
    }
}

/// An instruction, and what stands behind it.
#[tactic(auto, unfolding(ia_insn::specs::Reading::insn_at))]
fn insn(bytes: &[u8]) -> Result<(Insn, &[u8]), DecodeFault>
    ensures { Gives (λ x. (x.0, x.1.now)) result (insn_at bytes.now) }
{
    let (first, rest) = byte(bytes)?;
    if first != 0xf0 {
        let (op, rest) = op(bytes)?;
        return Ok((Insn { lock: false, op }, rest));
    }
    let (op, rest) = op(rest)?;
    let locked = Insn { lock: true, op };
    if !is_lockable(&locked) {
        return Err(DecodeFault::LockNotAllowed);
    }
    Ok((locked, rest))
}

/// An instruction, and how many bytes it takes.
#[tactic(auto, unfolding(ia_insn::specs::Reading::decoding_of))]
fn measured(bytes: &[u8]) -> Result<(Insn, u8), DecodeFault>
    ensures { result ≡ decoding_of bytes.now }
{
    let (found, rest) = insn(bytes)?;
    Ok((found, (bytes.len() - rest.len()) as u8))
}

/// What decoding gives: an instruction and how many bytes it takes, or why there is none.
pub type Decoded = Result<(Insn, u8), DecodeFault>;

/// The instruction that stands in front, and how many bytes it takes, 1 to 15. Faults: `Short` where the bytes end
/// within an instruction, `LockNotAllowed` where LOCK stands before an instruction that it may not stand before, else
/// `NotInSubset`. Takes no memory, and reads no byte behind the one that decides.
pub fn decode(bytes: &[u8]) -> Result<(Insn, u8), DecodeFault>
    // It is what reading from left to right gives.
    ensures value { result ≡ decoding_of bytes.now }
    // What is answered stands in front.
    ensures found { IfOk result (λ x. (x.1 ≤ length bytes.now) × Spells (take x.1 bytes.now) x.0) }
    // It has registers below 8, scales 1, 2, 4 or 8, and numbers that fit.
    ensures encodable { IfOk result (λ x. IsTrue (is_encodable x.0)) }
    ensures length { IfOk result (λ x. (1 ≤ x.1) × (x.1 ≤ 15)) }
    // What stands in front is answered.
    ensures only { (front rest : List ℕ) (insn : Insn) → Spells front insn →
        bytes.now ≡ front ++ rest → result ≡ Ok (insn, length front) }
    // The bytes are a proper front of a spelling, or F0 and one of a spelling without F0.
    ensures short { (result ≡ Err DecodeFault.Short) ↔ IsShort bytes.now }
    // F0 stands before an instruction that is not lockable.
    ensures lock { (result ≡ Err DecodeFault.LockNotAllowed) ↔ IsLockFault bytes.now }
    // The bytes are none of these.
    ensures other { (result ≡ Err DecodeFault.NotInSubset) ↔ IsOther bytes.now }
{
    measured(bytes)
}
