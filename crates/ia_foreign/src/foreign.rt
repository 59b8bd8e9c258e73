//! What stands in front of bytes that the decoder refuses.

ghost use Rattle.std.specs.Prelude.{◌≡◌, ◌≤◌, IfNone, IfSome, false, length, take, true};
ghost use Rattle.ia_foreign.specs.Length.{foreign_length, is_foreign_code};

use crate::behind::length_by_maps;
use crate::words::{Words, words_of};
use ia_decode::decode;
use ia_insn::DecodeFault;

/// The longest instruction of IA-32, in bytes.
const LONGEST: usize = 15;

/// An instruction outside of the subset.
#[derive(Clone, Copy, Debug)]
pub struct Foreign {
    /// How many bytes it takes, 1 to 15, where that is sure: where the opcode maps give one length and the bytes have
    /// it.
    pub length: Option<u8>,
    /// What it is, where it is a known one.
    pub words: Option<Words>,
}

// The bytes that an instruction may have.
fn front(bytes: &[u8]) -> &[u8]
    ensures front { result.now ≡ take 15 bytes.now }
    ensures few { length result.now ≤ 15 }
    ensures within { length result.now ≤ length bytes.now }
{
    if bytes.len() > LONGEST {
        &bytes[..LONGEST]
    } else {
        bytes
    }
}

// Whether the decoder refuses the bytes, and not because they end too early.
fn is_foreign(bytes: &[u8]) -> bool
    ensures { result ≡ is_foreign_code bytes.now }
{
    match decode(bytes) {
        Ok(_) => false,
        Err(DecodeFault::Short) => false,
        Err(DecodeFault::NotInSubset) => true,
        Err(DecodeFault::LockNotAllowed) => true,
    }
}

/// The instruction outside of the subset that stands in front: `None` where the decoder knows what stands there, or
/// where the bytes end within an instruction of the subset.
pub fn foreign_in(bytes: &[u8]) -> Option<Foreign>
    // It is told exactly where the decoder refuses the bytes.
    ensures foreign { IfSome result (λ _. is_foreign_code bytes.now ≡ true) }
    ensures known { IfNone result (is_foreign_code bytes.now ≡ false) }
    // Its length is the one of the maps, and the bytes have it.
    ensures length { IfSome result (λ f. f.length ≡ foreign_length bytes.now) }
    ensures within { IfSome result (λ f. IfSome f.length (λ n. (1 ≤ n) × (n ≤ length bytes.now))) }
{
    if !is_foreign(bytes) {
        return None;
    }
    let front = front(bytes);
    Some(Foreign {
        length: length_by_maps(front),
        words: words_of(front),
    })
}
