//! The prefixes in front of an instruction (SDM volume 2, "Instruction Prefixes"), in whatever order and as often as
//! they stand.

ghost use Rattle.std.specs.Prelude.{◌≡◌, ◌≤◌, length, take};
ghost use Rattle.std.specs.List.{prefix_len};
ghost use Rattle.ia_foreign.specs.Prefixes.{has, is_prefix};

/// LOCK, and XACQUIRE's and XRELEASE's bytes.
pub(crate) const LOCK: u8 = 0xf0;

pub(crate) const REPNE: u8 = 0xf2;

pub(crate) const REP: u8 = 0xf3;

/// Operand size and address size.
pub(crate) const OPERAND_SIZE: u8 = 0x66;

pub(crate) const ADDRESS_SIZE: u8 = 0x67;

fn is_prefix(byte: u8) -> bool
    ensures { result ≡ is_prefix byte }
{
    byte == LOCK
        || byte == REPNE
        || byte == REP
        || byte == 0x26
        || byte == 0x2e
        || byte == 0x36
        || byte == 0x3e
        || byte == 0x64
        || byte == 0x65
        || byte == OPERAND_SIZE
        || byte == ADDRESS_SIZE
}

// How many bytes in front are prefixes.
#[tactic(auto, using(crate::proofs::Fronts::prefix_steps))]
fn prefix_count(bytes: &[u8]) -> usize
    ensures count { result ≡ prefix_len is_prefix bytes.now }
    ensures within { result ≤ length bytes.now }
{
    for (place, byte) in bytes.iter().enumerate() {
        if !is_prefix(*byte) {
            return place;
        }
    }
    bytes.len()
}

/// The prefixes in front.
pub(crate) fn prefixes(bytes: &[u8]) -> &[u8]
    ensures prefixes { result.now ≡ take (prefix_len is_prefix bytes.now) bytes.now }
    ensures count { length result.now ≡ prefix_len is_prefix bytes.now }
    ensures within { length result.now ≤ length bytes.now }
{
    &bytes[..prefix_count(bytes)]
}

/// Whether a prefix is among these.
pub(crate) fn has(prefixes: &[u8], byte: u8) -> bool
    ensures { result ≡ has byte prefixes.now }
{
    prefixes.iter().any(|b| *b == byte)
}
