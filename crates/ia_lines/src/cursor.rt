//! Reads numbers and names from the front of some bytes (DWARF version 5, section 7.6). Each function answers what it
//! read and the bytes behind it, and `None` exactly where the bytes end too early.

ghost use Rattle.std.specs.Prelude.{◌≡◌, ◌+◌, ◌<◌, ◌≤◌, IfSome, length};
ghost use Rattle.ia_lines.specs.Cursor.{Gives, block_at, byte_at, half_at, last_of, leb_at, signed_at, unsigned_at};
ghost use Rattle.ia_lines.specs.Cursor.{word_at};

/// The most bytes of a number: those of 64 bits.
const MOST_BYTES: u8 = 10;

/// The first byte.
pub(crate) fn byte(bytes: &[u8]) -> Option<(u8, &[u8])>
    ensures value { Gives (λ x. (x.0, x.1.now)) result (byte_at bytes.now) }
    ensures shorter { IfSome result (λ x. length x.1.now + 1 ≡ length bytes.now) }
{
    match bytes {
        [] => None,
        [first, rest @ ..] => Some((*first, rest)),
    }
}

/// The number of two bytes, the lowest first.
pub(crate) fn half(bytes: &[u8]) -> Option<(u16, &[u8])>
    ensures value { Gives (λ x. (x.0, x.1.now)) result (half_at bytes.now) }
    ensures shorter { IfSome result (λ x. length x.1.now + 2 ≡ length bytes.now) }
{
    if bytes.len() < 2 {
        return None;
    }
    let (front, rest) = bytes.split_at(2);
    Some((u16::from_le_bytes([front[0], front[1]]), rest))
}

/// The number of four bytes, the lowest first.
pub(crate) fn word(bytes: &[u8]) -> Option<(u32, &[u8])>
    ensures value { Gives (λ x. (x.0, x.1.now)) result (word_at bytes.now) }
    ensures shorter { IfSome result (λ x. length x.1.now + 4 ≡ length bytes.now) }
{
    if bytes.len() < 4 {
        return None;
    }
    let (front, rest) = bytes.split_at(4);
    let number = u32::from_le_bytes([front[0], front[1], front[2], front[3]]);
    Some((number, rest))
}

/// So many bytes.
pub(crate) fn block(bytes: &[u8], count: usize) -> Option<(&[u8], &[u8])>
    ensures value { Gives (λ x. (x.0.now, x.1.now)) result (block_at count bytes.now) }
    ensures shorter { IfSome result (λ x. length x.1.now + count ≡ length bytes.now) }
    ensures long { IfSome result (λ x. length x.0.now ≡ count) }
{
    if bytes.len() < count {
        return None;
    }
    Some(bytes.split_at(count))
}

// The last byte of a number.
fn last(signed: bool, byte: u8) -> u32
    requires { byte < 128 }
    ensures { result ≡ last_of signed byte }
{
    if signed && 64 <= byte {
        u32::from(byte) + 0xffff_ff80
    } else {
        u32::from(byte)
    }
}

// A number of so many bytes at most, modulo 2^32.
fn leb(bytes: &[u8], signed: bool, most: u8) -> Option<(u32, &[u8])>
    ensures value { Gives (λ x. (x.0, x.1.now)) result (leb_at most signed bytes.now) }
    ensures shorter { IfSome result (λ x. length x.1.now + 1 ≤ length bytes.now) }
{
    if most == 0 {
        return None;
    }
    let (first, rest) = byte(bytes)?;
    if first < 128 {
        return Some((last(signed, first), rest));
    }
    let (high, rest) = leb(rest, signed, most - 1)?;
    Some((
        high.wrapping_mul(128).wrapping_add(u32::from(first - 128)),
        rest,
    ))
}

/// An unsigned number (ULEB128) of at most ten bytes, modulo 2^32.
#[tactic(auto, unfolding(crate::specs::Cursor::unsigned_at))]
pub(crate) fn unsigned(bytes: &[u8]) -> Option<(u32, &[u8])>
    ensures value { Gives (λ x. (x.0, x.1.now)) result (unsigned_at bytes.now) }
    ensures shorter { IfSome result (λ x. length x.1.now + 1 ≤ length bytes.now) }
{
    leb(bytes, false, MOST_BYTES)
}

/// A signed number (SLEB128) of at most ten bytes, modulo 2^32.
#[tactic(auto, unfolding(crate::specs::Cursor::signed_at))]
pub(crate) fn signed(bytes: &[u8]) -> Option<(u32, &[u8])>
    ensures value { Gives (λ x. (x.0, x.1.now)) result (signed_at bytes.now) }
    ensures shorter { IfSome result (λ x. length x.1.now + 1 ≤ length bytes.now) }
{
    leb(bytes, true, MOST_BYTES)
}

/// A text up to its NUL, which stands behind it.
pub(crate) fn text(bytes: &[u8]) -> Option<(&[u8], &[u8])>
    ensures { IfSome result (λ x. length x.0.now + length x.1.now + 1 ≡ length bytes.now) }
{
    for (place, byte) in bytes.iter().enumerate() {
        if *byte == 0 {
            return Some((&bytes[..place], &bytes[place + 1..]));
        }
    }
    None
}
