//! What an instruction is in words: its name, and what its prefixes make of it.

ghost use Rattle.std.specs.Prelude.{◌+◌, ◌≤◌, IfSome, length};

use crate::behind::byte_or_zero;
use crate::names::{is_string, is_wide, one_byte_name};
use crate::names_0f::two_byte_name;
use crate::prefixes::{ADDRESS_SIZE, LOCK, OPERAND_SIZE, REP, REPNE, has, prefixes};

/// What an instruction is: the two texts one after the other, as `16-bit ` and `move`, or nothing and `rdtsc`. Each is
/// of ASCII letters, digits, spaces and dashes.
#[derive(Clone, Copy, PartialEq, Eq, Debug)]
pub struct Words {
    /// What its prefixes make of it; nothing, or a text that ends with a space.
    pub front: &'static [u8],
    /// Its name, in the manual's words.
    pub name: &'static [u8],
    pub ghost short: { length front.now + length name.now ≤ 56 },
}

/// An instruction's opcode with the bytes that decide its name.
#[derive(Clone, Copy)]
pub(crate) struct Named {
    /// Whether 0F stands before the opcode.
    pub(crate) escaped: bool,
    pub(crate) opcode: u8,
    /// The byte behind the opcode: ModRM where it has one.
    pub(crate) modrm: u8,
}

// The opcode behind so many prefixes, where the bytes have one.
fn named_in(bytes: &[u8], count: usize) -> Option<Named> {
    if count >= bytes.len() {
        return None;
    }
    if bytes[count] != 0x0f {
        return Some(Named {
            escaped: false,
            opcode: bytes[count],
            modrm: byte_or_zero(bytes, count + 1),
        });
    }
    if count + 1 >= bytes.len() {
        return None;
    }
    Some(Named {
        escaped: true,
        opcode: bytes[count + 1],
        modrm: byte_or_zero(bytes, count + 2),
    })
}

// A segment's prefix among these, as it is said of an operand.
fn segment(prefixes: &[u8]) -> Option<&'static [u8]>
    ensures { IfSome result (λ text. length text.now ≤ 24) }
{
    if has(prefixes, 0x65) {
        Some(b"gs-relative ")
    } else if has(prefixes, 0x64) {
        Some(b"fs-relative ")
    } else if has(prefixes, 0x26) {
        Some(b"es-relative ")
    } else if has(prefixes, 0x2e) {
        Some(b"cs-relative ")
    } else if has(prefixes, 0x36) {
        Some(b"ss-relative ")
    } else if has(prefixes, 0x3e) {
        Some(b"ds-relative ")
    } else {
        None
    }
}

// Whether XACQUIRE or XRELEASE may stand before it: XCHG, or a store for XRELEASE (SDM volume 1, "HLE").
fn may_elide(named: Named, releases: bool) -> bool {
    let memory = named.modrm / 64 != 3;
    match named.opcode {
        0x86 | 0x87 => memory && !named.escaped,
        0x88 | 0x89 | 0xc6 | 0xc7 => releases && memory && !named.escaped,
        _ => false,
    }
}

// What REPNE and REP make of an instruction.
fn repeat(named: Named, prefixes: &[u8]) -> Option<&'static [u8]>
    ensures { IfSome result (λ text. length text.now ≤ 24) }
{
    let releases = has(prefixes, REP);
    if !releases && !has(prefixes, REPNE) {
        return None;
    }
    if has(prefixes, LOCK) || may_elide(named, releases) {
        return Some(if releases { b"xrelease " } else { b"xacquire " });
    }
    if named.escaped {
        return None;
    }
    Some(if is_string(named.opcode) {
        b"repeated "
    } else {
        b"repeat prefix on "
    })
}

// What the prefixes make of an instruction.
fn front(named: Named, prefixes: &[u8]) -> &'static [u8]
    ensures { length result.now ≤ 24 }
{
    if let Some(text) = repeat(named, prefixes) {
        text
    } else if has(prefixes, LOCK) {
        b"lock on "
    } else if has(prefixes, ADDRESS_SIZE) {
        b"16-bit address of "
    } else if let Some(text) = segment(prefixes) {
        text
    } else if has(prefixes, OPERAND_SIZE) {
        if is_wide(named) {
            b"16-bit "
        } else {
            b"operand-size prefix on "
        }
    } else {
        b""
    }
}

// Whether a prefix stands there that belongs to the opcode's name.
fn has_name_of_its_own(named: Named) -> bool {
    named.escaped
        && matches!(
            named.opcode,
            0x10..=0x1f | 0x28..=0x2f | 0x38 | 0x3a | 0x50..=0x7f | 0xb8 | 0xbc | 0xbd | 0xc2..=0xc7 | 0xd0..=0xfe
        )
}

// The name of an instruction, where it has one; REP stands before it or not.
fn name(named: Named, repeated: bool) -> Option<&'static [u8]>
    ensures { IfSome result (λ name. length name.now ≤ 32) }
{
    if named.escaped {
        two_byte_name(named, repeated)
    } else {
        one_byte_name(named)
    }
}

// An instruction without a name: what its prefix says.
fn nameless(prefixes: &[u8]) -> Option<Words> {
    if !has(prefixes, OPERAND_SIZE) {
        return None;
    }
    Some(Words {
        front: b"16-bit ",
        name: b"operand",
    })
}

/// What the instruction in front of some bytes is, where it is a known one.
pub(crate) fn words_of(bytes: &[u8]) -> Option<Words> {
    let prefixes = prefixes(bytes);
    let Some(named) = named_in(bytes, prefixes.len()) else {
        return nameless(prefixes);
    };
    let Some(name) = name(named, has(prefixes, REP)) else {
        return nameless(prefixes);
    };
    let front = if has_name_of_its_own(named) {
        segment(prefixes).unwrap_or(b"")
    } else {
        front(named, prefixes)
    };
    Some(Words { front, name })
}
