//! How many bytes an instruction takes: prefixes, opcode, ModRM, SIB, displacement and immediates (SDM volume 2,
//! chapter 2, "Instruction Format").

ghost use Rattle.std.specs.Prelude.{◌≡◌, ◌+◌, ◌≤◌, ◌<◌, length, if◌then◌else◌, IfSome};
ghost use Rattle.ia_foreign.specs.Length.{around, behind_len, byte_or_zero, disp_len, is_test, length_by_maps};
ghost use Rattle.ia_foreign.specs.Length.{opcode_at, operand_len, place_len, short_place_len, sized_len};

use crate::maps::{Shape, one_byte_shape, two_byte_shape};
use crate::prefixes::{ADDRESS_SIZE, OPERAND_SIZE, REP, has, prefixes};

/// What stands around an opcode and decides how many bytes follow it.
#[derive(Clone, Copy)]
pub(crate) struct Around {
    /// Whether 66, 67 and F3 stand before it.
    pub(crate) narrow: bool,
    pub(crate) short: bool,
    pub(crate) repeated: bool,
    /// The two bytes behind it, 0 where they are missing.
    pub(crate) modrm: u8,
    pub(crate) sib: u8,
}

/// How many bytes an opcode has with its escapes, and what follows it.
#[derive(Clone, Copy)]
pub(crate) struct Opcode {
    pub(crate) count: usize,
    pub(crate) shape: Shape,
}

/// The byte at a place, or 0 behind the end.
pub(crate) fn byte_or_zero(bytes: &[u8], place: usize) -> u8
    ensures { result ≡ byte_or_zero bytes.now place }
{
    if place < bytes.len() { bytes[place] } else { 0 }
}

#[tactic(auto, unfolding(crate::specs::Length::disp_len))]
fn disp_len(mode: u8, base: u8) -> usize
    ensures len { result ≡ disp_len mode base }
    ensures few { result ≤ 4 }
{
    if mode == 0 {
        if base == 5 { 4 } else { 0 }
    } else if mode == 1 {
        1
    } else {
        4
    }
}

#[tactic(auto, unfolding(crate::specs::Length::place_len))]
fn place_len(modrm: u8, sib: u8) -> usize
    ensures len { result ≡ place_len modrm sib }
    ensures few { result ≤ 5 }
{
    if modrm / 64 == 3 {
        0
    } else if modrm % 8 == 4 {
        1 + disp_len(modrm / 64, sib % 8)
    } else {
        disp_len(modrm / 64, modrm % 8)
    }
}

#[tactic(auto, unfolding(crate::specs::Length::short_place_len))]
fn short_place_len(modrm: u8) -> usize
    ensures len { result ≡ short_place_len modrm }
    ensures few { result ≤ 2 }
{
    if modrm / 64 == 0 {
        if modrm % 8 == 6 { 2 } else { 0 }
    } else if modrm / 64 == 1 {
        1
    } else if modrm / 64 == 2 {
        2
    } else {
        0
    }
}

fn sized_len(around: Around) -> usize
    ensures len { result ≡ sized_len around }
    ensures few { result ≤ 4 }
{
    if around.narrow { 2 } else { 4 }
}

fn operand_len(around: Around) -> usize
    ensures len { result ≡ operand_len around }
    ensures few { result ≤ 6 }
{
    if around.short {
        1 + short_place_len(around.modrm)
    } else {
        1 + place_len(around.modrm, around.sib)
    }
}

fn is_test(around: Around) -> bool
    ensures { result ≡ is_test around }
{
    around.modrm / 8 % 8 < 2
}

// The operand of F6 or F7, and its immediate of this length where there is one.
fn test_len(around: Around, immediate: usize) -> usize
    requires { immediate ≤ 4 }
    ensures len { result ≡ operand_len around + (if is_test around then immediate else 0) }
    ensures few { result ≤ 10 }
{
    if is_test(around) {
        operand_len(around) + immediate
    } else {
        operand_len(around)
    }
}

// How many bytes stand behind an opcode, where that is sure.
#[tactic(auto, unfolding(crate::specs::Length::behind_len))]
fn behind_len(shape: Shape, around: Around) -> Option<usize>
    ensures len { result ≡ behind_len shape around }
    ensures few { IfSome result (λ n. n ≤ 300) }
{
    match shape {
        Shape::Unsure => None,
        Shape::Bytes(count) => Some(usize::from(count)),
        Shape::Sized => Some(sized_len(around)),
        Shape::Pointer => Some(2 + sized_len(around)),
        Shape::Offset => Some(if around.short { 2 } else { 4 }),
        Shape::Operand(count) => Some(operand_len(around) + usize::from(count)),
        Shape::OperandSized => Some(operand_len(around) + sized_len(around)),
        Shape::Memory => (around.modrm / 64 != 3).then_some(operand_len(around)),
        Shape::First => (around.modrm / 8 % 8 == 0).then_some(operand_len(around)),
        Shape::Repeated => around.repeated.then_some(operand_len(around)),
        Shape::Test => Some(test_len(around, 1)),
        Shape::TestSized => Some(test_len(around, sized_len(around))),
    }
}

#[tactic(auto, unfolding(crate::specs::Length::opcode_at))]
fn opcode_at(first: u8, second: u8) -> Opcode
    ensures opcode { result ≡ opcode_at first second }
    ensures some { 1 ≤ result.count }
    ensures few { result.count ≤ 3 }
{
    if first != 0x0f {
        return Opcode {
            count: 1,
            shape: one_byte_shape(first),
        };
    }
    match second {
        0x38 => Opcode {
            count: 3,
            shape: Shape::Operand(0),
        },
        0x3a => Opcode {
            count: 3,
            shape: Shape::Operand(1),
        },
        _ => Opcode {
            count: 2,
            shape: two_byte_shape(second),
        },
    }
}

// What stands around an opcode that ends here.
fn surroundings(bytes: &[u8], place: usize) -> Around
    requires { place < 1000 }
    ensures { result ≡ around bytes.now place }
{
    let front = prefixes(bytes);
    Around {
        narrow: has(front, OPERAND_SIZE),
        short: has(front, ADDRESS_SIZE),
        repeated: has(front, REP),
        modrm: byte_or_zero(bytes, place),
        sib: byte_or_zero(bytes, place + 1),
    }
}

/// The length of the instruction in front, where the maps make it sure and the bytes have it.
#[tactic(auto, unfolding(crate::specs::Length::length_by_maps))]
pub(crate) fn length_by_maps(bytes: &[u8]) -> Option<u8>
    requires { length bytes.now ≤ 15 }
    ensures length { result ≡ length_by_maps bytes.now }
    ensures within { IfSome result (λ n. (1 ≤ n) × (n ≤ length bytes.now)) }
{
    let count = prefixes(bytes).len();
    let opcode = opcode_at(byte_or_zero(bytes, count), byte_or_zero(bytes, count + 1));
    let front = count + opcode.count;
    let behind = behind_len(opcode.shape, surroundings(bytes, front))?;
    if front + behind <= bytes.len() {
        Some((front + behind) as u8)
    } else {
        None
    }
}
