//! Writes numbers and the bytes of an operand.

ghost use Rattle.std.specs.Prelude.{◌≡◌, ◌<◌, ◌≤◌, ◌+◌, ◌++◌, IsTrue};
ghost use Rattle.arrayvec.specs.ArrayVec.{array_vec_len};
ghost use Rattle.ia_word.specs.Bytes.{long_bytes};
ghost use Rattle.ia_insn.specs.Writing.{fits_mem, fits_operand, three, is_signed_byte, mode_for, disp_bytes};
ghost use Rattle.ia_insn.specs.Writing.{scale_bits, place_bytes, operand_bytes};

use arrayvec::ArrayVec;
use ia_insn::{Mem, Operand, is_signed_byte};
use ia_word::le_bytes;

/// The bytes of an instruction, at most 15.
pub type Bytes = ArrayVec<u8, 15>;

/// A ModRM or SIB byte.
fn three(high: u8, middle: u8, low: u8) -> u8
    requires high { high < 4 }
    requires middle { middle < 8 }
    requires low { low < 8 }
    ensures { result ≡ three high middle low }
{
    64 * high + 8 * middle + low
}

/// The mode of a place with a base; `wide` asks for a displacement of 32 bits.
fn mode_for(wide: bool, base: u8, disp: u32) -> u8
    ensures mode { result ≡ mode_for wide base disp }
    ensures low { result < 3 }
{
    if wide {
        2
    } else if disp == 0 && base != 5 {
        0
    } else if is_signed_byte(disp) {
        1
    } else {
        2
    }
}

/// Writes 4 bytes, the lowest first.
pub fn put_long(out: &mut Bytes, number: u32)
    requires { array_vec_len out.old ≤ 11 }
    ensures items { out.new.items ≡ out.old.items ++ long_bytes number }
    ensures len { array_vec_len out.new ≡ array_vec_len out.old + 4 }
{
    let [first, second, third, fourth] = le_bytes(number);
    out.push(first);
    out.push(second);
    out.push(third);
    out.push(fourth);
}

/// Writes a displacement: nothing in mode 0, a byte in mode 1, else 4 bytes.
fn put_disp(out: &mut Bytes, mode: u8, disp: u32)
    requires { array_vec_len out.old ≤ 11 }
    ensures items { out.new.items ≡ out.old.items ++ disp_bytes mode disp }
    ensures len { array_vec_len out.new ≤ array_vec_len out.old + 4 }
{
    match mode {
        0 => {}
        1 => out.push((disp % 256) as u8),
        _ => put_long(out, disp),
    }
}

/// The scale field of a SIB byte for the scales 1, 2, 4 and 8.
fn scale_bits(scale: u8) -> u8
    ensures bits { result ≡ scale_bits scale }
    ensures low { result < 4 }
{
    match scale {
        1 => 0,
        2 => 1,
        4 => 2,
        _ => 3,
    }
}

/// Writes a ModRM byte with a reg field for a place in memory, SIB where it must stand, and the displacement.
#[tactic(auto, unfolding(ia_insn::specs::Writing::place_bytes))]
fn put_place(out: &mut Bytes, wide: bool, reg: u8, place: &Mem)
    requires reg { reg < 8 }
    requires place { IsTrue (fits_mem place.now) }
    requires room { array_vec_len out.old ≤ 9 }
    ensures items { out.new.items ≡
        out.old.items ++ place_bytes wide reg place.now.base place.now.index place.now.scale place.now.disp }
    ensures len { array_vec_len out.new ≤ array_vec_len out.old + 6 }
{
    match (place.base, place.index) {
        (None, None) => {
            out.push(three(0, reg, 5));
            put_long(out, place.disp);
        }
        (None, Some(index)) => {
            out.push(three(0, reg, 4));
            out.push(three(scale_bits(place.scale), index, 5));
            put_long(out, place.disp);
        }
        (Some(base), None) => {
            let mode = mode_for(wide, base, place.disp);
            if base == 4 {
                out.push(three(mode, reg, 4));
                out.push(three(0, 4, 4));
            } else {
                out.push(three(mode, reg, base));
            }
            put_disp(out, mode, place.disp);
        }
        (Some(base), Some(index)) => {
            let mode = mode_for(wide, base, place.disp);
            out.push(three(mode, reg, 4));
            out.push(three(scale_bits(place.scale), index, base));
            put_disp(out, mode, place.disp);
        }
    }
}

/// Writes a ModRM byte with a reg field, and what stands behind it; `wide` holds a displacement at 32 bits. Asked for a
/// register or a place, not for a number.
#[tactic(auto, unfolding(ia_insn::specs::Writing::operand_bytes))]
pub fn put_operand(out: &mut Bytes, wide: bool, reg: u8, operand: &Operand)
    requires reg { reg < 8 }
    requires operand { IsTrue (fits_operand operand.now) }
    requires room { array_vec_len out.old ≤ 9 }
    ensures items { out.new.items ≡ out.old.items ++ operand_bytes wide reg operand.now }
    ensures len { array_vec_len out.new ≤ array_vec_len out.old + 6 }
{
    match operand {
        Operand::Reg(rm) => out.push(three(3, reg, *rm)),
        Operand::Mem(place) => put_place(out, wide, reg, place),
        Operand::Imm(_) => {}
    }
}
