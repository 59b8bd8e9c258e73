//! Parts that instructions share. Each is written behind what stands in the buffer.

ghost use Rattle.std.specs.Prelude.{◌≡◌, ◌<◌, ◌≤◌, ◌+◌, ◌%◌, ◌++◌, ◌∷◌, [], IsTrue, length};
ghost use Rattle.arrayvec.specs.ArrayVec.{array_vec_len};
ghost use Rattle.ia_word.specs.Bytes.{long_bytes};
ghost use Rattle.ia_insn.specs.Writing.{fits_operand, operand_bytes};
ghost use Rattle.ia_insn.specs.Encoding.{fits_imm, imm_bytes};

use crate::wide::Wide;
use ia_insn::Operand;
use ia_modrm::{Bytes, put_long, put_operand};
use ia_word::Width;

/// Writes bytes.
pub fn put_bytes(out: &mut Bytes, bytes: &[u8])
    requires { array_vec_len out.old + length bytes.now ≤ 15 }
    ensures items { out.new.items ≡ out.old.items ++ bytes.now }
    ensures len { array_vec_len out.new ≡ array_vec_len out.old + length bytes.now }
{
    match out.try_extend_from_slice(bytes) {
        Ok(()) => {}
        Err(_) => unreachable!(),
    }
}

/// Writes an opcode of one byte and a ModRM operand beside a reg field.
pub fn put_form(out: &mut Bytes, wide: Wide, opcode: u8, reg: u8, operand: &Operand)
    requires reg { reg < 8 }
    requires operand { IsTrue (fits_operand operand.now) }
    requires room { array_vec_len out.old ≤ 8 }
    ensures items { out.new.items ≡ out.old.items ++ (opcode ∷ operand_bytes wide.place reg operand.now) }
    ensures len { array_vec_len out.new ≤ array_vec_len out.old + 7 }
{
    out.push(opcode);
    put_operand(out, wide.place, reg, operand);
}

/// Writes 0F, an opcode, and a ModRM operand beside a reg field.
pub fn put_form_0f(out: &mut Bytes, wide: Wide, opcode: u8, reg: u8, operand: &Operand)
    requires reg { reg < 8 }
    requires operand { IsTrue (fits_operand operand.now) }
    requires room { array_vec_len out.old ≤ 7 }
    ensures items { out.new.items ≡ out.old.items ++ (0x0F ∷ opcode ∷ operand_bytes wide.place reg operand.now) }
    ensures len { array_vec_len out.new ≤ array_vec_len out.old + 8 }
{
    out.push(0x0f);
    put_form(out, wide, opcode, reg, operand);
}

/// Writes an opcode and 32 bits.
pub fn put_near(out: &mut Bytes, opcode: &[u8], distance: u32)
    requires { array_vec_len out.old + length opcode.now ≤ 11 }
    ensures { out.new.items ≡ out.old.items ++ (opcode.now ++ long_bytes distance) }
{
    put_bytes(out, opcode);
    put_long(out, distance);
}

/// Writes an opcode and the low byte of a distance.
pub fn put_short(out: &mut Bytes, opcode: u8, distance: u32)
    requires { array_vec_len out.old ≤ 13 }
    ensures { out.new.items ≡ out.old.items ++ (opcode ∷ distance % 256 ∷ []) }
{
    out.push(opcode);
    out.push((distance % 256) as u8);
}

/// Writes an immediate of a width.
pub fn put_imm(out: &mut Bytes, width: Width, number: u32)
    requires number { IsTrue (fits_imm width number) }
    requires room { array_vec_len out.old ≤ 11 }
    ensures items { out.new.items ≡ out.old.items ++ imm_bytes width number }
    ensures len { array_vec_len out.new ≤ array_vec_len out.old + 4 }
{
    match width {
        Width::B => out.push(number as u8),
        Width::D => put_long(out, number),
    }
}
