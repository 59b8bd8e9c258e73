//! Operations that have several forms, and those with an immediate behind the operand.

ghost use Rattle.std.specs.Prelude.{◌≡◌, ◌<◌, ◌≤◌, ◌+◌, ◌++◌, ◌∷◌, IsTrue};
ghost use Rattle.arrayvec.specs.ArrayVec.{array_vec_len};
ghost use Rattle.ia_insn.specs.Operands.{word};
ghost use Rattle.ia_insn.specs.Writing.{fits_operand};
ghost use Rattle.ia_insn.specs.Encoding.{fits_pair, fits_test, encodable, op_bytes, alu_bytes, mov_bytes, test_bytes};
ghost use Rattle.ia_insn.specs.Encoding.{inc_dec_bytes, shift_bytes, push_bytes, pop_bytes};

use crate::parts::{put_form, put_form_0f, put_imm, put_near, put_short};
use crate::wide::Wide;
use crate::width::width_bit;
use ia_insn::{
    Count, Op, Operand, alu_number, bit_number, inc_dec_number, is_signed_byte, shift_number,
};
use ia_modrm::{Bytes, put_long};
use ia_word::{AluOp, BitOp, IncDecOp, ShiftOp, Width};

/// ADD to CMP: of two registers the form that writes the ModRM operand.
#[tactic(auto, unfolding(ia_insn::specs::Encoding::alu_bytes))]
pub fn put_alu(out: &mut Bytes, wide: Wide, kind: AluOp, width: Width, to: &Operand, from: &Operand)
    requires pair { IsTrue (fits_pair width to.now from.now) }
    requires room { array_vec_len out.old ≤ 1 }
    ensures { out.new.items ≡ out.old.items ++ alu_bytes wide.number wide.place kind width to.now from.now }
{
    let number = alu_number(kind);
    match (to, from) {
        (_, Operand::Reg(reg)) => {
            put_form(out, wide, 8 * number + width_bit(width), *reg, to);
        }
        (Operand::Reg(reg), Operand::Mem(_)) => {
            put_form(out, wide, 8 * number + 2 + width_bit(width), *reg, from);
        }
        (_, Operand::Mem(_)) => unreachable!(),
        (_, Operand::Imm(value)) => match width {
            Width::B => {
                put_form(out, wide, 0x80, number, to);
                out.push(*value as u8);
            }
            Width::D => {
                if !wide.number && is_signed_byte(*value) {
                    put_form(out, wide, 0x83, number, to);
                    out.push((*value % 256) as u8);
                } else {
                    put_form(out, wide, 0x81, number, to);
                    put_long(out, *value);
                }
            }
        },
    }
}

/// MOV: of two registers the form that writes the ModRM operand.
#[tactic(auto, unfolding(ia_insn::specs::Encoding::mov_bytes))]
pub fn put_mov(out: &mut Bytes, wide: Wide, width: Width, to: &Operand, from: &Operand)
    requires pair { IsTrue (fits_pair width to.now from.now) }
    requires room { array_vec_len out.old ≤ 1 }
    ensures { out.new.items ≡ out.old.items ++ mov_bytes wide.place width to.now from.now }
{
    match (to, from) {
        (_, Operand::Reg(reg)) => {
            put_form(out, wide, 0x88 + width_bit(width), *reg, to);
        }
        (Operand::Reg(reg), Operand::Mem(_)) => {
            put_form(out, wide, 0x8a + width_bit(width), *reg, from);
        }
        (Operand::Reg(reg), Operand::Imm(value)) => {
            out.push(0xb0 + 8 * width_bit(width) + *reg);
            put_imm(out, width, *value);
        }
        (Operand::Mem(_), Operand::Imm(value)) => {
            put_form(out, wide, 0xc6 + width_bit(width), 0, to);
            put_imm(out, width, *value);
        }
        _ => unreachable!(),
    }
}

/// INC and DEC: of a doubleword the opcode of a register, else FE or FF with a digit.
#[tactic(auto, unfolding(ia_insn::specs::Encoding::inc_dec_bytes))]
pub fn put_inc_dec(out: &mut Bytes, wide: Wide, kind: IncDecOp, width: Width, operand: &Operand)
    requires operand { IsTrue (fits_operand operand.now) }
    requires room { array_vec_len out.old ≤ 1 }
    ensures { out.new.items ≡ out.old.items ++ inc_dec_bytes wide.place kind width operand.now }
{
    let number = inc_dec_number(kind);
    match (width, operand) {
        (Width::D, Operand::Reg(reg)) => out.push(0x40 + 8 * number + *reg),
        (Width::D, _) => {
            put_form(out, wide, 0xff, number, operand);
        }
        (Width::B, _) => {
            put_form(out, wide, 0xfe, number, operand);
        }
    }
}

/// A shift: D1 where the count is 1 and need not be held, D3 for CL, else C1.
#[tactic(auto, unfolding(ia_insn::specs::Encoding::shift_bytes))]
pub fn put_shift(out: &mut Bytes, wide: Wide, kind: ShiftOp, operand: &Operand, count: Count)
    requires operand { IsTrue (fits_operand operand.now) }
    requires room { array_vec_len out.old ≤ 1 }
    ensures { out.new.items ≡ out.old.items ++ shift_bytes wide.number wide.place kind operand.now count }
{
    let number = shift_number(kind);
    match count {
        Count::Cl => {
            put_form(out, wide, 0xd3, number, operand);
        }
        Count::Imm(1) if !wide.number => {
            put_form(out, wide, 0xd1, number, operand);
        }
        Count::Imm(bits) => {
            put_form(out, wide, 0xc1, number, operand);
            out.push(bits);
        }
    }
}

/// PUSH: 50 and the register, else FF /6; a number in 6A or 68.
#[tactic(auto, unfolding(ia_insn::specs::Encoding::push_bytes))]
pub fn put_push(out: &mut Bytes, wide: Wide, operand: &Operand)
    requires operand { IsTrue (encodable (Op.Push operand.now)) }
    requires room { array_vec_len out.old ≤ 1 }
    ensures { out.new.items ≡ out.old.items ++ push_bytes wide.number wide.place operand.now }
{
    match operand {
        Operand::Reg(reg) => out.push(0x50 + *reg),
        Operand::Mem(_) => {
            put_form(out, wide, 0xff, 6, operand);
        }
        Operand::Imm(value) => {
            if !wide.number && is_signed_byte(*value) {
                put_short(out, 0x6a, *value);
            } else {
                put_near(out, &[0x68], *value);
            }
        }
    }
}

/// POP: 58 and the register, else 8F /0.
#[tactic(auto, unfolding(ia_insn::specs::Encoding::pop_bytes))]
pub fn put_pop(out: &mut Bytes, wide: Wide, operand: &Operand)
    requires operand { IsTrue (fits_operand operand.now) }
    requires room { array_vec_len out.old ≤ 1 }
    ensures { out.new.items ≡ out.old.items ++ pop_bytes wide.place operand.now }
{
    match operand {
        Operand::Reg(reg) => out.push(0x58 + *reg),
        _ => {
            put_form(out, wide, 0x8f, 0, operand);
        }
    }
}

/// TEST with a register or a number.
#[tactic(auto, unfolding(ia_insn::specs::Encoding::test_bytes))]
pub fn put_test(out: &mut Bytes, wide: Wide, width: Width, left: &Operand, right: &Operand)
    requires pair { IsTrue (fits_test width left.now right.now) }
    requires room { array_vec_len out.old ≤ 1 }
    ensures { out.new.items ≡ out.old.items ++ test_bytes wide.place width left.now right.now }
{
    match right {
        Operand::Reg(reg) => {
            put_form(out, wide, 0x84 + width_bit(width), *reg, left);
        }
        Operand::Imm(value) => {
            put_form(out, wide, 0xf6 + width_bit(width), 0, left);
            put_imm(out, width, *value);
        }
        Operand::Mem(_) => unreachable!(),
    }
}

/// IMUL with a number: 6B where it is a sign-extended byte and need not be wide, else 69.
#[tactic(auto, unfolding(ia_insn::specs::Encoding::op_bytes))]
pub fn put_imul(out: &mut Bytes, wide: Wide, reg: u8, operand: &Operand, number: u32)
    requires reg { reg < 8 }
    requires operand { IsTrue (fits_operand operand.now) }
    requires room { array_vec_len out.old ≤ 1 }
    ensures { out.new.items ≡ out.old.items ++ op_bytes wide.number wide.place (Op.ImulImm reg operand.now number) }
{
    if !wide.number && is_signed_byte(number) {
        put_form(out, wide, 0x6b, reg, operand);
        out.push((number % 256) as u8);
    } else {
        put_form(out, wide, 0x69, reg, operand);
        put_long(out, number);
    }
}

/// BT, BTS, BTR, BTC.
#[tactic(auto, unfolding(ia_insn::specs::Encoding::op_bytes))]
pub fn put_bit(out: &mut Bytes, wide: Wide, kind: BitOp, operand: &Operand, number: u8)
    requires operand { IsTrue (fits_operand operand.now) }
    requires room { array_vec_len out.old ≤ 1 }
    ensures { out.new.items ≡ out.old.items ++ op_bytes wide.number wide.place (Op.Bit kind operand.now number) }
{
    put_form_0f(out, wide, 0xba, bit_number(kind), operand);
    out.push(number);
}

/// RET that takes bytes from the stack.
pub fn put_ret(out: &mut Bytes, bytes: u16)
    requires { array_vec_len out.old ≤ 1 }
    ensures { out.new.items ≡ out.old.items ++ (0xC2 ∷ word bytes) }
{
    let [low, high] = bytes.to_le_bytes();
    out.push(0xc2);
    out.push(low);
    out.push(high);
}
