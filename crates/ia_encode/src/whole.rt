//! Whole instructions: LOCK in front, then opcode, ModRM, SIB, displacement and immediate, as the operation has them.
//! An instruction comes in that some bytes spell; whether it is one is asked in `ia_insn`.

ghost use Rattle.std.specs.Prelude.{◌≡◌, ◌≤◌, ◌++◌, IsTrue, List, ℕ, Ok, length};
ghost use Rattle.arrayvec.specs.ArrayVec.{array_vec_len};
ghost use Rattle.ia_insn.specs.Spelling.{Spells};
ghost use Rattle.ia_insn.specs.Reading.{decoding_of};
ghost use Rattle.ia_insn.specs.Encoding.{encodable, op_bytes, is_encodable, insn_bytes, insn_bytes_with};

use crate::parts::{put_bytes, put_form, put_form_0f, put_near, put_short};
use crate::wide::Wide;
use crate::width::width_bit;
use crate::writing::{
    put_alu, put_bit, put_imul, put_inc_dec, put_mov, put_pop, put_push, put_ret, put_shift,
    put_test,
};
use arrayvec::ArrayVec;
use ia_insn::{
    Insn, Op, Operand, bare_bytes, exchange_opcode, extend_opcode, loop_opcode, unary_number,
};
use ia_modrm::Bytes;

/// Writes an operation.
#[tactic(auto, unfolding(ia_insn::specs::Encoding::op_bytes))]
fn put_op(out: &mut Bytes, wide: Wide, op: &Op)
    requires op { IsTrue (encodable op.now) }
    requires room { array_vec_len out.old ≤ 1 }
    ensures { out.new.items ≡ out.old.items ++ op_bytes wide.number wide.place op.now }
{
    match op {
        Op::Alu(kind, width, to, from) => put_alu(out, wide, *kind, *width, to, from),
        Op::Mov(width, to, from) => put_mov(out, wide, *width, to, from),
        Op::Lea(reg, place) => put_form(out, wide, 0x8d, *reg, &Operand::Mem(*place)),
        Op::Xchg(width, to, reg) => put_form(out, wide, 0x86 + width_bit(*width), *reg, to),
        Op::IncDec(kind, width, operand) => put_inc_dec(out, wide, *kind, *width, operand),
        Op::Test(width, left, right) => put_test(out, wide, *width, left, right),
        Op::Unary(kind, operand) => put_form(out, wide, 0xf7, unary_number(*kind), operand),
        Op::Imul(reg, operand) => put_form_0f(out, wide, 0xaf, *reg, operand),
        Op::ImulImm(reg, operand, number) => put_imul(out, wide, *reg, operand, *number),
        Op::Shift(kind, operand, count) => put_shift(out, wide, *kind, operand, *count),
        Op::Push(operand) => put_push(out, wide, operand),
        Op::Pop(operand) => put_pop(out, wide, operand),
        Op::Call(distance) => put_near(out, &[0xe8], *distance),
        Op::CallTo(operand) => put_form(out, wide, 0xff, 2, operand),
        Op::Ret => out.push(0xc3),
        Op::RetPop(bytes) => put_ret(out, *bytes),
        Op::Jmp(distance) => put_near(out, &[0xe9], *distance),
        Op::JmpShort(distance) => put_short(out, 0xeb, *distance),
        Op::JmpTo(operand) => put_form(out, wide, 0xff, 4, operand),
        Op::Jcc(condition, distance) => {
            put_near(out, &[0x0f, 0x80 + condition.number()], *distance);
        }
        Op::JccShort(condition, distance) => put_short(out, 0x70 + condition.number(), *distance),
        Op::Setcc(condition, to) => put_form_0f(out, wide, 0x90 + condition.number(), 0, to),
        Op::Cmovcc(condition, reg, operand) => {
            put_form_0f(out, wide, 0x40 + condition.number(), *reg, operand);
        }
        Op::LoopJump(kind, distance) => put_short(out, loop_opcode(*kind), *distance),
        Op::Extend(kind, reg, from) => put_form_0f(out, wide, extend_opcode(*kind), *reg, from),
        Op::Exchange(kind, to, reg) => put_form_0f(out, wide, exchange_opcode(*kind), *reg, to),
        Op::Bit(kind, operand, number) => put_bit(out, wide, *kind, operand, *number),
        Op::Nop => out.push(0x90),
        Op::NopOf(operand) => put_form_0f(out, wide, 0x1f, 0, operand),
        Op::Bare(kind) => put_bytes(out, bare_bytes(*kind)),
        Op::Xbegin(distance) => put_near(out, &[0xc7, 0xf8], *distance),
        Op::Xabort(code) => put_bytes(out, &[0xc6, 0xf8, *code]),
    }
}

/// An instruction, with LOCK in front or without.
fn written(insn: &Insn, wide: Wide) -> Bytes
    requires { IsTrue (is_encodable insn.now) }
    ensures { result.items ≡ insn_bytes_with wide.number wide.place insn.now }
{
    let mut out = ArrayVec::new();
    if insn.lock {
        out.push(0xf0);
    }
    put_op(&mut out, wide, &insn.op);
    out
}

/// The bytes of an encodable instruction, at most 15: each field takes the form that is as short as its value allows,
/// and a form with AL, EAX or a bare address is never given.
pub fn encode(insn: &Insn) -> Bytes
    requires { IsTrue (is_encodable insn.now) }
    // They are those of the one definition, with nothing held wide.
    ensures bytes { result.items ≡ insn_bytes insn.now }
    // They spell the instruction.
    ensures spelling { Spells result.items insn.now }
    // Read with any bytes behind them they are the instruction, and as many bytes as were written.
    ensures again { (more : List ℕ) → decoding_of (result.items ++ more) ≡ Ok (insn.now, length result.items) }
{
    encode_with(insn, false, false)
}

/// The bytes of an encodable instruction, at most 15. Where `number_wide`, the immediate takes 32 bits where the
/// instruction has such a form: 81 for 83, 69 for 6B, 68 for 6A, and a shift's count stands in C1 even where it is 1.
/// Where `place_wide`, a displacement takes 32 bits. So the length depends on no value that stands in such a field.
pub fn encode_with(insn: &Insn, number_wide: bool, place_wide: bool) -> Bytes
    requires { IsTrue (is_encodable insn.now) }
    ensures bytes { result.items ≡ insn_bytes_with number_wide place_wide insn.now }
    // They spell the instruction.
    ensures spelling { Spells result.items insn.now }
    // Read with any bytes behind them they are the instruction, and as many bytes as were written.
    ensures again { (more : List ℕ) → decoding_of (result.items ++ more) ≡ Ok (insn.now, length result.items) }
{
    let wide = Wide {
        number: number_wide,
        place: place_wide,
    };
    written(insn, wide)
}
