//! The names of instructions, by which they are printed and read.

ghost use Rattle.std.specs.Prelude.{◌≡◌, ◌≤◌, length};
ghost use Rattle.ia_insn.specs.Mnemonics.{unary_mnemonic, mnemonic_of, stem, condition};

use crate::op::Op;
use crate::operations::{
    alu_name, bare_name, bit_name, condition_name, exchange_name, extend_name, inc_dec_name,
    loop_name, shift_name, unary_name,
};
use ia_word::{
    AluOp, BareOp, BitOp, Condition, ExchangeOp, ExtendOp, IncDecOp, LoopOp, ShiftOp, UnaryOp,
};

/// An instruction's name (SDM volume 2, the page of each). Instructions of one shape share a variant.
#[derive(Clone, Copy, PartialEq, Eq)]
pub enum Mnemonic {
    /// ADD, OR, ADC, SBB, AND, SUB, XOR, CMP.
    Alu(AluOp),
    /// MOV.
    Mov,
    /// LEA.
    Lea,
    /// XCHG.
    Xchg,
    /// INC, DEC.
    IncDec(IncDecOp),
    /// TEST.
    Test,
    /// NOT, NEG, MUL, DIV, IDIV.
    Unary(UnaryOp),
    /// IMUL, with one to three operands.
    Imul,
    /// ROL, ROR, SHL, SHR, SAR.
    Shift(ShiftOp),
    /// PUSH.
    Push,
    /// POP.
    Pop,
    /// CALL.
    Call,
    /// RET.
    Ret,
    /// JMP.
    Jmp,
    /// Jcc.
    Jcc(Condition),
    /// SETcc.
    Setcc(Condition),
    /// CMOVcc.
    Cmovcc(Condition),
    /// LOOP, JECXZ.
    LoopJump(LoopOp),
    /// MOVZX, MOVSX.
    Extend(ExtendOp),
    /// CMPXCHG, XADD.
    Exchange(ExchangeOp),
    /// BT, BTS, BTR, BTC.
    Bit(BitOp),
    /// NOP.
    Nop,
    /// The instructions that never have operands.
    Bare(BareOp),
    /// XBEGIN.
    Xbegin,
    /// XABORT.
    Xabort,
}

fn unary_mnemonic(kind: UnaryOp) -> Mnemonic
    ensures { result ≡ unary_mnemonic kind }
{
    match kind {
        UnaryOp::Imul => Mnemonic::Imul,
        _ => Mnemonic::Unary(kind),
    }
}

impl Op {
    /// Whose name the operation has.
    pub fn mnemonic(&self) -> Mnemonic
        ensures { result ≡ mnemonic_of self.now }
    {
        match *self {
            Op::Alu(kind, _, _, _) => Mnemonic::Alu(kind),
            Op::Mov(_, _, _) => Mnemonic::Mov,
            Op::Lea(_, _) => Mnemonic::Lea,
            Op::Xchg(_, _, _) => Mnemonic::Xchg,
            Op::IncDec(kind, _, _) => Mnemonic::IncDec(kind),
            Op::Test(_, _, _) => Mnemonic::Test,
            Op::Unary(kind, _) => unary_mnemonic(kind),
            Op::Imul(_, _) => Mnemonic::Imul,
            Op::ImulImm(_, _, _) => Mnemonic::Imul,
            Op::Shift(kind, _, _) => Mnemonic::Shift(kind),
            Op::Push(_) => Mnemonic::Push,
            Op::Pop(_) => Mnemonic::Pop,
            Op::Call(_) => Mnemonic::Call,
            Op::CallTo(_) => Mnemonic::Call,
            Op::Ret => Mnemonic::Ret,
            Op::RetPop(_) => Mnemonic::Ret,
            Op::Jmp(_) => Mnemonic::Jmp,
            Op::JmpShort(_) => Mnemonic::Jmp,
            Op::JmpTo(_) => Mnemonic::Jmp,
            Op::Jcc(kind, _) => Mnemonic::Jcc(kind),
            Op::JccShort(kind, _) => Mnemonic::Jcc(kind),
            Op::Setcc(kind, _) => Mnemonic::Setcc(kind),
            Op::Cmovcc(kind, _, _) => Mnemonic::Cmovcc(kind),
            Op::LoopJump(kind, _) => Mnemonic::LoopJump(kind),
            Op::Extend(kind, _, _) => Mnemonic::Extend(kind),
            Op::Exchange(kind, _, _) => Mnemonic::Exchange(kind),
            Op::Bit(kind, _, _) => Mnemonic::Bit(kind),
            Op::Nop => Mnemonic::Nop,
            Op::NopOf(_) => Mnemonic::Nop,
            Op::Bare(kind) => Mnemonic::Bare(kind),
            Op::Xbegin(_) => Mnemonic::Xbegin,
            Op::Xabort(_) => Mnemonic::Xabort,
        }
    }
}

impl Mnemonic {
    /// The name in lower case, up to its condition, of one to seven letters.
    pub fn stem(self) -> &'static [u8]
        ensures name { result.now ≡ stem self }
        ensures short { length result.now ≤ 7 }
    {
        match self {
            Mnemonic::Alu(kind) => alu_name(kind),
            Mnemonic::Mov => b"mov",
            Mnemonic::Lea => b"lea",
            Mnemonic::Xchg => b"xchg",
            Mnemonic::IncDec(kind) => inc_dec_name(kind),
            Mnemonic::Test => b"test",
            Mnemonic::Unary(kind) => unary_name(kind),
            Mnemonic::Imul => b"imul",
            Mnemonic::Shift(kind) => shift_name(kind),
            Mnemonic::Push => b"push",
            Mnemonic::Pop => b"pop",
            Mnemonic::Call => b"call",
            Mnemonic::Ret => b"ret",
            Mnemonic::Jmp => b"jmp",
            Mnemonic::Jcc(_) => b"j",
            Mnemonic::Setcc(_) => b"set",
            Mnemonic::Cmovcc(_) => b"cmov",
            Mnemonic::LoopJump(kind) => loop_name(kind),
            Mnemonic::Extend(kind) => extend_name(kind),
            Mnemonic::Exchange(kind) => exchange_name(kind),
            Mnemonic::Bit(kind) => bit_name(kind),
            Mnemonic::Nop => b"nop",
            Mnemonic::Bare(kind) => bare_name(kind),
            Mnemonic::Xbegin => b"xbegin",
            Mnemonic::Xabort => b"xabort",
        }
    }

    /// The name of its condition, where it has one, else nothing.
    pub fn condition(self) -> &'static [u8]
        ensures name { result.now ≡ condition self }
        ensures short { length result.now ≤ 2 }
    {
        match self {
            Mnemonic::Jcc(kind) => condition_name(kind),
            Mnemonic::Setcc(kind) => condition_name(kind),
            Mnemonic::Cmovcc(kind) => condition_name(kind),
            _ => b"",
        }
    }
}
