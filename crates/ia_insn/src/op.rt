//! Instructions as data: an operation with its operands, and LOCK beside it. Forms of one operation that differ in
//! their bytes alone are one case; which have a spelling is `encodable`'s.

use crate::kinds::Count;
use crate::operand::{Mem, Operand};
use ia_word::{
    AluOp, BareOp, BitOp, Condition, ExchangeOp, ExtendOp, IncDecOp, LoopOp, ShiftOp, UnaryOp,
    Width,
};

/// What an instruction does. A register is 0 to 7; a jump distance is a 32-bit value, counted from the end of the
/// instruction, modulo 2^32. Where two operands stand, the destination is the first. Instructions of one shape that
/// differ in the operation alone share a variant. Near and short jumps, and RET with and without a count, are different
/// instructions. The page of each is that of its mnemonic in SDM volume 2.
#[derive(Clone, Copy, Debug, PartialEq, Eq)]
pub enum Op {
    /// ADD, OR, ADC, SBB, AND, SUB, XOR, CMP: destination and source.
    Alu(AluOp, Width, Operand, Operand),
    /// MOV: destination and source.
    Mov(Width, Operand, Operand),
    /// LEA: the address of the place goes to the register.
    Lea(u8, Mem),
    /// XCHG: the operand and the register.
    Xchg(Width, Operand, u8),
    /// INC, DEC.
    IncDec(IncDecOp, Width, Operand),
    /// TEST: both operands are read alone.
    Test(Width, Operand, Operand),
    /// NOT, NEG, MUL, IMUL, DIV, IDIV of a doubleword.
    Unary(UnaryOp, Operand),
    /// IMUL: the register times the operand.
    Imul(u8, Operand),
    /// IMUL: the operand times the number goes to the register.
    ImulImm(u8, Operand, u32),
    /// ROL, ROR, SHL, SHR, SAR of a doubleword.
    Shift(ShiftOp, Operand, Count),
    /// PUSH of a doubleword.
    Push(Operand),
    /// POP of a doubleword.
    Pop(Operand),
    /// CALL, near, by a distance.
    Call(u32),
    /// CALL, near, to the address in the operand.
    CallTo(Operand),
    /// RET, near.
    Ret,
    /// RET, near, which takes so many bytes more from the stack.
    RetPop(u16),
    /// JMP, near, by a distance.
    Jmp(u32),
    /// JMP, short, by a distance that is a sign-extended byte.
    JmpShort(u32),
    /// JMP, near, to the address in the operand.
    JmpTo(Operand),
    /// Jcc, near, by a distance.
    Jcc(Condition, u32),
    /// Jcc, short, by a distance that is a sign-extended byte.
    JccShort(Condition, u32),
    /// SETcc of a byte.
    Setcc(Condition, Operand),
    /// CMOVcc: from the operand to the register.
    Cmovcc(Condition, u8, Operand),
    /// LOOP, JECXZ, by a distance that is a sign-extended byte.
    LoopJump(LoopOp, u32),
    /// MOVZX, MOVSX: from an operand of a byte to the register.
    Extend(ExtendOp, u8, Operand),
    /// CMPXCHG, XADD: the operand and the register.
    Exchange(ExchangeOp, Operand, u8),
    /// BT, BTS, BTR, BTC: the bit of this number of the operand.
    Bit(BitOp, Operand, u8),
    /// NOP of one byte.
    Nop,
    /// NOP with an operand, which is not read.
    NopOf(Operand),
    /// LEAVE, CDQ, CWDE, CLC, STC, CMC, PAUSE, HLT, INT3, UD2, CPUID, LFENCE, MFENCE, SFENCE, XEND, XTEST.
    Bare(BareOp),
    /// XBEGIN: the fallback stands at this distance.
    Xbegin(u32),
    /// XABORT with a code.
    Xabort(u8),
}

/// An instruction, with LOCK (the byte F0) in front or without (SDM volume 2, "LOCK—Assert LOCK# Signal Prefix").
#[derive(Clone, Copy, Debug, PartialEq, Eq)]
pub struct Insn {
    /// Whether LOCK stands in front.
    pub lock: bool,
    /// What it does.
    pub op: Op,
}
