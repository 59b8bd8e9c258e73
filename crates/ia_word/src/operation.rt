//! Kinds of operations, where instructions of one shape differ in these alone.

/// An operation on two operands that sets all six flags (SDM volume 2, ADD, OR, ADC, SBB, AND, SUB, XOR, CMP).
/// The order is that of the opcodes 8n and of /n behind 80, 81 and 83.
#[derive(Clone, Copy, PartialEq, Eq, Debug)]
pub enum AluOp {
    /// The sum.
    Add,
    /// Each bit that is set in either.
    Or,
    /// The sum and the carry.
    Adc,
    /// The difference less the borrow.
    Sbb,
    /// Each bit that is set in both.
    And,
    /// The difference.
    Sub,
    /// Each bit that is set in one.
    Xor,
    /// The flags of the difference; nothing is written.
    Cmp,
}

/// A shift or a rotation of a doubleword (SDM volume 2, RCL/RCR/ROL/ROR and SAL/SAR/SHL/SHR).
#[derive(Clone, Copy, PartialEq, Eq, Debug)]
pub enum ShiftOp {
    /// Rotates to the left.
    Rol,
    /// Rotates to the right.
    Ror,
    /// Shifts to the left.
    Shl,
    /// Shifts to the right, with zeros from the left.
    Shr,
    /// Shifts to the right, with copies of the sign.
    Sar,
}

/// What is done to a bit that is selected into CF (SDM volume 2, BT, BTS, BTR, BTC).
#[derive(Clone, Copy, PartialEq, Eq, Debug)]
pub enum BitOp {
    /// Nothing.
    Bt,
    /// It is set.
    Bts,
    /// It is cleared.
    Btr,
    /// It is turned.
    Btc,
}

/// An operation on one doubleword, for the last four with EAX and EDX (SDM volume 2, NOT, NEG, MUL, IMUL, DIV, IDIV).
#[derive(Clone, Copy, PartialEq, Eq, Debug)]
pub enum UnaryOp {
    /// Each bit turned.
    Not,
    /// 0 minus the operand.
    Neg,
    /// EDX:EAX is EAX times the operand, unsigned.
    Mul,
    /// EDX:EAX is EAX times the operand, signed.
    Imul,
    /// EDX:EAX by the operand, unsigned: the quotient to EAX, the remainder to EDX.
    Div,
    /// EDX:EAX by the operand, signed, rounded toward zero.
    Idiv,
}

/// One more or one less (SDM volume 2, INC, DEC).
#[derive(Clone, Copy, PartialEq, Eq, Debug)]
pub enum IncDecOp {
    /// Adds 1.
    Inc,
    /// Takes 1 away.
    Dec,
}

/// What fills the upper 24 bits where a byte becomes a doubleword (SDM volume 2, MOVZX, MOVSX).
#[derive(Clone, Copy, PartialEq, Eq, Debug)]
pub enum ExtendOp {
    /// Zeros: MOVZX.
    Zero,
    /// Copies of the sign: MOVSX.
    Sign,
}

/// How an operand and a register are exchanged (SDM volume 2, CMPXCHG, XADD).
#[derive(Clone, Copy, PartialEq, Eq, Debug)]
pub enum ExchangeOp {
    /// CMPXCHG: the register is stored where the operand equals EAX, and else EAX takes the operand.
    Compare,
    /// XADD: the operand becomes the sum of both, and the register the operand.
    Add,
}

/// A short jump by what ECX holds (SDM volume 2, LOOP/LOOPcc, and JECXZ under Jcc).
#[derive(Clone, Copy, PartialEq, Eq, Debug)]
pub enum LoopOp {
    /// LOOP: ECX is one less, and then the jump is taken where it is not 0.
    Loop,
    /// JECXZ: the jump is taken where ECX is 0.
    Ecx,
}

/// An instruction that never has operands. The page of each is that of its mnemonic in SDM volume 2; CDQ stands under
/// CWD/CDQ/CQO, CWDE under CBW/CWDE/CDQE, INT3 under INT n/INTO/INT3/INT1, and UD2 under UD.
#[derive(Clone, Copy, PartialEq, Eq, Debug)]
pub enum BareOp {
    /// LEAVE: ESP takes EBP, and EBP what then is popped.
    Leave,
    /// CDQ: EDX takes copies of the sign of EAX.
    Cdq,
    /// CWDE: the low half of EAX is sign-extended.
    Cwde,
    /// CLC: CF is cleared.
    Clc,
    /// STC: CF is set.
    Stc,
    /// CMC: CF is turned.
    Cmc,
    /// PAUSE: a hint in a loop that waits.
    Pause,
    /// HLT.
    Hlt,
    /// INT3: the breakpoint.
    Int3,
    /// UD2: the instruction that is undefined on purpose.
    Ud2,
    /// CPUID.
    Cpuid,
    /// LFENCE.
    Lfence,
    /// MFENCE.
    Mfence,
    /// SFENCE.
    Sfence,
    /// XEND: a transaction's end.
    Xend,
    /// XTEST: whether a transaction runs.
    Xtest,
}
