//! Where LOCK may stand: before an operation that loads, changes and stores one place in memory (SDM volume 2, "LOCK").
//! Decoder, assembler and machine ask this one table.

ghost use Rattle.std.specs.Prelude.{◌≡◌};
ghost use Rattle.ia_insn.specs.Spelling.{lockable};

use crate::op::{Insn, Op};
use crate::operand::Operand;
use ia_word::{AluOp, BitOp, UnaryOp};

/// Whether LOCK may stand before an instruction, whether it does or not: its destination is in memory, and it is one of
/// ADD, OR, ADC, SBB, AND, SUB, XOR, INC, DEC, NOT, NEG, XCHG, XADD, CMPXCHG, BTS, BTR, BTC (SDM volume 2,
/// "LOCK—Assert LOCK# Signal Prefix").
pub fn is_lockable(insn: &Insn) -> bool
    ensures { result ≡ lockable insn.now.op }
{
    op_lockable(&insn.op)
}

/// Whether LOCK may stand before an operation.
pub(crate) fn op_lockable(op: &Op) -> bool
    ensures { result ≡ lockable op.now }
{
    match op {
        Op::Alu(kind, _, Operand::Mem(_), _) => !matches!(kind, AluOp::Cmp),
        Op::IncDec(_, _, Operand::Mem(_)) => true,
        Op::Unary(UnaryOp::Not, Operand::Mem(_)) => true,
        Op::Unary(UnaryOp::Neg, Operand::Mem(_)) => true,
        Op::Xchg(_, Operand::Mem(_), _) => true,
        Op::Exchange(_, Operand::Mem(_), _) => true,
        Op::Bit(kind, Operand::Mem(_), _) => !matches!(kind, BitOp::Bt),
        _ => false,
    }
}
