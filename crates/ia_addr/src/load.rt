//! What an instruction loads, told of its registers before it runs: at most one byte or doubleword. Whether that lies
//! in memory is not asked here, and what is stored is not told.

ghost use Rattle.std.specs.Prelude.{◌≡◌, ◌<◌, IsTrue};
ghost use Rattle.ia_insn.specs.Writing.{fits_operand};
ghost use Rattle.ia_insn.specs.Encoding.{is_encodable, encodable, fits_pair, fits_test};
ghost use Rattle.ia_addr.specs.Load.{is_readable, load_of, op_load, read_of, pair_of, popped_by};

use crate::Access;
use crate::address::address_of;
use ia_insn::{Insn, Op, Operand};
use ia_regs::Regs;
use ia_word::{BareOp, EBP, ESP, Width};

/// What an instruction loads at these registers: nothing, or one byte or doubleword. The access may wrap past 2^32 - 1.
#[tactic(auto, unfolding(crate::specs::Load::load_of))]
pub fn load_of(insn: &Insn, regs: &Regs) -> Option<Access>
    requires { IsTrue (is_encodable insn.now) }
    ensures { result ≡ load_of insn.now regs.now }
{
    op_load(&insn.op, regs)
}

// What an operation loads.
#[tactic(auto, using(crate::proofs::Fits::sources), unfolding(crate::specs::Load::op_load))]
fn op_load(op: &Op, regs: &Regs) -> Option<Access>
    requires { IsTrue (encodable op.now) }
    ensures { result ≡ op_load op.now regs.now }
{
    match op {
        Op::Alu(_, width, to, from) => alu_load(*width, to, from, regs),
        Op::Mov(width, _, from) => read(*width, from, regs),
        Op::Xchg(width, operand, _) => read(*width, operand, regs),
        Op::IncDec(_, width, operand) => read(*width, operand, regs),
        Op::Test(width, left, right) => test_load(*width, left, right, regs),
        Op::Unary(_, operand) => read(Width::D, operand, regs),
        Op::Imul(_, operand) => read(Width::D, operand, regs),
        Op::ImulImm(_, operand, _) => read(Width::D, operand, regs),
        Op::Shift(_, operand, _) => read(Width::D, operand, regs),
        Op::Push(operand) => read(Width::D, operand, regs),
        Op::Pop(_) => popped(ESP, regs),
        Op::Bare(BareOp::Leave) => popped(EBP, regs),
        Op::Ret => popped(ESP, regs),
        Op::RetPop(_) => popped(ESP, regs),
        Op::CallTo(operand) => read(Width::D, operand, regs),
        Op::JmpTo(operand) => read(Width::D, operand, regs),
        Op::Cmovcc(_, _, operand) => read(Width::D, operand, regs),
        Op::Extend(_, _, operand) => read(Width::B, operand, regs),
        Op::Exchange(_, operand, _) => read(Width::D, operand, regs),
        Op::Bit(_, operand, _) => read(Width::D, operand, regs),
        _ => None,
    }
}

// An operand that is read: where it is in memory, it is loaded.
#[tactic(auto, unfolding(crate::specs::Load::read_of))]
fn read(width: Width, operand: &Operand, regs: &Regs) -> Option<Access>
    requires { IsTrue (is_readable operand.now) }
    ensures { result ≡ read_of width operand.now regs.now }
{
    match operand {
        Operand::Mem(place) => Some(Access {
            addr: address_of(place, regs),
            width,
        }),
        Operand::Reg(_) => None,
        Operand::Imm(_) => None,
    }
}

// Of two operands that are read, the one in memory.
#[tactic(auto, unfolding(crate::specs::Load::pair_of))]
fn pair(width: Width, to: &Operand, from: &Operand, regs: &Regs) -> Option<Access>
    requires to { IsTrue (is_readable to.now) }
    requires from { IsTrue (is_readable from.now) }
    ensures { result ≡ pair_of width to.now from.now regs.now }
{
    match from {
        Operand::Mem(_) => read(width, from, regs),
        Operand::Reg(_) => read(width, to, regs),
        Operand::Imm(_) => read(width, to, regs),
    }
}

// What an operation on two operands loads.
#[tactic(auto, using(crate::proofs::Fits::readable, crate::proofs::Fits::pair_to, crate::proofs::Fits::pair_from))]
fn alu_load(width: Width, to: &Operand, from: &Operand, regs: &Regs) -> Option<Access>
    requires { IsTrue (fits_pair width to.now from.now) }
    ensures { result ≡ pair_of width to.now from.now regs.now }
{
    pair(width, to, from, regs)
}

// What TEST loads.
#[tactic(auto, using(crate::proofs::Fits::readable, crate::proofs::Fits::test_to, crate::proofs::Fits::test_from))]
fn test_load(width: Width, left: &Operand, right: &Operand, regs: &Regs) -> Option<Access>
    requires { IsTrue (fits_test width left.now right.now) }
    ensures { result ≡ pair_of width left.now right.now regs.now }
{
    pair(width, left, right, regs)
}

// A doubleword at the address that a register holds.
fn popped(register: u8, regs: &Regs) -> Option<Access>
    requires { register < 8 }
    ensures { result ≡ popped_by register regs.now }
{
    Some(Access {
        addr: regs.get(register),
        width: Width::D,
    })
}
