//! Rows of the instructions that use the stack or jump.

ghost use Rattle.std.specs.Prelude.{◌≡◌, ◌+◌, ◌%◌, ◌^◌, IsTrue, Some};
ghost use Rattle.ia_insn.specs.Writing.{fits_operand};
ghost use Rattle.ia_insn.specs.Encoding.{encodable};
ghost use Rattle.ia_exec.specs.Words.{at, with_store, without_store};
ghost use Rattle.ia_exec.specs.Control.{with_esp_raised, push_of, pop_of, ret_of, jump_by, jump_if, loop_of};
ghost use Rattle.ia_exec.specs.Control.{loop_jump_of};
ghost use Rattle.ia_exec.specs.Table.{control_of};

use crate::done::Store;
use crate::operand::{put, store, value};
use ia_insn::{Op, Operand};
use ia_regs::{Regs, cond};
use ia_word::{ECX, ESP, LoopOp, Width};

/// What an instruction does that uses the stack or jumps; NOP changes nothing.
#[tactic(auto, using(ia_addr::proofs::Fits::readable), unfolding(crate::specs::Table::control_of))]
pub(crate) fn control_row(op: &Op, regs: &mut Regs, loaded: u32) -> Option<Store>
    requires { IsTrue (encodable op.now) }
    ensures { with_store regs.new result ≡ control_of op.now regs.old loaded }
{
    match op {
        Op::Push(from) => {
            // Before ESP is lowered: PUSH ESP stores what it was (SDM volume 2, PUSH).
            let value = value(Width::D, from, regs, loaded);
            return Some(push(value, regs));
        }
        Op::Pop(to) => return pop_row(to, loaded, regs),
        Op::Call(distance) => {
            // EIP is behind the instruction already, which is where the call returns.
            let back = regs.eip;
            jump_by(*distance, regs);
            return Some(push(back, regs));
        }
        Op::CallTo(to) => {
            let back = regs.eip;
            // Before the push: a target in ESP is what it was.
            regs.eip = value(Width::D, to, regs, loaded);
            return Some(push(back, regs));
        }
        Op::Ret => ret_row(0, loaded, regs),
        Op::RetPop(bytes) => ret_row(*bytes, loaded, regs),
        Op::Jmp(distance) => jump_by(*distance, regs),
        Op::JmpShort(distance) => jump_by(*distance, regs),
        Op::JmpTo(to) => regs.eip = value(Width::D, to, regs, loaded),
        Op::Jcc(condition, distance) => jump_if(cond(*condition, regs.flags), *distance, regs),
        Op::JccShort(condition, distance) => {
            jump_if(cond(*condition, regs.flags), *distance, regs);
        }
        Op::LoopJump(kind, distance) => loop_jump_row(*kind, *distance, regs),
        _ => {}
    }
    None
}

/// A sum modulo 2^32.
#[inline(always)]
pub(crate) fn sum(left: u32, right: u32) -> u32
    ensures { result ≡ (left + right) % 2 ^ 32 }
{
    left.wrapping_add(right)
}

// EIP by a distance.
fn jump_by(distance: u32, regs: &mut Regs)
    ensures { regs.new ≡ jump_by distance regs.old }
{
    regs.eip = sum(regs.eip, distance);
}

// A jump, or none.
fn jump_if(taken: bool, distance: u32, regs: &mut Regs)
    ensures { without_store regs.new ≡ jump_if taken distance regs.old }
{
    if taken {
        jump_by(distance, regs);
    }
}

// A doubleword stored below the stack's top.
fn push(value: u32, regs: &mut Regs) -> Store
    ensures { with_store regs.new (Some result) ≡ push_of value regs.old }
{
    let top = sum(regs.get(ESP), 0xffff_fffc);
    regs.set(ESP, top);
    store(Width::D, top, value)
}

// The stack's top raised.
fn raise_esp(bytes: u32, regs: &mut Regs)
    ensures { regs.new ≡ with_esp_raised bytes regs.old }
{
    let top = sum(regs.get(ESP), bytes);
    regs.set(ESP, top);
}

// POP: the operand's address is that of the raised ESP.
fn pop_row(to: &Operand, loaded: u32, regs: &mut Regs) -> Option<Store>
    requires { IsTrue (fits_operand to.now) }
    ensures { with_store regs.new result ≡ pop_of to.now loaded regs.old }
{
    raise_esp(4, regs);
    put(Width::D, to, loaded, regs)
}

// RET, which takes so many bytes more.
fn ret_row(bytes: u16, loaded: u32, regs: &mut Regs)
    ensures { without_store regs.new ≡ ret_of bytes loaded regs.old }
{
    raise_esp(4 + u32::from(bytes), regs);
    regs.eip = loaded;
}

// LOOP.
fn loop_row(distance: u32, regs: &mut Regs)
    ensures { without_store regs.new ≡ loop_of distance regs.old }
{
    let count = sum(regs.get(ECX), 0xffff_ffff);
    regs.set(ECX, count);
    jump_if(count != 0, distance, regs);
}

// LOOP and JECXZ.
fn loop_jump_row(kind: LoopOp, distance: u32, regs: &mut Regs)
    ensures { without_store regs.new ≡ loop_jump_of kind distance regs.old }
{
    match kind {
        LoopOp::Loop => loop_row(distance, regs),
        LoopOp::Ecx => jump_if(regs.get(ECX) == 0, distance, regs),
    }
}
