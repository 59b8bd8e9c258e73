//! The table as a whole: what an instruction comes to.

ghost use Rattle.std.specs.Prelude.{◌≡◌, IsTrue};
ghost use Rattle.ia_regs.specs.declared.Regs.{Regs};
ghost use Rattle.ia_insn.specs.Encoding.{encodable, is_encodable};
ghost use Rattle.ia_exec.specs.Finished.{IsKept, IsLeft, done_with};
ghost use Rattle.ia_exec.specs.Laws.{fallback_of};
ghost use Rattle.ia_exec.specs.Table.{finish_of, done_of, xbegin_of};

use crate::arithmetic::effect_row;
use crate::bare::bare_row;
use crate::control::sum;
use crate::done::{AbortKind, Done, Finished, by_depth, goes_on};
use crate::unary::unary_row;
use ia_insn::{Insn, Op};
use ia_regs::Regs;

/// What an instruction of `len` bytes comes to at these registers, whose EIP stands at the instruction. `loaded` is
/// what stands where `load_of` points, and counts only where it points somewhere. `depth` is that of transactions: 0
/// outside.
pub fn finish(insn: &Insn, len: u8, regs: &Regs, loaded: u32, depth: u8) -> Done
    requires { IsTrue (is_encodable insn.now) }
    ensures { result ≡ finish_of insn.now len regs.now loaded depth }
{
    let mut after = *regs;
    match finish_in(insn, len, &mut after, loaded, depth) {
        Finished::Goes => Done::Go(after, None),
        Finished::Stores(store) => Done::Go(after, Some(store)),
        Finished::Faults(exception) => Done::Fault(exception),
        Finished::Halts => Done::Halt,
        Finished::Begins(fallback) => Done::Begin(fallback),
        Finished::Ends => Done::End,
        Finished::Aborts(kind) => Done::Abort(kind),
    }
}

/// [`finish`] with the registers in place. A fault, HLT and an abort leave them alone; an XBEGIN and an XEND leave
/// EIP behind the instruction, and the rest as it was.
#[tactic(auto, unfolding(crate::specs::Table::finish_of))]
pub fn finish_in(insn: &Insn, len: u8, regs: &mut Regs, loaded: u32, depth: u8) -> Finished
    requires { IsTrue (is_encodable insn.now) }
    ensures done { done_with result regs.new ≡ finish_of insn.now len regs.old loaded depth }
    ensures left { IsLeft len result regs.old regs.new }
{
    let eip = regs.eip;
    regs.eip = sum(eip, u32::from(len));
    let finished = finish_behind(&insn.op, regs, loaded, depth);
    match finished {
        Finished::Goes | Finished::Stores(_) | Finished::Begins(_) | Finished::Ends => {}
        Finished::Faults(_) | Finished::Halts | Finished::Aborts(_) => regs.eip = eip,
    }
    finished
}

// `finish_in` with EIP already behind the instruction, where it stays.
#[tactic(auto, unfolding(crate::specs::Table::done_of))]
fn finish_behind(op: &Op, regs: &mut Regs, loaded: u32, depth: u8) -> Finished
    requires { IsTrue (encodable op.now) }
    ensures done { done_with result regs.new ≡ done_of op.now regs.old loaded depth }
    ensures kept { IsKept result regs.old regs.new }
{
    match op {
        Op::Unary(kind, operand) => unary_row(*kind, operand, regs, loaded, depth),
        Op::Bare(kind) => bare_row(*kind, regs, loaded, depth),
        Op::Xbegin(distance) => xbegin(sum(regs.eip, *distance), depth),
        Op::Xabort(code) => by_depth(depth, Finished::Goes, AbortKind::Explicit(*code)),
        _ => goes_on(effect_row(op, regs, loaded)),
    }
}

/// The fallback of an XBEGIN of `len` bytes, modulo 2^32, at these registers, whose EIP stands at the instruction (SDM
/// volume 2, XBEGIN); 0 for any other instruction.
#[tactic(auto, unfolding(crate::specs::Laws::fallback_of))]
pub fn fallback(insn: &Insn, len: u8, regs: &Regs) -> u32
    ensures { result ≡ fallback_of insn.now len regs.now }
{
    match insn.op {
        Op::Xbegin(distance) => sum(sum(regs.eip, u32::from(len)), distance),
        _ => 0,
    }
}

// XBEGIN: at most 7 levels.
fn xbegin(fallback: u32, depth: u8) -> Finished
    ensures done { (regs : Regs) → done_with result regs ≡ xbegin_of fallback depth }
    ensures kept { (regs : Regs) → IsKept result regs regs }
{
    if depth < 7 {
        Finished::Begins(fallback)
    } else {
        Finished::Aborts(AbortKind::Nest)
    }
}
