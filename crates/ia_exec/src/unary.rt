//! Rows of the instructions on one doubleword: NOT, NEG, and products and quotients with EAX and EDX.

ghost use Rattle.std.specs.Prelude.{◌≡◌, IsTrue, Result};
ghost use Rattle.ia_word.specs.declared.width.Width.TheVariants.{D};
ghost use Rattle.ia_insn.specs.Writing.{fits_operand};
ghost use Rattle.ia_exec.specs.Words.{value_of};
ghost use Rattle.ia_exec.specs.Arithmetic.{with_edx_eax, mul_of, imul_of};
ghost use Rattle.ia_exec.specs.Finished.{IsKept, done_with};
ghost use Rattle.ia_exec.specs.Table.{unary_of, divide_of, goes_on as going_on};

use crate::done::{AbortKind, Exception, Finished, by_depth, goes_on};
use crate::operand::{put, put_with_flags, value};
use ia_alu::{Divide, div, idiv, imul, mul, neg};
use ia_insn::Operand;
use ia_regs::{Flags, Regs};
use ia_word::{EAX, EDX, UnaryOp, Width};

/// NOT, NEG, MUL, IMUL with one operand, DIV and IDIV.
#[tactic(auto, using(ia_addr::proofs::Fits::readable), unfolding(crate::specs::Table::unary_of))]
pub(crate) fn unary_row(
    kind: UnaryOp,
    operand: &Operand,
    regs: &mut Regs,
    loaded: u32,
    depth: u8,
) -> Finished
    requires { IsTrue (fits_operand operand.now) }
    ensures done { done_with result regs.new ≡
        unary_of kind operand.now (value_of D operand.now regs.old loaded) regs.old depth }
    ensures kept { IsKept result regs.old regs.new }
{
    let before = value(Width::D, operand, regs, loaded);
    match kind {
        UnaryOp::Not => goes_on(put(Width::D, operand, !before, regs)),
        UnaryOp::Neg => {
            let (value, flags) = neg(before);
            goes_on(put_with_flags(Width::D, operand, value, flags, regs))
        }
        UnaryOp::Mul => mul_row(before, regs),
        UnaryOp::Imul => imul_row(before, regs),
        UnaryOp::Div => divide(depth, div(regs.get(EDX), regs.get(EAX), before), regs),
        UnaryOp::Idiv => divide(depth, idiv(regs.get(EDX), regs.get(EAX), before), regs),
    }
}

// Writes two doublewords to EAX and EDX, and the flags.
fn set_edx_eax(low: u32, high: u32, flags: Flags, regs: &mut Regs)
    ensures { regs.new ≡ with_edx_eax low high flags regs.old }
{
    regs.set(EAX, low);
    regs.set(EDX, high);
    regs.flags = flags;
}

// MUL.
fn mul_row(factor: u32, regs: &mut Regs) -> Finished
    ensures done { done_with result regs.new ≡ going_on (mul_of factor regs.old) }
    ensures kept { IsKept result regs.old regs.new }
{
    let (low, high, flags) = mul(regs.get(EAX), factor, regs.flags);
    set_edx_eax(low, high, flags, regs);
    Finished::Goes
}

// IMUL with one operand.
fn imul_row(factor: u32, regs: &mut Regs) -> Finished
    ensures done { done_with result regs.new ≡ going_on (imul_of factor regs.old) }
    ensures kept { IsKept result regs.old regs.new }
{
    let (low, high, flags) = imul(regs.get(EAX), factor, regs.flags);
    set_edx_eax(low, high, flags, regs);
    Finished::Goes
}

// DIV and IDIV.
fn divide(depth: u8, quotient: Result<(u32, u32), Divide>, regs: &mut Regs) -> Finished
    ensures done { done_with result regs.new ≡ divide_of depth quotient regs.old }
    ensures kept { IsKept result regs.old regs.new }
{
    match quotient {
        Ok((quotient, remainder)) => {
            set_edx_eax(quotient, remainder, regs.flags, regs);
            Finished::Goes
        }
        Err(_) => by_depth(depth, Finished::Faults(Exception::Divide), AbortKind::Other),
    }
}
