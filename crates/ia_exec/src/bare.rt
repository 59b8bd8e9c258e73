//! Rows of the instructions that never have operands.

ghost use Rattle.std.specs.Prelude.{◌≡◌};
ghost use Rattle.ia_regs.specs.declared.Regs.{Regs};
ghost use Rattle.ia_exec.specs.declared.done.Done.{Done};
ghost use Rattle.ia_exec.specs.Words.{without_store};
ghost use Rattle.ia_exec.specs.Moves.{cdq_of, cwde_of, carry_as};
ghost use Rattle.ia_exec.specs.Control.{leave_of};
ghost use Rattle.ia_exec.specs.Finished.{IsKept, done_with};
ghost use Rattle.ia_exec.specs.Table.{bare_of, by_depth as outside_or_inside, goes_on, cpuid_of, with_four_registers};

use crate::control::sum;
use crate::done::{AbortKind, Exception, Finished, by_depth};
use ia_regs::{Flags, Regs};
use ia_word::{BareOp, EAX, EBP, EBX, ECX, EDX, ESP};

/// What an instruction without operands comes to.
#[tactic(auto, unfolding(crate::specs::Table::bare_of))]
pub(crate) fn bare_row(kind: BareOp, regs: &mut Regs, loaded: u32, depth: u8) -> Finished
    ensures done { done_with result regs.new ≡ bare_of kind regs.old loaded depth }
    ensures kept { IsKept result regs.old regs.new }
{
    match kind {
        BareOp::Leave => leave_row(loaded, regs),
        BareOp::Cdq => cdq_row(regs),
        BareOp::Cwde => cwde_row(regs),
        BareOp::Clc => carry_row(false, regs),
        BareOp::Stc => carry_row(true, regs),
        BareOp::Cmc => carry_row(!regs.flags.carry(), regs),
        BareOp::Lfence | BareOp::Mfence | BareOp::Sfence => return Finished::Goes,
        BareOp::Pause => return by_depth(depth, Finished::Goes, AbortKind::Other),
        BareOp::Hlt => return by_depth(depth, Finished::Halts, AbortKind::Other),
        BareOp::Int3 => {
            let outside = Finished::Faults(Exception::Breakpoint);
            return by_depth(depth, outside, AbortKind::Debug);
        }
        BareOp::Ud2 => {
            let outside = Finished::Faults(Exception::Undefined);
            return by_depth(depth, outside, AbortKind::Other);
        }
        BareOp::Cpuid => return cpuid_row(depth, regs),
        BareOp::Xend => return xend(depth),
        BareOp::Xtest => regs.flags = Flags::of(false, false, false, depth == 0, false, false),
    }
    Finished::Goes
}

// LEAVE.
fn leave_row(loaded: u32, regs: &mut Regs)
    ensures { without_store regs.new ≡ leave_of loaded regs.old }
{
    let top = sum(regs.get(EBP), 4);
    regs.set(ESP, top);
    regs.set(EBP, loaded);
}

// CDQ.
fn cdq_row(regs: &mut Regs)
    ensures { without_store regs.new ≡ cdq_of regs.old }
{
    let sign = if regs.get(EAX) < 0x8000_0000 {
        0
    } else {
        0xffff_ffff
    };
    regs.set(EDX, sign);
}

// CWDE.
fn cwde_row(regs: &mut Regs)
    ensures { without_store regs.new ≡ cwde_of regs.old }
{
    let word = regs.get(EAX) % 0x1_0000;
    let wide = if word < 0x8000 {
        word
    } else {
        word + 0xffff_0000
    };
    regs.set(EAX, wide);
}

// CLC, STC and CMC.
fn carry_row(carry: bool, regs: &mut Regs)
    ensures { without_store regs.new ≡ carry_as carry regs.old }
{
    regs.flags = regs.flags.with_carry(carry);
}

// XEND.
fn xend(depth: u8) -> Finished
    ensures done { (regs : Regs) → done_with result regs ≡
        outside_or_inside depth (Done.Fault Exception.Protection) Done.End }
    ensures kept { (regs : Regs) → IsKept result regs regs }
{
    if depth == 0 {
        Finished::Faults(Exception::Protection)
    } else {
        Finished::Ends
    }
}

// CPUID, which aborts inside.
fn cpuid_row(depth: u8, regs: &mut Regs) -> Finished
    ensures done { done_with result regs.new ≡
        outside_or_inside depth (goes_on (without_store (cpuid_of regs.old))) (Done.Abort AbortKind.Other) }
    ensures kept { IsKept result regs.old regs.new }
{
    if depth != 0 {
        return Finished::Aborts(AbortKind::Other);
    }
    cpuid(regs);
    Finished::Goes
}

// CPUID: the greatest leaf and "GenuineIntel", that there is RTM, or zeros.
#[tactic(auto, unfolding(crate::specs::Table::cpuid_of))]
fn cpuid(regs: &mut Regs)
    ensures { regs.new ≡ cpuid_of regs.old }
{
    let leaf = regs.get(EAX);
    if leaf == 0 {
        set_four_registers(7, 0x756e_6547, 0x6c65_746e, 0x4965_6e69, regs);
    } else if leaf == 7 && regs.get(ECX) == 0 {
        set_four_registers(0, 0x800, 0, 0, regs);
    } else {
        set_four_registers(0, 0, 0, 0, regs);
    }
}

// Writes EAX, EBX, ECX and EDX.
fn set_four_registers(eax: u32, ebx: u32, ecx: u32, edx: u32, regs: &mut Regs)
    ensures { regs.new ≡ with_four_registers eax ebx ecx edx regs.old }
{
    regs.set(EAX, eax);
    regs.set(ECX, ecx);
    regs.set(EDX, edx);
    regs.set(EBX, ebx);
}
