//! Which instructions wait outside of transactions until no store of their core is pending: [`waits`], of what stands
//! at EIP.
//!
//! Whether a store is pending is not asked here, nor what the instruction does: a step that waits is refused by
//! `queued`. A stop and a commit wait whatever their instruction is.

ghost use Rattle.std.specs.Prelude.{◌≡◌};
ghost use Rattle.ia_insn.specs.Spelling.{is_place};
ghost use Rattle.tm_model.specs.Fences.{is_fence as is_fence_op, is_fence_found};
ghost use Rattle.tm_rule.specs.Rule.{found};

use ia_decode::Decoded;
use ia_insn::{Insn, Op, Operand};
use ia_word::BareOp;

/// Whether what stands at EIP waits: an instruction behind LOCK, XCHG with memory (SDM volume 3, 9.1.2), MFENCE (9.2.5)
/// and CPUID (9.3).
pub fn waits(row: &Decoded) -> bool
    ensures { result ≡ is_fence_found (found row.now) }
{
    match row {
        Ok((insn, _len)) => insn.lock || is_fence(insn),
        Err(_) => false,
    }
}

// Whether it waits without LOCK.
fn is_fence(insn: &Insn) -> bool
    ensures { result ≡ is_fence_op insn.now.op }
{
    match insn.op {
        Op::Xchg(_width, target, _register) => is_in_memory(&target),
        Op::Bare(BareOp::Mfence) => true,
        Op::Bare(BareOp::Cpuid) => true,
        _ => false,
    }
}

fn is_in_memory(operand: &Operand) -> bool
    ensures { result ≡ is_place operand.now }
{
    matches!(operand, Operand::Mem(_))
}
