//! Which instructions wait until no store of their core is pending: [`waits`], of what stands at EIP outside of
//! transactions.
//!
//! That a stop and a commit wait too is told by `ahead`, which asks this first.

ghost use Rattle.std.specs.Prelude.{◌≡◌};
ghost use Rattle.tm_model.specs.Fences.{is_fence as is_fence_by_itself, is_fence_found};
ghost use Rattle.tm_rule.specs.Rule.{found};

use crate::two_steps::is_in_memory;
use ia_decode::Decoded;
use ia_insn::{Insn, Op};
use ia_word::BareOp;

/// Whether what stands at EIP waits outside of a transaction until no store of its core is pending: an instruction
/// behind LOCK, XCHG with memory (SDM volume 3, 9.1.2), MFENCE (9.2.5) and CPUID (9.3).
pub fn waits(row: &Decoded) -> bool
    ensures { result ≡ is_fence_found (found row.now) }
{
    match row {
        Ok((insn, _len)) => insn.lock || is_fence(insn),
        Err(_) => false,
    }
}

// Whether it waits without LOCK.
fn is_fence(insn: &Insn) -> bool
    ensures { result ≡ is_fence_by_itself insn.now.op }
{
    match insn.op {
        Op::Xchg(_width, target, _register) => is_in_memory(&target),
        Op::Bare(BareOp::Mfence) => true,
        Op::Bare(BareOp::Cpuid) => true,
        _ => false,
    }
}
