//! Which cores wait for another: [`is_waiting`].
//!
//! Asked of the machine before the core's next step, for those ways to pick by which a core gives way at a PAUSE
//! (`priorities`, `tail`). A loop that waits without one is not known as such, and ends by the most steps in a row.

use ia_image::Program;
use ia_insn::Op;
use ia_word::BareOp;
use tm_core::Machine;
use tm_model::CoreState;

/// Whether a core is at a PAUSE outside of a transaction, by which a loop that waits for another core gives way (SDM
/// volume 2, PAUSE). The machine is one of the program.
pub fn is_waiting(program: &Program, machine: &Machine, core: u8) -> bool {
    let Ok(CoreState::Running) = machine.state(core) else {
        return false;
    };
    let Ok(regs) = machine.regs(core) else {
        return false;
    };
    match program.insn_at(regs.eip.wrapping_sub(program.base())) {
        Ok((insn, _length)) => insn.op == Op::Bare(BareOp::Pause),
        Err(_) => false,
    }
}
