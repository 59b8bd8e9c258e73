//! Which next steps no other core sees: [`is_unseen`].
//!
//! Asked before the step, of the machine as it stands, for `seen` alone; that a step is unseen changes only which
//! cores are drawn. Of steps in a transaction just the abort of one that is condemned counts as such.
//! `tm_outcomes`, whose search rests on unseen steps, has a definition of its own.

use ia_image::Program;
use tm_core::Machine;
use tm_model::CoreState;
use tm_rule::{Code, fetch, load_at, row};

/// Whether no other core sees the next step of a core: it loads nothing from memory and stores nothing there, and no
/// step of another core changes what it is. So is an instruction on registers alone outside of transactions, an XBEGIN
/// there, a stop whose instruction loads nothing, and the abort of a transaction that was hit. No other step of a
/// transaction is, since a hit would make an abort of it. The machine is one of the program.
pub fn is_unseen(program: &Program, machine: &Machine, core: u8) -> bool {
    match machine.state(core) {
        Ok(CoreState::Condemned(_)) => true,
        Ok(CoreState::Running) => touches_nothing(program, machine, core),
        _ => false,
    }
}

// Whether the next instruction of a core outside of transactions touches no memory.
fn touches_nothing(program: &Program, machine: &Machine, core: u8) -> bool {
    let Ok(preview) = machine.preview(core) else {
        return false;
    };
    let reach = preview.reach;
    // A stop reaches nothing, and its instruction may have loaded what it stops for.
    reach.load.is_none() && reach.store.is_none() && next_loads_nothing(program, machine, core)
}

// Whether the instruction that a core is at loads nothing.
fn next_loads_nothing(program: &Program, machine: &Machine, core: u8) -> bool {
    let Ok(regs) = machine.regs(core) else {
        return false;
    };
    let code = Code {
        bytes: program.code(),
        base: program.base(),
        rows: program.rows(),
    };
    let size = program.mem_size();
    match row(&code, regs.eip) {
        Some(row) => load_at(row, &regs, size).is_none(),
        None => load_at(&fetch(&code, regs.eip), &regs, size).is_none(),
    }
}
