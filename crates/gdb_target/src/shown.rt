//! What gdb is shown of a core: [`CoreShown::of`] gathers it anew for each question.
//!
//! The machine tells the registers, the state and how large the sets are; the status of the last abort is looked
//! for in the history (`status`), as no machine keeps it. Memory is not part of it.

ghost use Rattle.std.specs.Prelude.{◌<◌, length};

use crate::status::last_status;
use ia_regs::Regs;
use tm_hist::Board;
use tm_model::CoreState;

/// What gdb is shown of a core at a step of a board.
#[derive(Clone, Copy, Debug)]
pub struct CoreShown {
    /// Its registers: in an open transaction those of its body, and where it is condemned those before.
    pub regs: Regs,
    /// What it is doing.
    pub state: CoreState,
    /// How many lines its read set has.
    pub reads: u32,
    /// How many lines its write set has.
    pub writes: u32,
    /// The status of its last abort, and 0 before its first.
    pub status: u32,
    /// How many steps the board has made.
    pub step: u32,
}

impl CoreShown {
    ghost use Rattle.gdb_target.specs.Shown.{IsShown};

    /// The core of this number of a board. Takes time for the steps since its last abort.
    pub fn of(board: &Board, core: u8) -> CoreShown
        requires { core < length board.now.machine.views }
        ensures { IsShown board.now core result }
    {
        let machine = board.machine();
        let counts = machine.counts(core).unwrap();
        CoreShown {
            regs: machine.regs(core).unwrap(),
            state: machine.state(core).unwrap(),
            reads: counts.reads,
            writes: counts.writes,
            status: last_status(board.history(), core),
            step: board.made() as u32,
        }
    }
}
