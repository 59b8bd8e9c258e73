//! A board that gdb looks at and moves, with all that gdb selected and set.
//!
//! Questions and moves have a core each, and moves take that of the questions where none was chosen for them. A
//! [`Target`] makes no step here: steps forward are in `moves` and `run`, those back in `back`.

ghost use Rattle.std.specs.Prelude.{◌≡◌, ◌<◌, IfSome, length};
ghost use Rattle.tm_gdb.specs.Changes.{HasCore};
ghost use Rattle.tm_gdb.specs.Values.{core_in, core_of, moved_core, picks_in, start_with, thread_core, value_of};

use crate::points::Points;
use crate::stop::Stop;
use tm_hist::Board;
use tm_model::{Event, Pick};

/// A board, the schedule that it goes along, what gdb selected and set, and why it stands.
#[derive(Drop)]
pub struct Target {
    /// The board.
    pub board: Board,
    /// The schedule that a continued run of all cores goes along, each pick behind as many steps as stand before it.
    /// Without one the cores go on in turn.
    pub plan: Option<Vec<Pick>>,
    /// The core that questions are about.
    pub selected: u8,
    /// The core that moves are of, where one was chosen for them.
    pub for_moves: Option<u8>,
    /// The breakpoints and watchpoints.
    pub points: Points,
    /// The core that was last told as standing at a breakpoint, up to its next step.
    pub excused: Option<u8>,
    /// The event that the next step comes under.
    pub event: Option<Event>,
    /// Why the board stands.
    pub stop: Stop,
}

impl Target {
    /// A target whose first core is selected, without points.
    pub fn new(board: Board, plan: Option<Vec<Pick>>) -> Target
        ensures { value_of result ≡ start_with board (picks_in plan) }
    {
        Target {
            board,
            plan,
            selected: 0,
            for_moves: None,
            points: Points::new(),
            excused: None,
            event: None,
            stop: Stop::Stepped,
        }
    }

    // This core, and the first where the board has it not.
    fn core_in(&self, core: u8) -> u8
        ensures core { result ≡ core_in (value_of self.now) core }
        ensures exists { HasCore self.now.board result }
    {
        // A machine has at least one core.
        let _some = self.board.machine().cores();
        if core < self.board.cores() { core } else { 0 }
    }

    /// The core that questions are about, which the board has.
    pub fn core(&self) -> u8
        ensures core { result ≡ core_of (value_of self.now) }
        ensures exists { HasCore self.now.board result }
    {
        self.core_in(self.selected)
    }

    /// The core of moves: the one that was chosen for them, else the selected one.
    pub fn moved_core(&self) -> u8
        ensures core { result ≡ moved_core (value_of self.now) }
        ensures exists { HasCore self.now.board result }
    {
        match self.for_moves {
            Some(core) => self.core_in(core),
            None => self.core(),
        }
    }

    /// The core of a thread: 1 is the first core's, 0 the selected one's.
    pub fn thread_core(&self, thread: u32) -> Option<u8>
        ensures core { result ≡ thread_core (value_of self.now) thread }
        ensures exists { IfSome result (λ core. core < length self.now.board.program.entries) }
    {
        if thread == 0 {
            Some(self.core())
        } else if thread <= u32::from(self.board.cores()) {
            Some((thread - 1) as u8)
        } else {
            None
        }
    }
}
