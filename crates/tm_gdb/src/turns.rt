//! Whose turn it is: who steps and who goes on by gdb's actions, and the next of these.
//!
//! [`turn_pick`] goes on behind the core of the history's last step, round by round, so that it needs no state and
//! holds behind steps back. Cores that have stopped are passed over. A schedule is asked before, in `run`.

ghost use Rattle.std.specs.Prelude.{◌≡◌, ◌+◌, ◌^◌, ◌<◌, ◌≤◌, IfSome, length};
ghost use Rattle.tm_gdb.specs.Moves.{all_continue, continues, goer_from, goers_of, goes, going_from, is_continue};
ghost use Rattle.tm_gdb.specs.Moves.{is_step, is_stranger, names_stranger};
ghost use Rattle.tm_gdb.specs.Moves.{plainly, some_continue, stepping_from, steps, turn_pick};

use gdb_packet::{Action, Actions, ThreadAction};
use tm_debug::{is_stopped, next_behind};
use tm_hist::Board;
use tm_model::Pick;

/// The cores that a run steps.
#[derive(Clone, Copy, Debug)]
pub enum Goers {
    /// All of them: along the schedule, where there is one.
    All,
    /// This one alone.
    One(u8),
    /// Those that these actions let go on, round by round.
    Those(Actions),
}

fn is_step(action: Option<Action>) -> bool
    ensures { result ≡ is_step action }
{
    matches!(action, Some(Action::Step))
}

fn is_continue(action: Option<Action>) -> bool
    ensures { result ≡ is_continue action }
{
    matches!(action, Some(Action::Continue))
}

// Whether an action names a thread that there is not, of so many cores.
fn is_stranger(cores: u8, entry: Option<ThreadAction>) -> bool
    ensures { result ≡ is_stranger cores entry }
{
    match entry {
        Some(entry) => u32::from(cores) < entry.thread,
        None => false,
    }
}

/// Whether one of the actions names a thread that there is not, of so many cores.
pub fn names_stranger(actions: &Actions, cores: u8) -> bool
    ensures { result ≡ names_stranger actions.now cores }
{
    actions
        .chosen
        .iter()
        .any(|entry| is_stranger(cores, *entry))
}

/// Whether a core is to step.
pub fn steps(actions: &Actions, core: u8) -> bool
    ensures { result ≡ steps actions.now core }
{
    is_step(actions.of(u32::from(core) + 1))
}

fn continues(actions: &Actions, core: u8) -> bool
    ensures { result ≡ continues actions.now core }
{
    is_continue(actions.of(u32::from(core) + 1))
}

/// The first of so many cores from this number on that is to step.
pub fn stepping_from(actions: &Actions, core: u8, left: u8) -> Option<u8>
    requires { core + left ≤ 64 }
    ensures first { result ≡ stepping_from actions.now core left }
    ensures exists { IfSome result (λ found. found < core + left) }
{
    if left == 0 {
        None
    } else if steps(actions, core) {
        Some(core)
    } else {
        stepping_from(actions, core + 1, left - 1)
    }
}

fn all_continue(actions: &Actions, core: u8, left: u8) -> bool
    requires { core + left ≤ 64 }
    ensures { result ≡ all_continue actions.now core left }
{
    if left == 0 {
        true
    } else if continues(actions, core) {
        all_continue(actions, core + 1, left - 1)
    } else {
        false
    }
}

fn some_continue(actions: &Actions, core: u8, left: u8) -> bool
    requires { core + left ≤ 64 }
    ensures { result ≡ some_continue actions.now core left }
{
    if left == 0 {
        false
    } else if continues(actions, core) {
        true
    } else {
        some_continue(actions, core + 1, left - 1)
    }
}

/// The cores of so many that actions let go on, none where they let all stand.
pub fn goers_of(actions: &Actions, cores: u8) -> Option<Goers>
    requires { cores ≤ 64 }
    ensures { result ≡ goers_of actions.now cores }
{
    if all_continue(actions, 0, cores) {
        Some(Goers::All)
    } else if some_continue(actions, 0, cores) {
        Some(Goers::Those(*actions))
    } else {
        None
    }
}

impl Goers {
    /// Whether a core is among them.
    pub fn goes(&self, core: u8) -> bool
        ensures { result ≡ goes self.now core }
    {
        match self {
            Goers::All => true,
            Goers::One(own) => *own == core,
            Goers::Those(actions) => continues(actions, core),
        }
    }

    // The first of so many cores from this number on that is among them, and this other one where none is.
    pub fn first_from(&self, core: u8, left: u8, other: u8) -> u8
        requires { core + left ≤ 64 }
        ensures first { result ≡ goer_from self.now core left other }
    {
        if left == 0 {
            other
        } else if self.goes(core) {
            core
        } else {
            self.first_from(core + 1, left - 1, other)
        }
    }
}

// The first core from this number on that goes on and has not stopped, round by round, of so many that are asked.
fn going_from(goers: &Goers, board: &Board, core: u32, left: u8) -> Option<u8>
    requires { core + left < 2 ^ 32 }
    ensures first { result ≡ going_from goers.now board.now core left }
    ensures known { IfSome result (λ found. found < length board.now.program.entries) }
{
    if left == 0 {
        return None;
    }
    let found = (core % u32::from(board.cores())) as u8;
    if goers.goes(found) && !is_stopped(board, found) {
        Some(found)
    } else {
        going_from(goers, board, core + 1, left - 1)
    }
}

// A step of a core under no event.
fn plainly(core: Option<u8>) -> Option<Pick>
    ensures { result ≡ plainly core }
{
    match core {
        Some(core) => Some(Pick { core, event: None }),
        None => None,
    }
}

/// The pick of the core whose turn it is, round by round.
pub fn turn_pick(goers: &Goers, board: &Board) -> Option<Pick>
    ensures pick { result ≡ turn_pick goers.now board.now }
    ensures known { IfSome result (λ pick. pick.core < length board.now.program.entries) }
{
    plainly(going_from(goers, board, u32::from(next_behind(board)), board.cores()))
}
