//! Commands of gdb's remote protocol, as data: questions that change nothing, actions, and what `monitor` asks. Numbers
//! are as they were sent; whether there is such a thread or address is asked of the target.

ghost use Rattle.std.specs.Prelude.{◌≡◌};
ghost use Rattle.gdb_packet.specs.Actions.{action_of, entry_says};

use tm_model::Event;

/// So many units from a place on.
#[derive(Clone, Copy, PartialEq, Eq, Debug, Default)]
pub struct Span {
    /// The place of the first.
    pub at: u32,
    /// How many.
    pub count: u32,
}

/// What stops a run at a point.
#[derive(Clone, Copy, PartialEq, Eq, Debug)]
pub enum PointKind {
    /// A core that is to execute the instruction there: `Z0`.
    Break,
    /// A change of the bytes there: `Z2`.
    Watch,
}

/// A breakpoint or a watchpoint.
#[derive(Clone, Copy, PartialEq, Eq, Debug)]
pub struct Point {
    /// What stops a run there.
    pub kind: PointKind,
    /// The address, and how many bytes a watchpoint has.
    pub span: Span,
}

/// What `monitor` asks.
#[derive(Clone, Copy, PartialEq, Eq, Debug)]
pub enum Monitor {
    /// The words that there are.
    Help,
    /// The reasons of aborts.
    Why,
    /// The read sets and write sets.
    Sets,
    /// The stores that are pending.
    Pending,
    /// So many of the last steps.
    History(u32),
    /// That the next step be made under an event.
    Event(Event),
    /// Anything else.
    Other,
}

/// What a packet asks, which changes nothing. A thread is told by its number, 1 for the first core.
#[derive(Clone, Copy, PartialEq, Eq, Debug)]
pub enum Question {
    /// What the target can do: `qSupported`.
    Supported,
    /// That no packet is acknowledged from now on: `QStartNoAckMode`.
    NoAcknowledgements,
    /// Why the target stands: `?`.
    Status,
    /// The selected thread: `qC`.
    CurrentThread,
    /// Whether the target was there before: `qAttached`.
    Attached,
    /// A part of the target's description: `qXfer:features:read`.
    Description(Span),
    /// A part of the list of threads: `qXfer:threads:read`.
    Threads(Span),
    /// The numbers of the threads: `qfThreadInfo`.
    FirstThreads,
    /// Further numbers: `qsThreadInfo`.
    MoreThreads,
    /// Whether there is a thread of this number: `T`.
    IsAlive(u32),
    /// All registers: `g`.
    Registers,
    /// One register: `p`.
    Register(u32),
    /// Memory: `m`.
    Memory(Span),
    /// That registers be written, which is refused: `G` and `P`.
    WriteRegisters,
    /// That memory be written, which is refused: `M` and `X`.
    WriteMemory,
    /// The moves that there are: `vCont?`.
    Moves,
    /// Something of the target's own: `qRcmd`.
    Monitor(Monitor),
    /// The end of the session: `D`.
    Detach,
    /// The end of the session, without an answer: `k`.
    Kill,
    /// The end of the session: `vKill`.
    KillAnswered,
    /// One of all these with a number that is none.
    Malformed,
    /// Anything else.
    Unknown,
}

/// What a thread is to do.
#[derive(Clone, Copy, PartialEq, Eq, Debug)]
pub enum Action {
    /// One step: `s`, and `S` with a signal, which no core hears.
    Step,
    /// Steps until something stops them: `c`, and `C` with a signal.
    Continue,
}

/// What one thread is to do.
#[derive(Clone, Copy, PartialEq, Eq, Debug)]
pub struct ThreadAction {
    /// The thread: 1 for the first core, never 0.
    pub thread: u32,
    /// What it is to do.
    pub action: Action,
}

/// The most actions with a thread that a packet has.
pub const MOST_ACTIONS: usize = 64;

/// What each thread is to do: `vCont`.
#[derive(Clone, Copy, PartialEq, Eq, Debug)]
pub struct Actions {
    /// The actions with a thread in their order, and nothing behind them.
    pub chosen: [Option<ThreadAction>; MOST_ACTIONS],
    /// The first action without one.
    pub others: Option<Action>,
}

// What an entry says of a thread.
fn says_of(entry: Option<ThreadAction>, thread: u32) -> Option<Action>
    ensures { result ≡ entry_says thread entry }
{
    match entry {
        None => None,
        Some(entry) => {
            if entry.thread == thread {
                Some(entry.action)
            } else {
                None
            }
        }
    }
}

impl Actions {
    /// What a thread is to do, nothing where it is to stand: the leftmost action with this thread, else the leftmost
    /// one without a thread (gdb manual, appendix E.2, `vCont`).
    #[tactic(auto, using(crate::proofs::Leftmost::leftmost_steps))]
    pub fn of(&self, thread: u32) -> Option<Action>
        ensures { result ≡ action_of self.now thread }
    {
        'chosen: for index in 0..MOST_ACTIONS {
            if let Some(action) = says_of(self.chosen[index], thread) {
                return Some(action);
            }
        }
        self.others
    }
}

/// How a packet moves the target.
#[derive(Clone, Copy, PartialEq, Eq, Debug)]
pub enum Move {
    /// One step of the thread that `Hc` has chosen: `s`.
    StepSelected,
    /// Steps of the thread that `Hc` has chosen until something stops them: `c`.
    ContinueSelected,
    /// What each thread is told to do, until something stops them: `vCont`.
    Resume(Actions),
    /// Takes steps back until one of the thread that `Hc` has chosen is gone: `bs`.
    StepBack,
    /// Takes steps back until something stops that: `bc`.
    ContinueBack,
}

/// What a packet sets, which moves nothing.
#[derive(Clone, Copy, PartialEq, Eq, Debug)]
pub enum Setting {
    /// Selects the thread that questions are about, 0 for any: `Hg`.
    Select(u32),
    /// Selects the thread that moves are of, 0 for any or all: `Hc`.
    SelectForMoves(u32),
    /// Sets a point: `Z`.
    Insert(Point),
    /// Takes a point away: `z`.
    Remove(Point),
}

/// What a packet tells.
#[derive(Clone, Copy, PartialEq, Eq, Debug)]
pub enum Command {
    /// It asks.
    Ask(Question),
    /// It moves.
    Move(Move),
    /// It sets.
    Set(Setting),
}
