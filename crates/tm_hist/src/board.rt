//! A machine with the history of its steps: no step is made that is not kept.
//!
//! [`Board::new`] tests the limit on steps, makes the machine, which tests its own limits, and then asks for the
//! room of the whole history and for a copy of the program, so that no step takes memory. A step asks whether there
//! is such a core before it asks whether the history is full. How its pairs are kept stands in `pair`, and the run
//! of a history on one memory in `store_buffers`.

ghost use Rattle.std.specs.Prelude.{◌≡◌, ◌↔◌, ◌⊎◌, ◌<◌, ◌≤◌, ℕ, [], ◌∷◌, ◌++◌, Err, IfErr, IfOk, IsTrue, OnErr};
ghost use Rattle.std.specs.Prelude.{◌-◌, IfSome, None, Some, false, length, min, true};
ghost use Rattle.std.specs.List.{slice_get};
ghost use Rattle.tm_core.specs.AtOnce.{IsDoneOnRegisters};
ghost use Rattle.tm_core.specs.Machine.{bad_limits};
ghost use Rattle.tm_core.specs.Theorem.{pending_at};
ghost use Rattle.tm_model.specs.Runs.{event_told, is_aborted_by, picks_of};
ghost use Rattle.tm_hist.specs.Board.{AreOwedNext, AreSteps, IsFull, IsHistory, IsNew, IsOwedNext, IsStopped};
ghost use Rattle.tm_hist.specs.Board.{SameBoard, TellsOf, TellsWithPending, bad_limit};
ghost use Rattle.tm_hist.specs.BoardFaults.{board_code, step_code};
ghost use Rattle.tm_hist.specs.History.{pairs_of};
ghost use Rattle.tm_hist.specs.Machine.{shown_state};
ghost use Rattle.tm_hist.specs.Replay.{Replays};

use crate::history::History;
use crate::history_memory::HistoryMemory;
use crate::pair::Pair;
use crate::replay::{Serial, SerialFault};
use crate::store_buffers::serial_with;
use crate::whole::{push_plain, push_transaction};
use ia_image::Program;
use std::alloc::Global;
use std::marker::Model;
use thiserror::Error;
use tm_core::{Limits, Machine, MachineFault, MachineMemory, NoSuchCore};
use tm_model::{CoreState, Event, Outcome, Pick};

/// Why no board was made.
#[derive(Clone, Copy, PartialEq, Eq, Debug, Drop, Error)]
pub enum BoardFault {
    /// The limit on steps is not 1 to 16,777,216.
    #[error("BadLimit")]
    BadLimit,
    /// A limit on lines is not 1 to 4096, or that on pending stores not 0 to 64.
    #[error("BadLimits")]
    BadLimits,
    /// There is no memory for the machine, as the machine says.
    #[error("NoMemory")]
    NoMachine(MachineMemory),
    /// There is a machine, and no memory for the history or the copy of the program.
    #[error("NoMemory")]
    NoMemory(HistoryMemory),
}

impl BoardFault {
    /// The fault's number.
    pub fn code(self) -> u8
        ensures { result ≡ board_code self }
    {
        match self {
            BoardFault::BadLimit => 55,
            BoardFault::BadLimits => 40,
            BoardFault::NoMachine(_) => 41,
            BoardFault::NoMemory(_) => 51,
        }
    }
}

/// Why a step was not made.
#[derive(Clone, Copy, PartialEq, Eq, Debug, Drop, Error)]
pub enum StepFault {
    /// There is no core of this number.
    #[error("NoSuchCore")]
    NoSuchCore,
    /// The history is full.
    #[error("LimitReached")]
    LimitReached,
}

impl StepFault {
    /// The fault's number.
    pub fn code(self) -> u8
        ensures { result ≡ step_code self }
    {
        match self {
            StepFault::NoSuchCore => 42,
            StepFault::LimitReached => 50,
        }
    }
}

/// The most steps that a history may be made for.
pub const MOST_STEPS: u64 = 16_777_216;

/// A program's machine, with each step that it made.
///
/// Its machine is always the run of its history from the program's opening state, and each outcome of the history is
/// the owed one ([`Board::is_run`]).
#[derive(Drop)]
pub struct Board {
    program: Program,
    limits: Limits,
    limit: u64,
    made: Vec<Pair>,
    machine: Machine,
}

impl Model for Board {
    ghost use Rattle.std.specs.Prelude.{map, vec_capacity};
    ghost use Rattle.ia_exec.specs.contracts.done.Store.{the_row as store_row};
    ghost use Rattle.ia_regs.specs.contracts.Regs.{the_row as regs_row};
    ghost use Rattle.tm_core.specs.contracts.limits.Limits.{the_row as limits_row};
    ghost use Rattle.tm_model.specs.contracts.outcome.CoreState.{the_row as state_row};
    ghost use Rattle.tm_model.specs.contracts.outcome.Outcome.{the_row as outcome_row};
    ghost use Rattle.tm_core.specs.Machine.{shown_code};
    ghost use Rattle.tm_hist.specs.History.{pair_of};
    ghost use Rattle.tm_hist.specs.Board.{ShownBoard, board_code, IsBoard};

    ghost Value = { ShownBoard };

    ghost coded = { board_code limits_row.coded outcome_row.coded
        (shown_code state_row.coded regs_row.coded store_row.coded) };

    ghost view = { λ b. record {
      program = b.program;
      limits = b.limits;
      limit = b.limit;
      history =
          map pair_of b.made.items;
      machine = b.machine;
    } };

    ghost invariant = { λ b. IsBoard (record {
      program = b.program;
      limits = b.limits;
      limit = b.limit;
      history =
          map pair_of b.made.items;
      machine = b.machine;
    }) (vec_capacity b.made) };
}

// Whether a limit on steps is out of range.
fn is_bad(limit: u64) -> bool
    ensures { result ≡ bad_limit limit }
{
    !(1..=MOST_STEPS).contains(&limit)
}

impl Board {
    /// A board before its first step, whose history has room for as many steps as the limit says.
    ///
    /// In this order: [`BoardFault::BadLimit`], where the limit is not 1 to 16,777,216; [`BoardFault::BadLimits`],
    /// where a limit on lines is not 1 to 4096 or that on pending stores not 0 to 64; [`BoardFault::NoMachine`] and
    /// [`BoardFault::NoMemory`].
    pub fn new(
        alloc: Global,
        program: &Program,
        limits: Limits,
        limit: u64,
    ) -> Result<Board, BoardFault>
        ensures limit { result ≡ Err BoardFault.BadLimit ↔ (bad_limit limit ≡ true) }
        ensures limits { result ≡ Err BoardFault.BadLimits ↔ ((bad_limit limit ≡ false) × (bad_limits limits ≡ true)) }
        ensures ok { IfOk result (λ board. IsNew program.now limits limit board) }
    {
        if is_bad(limit) {
            return Err(BoardFault::BadLimit);
        }
        let machine = match Machine::new(alloc, program, limits) {
            Ok(machine) => machine,
            Err(MachineFault::BadLimits) => return Err(BoardFault::BadLimits),
            Err(MachineFault::NoMemory(memory)) => return Err(BoardFault::NoMachine(memory)),
        };
        let Ok(made) = Vec::with_capacity(alloc, limit as usize) else {
            return Err(BoardFault::NoMemory(HistoryMemory::beside(&machine)));
        };
        let Ok(program) = program.copy(alloc) else {
            return Err(BoardFault::NoMemory(HistoryMemory::beside(&machine)));
        };
        Ok(Board {
            program,
            limits,
            limit,
            made,
            machine,
        })
    }

    /// Takes the board back before its first step, as [`Board::new`] left it: the same program, limits and limit on
    /// steps, and a history with as much room. Takes no memory.
    pub fn restart(&mut self)
        ensures { IsNew self.old.program self.old.limits self.old.limit self.new }
    {
        self.machine.reopen(&self.program);
        self.made.clear();
    }

    /// One step of a core, which is one more pair of the history. The program alone aborts transactions in it. A step
    /// that waits for what is pending of the core is the drain of its oldest store.
    ///
    /// [`StepFault::NoSuchCore`], where the program has no core of this number; for one that it has,
    /// [`StepFault::LimitReached`] exactly where the history is full. Then the board is as before. Takes no memory.
    #[inline(always)]
    pub fn step(&mut self, core: u8) -> Result<Outcome, StepFault>
        ensures none { result ≡ Err StepFault.NoSuchCore ↔ (length self.old.program.entries ≤ core) }
        ensures full { result ≡ Err StepFault.LimitReached
            ↔ ((core < length self.old.program.entries) × IsFull self.old) }
        ensures same { SameBoard self.old self.new }
        ensures ok { IfOk result (λ outcome. self.new.history ≡ self.old.history ++ (core, outcome) ∷ []) }
        ensures owed { IfOk result (λ outcome. IsOwedNext None self.old core outcome) }
        ensures next { IfOk result (λ outcome. AreOwedNext self.old ((core, outcome) ∷ [])) }
        ensures no_abort { IfOk result (λ outcome. is_aborted_by outcome ≡ false) }
        ensures alone { self.old.machine.store_buffer ≡ 0 → IfOk result (λ outcome. event_told outcome ≡ None) }
        ensures stops { (k : ℕ) → IsStopped self.old k → IsStopped self.new k }
        ensures idle { IfOk result (λ outcome. (outcome ≡ Outcome.Idle) ↔ IsStopped self.old core) }
        ensures err { OnErr result (self.new ≡ self.old) }
    {
        if core >= self.machine.cores() {
            return Err(StepFault::NoSuchCore);
        }
        if self.made.len() as u64 >= self.limit {
            return Err(StepFault::LimitReached);
        }
        match self.machine.step(core) {
            Ok(outcome) => {
                self.made.push_reserved(Pair::new(core, outcome));
                Ok(outcome)
            }
            Err(NoSuchCore) => Err(StepFault::NoSuchCore),
        }
    }

    /// One step of a core under an event from outside of the program, which is one more pair of the history: where the
    /// core is in a transaction that is not condemned, `Event::Abort` aborts it, whatever its next instruction (SDM
    /// volume 1, 16.3.8); where a store of the core is pending, `Event::Drain` writes the oldest to memory. Anywhere
    /// else the event changes nothing, and the step is that of [`Board::step`].
    ///
    /// [`StepFault::NoSuchCore`], where the program has no core of this number; for one that it has,
    /// [`StepFault::LimitReached`] exactly where the history is full. Then the board is as before. Takes no memory.
    pub fn step_under(&mut self, core: u8, event: Event) -> Result<Outcome, StepFault>
        ensures none { result ≡ Err StepFault.NoSuchCore ↔ (length self.old.program.entries ≤ core) }
        ensures full { result ≡ Err StepFault.LimitReached
            ↔ ((core < length self.old.program.entries) × IsFull self.old) }
        ensures same { SameBoard self.old self.new }
        ensures ok { IfOk result (λ outcome. self.new.history ≡ self.old.history ++ (core, outcome) ∷ []) }
        ensures owed { IfOk result (λ outcome. IsOwedNext (Some event) self.old core outcome) }
        ensures told { IfOk result (λ outcome. TellsWithPending event (pending_at self.old.machine core)
            (shown_state self.old.machine core) outcome) }
        ensures stops { (k : ℕ) → IsStopped self.old k → IsStopped self.new k }
        ensures idle { IfOk result (λ outcome. (outcome ≡ Outcome.Idle) ↔ IsStopped self.old core) }
        ensures err { OnErr result (self.new ≡ self.old) }
    {
        if core >= self.cores() {
            return Err(StepFault::NoSuchCore);
        }
        if self.is_full() {
            return Err(StepFault::LimitReached);
        }
        match self.machine.step_under(core, event) {
            Ok(told) => {
                self.made.push_reserved(Pair::new(core, told));
                Ok(told)
            }
            Err(NoSuchCore) => Err(StepFault::NoSuchCore),
        }
    }

    /// The step that a pick tells of: [`Board::step_under`] its event where it has one, else [`Board::step`], with the
    /// faults of these.
    #[inline(always)]
    #[tactic(auto, using(crate::proofs::UnderEvents::tells_of, crate::proofs::UnderEvents::tells_no_abort))]
    pub fn step_by(&mut self, pick: Pick) -> Result<Outcome, StepFault>
        ensures none { result ≡ Err StepFault.NoSuchCore ↔ (length self.old.program.entries ≤ pick.core) }
        ensures full { result ≡ Err StepFault.LimitReached
            ↔ ((pick.core < length self.old.program.entries) × IsFull self.old) }
        ensures same { SameBoard self.old self.new }
        ensures ok { IfOk result (λ outcome. self.new.history ≡ self.old.history ++ (pick.core, outcome) ∷ []) }
        ensures owed { IfOk result (λ outcome. IsOwedNext pick.event self.old pick.core outcome) }
        ensures told { IfOk result (λ outcome. TellsOf pick.event outcome) }
        ensures stops { (k : ℕ) → IsStopped self.old k → IsStopped self.new k }
        ensures idle { IfOk result (λ outcome. (outcome ≡ Outcome.Idle) ↔ IsStopped self.old pick.core) }
        ensures err { OnErr result (self.new ≡ self.old) }
    {
        match pick.event {
            Some(event) => self.step_under(pick.core, event),
            None => self.step(pick.core),
        }
    }

    /// Up to so many steps of a core, each of them one more pair of the history, and how many they were: fewer only
    /// where the core has stopped or the history is full. So none of them is idle; each is owed under no event, so none
    /// is aborted from outside of the program, and a store drains only where the step waits. Takes no memory.
    pub fn steps(&mut self, core: u8, most: u32) -> u32
        requires { core < length self.old.program.entries }
        ensures most { result ≤ most }
        ensures made { AreSteps self.old self.new core result }
        ensures fewer { result < most → IsStopped self.new core ⊎ IsFull self.new }
    {
        let mut made = 0;
        while made < most {
            // What no other core sees first, then a transaction as a whole, and one step where there is neither.
            made += self.go_on(core, most - made);
            if made == most || self.is_stopped(core) {
                return made;
            }
            match self.transact(core, most - made) {
                0 => match self.step(core) {
                    Ok(_outcome) => made += 1,
                    Err(StepFault::LimitReached) => return made,
                    Err(StepFault::NoSuchCore) => unreachable!(),
                },
                whole => made += whole,
            }
        }
        made
    }

    // As many of so many steps as the history has room for.
    #[inline(always)]
    fn room(&self, most: u32) -> u32
        ensures { result ≡ min most (self.now.limit - length self.now.history) }
    {
        (self.limit() - self.made()).min(u64::from(most)) as u32
    }

    // The transaction at a core's XBEGIN as a whole, of at most so many steps and as many as the history has room for:
    // how many steps it was, 0 where there is none.
    #[inline(always)]
    fn transact(&mut self, core: u8, most: u32) -> u32
        requires { core < length self.old.program.entries }
        ensures most { result ≤ most }
        ensures made { AreSteps self.old self.new core result }
        ensures none { result ≡ 0 → self.new ≡ self.old }
    {
        let room = self.room(most);
        // The room is looked at before: what the machine has made must all be kept.
        match self.machine.transact(core, room) {
            Some(inside) => {
                push_transaction(&mut self.made, core, inside);
                inside + 2
            }
            None => 0,
        }
    }

    // Up to so many instructions of a core that touch no memory, and as many as the history has room for: how many, 0
    // where there is none. Of a core outside of transactions they are fewer only where the next is none of them or the
    // history is full.
    #[inline(always)]
    fn go_on(&mut self, core: u8, most: u32) -> u32
        requires { core < length self.old.program.entries }
        ensures most { result ≤ most }
        ensures made { AreSteps self.old self.new core result }
        ensures none { result ≡ 0 → self.new ≡ self.old }
        ensures fewer { result < most → shown_state self.old.machine core ≡ CoreState.Running →
            IsDoneOnRegisters self.new.machine core ⊎ IsFull self.new }
    {
        let room = self.room(most);
        let count = self.machine.steps_on_registers(core, room);
        push_plain(&mut self.made, core, count);
        count
    }

    /// The machine.
    pub fn machine(&self) -> &Machine
        ensures { result.now ≡ self.now.machine }
    {
        &self.machine
    }

    /// The program.
    pub fn program(&self) -> &Program
        ensures { result.now ≡ self.now.program }
    {
        &self.program
    }

    /// The limits on the lines of a transaction and on the pending stores of a core.
    pub fn limits(&self) -> Limits
        ensures { result ≡ self.now.limits }
    {
        self.limits
    }

    /// The steps that were made, in order.
    pub fn history(&self) -> History<'_>
        ensures { pairs_of result ≡ self.now.history }
    {
        History::made(self.made.as_slice())
    }

    /// The step at an index of the history, as [`History::get`] answers it. Its core is one of the program's.
    pub fn step_at(&self, index: usize) -> Option<(u8, Outcome)>
        ensures step { result ≡ slice_get self.now.history index }
        ensures exists { IfSome result (λ pair. pair.0 < length self.now.program.entries) }
    {
        // By this it is known that the program has the cores of the history.
        self.is_run();
        self.history().get(index)
    }

    /// The pick of the step at an index, as [`History::pick_at`] answers it. Its core is one of the program's.
    pub fn pick_at(&self, index: usize) -> Option<Pick>
        ensures pick { result ≡ slice_get (picks_of self.now.history) index }
        ensures exists { IfSome result (λ pick. pick.core < length self.now.program.entries) }
    {
        // As above.
        self.is_run();
        self.history().pick_at(index)
    }

    /// How many steps there may be, 1 to 16,777,216.
    pub fn limit(&self) -> u64
        ensures limit { result ≡ self.now.limit }
        ensures most { result ≤ 16777216 }
    {
        self.limit
    }

    /// How many steps were made, at most 16,777,216.
    pub fn made(&self) -> u64
        ensures made { result ≡ length self.now.history }
        ensures most { result ≤ self.now.limit }
        ensures few { result ≤ 16777216 }
    {
        self.made.as_slice().len() as u64
    }

    /// Whether the history is full.
    pub fn is_full(&self) -> bool
        ensures { IsTrue result ↔ IsFull self.now }
    {
        self.made() == self.limit()
    }

    /// How many cores there are, 1 to 64.
    pub fn cores(&self) -> u8
        ensures program { result ≡ length self.now.program.entries }
        ensures machine { result ≡ length self.now.machine.views }
        ensures some { 0 < result }
        ensures most { result ≤ 64 }
    {
        self.program.cores()
    }

    /// Whether a core has stopped; false for a number that no core has.
    pub fn is_stopped(&self, core: u8) -> bool
        ensures { IsTrue result ↔ IsStopped self.now core }
    {
        matches!(self.machine.state(core), Ok(CoreState::Stopped(_)))
    }

    /// The law that each board keeps: its machine is the run of its history from the program's opening state, and each
    /// outcome of its history is the owed one.
    pub fn is_run(&self)
        ensures { IsHistory self.now }
    {
        let _limit = self.limit;
    }

    /// The run of the history on one flat memory ([`serial_with`]), which is never refused but for want of memory, and
    /// which ends with the machine's memory, and with each core's registers before its open transaction, its stop, and
    /// its stores that are pending.
    ///
    /// [`SerialFault::NoMemory`], where memory, the list of cores or their queues found no memory.
    pub fn replay(&self, alloc: Global) -> Result<Serial, SerialFault>
        ensures ok { IfOk result (λ s. Replays self.now s) }
        ensures err { IfErr result (λ fault. fault ≡ SerialFault.NoMemory) }
    {
        serial_with(alloc, &self.program, self.limits.stores, self.history())
    }
}
