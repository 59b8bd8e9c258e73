//! One worker a core, each in a thread of its own: [`run_workers`] and [`run_steadily`].
//!
//! All memory is asked for, the desk opened, and the threads started in the order of the cores while the desk is
//! held; then they are joined, and the desk closed. Where a thread is not made, those before it work to their ends,
//! and the fault gives the board back. What a worker does is its `manner`.

ghost use Rattle.std.specs.Prelude.{◌≡◌, ◌<◌, ◌≤◌, ◌+◌, [], ℕ, length, IfOk, IfErr, Some, slice_get, slice_index};
ghost use Rattle.std.specs.Prelude.{vec_capacity, vec_len, IfNone, IfSome};
ghost use Rattle.tm_model.specs.Runs.{TellNoAbort};
ghost use Rattle.tm_work.specs.Events.{TellDrawn};
ghost use Rattle.tm_work.specs.Seats.{IsDisturbed, SeatProgress, new_part};
ghost use Rattle.tm_work.specs.Workers.{IsDone, EachDone, AreLeft, IsReport};
ghost use Rattle.tm_work.specs.Faults.{IsFault, board_in};

use crate::desk::Desk;
use crate::fault::WorkFault;
use crate::gate::Gate;
use crate::manner::{Burst, Gated, Manner, Steady};
use crate::opening::Opening;
use crate::plan::EventPlan;
use crate::seat::{DeskIdentity, Seat};
use crate::watch::Watch;
use core::thread::Stack;
use std::alloc::Global;
use std::collections::VecDeque;
use std::marker::Brand;
use std::sync::Wait;
use std::thread;
use std::thread::{Promise, PromisedHandle, Scope, Threads};
use tm_hist::Board;

/// What workers made of a board.
#[derive(Drop)]
pub struct Report {
    /// The board after all their steps.
    pub board: Board,
    /// How many steps each core's worker made.
    pub steps: Vec<u32>,
}

// What a worker is to do. Its seat comes back with that many steps, or ended.
#[derive(Clone, Copy)]
struct Job {
    core: u8,
    budget: u32,
}

impl<J: DeskIdentity> Promise<Seat<J>> for Job {
    ghost use Rattle.tm_work.specs.Workers.{IsDone};

    ghost kept_by = { λ p s. IsDone p.core p.budget s };
}

type Handles<J> = Vec<PromisedHandle<Seat<J>, Job>>;

/// Starts one worker a core, in the order of the cores, and joins them all. Once all are started, each repeats
/// [`Gate::before`], a turn and [`Gate::after`] until it has made as many steps as its budget, or a turn finds its core
/// stopped or the history full.
///
/// [`WorkFault::NoMemory`] (61): no worker was started, and the board is as it was. [`WorkFault::SpawnRefused`] (60):
/// the workers of the cores below this one ran by these rules, and those of the cores above it made no step. Nor did
/// this core; but no contract says so, since its seat is gone with the thread that was not made. No step is aborted
/// from outside of the program.
pub fn run_workers<G: Gate, R: Threads + Wait + Sync>(
    rt: &R,
    alloc: Global,
    board: Board,
    budgets: &[u32],
    gate: &G,
) -> Result<Report, WorkFault>
    requires { length budgets.now ≡ length board.program.entries }
    ensures report { IfOk result (λ r. IsReport board budgets.now r.board r.steps.items) }
    ensures fault { IfErr result (λ e. IsFault board budgets.now e) }
    ensures alone { IfOk result (λ r. TellNoAbort (new_part board r.board)) }
    ensures fault_alone { IfErr result (λ e. TellNoAbort (new_part board (board_in e))) }
{
    let opening = Opening::new(alloc, board)?;
    run_at::<Brand, Gated<'_, G>, R>(rt, alloc, opening, budgets, &Gated { gate })
}

/// As [`run_workers`], without a gate, and with several steps under one lock: [`Desk::turns`] in place of turns one
/// by one, as many at a time as the burst says. Before its first bursts each worker waits a while for the others,
/// so that they make these side by side. Each step comes under the event that the plan has for it, a function of
/// the plan, the core and the number of the core's steps before; without events none is aborted from outside of the
/// program. While they work, the watch hears now and then how long the history is; of a worker with few steps it
/// hears nothing.
pub fn run_steadily<W: Watch + Sync, R: Threads + Wait + Sync>(
    rt: &R,
    alloc: Global,
    board: Board,
    budgets: &[u32],
    burst: Burst,
    plan: EventPlan,
    watch: &W,
) -> Result<Report, WorkFault>
    requires { length budgets.now ≡ length board.program.entries }
    ensures report { IfOk result (λ r. IsReport board budgets.now r.board r.steps.items) }
    ensures fault { IfErr result (λ e. IsFault board budgets.now e) }
    ensures events { IfOk result (λ r. TellDrawn plan.events (new_part board r.board)) }
    ensures fault_events { IfErr result (λ e. TellDrawn plan.events (new_part board (board_in e))) }
{
    let opening = Opening::new(alloc, board)?;
    let manner = Steady::new(burst, plan, budgets.len(), watch);
    run_at::<Brand, Steady<'_, W>, R>(rt, alloc, opening, budgets, &manner)
}

fn run_at<J: DeskIdentity + Send + Sync, M: Manner, R: Threads + Wait + Sync>(
    rt: &R,
    alloc: Global,
    opening: Opening,
    budgets: &[u32],
    manner: &M,
) -> Result<Report, WorkFault>
    requires name { opening.table ≡ J.table }
    requires given { opening.given ≡ J.given }
    requires events { J.events ≡ M.events manner.now }
    requires budgets { length budgets.now ≡ length opening.given.program.entries }
    ensures report { IfOk result (λ r. IsReport opening.given budgets.now r.board r.steps.items) }
    ensures fault { IfErr result (λ e. IsFault opening.given budgets.now e) }
    ensures events { IfOk result (λ r. IsDisturbed J.events opening.given r.board) }
    ensures fault_events { IfErr result (λ e. IsDisturbed J.events opening.given (board_in e)) }
{
    // All lists first: a thread that was started has to be joined and told of.
    let count = budgets.len();
    let Ok(handles) = Vec::with_capacity(alloc, count) else {
        return Err(WorkFault::NoMemory(opening.into_board()));
    };
    let Ok(done) = Vec::with_capacity(alloc, count) else {
        return Err(WorkFault::NoMemory(opening.into_board()));
    };
    let Ok(steps) = Vec::with_capacity(alloc, count) else {
        return Err(WorkFault::NoMemory(opening.into_board()));
    };
    let (desk, seats) = Desk::<J>::open(alloc, opening)?;
    let seats = VecDeque::from_vec(seats);
    let (done, left) = serve(rt, &desk, manner, budgets, seats, handles, done);
    let steps = steps_of(budgets, &done, steps);
    let core = done.len() as u8;
    match left {
        None => {
            let board = desk.close(done);
            Ok(Report { board, steps })
        }
        Some(left) => Err(WorkFault::SpawnRefused(core, desk.close_both(done, left))),
    }
}

// Starts a worker for each seat, and joins those that there are. The desk is held until all are started, so that none
// is done before another begins.
fn serve<'x, J: DeskIdentity + Send + Sync, M: Manner, R: Threads + Wait + Sync>(
    rt: &'x R,
    desk: &'x Desk<J>,
    manner: &'x M,
    budgets: &'x [u32],
    seats: VecDeque<Seat<J>>,
    handles: Handles<J>,
    done: Vec<Seat<J>>,
) -> (Vec<Seat<J>>, Option<VecDeque<Seat<J>>>)
    requires events { J.events ≡ M.events manner.now }
    requires seats { AreLeft seats.items 0 (length budgets.now) }
    requires handles { (handles.items ≡ []) × (length budgets.now ≤ vec_capacity handles) }
    requires done { (done.items ≡ []) × (length budgets.now ≤ vec_capacity done) }
    ensures done { EachDone budgets.now result.0.items }
    ensures all { IfNone result.1 (vec_len result.0 ≡ length budgets.now) }
    ensures left { IfSome result.1 (λ left. (vec_len result.0 < length budgets.now)
        × AreLeft left.items (vec_len result.0 + 1) (length budgets.now)) }
{
    thread::scope(
        thread::scope_env(),
        rt,
        |scope| -> (Vec<Seat<J>>, Option<VecDeque<Seat<J>>>)
            requires events { J.events ≡ M.events manner.now }
            requires seats { AreLeft seats.items 0 (length budgets.now) }
            requires handles { (handles.items ≡ []) × (length budgets.now ≤ vec_capacity handles) }
            requires done { (done.items ≡ []) × (length budgets.now ≤ vec_capacity done) }
            ensures done { EachDone budgets.entry.now result.0.items }
            ensures all { IfNone result.1 (vec_len result.0 ≡ length budgets.entry.now) }
            ensures left { IfSome result.1 (λ left. (vec_len result.0 < length budgets.entry.now)
                × AreLeft left.items (vec_len result.0 + 1) (length budgets.entry.now)) }
        {
            let mut handles = handles;
            let held = desk.hold(rt);
            let left = start_all(scope, rt, desk, manner, budgets, seats, &mut handles);
            drop(held);
            manner.started(budgets.len().saturating_sub(handles.len()));
            (join_all(rt, budgets, handles, done), left)
        },
    )
}

// Starts the workers in the order of their cores. Where no thread can be made, the seats of the cores behind that one
// come back.
fn start_all<'s, E: 's, J: DeskIdentity + Send + Sync + 's, M: Manner + 's, R: Wait + Sync + 's>(
    scope: &'s Scope<'s, E>,
    rt: &'s R,
    desk: &'s Desk<J>,
    manner: &'s M,
    budgets: &[u32],
    seats: VecDeque<Seat<J>>,
    handles: &mut Handles<J>,
) -> Option<VecDeque<Seat<J>>>
    requires events { J.events ≡ M.events manner.now }
    requires seats { AreLeft seats.items 0 (length budgets.now) }
    requires handles { (handles.old.items ≡ []) × (length budgets.now ≤ vec_capacity handles.old) }
    ensures jobs { (core : ℕ) (handle : _) → slice_get handles.new.items core ≡ Some handle
        → (handle.promise.core ≡ core) × (handle.promise.budget ≡ slice_index budgets.now core) }
    ensures all { IfNone result (vec_len handles.new ≡ length budgets.now) }
    ensures left { IfSome result (λ left. (vec_len handles.new < length budgets.now)
        × AreLeft left.items (vec_len handles.new + 1) (length budgets.now)) }
{
    let mut seats = seats;
    for core in 0..budgets.len() {
        let Some(seat) = seats.pop_front() else {
            unreachable!()
        };
        let job = Job {
            core: seat.core(),
            budget: budgets[core],
        };
        let work = move || -> Seat<J>
            requires fresh { seat.progress.steps ≡ 0 }
            requires events { J.events ≡ M.events manner.now }
            ensures { IsDone seat.core job.budget result }
        { manner.work(rt, desk, seat, job.budget) };
        let stack = match manner.stack_bytes(job.core) {
            Some(bytes) => Stack::new().stack_size(bytes),
            None => Stack::new(),
        };
        match stack.spawn_scoped_with(scope, job, work) {
            Ok(handle) => handles.push_reserved(handle),
            Err(_) => return Some(seats),
        }
    }
    None
}

fn join_all<J: DeskIdentity, R: Threads>(
    rt: &R,
    budgets: &[u32],
    handles: Handles<J>,
    done: Vec<Seat<J>>,
) -> Vec<Seat<J>>
    requires jobs { (core : ℕ) (handle : _) → slice_get handles.items core ≡ Some handle
        → (handle.promise.core ≡ core) × (handle.promise.budget ≡ slice_index budgets.now core) }
    requires done { (done.items ≡ []) × (vec_len handles ≤ vec_capacity done) }
    ensures done { EachDone budgets.now result.items }
    ensures count { vec_len result ≡ vec_len handles }
{
    let mut done = done;
    for handle in handles {
        done.push_reserved(handle.join(rt));
    }
    let _ = budgets;
    done
}

// How many steps each worker made.
fn steps_of<J: DeskIdentity>(budgets: &[u32], seats: &Vec<Seat<J>>, steps: Vec<u32>) -> Vec<u32>
    requires seats { EachDone budgets.now seats.now.items × (vec_len seats.now ≤ length budgets.now) }
    requires steps { (steps.items ≡ []) × (vec_len seats.now ≤ vec_capacity steps) }
    ensures count { vec_len result ≡ vec_len seats.now }
    ensures each { (core : ℕ) (seat : SeatProgress) → slice_get seats.now.items core ≡ Some seat
        → slice_index result.items core ≡ seat.progress.steps }
{
    let mut steps = steps;
    for seat in seats {
        steps.push_reserved(seat.steps() as u32);
    }
    steps
}
