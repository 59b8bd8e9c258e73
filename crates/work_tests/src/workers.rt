//! Desks and workers with real threads. Code lies from 100h on, in a memory of 65,536 bytes.

ghost use Rattle.std.specs.Prelude.{◌≡◌, length, IfOk};

use ia_image::load;
use std::alloc::Global;
use std::marker::Brand;
use std::process::Abort;
use std::sync::Wait;
use std::sync::atomic::{AtomicU64, Ordering};
use std::test::*;
use std::thread;
use std::thread::Threads;
use tm_core::Limits;
use tm_hist::Board;
use tm_model::{Interference, Outcome};
use tm_pick::{Events, Kinds};
use tm_rule::Stop;
use tm_work::{
    Burst, Desk, DeskIdentity, EventPlan, Gate, Opening, Report, Seat, Watch, WorkFault,
    run_steadily, run_workers,
};

const LIMITS: Limits = Limits {
    read_lines: 512,
    write_lines: 512,
    stores: 0,
};

// Workers that are left alone.
const NO_EVENTS: EventPlan = EventPlan {
    events: Events::Never,
    seed: 1,
};

// The most looks at a word before a wait counts as too long.
const LOOKS: u32 = 100_000_000;

// JMP to itself.
const SPINS: [u8; 2] = [0xeb, 0xfe];

// XBEGIN at 100h with fallback 115h, a load of [1000h], INC EAX, a store to [1000h], XEND at 111h, and HLT at 114h and
// at 115h; then, at 116h, a store of the byte 7 to [1000h].
const INCREMENT: [u8; 29] = [
    0xc7, 0xf8, 0x0f, 0, 0, 0, 0xa1, 0, 0x10, 0, 0, 0x40, 0xa3, 0, 0x10, 0, 0, 0x0f, 0x01, 0xd5,
    0xf4, 0xf4, 0xc6, 0x05, 0, 0x10, 0, 0, 7,
];

fn board_of(alloc: Global, code: &[u8], entries: &[u32], limit: u64) -> Result<Board, Fail>
    ensures { IfOk result (λ b. length b.program.entries ≡ length entries.now) }
{
    let code_len = u32::try_from(code.len()).map_err(|_| "short code")?;
    let Ok(program) = load(alloc, code, 0x100, code_len, 0x10000, entries) else {
        return Err("a program".into());
    };
    let Ok(board) = Board::new(alloc, &program, LIMITS, limit) else {
        return Err("a board".into());
    };
    Ok(board)
}

// How often the core stands in the history.
fn steps_of(board: &Board, core: u8) -> usize {
    let history = board.history();
    let mut steps = 0usize;
    for index in 0..history.len() {
        if let Some((by, _)) = history.get(index)
            && by == core
        {
            steps = steps.wrapping_add(1);
        }
    }
    steps
}

// Waits until the word is at least this. False where that takes too long.
fn reaches(word: &AtomicU64, least: u64) -> bool {
    for _ in 0..LOOKS {
        if word.load(Ordering::SeqCst) >= least {
            return true;
        }
        thread::yield_now();
    }
    false
}

// Counts the calls of it.
#[derive(Drop)]
struct Counter {
    before: AtomicU64,
    after: AtomicU64,
}

impl Counter {
    fn new() -> Counter {
        Counter {
            before: AtomicU64::new(0),
            after: AtomicU64::new(0),
        }
    }
}

impl Gate for Counter {
    fn before(&self, _core: u8, _done: u32) {
        self.before.fetch_add(1, Ordering::SeqCst);
    }

    fn after(&self, _core: u8, _outcome: &Outcome) {
        self.after.fetch_add(1, Ordering::SeqCst);
    }
}

// So many turns of a seat. None where one of them made no step.
fn take<J: DeskIdentity, R: Wait>(
    rt: &R,
    desk: &Desk<J>,
    seat: Seat<J>,
    turns: u32,
) -> Option<Seat<J>> {
    let mut seat = seat;
    for _ in 0..turns {
        desk.turn(rt, &mut seat)?;
    }
    Some(seat)
}

fn two_threads<J: DeskIdentity + Send + Sync, R: Threads + Wait + Abort + Sync>(
    rt: &R,
    alloc: Global,
    opening: Opening,
) -> Result<(), Fail>
    requires name { opening.table ≡ J.table }
    requires given { opening.given ≡ J.given }
{
    let Ok((desk, mut seats)) = Desk::<J>::open(alloc, opening) else {
        return Err("a desk".into());
    };
    let one = seats.pop().ok_or("two seats")?;
    let zero = seats.pop().ok_or("two seats")?;
    assert!(rt; zero.core() == 0 && one.core() == 1 && seats.is_empty());
    assert!(rt; zero.steps() == 0 && zero.last().is_none() && !zero.ended());
    let shared = &desk;
    let (zero, one) = thread::join(
        rt,
        move || take(rt, shared, zero, 1000),
        move || take(rt, shared, one, 1000),
    );
    let mut zero = zero.ok_or("1000 steps")?;
    let one = one.ok_or("1000 steps")?;
    assert!(rt; zero.steps() == 1000 && !zero.ended());
    assert!(rt; desk.turn(rt, &mut zero).is_none());
    assert!(rt; zero.steps() == 1000 && zero.ended() && !one.ended());
    let last = one.last().ok_or("a last step")?;
    seats.push(zero)?;
    seats.push(one)?;
    let board = desk.close(seats);
    assert!(rt; steps_of(&board, 0) == 1000 && steps_of(&board, 1) == 1000);
    assert!(rt; board.history().get(last.index) == Some((1, last.outcome)));
    Ok(())
}

#[test]
fn two_seats(rt: HostRuntime) -> Result<(), Fail> {
    let board = board_of(rt.alloc(), &SPINS, &[0x100, 0x100], 2000)?;
    let Ok(opening) = Opening::new(rt.alloc(), board) else {
        return Err("an opening".into());
    };
    two_threads::<Brand, _>(&rt, rt.alloc(), opening)
}

#[test]
fn a_board_that_is_not_shared(rt: HostRuntime) -> Result<(), Fail> {
    let mut board = board_of(rt.alloc(), &SPINS, &[0x100], 5)?;
    assert!(rt; board.step(0).is_ok());
    let Ok(opening) = Opening::new(rt.alloc(), board) else {
        return Err("an opening".into());
    };
    let board = opening.into_board();
    assert_eq!(rt; (board.made(), board.limit()), (1, 5));
    Ok(())
}

// The workers of cores 0 and 1 wait for each other before their first turn.
#[derive(Drop)]
struct Handshake {
    first: AtomicU64,
    second: AtomicU64,
    late: AtomicU64,
    heard: AtomicU64,
}

impl Gate for Handshake {
    fn before(&self, core: u8, done: u32) {
        if done > 0 {
            return;
        }
        let (mine, theirs) = if core == 0 {
            (&self.first, &self.second)
        } else {
            (&self.second, &self.first)
        };
        mine.store(1, Ordering::SeqCst);
        if !reaches(theirs, 1) {
            self.late.store(1, Ordering::SeqCst);
        }
    }

    fn after(&self, _core: u8, _outcome: &Outcome) {
        self.heard.fetch_add(1, Ordering::SeqCst);
    }
}

#[test]
fn workers_meet(rt: HostRuntime) -> Result<(), Fail> {
    let board = board_of(rt.alloc(), &SPINS, &[0x100, 0x100], 5000)?;
    let gate = Handshake {
        first: AtomicU64::new(0),
        second: AtomicU64::new(0),
        late: AtomicU64::new(0),
        heard: AtomicU64::new(0),
    };
    let Ok(report) = run_workers(&rt, rt.alloc(), board, &[700, 800], &gate) else {
        return Err("a report".into());
    };
    assert_eq!(rt; gate.late.load(Ordering::SeqCst), 0);
    assert_eq!(rt; gate.heard.load(Ordering::SeqCst), 1500);
    assert_eq!(rt; report.steps.as_slice(), [700, 800].as_slice());
    assert_eq!(rt; report.board.made(), 1500);
    Ok(())
}

// Core 0's fifth turn waits for core 1's first, and that one for core 0's fourth.
#[derive(Drop)]
struct Turns {
    first: AtomicU64,
    second: AtomicU64,
    late: AtomicU64,
}

impl Gate for Turns {
    fn before(&self, core: u8, done: u32) {
        let in_time = match (core, done) {
            (0, 4) => reaches(&self.second, 1),
            (1, 0) => reaches(&self.first, 4),
            _ => true,
        };
        if !in_time {
            self.late.store(1, Ordering::SeqCst);
        }
    }

    fn after(&self, core: u8, _outcome: &Outcome) {
        let word = if core == 0 { &self.first } else { &self.second };
        word.fetch_add(1, Ordering::SeqCst);
    }
}

#[test]
fn a_store_aborts_the_other_worker(rt: HostRuntime) -> Result<(), Fail> {
    let board = board_of(rt.alloc(), &INCREMENT, &[0x100, 0x116], 100)?;
    let gate = Turns {
        first: AtomicU64::new(0),
        second: AtomicU64::new(0),
        late: AtomicU64::new(0),
    };
    let Ok(report) = run_workers(&rt, rt.alloc(), board, &[5, 1], &gate) else {
        return Err("a report".into());
    };
    assert_eq!(rt; gate.late.load(Ordering::SeqCst), 0);
    let history = report.board.history();
    assert_eq!(rt; history.len(), 6);
    assert!(rt; history.get(0) == Some((0, Outcome::Begun)));
    assert!(rt; history.get(1) == Some((0, Outcome::Inside)));
    assert!(rt; history.get(2) == Some((0, Outcome::Inside)));
    assert!(rt; history.get(3) == Some((0, Outcome::Inside)));
    assert!(rt; history.get(4) == Some((1, Outcome::Plain)));
    assert!(rt; history.get(5) == Some((0, Outcome::Aborted(6))));
    Ok(())
}

#[test]
fn workers_stop(rt: HostRuntime) -> Result<(), Fail> {
    let board = board_of(rt.alloc(), &[0xf4], &[0x100, 0x100], 100)?;
    let gate = Counter::new();
    let Ok(report) = run_workers(&rt, rt.alloc(), board, &[5, 5], &gate) else {
        return Err("a report".into());
    };
    assert_eq!(rt; report.steps.as_slice(), [1, 1].as_slice());
    assert_eq!(rt; gate.before.load(Ordering::SeqCst), 4);
    assert_eq!(rt; gate.after.load(Ordering::SeqCst), 2);
    let Report { board, steps: _ } = report;
    assert!(rt; board.cores() == 2);
    let Ok(report) = run_workers(&rt, rt.alloc(), board, &[5, 5], &gate) else {
        return Err("a report".into());
    };
    assert_eq!(rt; report.steps.as_slice(), [0, 0].as_slice());
    Ok(())
}

fn sum_of(steps: &[u32]) -> u64 {
    steps
        .iter()
        .map(|x| u64::from(*x))
        .fold(0u64, |a, b| a.wrapping_add(b))
}

#[test]
fn workers_fill_the_history(rt: HostRuntime) -> Result<(), Fail> {
    let board = board_of(rt.alloc(), &SPINS, &[0x100, 0x100], 10)?;
    let gate = Counter::new();
    let Ok(report) = run_workers(&rt, rt.alloc(), board, &[100, 100], &gate) else {
        return Err("a report".into());
    };
    assert_eq!(rt; report.board.made(), 10);
    assert_eq!(rt; sum_of(report.steps.as_slice()), 10);
    let Report { board, steps: _ } = report;
    assert!(rt; board.is_full() && board.cores() == 2);
    let Ok(report) = run_workers(&rt, rt.alloc(), board, &[100, 100], &gate) else {
        return Err("a report".into());
    };
    assert_eq!(rt; report.steps.as_slice(), [0, 0].as_slice());
    assert_eq!(rt; gate.after.load(Ordering::SeqCst), 10);
    Ok(())
}

#[test]
fn no_budget(rt: HostRuntime) -> Result<(), Fail> {
    let board = board_of(rt.alloc(), &SPINS, &[0x100, 0x100], 5000)?;
    let gate = Counter::new();
    let Ok(report) = run_workers(&rt, rt.alloc(), board, &[0, 3], &gate) else {
        return Err("a report".into());
    };
    assert_eq!(rt; report.steps.as_slice(), [0, 3].as_slice());
    assert_eq!(rt; steps_of(&report.board, 0), 0);
    assert_eq!(rt; gate.before.load(Ordering::SeqCst), 3);
    Ok(())
}

// What a gate hears of each core, in order: a number that depends on it.
#[derive(Drop)]
struct Recorder {
    first: AtomicU64,
    second: AtomicU64,
}

fn number_of(outcome: &Outcome) -> u64 {
    match outcome {
        Outcome::Plain => 1,
        Outcome::Stopped(_) => 2,
        Outcome::Idle => 3,
        Outcome::Begun => 4,
        Outcome::Inside => 5,
        Outcome::Committed => 6,
        Outcome::Loaded => 7,
        Outcome::Drained => 8,
        Outcome::Aborted(status) => u64::from(*status).wrapping_add(1 << 32),
        Outcome::AbortedBy(_, status) => u64::from(*status).wrapping_add(1 << 33),
    }
}

fn mixed(was: u64, outcome: &Outcome) -> u64 {
    was.wrapping_mul(31).wrapping_add(number_of(outcome))
}

impl Gate for Recorder {
    fn before(&self, _core: u8, _done: u32) {}

    fn after(&self, core: u8, outcome: &Outcome) {
        let word = if core == 0 { &self.first } else { &self.second };
        let was = word.load(Ordering::SeqCst);
        word.store(mixed(was, outcome), Ordering::SeqCst);
    }
}

// The number of a core's part of the history.
fn part_of(board: &Board, core: u8) -> u64 {
    let history = board.history();
    let mut all = 0;
    for index in 0..history.len() {
        if let Some((by, outcome)) = history.get(index)
            && by == core
        {
            all = mixed(all, &outcome);
        }
    }
    all
}

#[test]
fn a_gate_hears_the_history(rt: HostRuntime) -> Result<(), Fail> {
    let board = board_of(rt.alloc(), &INCREMENT, &[0x100, 0x100], 5000)?;
    let gate = Recorder {
        first: AtomicU64::new(0),
        second: AtomicU64::new(0),
    };
    let Ok(report) = run_workers(&rt, rt.alloc(), board, &[100, 4], &gate) else {
        return Err("a report".into());
    };
    let first = gate.first.load(Ordering::SeqCst);
    let second = gate.second.load(Ordering::SeqCst);
    assert!(rt; first == part_of(&report.board, 0) && first > 0);
    assert!(rt; second == part_of(&report.board, 1) && second > 0);
    assert_eq!(rt; report.steps.get(1), Some(&4));
    Ok(())
}

// Three workers. With a request for memory refused, or threads, the board is as the fault says.
#[test]
fn three_workers(rt: HostRuntime) -> Result<(), Fail> {
    let board = board_of(rt.alloc(), &SPINS, &[0x100, 0x100, 0x100], 100)?;
    let gate = Counter::new();
    match run_workers(&rt, rt.alloc(), board, &[7, 3, 2], &gate) {
        Ok(report) => {
            assert_eq!(rt; report.steps.as_slice(), [7, 3, 2].as_slice());
            Ok(())
        }
        Err(WorkFault::NoMemory(board)) => {
            assert_eq!(rt; (board.made(), gate.before.load(Ordering::SeqCst)), (0, 0));
            Err("memory".into())
        }
        Err(WorkFault::SpawnRefused(core, board)) => {
            assert!(rt; core < 3 && steps_of(&board, 2) == 0);
            assert!(rt; steps_of(&board, 0) == if core > 0 { 7 } else { 0 });
            assert!(rt; steps_of(&board, 1) == if core > 1 { 3 } else { 0 });
            Err("threads".into())
        }
    }
}

// Refuses the thread of one core, since no stack is as large.
#[derive(Drop)]
struct Refusing {
    core: u8,
}

impl Gate for Refusing {
    fn before(&self, _core: u8, _done: u32) {}

    fn after(&self, _core: u8, _outcome: &Outcome) {}

    fn stack_bytes(&self, core: u8) -> Option<usize> {
        if core == self.core {
            Some(usize::MAX)
        } else {
            None
        }
    }
}

// The workers of the lower cores use their budgets; this core and those above it make no step.
fn refused_from<R: Threads + Wait + Abort + Sync>(
    rt: &R,
    alloc: Global,
    core: u8,
) -> Result<(), Fail> {
    let board = board_of(alloc, &SPINS, &[0x100, 0x100, 0x100], 100)?;
    match run_workers(rt, alloc, board, &[7, 3, 2], &Refusing { core }) {
        Err(WorkFault::SpawnRefused(refused, board)) => {
            assert_eq!(rt; refused, core);
            assert_eq!(rt; steps_of(&board, 0), if core > 0 { 7 } else { 0 });
            assert_eq!(rt; steps_of(&board, 1), if core > 1 { 3 } else { 0 });
            assert_eq!(rt; steps_of(&board, 2), 0);
            Ok(())
        }
        Err(WorkFault::NoMemory(_)) => Err("memory".into()),
        Ok(_) => Err("a refusal".into()),
    }
}

#[test]
fn each_thread_refused(rt: HostRuntime) -> Result<(), Fail> {
    for core in 0..3 {
        refused_from(&rt, rt.alloc(), core)?;
    }
    Ok(())
}

// Counts what it is told, and keeps the greatest number.
#[derive(Drop)]
struct Listener {
    calls: AtomicU64,
    greatest: AtomicU64,
}

impl Listener {
    fn new() -> Listener {
        Listener {
            calls: AtomicU64::new(0),
            greatest: AtomicU64::new(0),
        }
    }
}

impl Watch for Listener {
    fn reached(&self, steps: u64) {
        self.calls.fetch_add(1, Ordering::SeqCst);
        self.greatest.fetch_max(steps, Ordering::SeqCst);
    }
}

// What workers with several steps a lock do; refused as those of `three_workers` may be. They are too short for a
// watch.
fn three_steady_workers<R: Threads + Wait + Abort + Sync>(
    rt: &R,
    alloc: Global,
    burst: Burst,
) -> Result<(), Fail> {
    let board = board_of(alloc, &SPINS, &[0x100, 0x100, 0x100], 1000)?;
    let listener = Listener::new();
    match run_steadily(rt, alloc, board, &[700, 30, 0], burst, NO_EVENTS, &listener) {
        Ok(report) => {
            assert_eq!(rt; listener.calls.load(Ordering::SeqCst), 0);
            assert_eq!(rt; report.steps.as_slice(), [700, 30, 0].as_slice());
            assert_eq!(rt; steps_of(&report.board, 0), 700);
            assert_eq!(rt; steps_of(&report.board, 1), 30);
            assert_eq!(rt; report.board.made(), 730);
            Ok(())
        }
        Err(WorkFault::NoMemory(board)) => {
            assert_eq!(rt; board.made(), 0);
            Err("memory".into())
        }
        Err(WorkFault::SpawnRefused(core, board)) => {
            assert!(rt; core < 3 && steps_of(&board, 2) == 0);
            assert!(rt; steps_of(&board, 0) == if core > 0 { 700 } else { 0 });
            assert!(rt; steps_of(&board, 1) == if core > 1 { 30 } else { 0 });
            Err("threads".into())
        }
    }
}

// No step a lock is one, and there may be more than there are.
#[test]
fn steps_a_lock(rt: HostRuntime) -> Result<(), Fail> {
    let bursts = [
        Burst::Fixed(1),
        Burst::Fixed(0),
        Burst::Fixed(u32::MAX),
        Burst::Varying,
    ];
    for burst in bursts {
        three_steady_workers(&rt, rt.alloc(), burst)?;
    }
    Ok(())
}

#[test]
fn steady_workers_stop(rt: HostRuntime) -> Result<(), Fail> {
    let board = board_of(rt.alloc(), &[0xf4], &[0x100, 0x100], 100)?;
    let listener = Listener::new();
    let Ok(report) = run_steadily(
        &rt,
        rt.alloc(),
        board,
        &[5, 5],
        Burst::Varying,
        NO_EVENTS,
        &listener,
    ) else {
        return Err("a report".into());
    };
    assert_eq!(rt; report.steps.as_slice(), [1, 1].as_slice());
    Ok(())
}

#[test]
fn steady_workers_fill_the_history(rt: HostRuntime) -> Result<(), Fail> {
    let board = board_of(rt.alloc(), &SPINS, &[0x100, 0x100], 100)?;
    let listener = Listener::new();
    let Ok(report) = run_steadily(
        &rt,
        rt.alloc(),
        board,
        &[100, 100],
        Burst::Varying,
        NO_EVENTS,
        &listener,
    ) else {
        return Err("a report".into());
    };
    assert_eq!(rt; report.board.made(), 100);
    assert_eq!(rt; sum_of(report.steps.as_slice()), 100);
    Ok(())
}

// Each step comes under an interrupt, so that the transaction is aborted at its first instruction, and its fallback
// path is run, which nothing else reaches.
#[test]
fn events_reach_the_fallback_path(rt: HostRuntime) -> Result<(), Fail> {
    let board = board_of(rt.alloc(), &INCREMENT, &[0x100], 100)?;
    let listener = Listener::new();
    let plan = EventPlan {
        events: Events::Rate {
            one_in: 1,
            kinds: Kinds::only(Interference::Interrupt),
        },
        seed: 1,
    };
    let Ok(report) = run_steadily(
        &rt,
        rt.alloc(),
        board,
        &[10],
        Burst::Varying,
        plan,
        &listener,
    ) else {
        return Err("a report".into());
    };
    assert_eq!(rt; report.steps.as_slice(), [3].as_slice());
    let history = report.board.history();
    assert!(rt; history.get(0) == Some((0, Outcome::Begun)));
    assert!(rt; history.get(1) == Some((0, Outcome::AbortedBy(Interference::Interrupt, 0))));
    assert!(rt; history.get(2) == Some((0, Outcome::Stopped(Stop::Halt))));
    Ok(())
}

// Two workers with steps enough to be heard of.
fn two_watched_workers<R: Threads + Wait + Abort + Sync>(
    rt: &R,
    alloc: Global,
    burst: Burst,
) -> Result<(), Fail> {
    let board = board_of(alloc, &SPINS, &[0x100, 0x100], 40000)?;
    let listener = Listener::new();
    let Ok(report) = run_steadily(
        rt,
        alloc,
        board,
        &[20000, 20000],
        burst,
        NO_EVENTS,
        &listener,
    ) else {
        return Err("a report".into());
    };
    assert_eq!(rt; report.steps.as_slice(), [20000, 20000].as_slice());
    assert_eq!(rt; report.board.made(), 40000);
    assert!(rt; listener.calls.load(Ordering::SeqCst) >= 2);
    let greatest = listener.greatest.load(Ordering::SeqCst);
    assert!(rt; 0 < greatest && greatest <= 40000);
    Ok(())
}

#[test]
fn a_watch_hears_of_steps(rt: HostRuntime) -> Result<(), Fail> {
    for burst in [Burst::Fixed(1), Burst::Varying, Burst::Fixed(u32::MAX)] {
        two_watched_workers(&rt, rt.alloc(), burst)?;
    }
    Ok(())
}

// It is the length of the whole history that is told, and not how many of the steps are new.
#[test]
fn a_watch_hears_of_the_whole_history(rt: HostRuntime) -> Result<(), Fail> {
    let mut board = board_of(rt.alloc(), &SPINS, &[0x100], 20001)?;
    assert!(rt; board.step(0).is_ok());
    assert!(rt; board.cores() == 1);
    let listener = Listener::new();
    let Ok(report) = run_steadily(
        &rt,
        rt.alloc(),
        board,
        &[20000],
        Burst::Fixed(20000),
        NO_EVENTS,
        &listener,
    ) else {
        return Err("a report".into());
    };
    assert_eq!(rt; report.board.made(), 20001);
    assert_eq!(rt; listener.calls.load(Ordering::SeqCst), 1);
    assert_eq!(rt; listener.greatest.load(Ordering::SeqCst), 20001);
    Ok(())
}

// Turns of core 0 alone, and then a close to which no seat comes.
fn close_without_seats<J: DeskIdentity, R: Wait + Abort>(
    rt: &R,
    alloc: Global,
    opening: Opening,
) -> Result<(), Fail>
    requires name { opening.table ≡ J.table }
    requires given { opening.given ≡ J.given }
{
    let Ok((desk, mut seats)) = Desk::<J>::open(alloc, opening) else {
        return Err("a desk".into());
    };
    let mut one = seats.pop().ok_or("two seats")?;
    let mut zero = seats.pop().ok_or("two seats")?;
    assert_eq!(rt; desk.turns(rt, &mut zero, 3), 3);
    assert_eq!(rt; desk.turns(rt, &mut zero, 0), 0);
    assert!(rt; zero.steps() == 3 && !zero.ended());
    assert_eq!(rt; desk.turns(rt, &mut one, 9), 2);
    assert!(rt; one.steps() == 2 && one.ended());
    let board = desk.close(Vec::new(alloc));
    assert_eq!(rt; (steps_of(&board, 0), steps_of(&board, 1)), (3, 2));
    assert_eq!(rt; board.made(), 5);
    Ok(())
}

#[test]
fn no_seat_comes_back(rt: HostRuntime) -> Result<(), Fail> {
    let board = board_of(rt.alloc(), &SPINS, &[0x100, 0x100], 5)?;
    let Ok(opening) = Opening::new(rt.alloc(), board) else {
        return Err("an opening".into());
    };
    close_without_seats::<Brand, _>(&rt, rt.alloc(), opening)
}

// A desk with a seat a core, or the board as it was.
fn three_seats<J: DeskIdentity, R: Abort>(
    rt: &R,
    alloc: Global,
    opening: Opening,
) -> Result<(), Fail>
    requires name { opening.table ≡ J.table }
    requires given { opening.given ≡ J.given }
{
    match Desk::<J>::open(alloc, opening) {
        Ok((desk, seats)) => {
            assert_eq!(rt; seats.len(), 3);
            assert_eq!(rt; desk.close(seats).made(), 1);
            Ok(())
        }
        Err(WorkFault::NoMemory(board)) => {
            assert_eq!(rt; board.made(), 1);
            Err("memory".into())
        }
        Err(WorkFault::SpawnRefused(_, _)) => Err("a desk".into()),
    }
}

#[test]
fn a_desk_opens(rt: HostRuntime) -> Result<(), Fail> {
    let mut board = board_of(rt.alloc(), &SPINS, &[0x100, 0x100, 0x100], 5)?;
    assert!(rt; board.step(0).is_ok());
    match Opening::new(rt.alloc(), board) {
        Ok(opening) => three_seats::<Brand, _>(&rt, rt.alloc(), opening),
        Err(fault) => {
            assert_eq!(rt; fault.code(), 61);
            Err("memory".into())
        }
    }
}

#[test]
fn faults_have_numbers(rt: HostRuntime) -> Result<(), Fail> {
    let first = board_of(rt.alloc(), &[0xf4], &[0x100], 1)?;
    let second = board_of(rt.alloc(), &[0xf4], &[0x100], 1)?;
    let cases = [
        (WorkFault::NoMemory(first), 61, "NoMemory NoMemory(..)"),
        (
            WorkFault::SpawnRefused(3, second),
            60,
            "SpawnRefused SpawnRefused(3, ..)",
        ),
    ];
    for (fault, number, names) in cases {
        assert_eq!(rt; fault.code(), number);
        let text = format!(in rt.alloc(); "{fault} {fault:?}")?;
        assert_eq!(rt; text.as_str(), names);
    }
    Ok(())
}
