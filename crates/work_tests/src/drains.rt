//! Which steps of a worker are drains, where stores may be pending.

ghost use Rattle.std.specs.Prelude.{◌≡◌, length, IfOk};

use ia_image::load;
use std::alloc::Global;
use std::process::Abort;
use std::sync::Wait;
use std::test::*;
use std::thread::Threads;
use tm_core::Limits;
use tm_hist::Board;
use tm_model::Outcome;
use tm_pick::Events;
use tm_work::{Burst, EventPlan, Watch, run_steadily};

// At 100h stores of the bytes 7 to [1000h] and 8 to [1001h], and JMP to itself.
const TWO_STORES: [u8; 16] = [
    0xc6, 0x05, 0, 0x10, 0, 0, 7, 0xc6, 0x05, 1, 0x10, 0, 0, 8, 0xeb, 0xfe,
];

// Hears nothing.
#[derive(Drop)]
struct Deaf;

impl Watch for Deaf {
    fn reached(&self, _steps: u64) {}
}

// A board of one core, of which so many stores may be pending.
fn board_of(alloc: Global, stores: u32) -> Result<Board, Fail>
    ensures { IfOk result (λ b. length b.program.entries ≡ 1) }
{
    let limits = Limits {
        read_lines: 512,
        write_lines: 512,
        stores,
    };
    let Ok(program) = load(alloc, &TWO_STORES, 0x100, 16, 0x10000, &[0x100]) else {
        return Err("a program".into());
    };
    let Ok(board) = Board::new(alloc, &program, limits, 100) else {
        return Err("a board".into());
    };
    Ok(board)
}

// Twelve steps of a worker in bursts of so many: `d` is a drain, and `.` any other step.
fn drains_of<R: Threads + Wait + Abort + Sync>(
    rt: &R,
    alloc: Global,
    stores: u32,
    burst: u32,
) -> Result<String, Fail> {
    let board = board_of(alloc, stores)?;
    let plan = EventPlan {
        events: Events::Never,
        seed: 1,
    };
    let burst = Burst::Fixed(burst);
    let Ok(report) = run_steadily(rt, alloc, board, &[12], burst, plan, &Deaf) else {
        return Err("a report".into());
    };
    assert_eq!(rt; report.steps.as_slice(), [12].as_slice());
    let history = report.board.history();
    let mut line = String::new(alloc);
    for index in 0..history.len() {
        let is_drain = history.get(index) == Some((0, Outcome::Drained));
        line.push(if is_drain { 'd' } else { '.' })?;
    }
    Ok(line)
}

// A burst begins with the drains of what was pending when the one before began, and of no store that is younger. With
// room for one store the second one waits for the drain of the first, within the burst.
#[test]
fn a_worker_drains_what_is_late(rt: HostRuntime) -> Result<(), Fail> {
    let rows = [
        (0, 1, "............"),
        (2, 1, "..dd........"),
        (2, 4, "........dd.."),
        (1, 4, ".d......d..."),
    ];
    for (stores, burst, wanted) in rows {
        let line = drains_of(&rt, rt.alloc(), stores, burst)?;
        assert_eq!(rt; line.as_str(), wanted);
    }
    Ok(())
}
