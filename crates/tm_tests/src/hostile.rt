//! Code of bytes that a fixed generator gives: it is stepped, and its history replays to the machine's state.

use ia_image::load;
use std::alloc::Global;
use tm_core::Limits;
use tm_hist::Board;

const LIMITS: Limits = Limits {
    read_lines: 8,
    write_lines: 8,
    stores: 0,
};

const PROGRAMS: u32 = 100_000;

/// The next of the generator's numbers (Marsaglia, "Xorshift RNGs", Journal of Statistical Software 8, 2003: 13, 7,
/// 17).
fn next(number: u64) -> u64 {
    let left = number ^ (number << 13);
    let right = left ^ (left >> 7);
    right ^ (right << 17)
}

/// Whether so many steps of three cores in turn are made on this code, and the history replays to the same memory,
/// registers and stops.
fn replays(alloc: Global, code: &[u8; 16], steps: u8) -> bool {
    let Ok(program) = load(alloc, code, 0x100, 16, 16384, &[0x100; 3]) else {
        return false;
    };
    let Ok(mut board) = Board::new(alloc, &program, LIMITS, u64::from(steps)) else {
        return false;
    };
    for index in 0..steps {
        if board.step(index % 3).is_err() {
            return false;
        }
    }
    let Ok(end) = board.replay(alloc) else {
        return false;
    };
    let agree = (0..3).all(|core| {
        end.regs(core) == board.machine().base_regs(core)
            && end
                .stop(core)
                .is_ok_and(|stop| stop.is_some() == board.is_stopped(core))
    });
    agree && end.memory() == board.machine().view()
}

#[test]
fn bytes_of_a_generator(rt: HostRuntime) {
    let mut number = 0x2545_f491_4f6c_dd1d;
    for index in 0..PROGRAMS {
        let front = next(number);
        let back = next(front);
        number = back;
        let mut code = [0; 16];
        code[..8].copy_from_slice(&front.to_le_bytes());
        code[8..].copy_from_slice(&back.to_le_bytes());
        assert!(rt; replays(rt.alloc(), &code, 64), "program {index}: {code:?}");
    }
}
