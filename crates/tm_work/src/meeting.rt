//! Where workers wait for each other, so that short programs are not run one core after another.
//!
//! [`Meeting::meet`] is called before a burst, and never under the desk's lock; [`Meeting::leave`] by who comes no
//! more or was never started. Nothing that is promised depends on it: it ends by itself where somebody does not
//! come.

use std::hint::spin_loop;
use std::sync::atomic::{AtomicU64, Ordering};
use std::thread::yield_now;

// How often each worker comes.
const ROUNDS: u64 = 16;

// The most looks of a wait, and how many of them are short.
const LOOKS: u32 = 5000;

const SHORT_LOOKS: u32 = 200;

// So many arrivals end a meeting: more than `ROUNDS` of any number of workers.
const OVER: u64 = 1 << 32;

/// A meeting of workers before their first steps and between them, so that these steps lie close together in time. A
/// worker that lets a lock go mostly has it again before another wakes, and a short program would be over by then.
///
/// Arrivals are counted off in rounds of as many as there are workers, and who arrives waits until its round is full.
/// It looks a number of times only, so that nobody waits for long for a thread that does not run; then the meeting is
/// over for all. So no clause says that workers met.
#[derive(Drop)]
pub(crate) struct Meeting {
    // How many still come to it: the workers, and who starts them.
    present: AtomicU64,
    arrivals: AtomicU64,
}

impl Meeting {
    /// A meeting of so many workers that are still to be started.
    pub(crate) fn new(workers: usize) -> Meeting {
        Meeting {
            present: AtomicU64::new((workers as u64).saturating_add(1)),
            arrivals: AtomicU64::new(0),
        }
    }

    /// Waits for the others, unless the last round is over.
    pub(crate) fn meet(&self) {
        if self.round_of(self.arrivals.load(Ordering::SeqCst)) >= ROUNDS {
            return;
        }
        let mine = self.arrivals.fetch_add(1, Ordering::SeqCst);
        for look in 0..LOOKS {
            if self.round_of(self.arrivals.load(Ordering::SeqCst)) > self.round_of(mine) {
                return;
            }
            if look < SHORT_LOOKS {
                spin_loop();
            } else {
                yield_now();
            }
        }
        self.arrivals.fetch_add(OVER, Ordering::SeqCst);
    }

    /// So many come no more.
    pub(crate) fn leave(&self, count: usize) {
        self.present.fetch_sub(count as u64, Ordering::SeqCst);
    }

    // The number of the round to which an arrival belongs, with as many as are present now.
    fn round_of(&self, arrival: u64) -> u64 {
        arrival / self.present.load(Ordering::SeqCst).max(1)
    }
}
