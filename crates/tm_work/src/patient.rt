//! A lock that is waited for in rests.
//!
//! [`PatientLock::lock`] waits asleep; [`PatientLock::take`] looks, rests and looks again, and in the end waits as
//! the other does. Which is asked for when is said in `desk`. Who has the lock next is promised by neither.

use std::hint::spin_loop;
use std::sync::atomic::AtomicU64;
use std::sync::{Mutex, MutexGuard, Wait};
use std::time::Duration;

// How often a thread looks before it rests: for a few microseconds, in which whoever has the lock lets it go more than
// once.
const LOOKS: u32 = 64;

// How long a rest is for each of the threads, in microseconds: so threads come to look as often, however many there
// are.
const REST: u64 = 16;

// Of 64 threads so many rests take some seventy milliseconds.
const MOST_RESTS: u32 = 64;

/// A value under a lock that each of some threads takes over and over, for about a microsecond.
///
/// A thread that waits for a [`Mutex`] sleeps until it is woken, and after two such sleeps the lock is left to it. So
/// once threads sleep, the lock goes from one to the next, and each time it is let go costs a call of the system and a
/// switch of threads, several times what is done under it. Who waits for `take` looks for a moment, rests, and looks
/// again, while whoever has the lock goes on undisturbed.
#[derive(Drop)]
pub(crate) struct PatientLock<T: Drop> {
    value: Mutex<T>,
    // What a thread rests on: nobody changes it, so that a rest ends with its time.
    resting: AtomicU64,
    rest: u64,
}

impl<T: Drop> PatientLock<T> {
    /// A lock that so many threads share.
    pub(crate) fn new(value: T, threads: u8) -> PatientLock<T> {
        PatientLock {
            value: Mutex::new(value),
            resting: AtomicU64::new(0),
            rest: u64::from(threads) * REST,
        }
    }

    /// The value, held, as soon as nobody else has it.
    pub(crate) fn lock<'a>(&'a self, rt: &'a impl Wait) -> MutexGuard<'a, T> {
        self.value.lock(rt)
    }

    /// As [`PatientLock::lock`], after rests, where somebody has it. Who has rested often waits as for `lock`, so
    /// that nobody waits for long.
    pub(crate) fn take<'a>(&'a self, rt: &'a impl Wait) -> MutexGuard<'a, T> {
        for _ in 0..MOST_RESTS {
            if let Some(value) = self.look() {
                return value;
            }
            let rest = Duration::from_micros(self.rest);
            self.resting.park_timeout(rt, 0, rest);
        }
        self.value.lock(rt)
    }

    // The value, held, if nobody has it for a moment.
    fn look(&self) -> Option<MutexGuard<'_, T>> {
        for _ in 0..LOOKS {
            if let Some(value) = self.value.try_lock() {
                return Some(value);
            }
            spin_loop();
        }
        None
    }

    pub(crate) fn into_inner(self) -> T {
        let PatientLock { value, .. } = self;
        value.into_inner()
    }
}
