//! How far the workers are, told while they run: [`SharedProgress`] lends one place of progress to all of them.
//!
//! No worker waits for another to tell, and what is passed over is told by the next. That the work is over is told by
//! `workers`, once all are joined.

use elide_device::Progress;
use std::sync::Mutex;
use std::sync::atomic::{AtomicU64, Ordering};
use tm_work::Watch;

/// Tells a place how far workers are. They share it: one that comes while another tells passes on, so that none waits;
/// and the greatest number is told, since that of one worker may come after a greater one of another.
#[derive(Drop)]
pub struct SharedProgress<'a, G> {
    progress: Mutex<&'a mut G>,
    greatest: AtomicU64,
    most: u64,
}

impl<'a, G: Progress + Send> SharedProgress<'a, G> {
    /// Of workers that make at most so many steps together.
    pub fn new(progress: &'a mut G, most: u64) -> SharedProgress<'a, G> {
        SharedProgress {
            progress: Mutex::new(progress),
            greatest: AtomicU64::new(0),
            most,
        }
    }
}

impl<'a, G: Progress + Send> Watch for SharedProgress<'a, G> {
    fn reached(&self, steps: u64) {
        let before = self.greatest.fetch_max(steps, Ordering::SeqCst);
        // Not awaited, so that no worker stands still: what is passed over here the next one tells.
        if let Some(mut progress) = self.progress.try_lock() {
            progress.tell(steps.max(before), self.most, "steps");
        }
    }
}
