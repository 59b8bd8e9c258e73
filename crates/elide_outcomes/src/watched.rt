//! How far a search is: [`Watched`] hands on how many states were found, and not how many were followed.
//!
//! It ends no progress: `command` does, whatever the search came to.

use elide_device::Progress;
use tm_outcomes::Watching;

/// A place of progress that is told how many states a search has found, of at most so many.
#[derive(Drop)]
pub struct Watched<'a, G> {
    /// The place.
    pub progress: &'a mut G,
    /// The most states.
    pub most: u32,
}

impl<G: Progress> Watching for Watched<'_, G> {
    fn at(&mut self, found: u32, _followed: u32) {
        self.progress
            .tell(u64::from(found), u64::from(self.most), "states");
    }
}
