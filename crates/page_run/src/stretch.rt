//! Some steps of a run, as each pass over it is handed them: [`Stretch`].
//!
//! It is made once the survey has told how long the run is, and its window fits that length. A pass makes the run
//! from its first step, whatever the window is. What the survey found beside the length is handed on by itself.

use crate::window::Window;
use elide_setup::{Course, Setup};
use std::alloc::Global;

/// Some steps of a run, side by side.
#[derive(Clone, Copy)]
pub struct Stretch<'a> {
    /// For the machine and for texts.
    pub alloc: Global,
    /// The program and its machine.
    pub setup: &'a Setup,
    /// The schedule.
    pub course: &'a Course,
    /// How many steps its run has.
    pub total: u64,
    /// Which of them.
    pub window: Window,
}
