//! What is tried: a program, its limits, and the checks of its runs.
//!
//! A [`Trial`] is lent to all calls, and holds nothing of a run. Its limits are tested where a board or a machine
//! is made (`one_run`, `walker`). By what its steps are picked does not belong to it.

use ia_image::Program;
use tm_check::Check;
use tm_core::Limits;

/// A program, and what is checked of its runs.
#[derive(Clone, Copy)]
pub struct Trial<'a> {
    /// The program.
    pub program: &'a Program,
    /// How many lines a transaction can touch, and how many stores of a core may be pending.
    pub limits: Limits,
    /// The most steps of a run, 1 to 16,777,216.
    pub most: u32,
    /// What is checked of each run at its end.
    pub checks: &'a [Check],
}
