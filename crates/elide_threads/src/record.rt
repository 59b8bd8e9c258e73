//! The schedule that comes about, which nobody knows before the workers are back.
//!
//! [`Record::reserve`] takes its memory before they start, so that no run is made whose schedule has no room;
//! [`Record::write`] comes behind them, and fills it with the picks of the history. Without a path neither takes any.

ghost use Rattle.std.specs.Prelude.{◌≡◌, ◌⊎◌, [], IfErr, IfOk, OnOk};
ghost use Rattle.tm_model.specs.Runs.{picks_of};
ghost use Rattle.elide_setup.specs.Recorded.{IsRecorded};
ghost use Rattle.elide_setup.specs.Refused.{IsAnyWant, IsUnrecorded};
ghost use Rattle.tm_schedule.specs.Schedule.{schedule_text};

use elide_program::Paths;
use elide_setup::{Refusal, record};
use std::alloc::{AllocError, Global};
use tm_hist::Board;
use tm_model::Pick;

/// The schedule that comes about, and the path of the file that it is for, where there is one. Its memory is taken
/// before the first step.
#[derive(Drop)]
pub struct Record<'a> {
    path: Option<&'a str>,
    picks: Vec<Pick>,
}

impl<'a> Record<'a> {
    /// Room for all the steps that a board can make, where there is a path.
    pub fn reserve(
        alloc: Global,
        path: Option<&'a str>,
        board: &Board,
    ) -> Result<Record<'a>, AllocError>
        ensures path { IfOk result (λ room. room.path ≡ path.entry) }
        ensures none { IfOk result (λ room. room.picks.items ≡ []) }
    {
        let most = if path.is_some() { board.limit() } else { 0 };
        let picks = Vec::with_capacity(alloc, most as usize)?;
        Ok(Record { path, picks })
    }

    /// Writes the schedule of a board's steps, where there is a path: a run of it makes them again.
    pub fn write<P: Paths>(mut self, board: &Board, paths: &mut P) -> Result<(), Refusal>
        requires { self.picks.items ≡ [] }
        ensures failed { IfErr result (λ why. IsUnrecorded self.entry.path why ⊎ IsAnyWant why) }
        ensures written { OnOk result (IsRecorded (P.content paths.new) self.entry.path
            (schedule_text (picks_of board.now.history))) }
    {
        if self.path.is_none() {
            return Ok(());
        }
        board.history().fill(&mut self.picks)?;
        record(self.path, self.picks.as_slice(), paths)
    }
}
