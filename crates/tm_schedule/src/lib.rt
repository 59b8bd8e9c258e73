//! Schedules: lists of steps as text, read and written.
//!
//! Promises that the list which is read is the one that docs/FORMATS.md states for the text, or the first fault of the
//! text with its line; and that a schedule which is written reads as the steps that it was written from, a list or
//! steps that came one by one. Stands on `ia_lex` (lines), `text_out` (writing) and `tm_model` (what a step of a
//! schedule is); takes no memory but what a list of steps that is read grows by.
#![tactic(auto)]

mod pieces;
mod schedule;

pub use schedule::{
    ScheduleFault, ScheduleWriter, pick_of_word, read_schedule, read_steps, write_drawn,
    write_schedule,
};
