//! A machine with the history of its steps, the serial run of a history, and what is printed of a run.
//!
//! A `Board` keeps that its machine is the run of its history, whose outcomes are the owed ones (`Board::is_run`),
//! so each history replays: `serial_with` runs it on one flat memory, with a queue of the stores that are pending of
//! each core, and without buffers, sets or marks; it ends with the machine's memory, registers, stops and pending
//! stores, or names the first pair at which a list is no run. Where no store may be pending it is `serial`, which has
//! no queues. `Board::steps` makes several steps of one core, a transaction among them as a whole where it can;
//! `Board::step_under` makes one under an event from outside, `Board::step_by` the one that a pick tells of;
//! `Board::restart` takes a board back before its first step. `first_steps` makes the first steps of a board's
//! history once more, on a board of the same program and limits: as a board's machine is the run of its history, this
//! is the machine as it was behind these steps. State lines, the lines of pending stores, outcome lines and dumps are
//! those of docs/FORMATS.md; schedules are `tm_schedule`'s.
//!
//! Stands on `tm_core` (the machine), `tm_rule` (one instruction), `ia_image` (programs) and `text_out` (numbers,
//! writing).
#![tactic(auto)]

mod back;
mod board;
mod fences;
mod flat;
mod history;
mod history_memory;
mod lines;
mod one_memory;
mod pair;
mod queued;
mod replay;
mod seen;
mod serial_core;
mod step;
mod store_buffers;
mod usual;
mod whole;

pub use back::first_steps;
pub use board::{Board, BoardFault, MOST_STEPS, StepFault};
pub use history::{History, event_of};
pub use history_memory::HistoryMemory;
pub use lines::{
    depth_of, flag_bits, interference_name, interference_text, push_state, push_step, status_of,
    stop_name, stop_text, write_core, write_dump, write_outcome, write_pending, write_state,
};
pub use one_memory::serial;
pub use replay::{Serial, SerialFault};
pub use store_buffers::serial_with;
