//! The objects that `--json` prints of `run`, `replay` and `threads` (docs/JSON.md): the state of a machine, what is
//! asked for of its memory, and the outcomes of a run's steps, which are written as they are made.
//!
//! [`put_replay`] and [`put_threads`] write an object each. That of a run is
//! written in parts: [`put_front`], an outcome after another by [`put_outcome`], and [`put_back`]. Promised: what is
//! written is the text of the value that `specs/Objects.antt` has for this machine, these parts of its memory and these
//! steps, on a line of its own; none is refused but where the memory does not have what is asked for of it, memory is
//! wanting or the device fails (`specs/Refused.antt`). Stands on `elide_object` for the text of an object, and on
//! `elide_setup`.
#![tactic(auto)]

mod cores;
mod memory;
mod objects;
mod outcomes;
mod text;
mod words;

pub use objects::{Subject, put_back, put_replay, put_threads};
pub use outcomes::{put_front, put_outcome};
