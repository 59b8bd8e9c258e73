//! Traces: what each step did, behind its outcome.
//!
//! A [`Deed`] is where a step's instruction stands, what it is, and what it loaded and stored. Promised: the address is
//! the one that the core showed before the step, the instruction what stands there in the program, and the numbers
//! those that the core saw at the bytes which the machine tells of the step (`specs/Deeds.antt`); and the line that
//! tells it (`specs/Lines.antt`). Takes no memory. Stands on `tm_hist` (the machine, and the words of outcomes) and on
//! `debug_command` (labels).
#![tactic(auto)]

mod deed;
mod line;

pub use deed::{Before, Datum, Deed};
pub use line::{write_deed, write_front, write_step, write_values};
