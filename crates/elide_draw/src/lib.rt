//! `elide draw`.
//!
//! Promised: the steps that are made are those of FILE's program by the options, along their schedule, and the file of
//! `--record` is left with the schedule of these steps (`elide_setup`, `specs/Made.antt`); a picture is told the steps
//! of such a run, each once and in order, and has a bar for each transaction that ends in a window which is drawn by
//! bars (`specs/Told.antt`); and that window is of the steps from `--from` to `--to` (`specs/Extents.antt`). What a
//! schedule comes to and whom a step hits is proved of `tm_core`, and what a picture shows of `tm_timeline`; that it is
//! told the hits and the variables, what is printed and what is refused is compared by `doc_tests`. Stands on
//! `elide_setup`, on `tm_timeline`, and on `elide_places` for the labels of lines.
#![tactic(auto)]

mod command;
mod course;
mod extent;
mod hits;
mod line_names;
mod rounds;
mod scene;
mod watch;

pub use command::draw;
