//! `elide stats`, and `--stats` of `elide threads`.
//!
//! Promised of `stats`: the steps that are made are those of FILE's program by the options, along their schedule, and
//! the file of `--record` is left with the schedule of these steps (`elide_setup`, `specs/Made.antt`); and it is
//! refused for the reason that it names alone (`specs/Refused.antt`). Promised of both: each step of the schedule, or
//! of the board's history, is made and told to the counts, in order and none besides, with its core, its outcome, and
//! the place, the cause and the lines that the machine showed before it; what is printed is made of such counts of
//! that run alone (`specs/Counted.antt`): a report has a row for each count, in their order (`specs/Rows.antt`), and
//! in columns each number stands behind its own name (`specs/Columns.antt`). What a schedule comes to, why a
//! transaction aborts and whom a step hits is proved of `tm_core`, and that counts are those of the steps that were
//! told of `tm_stats`. That the hits told are those of the steps, the sums of steps, the sizes, what places and causes
//! are called, and the JSON are compared by `doc_tests`.
//!
//! Steps are made and counted first, then the counts are sorted, then the report is made of them and printed; the
//! report makes no step. Stands on `elide_setup`, `tm_core` and `tm_stats`, on `tm_stores` for the stores that are
//! pending, on `tm_hist` for histories, on `elide_program` for the symbols of a program and on `elide_places` for how
//! they are shown.
#![tactic(auto)]

mod asked;
mod columns;
mod command;
mod counting;
mod hits;
mod json;
mod labels;
mod report;
mod told;

pub use columns::put_columns;
pub use command::stats;
pub use json::json_line;
pub use labels::Labels;
pub use report::Report;
pub use told::tell_counts;
