//! Sessions: `elide debug`, `elide gdb`, and what both begin with: a board, the schedule that a session goes along, and
//! the program's symbols.
//!
//! Promised of what they begin with ([`opened`]): the board is that of the options and of the program in FILE before
//! its first step, with room for 1,000,000 steps; the plan is the schedule that the options ask for, in the words of
//! `elide_setup`, where it is drawn that of a run of the program to its end, its limit or 1,000,001 steps, and there is
//! none where they ask for none; each name stands for what it stands for in that program; that a session is not opened
//! for the reason that it names alone (`specs/Refused.antt`); and the number of the fault that ends a session early.
//! Which cores a seed draws, and which labels a program has, is compared by `doc_tests`.
//!
//! Then the input is served. What [`debug`] writes are the answers of a session (`tm_debug`) to it: spoken where input
//! and output are a terminal's, and plain else. It is refused, or ends early, for the reason that it names alone
//! (`specs/DebugRefused.antt`). What [`gdb`] writes is what is to be done of the packets of the input (`tm_gdb`); a
//! continued run of all cores goes along the schedule, where one is asked for. No board is handed on, and nothing is
//! written to a file. Stored sessions with gdb are compared by `doc_tests`; why `gdb` is refused is not promised.
//!
//! Stands on `elide_setup` and, for sessions, on `tm_debug` and `tm_gdb`.
#![tactic(auto)]

mod debugger;
mod gdb_server;
mod opening;

pub use debugger::debug;
pub use gdb_server::gdb;
pub use opening::{Opening, is_scheduled, opened, session_fault};
