//! A target of gdb's remote serial protocol: a board of several cores that gdb looks at and moves.
//!
//! Promised, where the input tells its bytes: it is heard whole up to the packet that ends the session, and what is
//! written is what is to be done of each packet, one after another, with the board that they leave
//! (`specs/Serving.antt`, in the words of `Sessions` and `Answers`). A packet that steps one core steps no other; a
//! run makes the steps of the cores that go on, along the schedule or round by round, up to the first that tells
//! something: a core that stands at a breakpoint and was not told so before, other bytes at a watchpoint, a core that
//! stops by anything but HLT, or the end (`Moves`). Steps back undo steps of the history, the newest first (`Back`).
//! Not promised: the words of `monitor` and of descriptions.
//!
//! Stands on `tm_hist` (boards, and those of first steps), `gdb_target` (what is shown), `gdb_packet` (packets
//! and their commands), `tm_why` (why cores abort) and `tm_debug` (devices that are read).
#![tactic(auto)]

mod answer;
mod back;
mod monitor;
mod moves;
mod points;
mod run;
mod session;
mod stop;
mod target;
mod tell;
mod text;
mod turns;
mod why;

pub use session::serve;
