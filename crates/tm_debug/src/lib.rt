//! A debugger: a session of commands over a board, and the devices that commands are read from.
//!
//! Promised: where the input tells its bytes, what `serve` writes is the answer to each line up to `quit` or the
//! input's end, and the board that comes back has made the steps that these answers tell. Where the input fails, or
//! memory is wanting, the answers to the lines before stand whole; where the output fails, at most a rest of the last
//! answer is missing, of a run a rest of its last line. The fault gives the board back, after the steps that the
//! answers tell. It waits for its input only. The line of each step of a spoken session goes on with what the step did.
//!
//! It stands on `debug_command` (commands, as lines write them), `tm_hist` (boards, steps that are taken back, and the
//! texts of outcomes, states and dumps), `tm_why` (why a core aborts), `tm_trace` (what a step did), `ia_text`
//! (listings, and devices that are written to) and `ia_lex` (lines).
#![tactic(auto)]

mod answer;
mod back;
mod help;
mod input;
mod interruption;
mod line;
mod pending;
mod prompt;
mod run;
mod session;
mod sets;
mod state;
mod told;
mod why;

pub use back::next_behind;
pub use input::{FromReader, In};
pub use session::{Session, SessionFault, serve, serve_in};
pub use state::{MOST_BREAKPOINTS, is_stopped};
