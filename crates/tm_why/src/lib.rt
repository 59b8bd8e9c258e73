//! Why transactions abort: who hit them, on which line, and when they began.
//!
//! An [`Asked`] is what a machine says of a core's next step before it is made: whom it hits, and why it is an abort,
//! if it is one. Where an abort from outside of the program comes in its place, the outcome tells so, and its hits are
//! none; where a store reaches memory in its place, they are those of the store. A [`Watch`] is told of each step of a
//! run, and keeps of each core at which step its open transaction began, and the hit that condemned it; and which steps
//! made the stores that are pending (`tm_stores`), so that a hit by a drain is told with the one that stored. Promised:
//! what is kept is what `specs/Watched.antt` says of the list of steps, and the reason of an abort is the machine's,
//! with these beside it. No step takes memory.
//!
//! Behind the history of a board, `watched` gives a watch that was told of each step of the history with what the
//! machine said before it, which is made once more on a board of its own; `reason_of` gives the reason behind these
//! steps; and `write_reason` writes the line that tells it. The given board is not stepped.
//!
//! Stands on `tm_core` (the machine), `tm_hist` (boards), `tm_stores` and `text_out` (numbers, writing).
#![tactic(auto)]

mod asked;
mod history;
mod laws;
mod line;
mod reason;
mod row;
mod watch;

pub use asked::Asked;
pub use history::{reason_of, watched};
pub use laws::hits_stand;
pub use line::{hit_word, push_begun, push_stored, use_word, write_reason};
pub use reason::Reason;
pub use row::{StandingHit, Watched};
pub use watch::Watch;
