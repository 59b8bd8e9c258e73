//! Counts of a run: what its transactions came to, by the place of their XBEGIN.
//!
//! [`RunCounts`] is told each step of a run, and its counts are then those of `specs/Counts.antt`: functions of the
//! list of the steps that were told, the newest first. A row is kept for each place, each cause of an abort at a place
//! and each size of a transaction at a place, so memory goes with these and not with the steps. [`OpenBytes`] keeps the
//! bytes of a core's open transaction, and tells of a hit whether the two transactions met on a byte or only on a line
//! (`specs/OpenBytes.antt`). Stands on `tm_model`, whose outcomes it counts.
#![tactic(auto)]

mod cause;
mod conflicts;
mod counts;
mod open_bytes;
mod place_counts;
mod spread;
mod step;
mod tally;

pub use cause::AbortCause;
pub use conflicts::{Conflict, Conflicts};
pub use counts::RunCounts;
pub use open_bytes::{ByteStep, OpenBytes};
pub use place_counts::PlaceCounts;
pub use spread::{Spread, spread_from};
pub use step::{PlaceCause, PlaceSize, Step};
pub use tally::Tally;
