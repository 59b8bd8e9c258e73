//! The lines that open transactions have loaded from and stored to: their read sets and write sets.
//!
//! A line is 64 bytes of memory. What is kept is a set of triples of a core, a line and a kind, of which each core has
//! room for so many of each kind (SDM volume 1, chapter "Programming with Intel Transactional Synchronization
//! Extensions": read set and write set). `Sets` is what every representation answers, for up to 64 cores and 4,194,304
//! lines. `Directory` is one: entries in one row, each on the list of its core and on the list of its line. `PlainSets`
//! is the other: lists that are searched.
//!
//! Promised: `add` refuses a line exactly where its set has no room; `has`, `holds`, `others_on`, `writers_on`,
//! `count`, `room_for` and `listing` tell what the set of triples has, and `slot` the number of a line that a core has
//! written, which stays until that core is cleared; `is_same` tells whether a core has the same lines in two sets of
//! one representation, and `is_like` whether two were made alike; none of these changes the set. `clear` takes away one
//! core's triples alone, and `copy_core` puts those in their place that the core has in other sets made alike.
//!
//! It stands on no other crate of the machine.
#![tactic(auto)]

mod fault;
mod interface;
mod line_set;
mod plain;
mod row;
mod threaded;

pub use fault::{Full, NoMemory};
pub use interface::{Kind, Sets};
pub use plain::PlainSets;
pub use threaded::Directory;
