//! The bytes that an open transaction has stored: a map from addresses to bytes, bounded by lines of 64 bytes.
//!
//! Stores of a transaction stay here until it commits, and its loads see them over memory (SDM volume 1, chapter
//! "Programming with Intel Transactional Synchronization Extensions": on a commit all stores become visible at once, on
//! an abort none). One place a line holds 64 bytes and a mask of those that are stored, and the line's slot, by which a
//! caller finds it without a search. So each call's work is bounded by the lines stored to, whatever the memory's size
//! and the room.
//!
//! Promised: what each call makes of the map of bytes, of the order of its lines and of their slots, and that a store
//! is refused exactly where there is no room for its lines. Stands on `ia_word`; takes memory only where a buffer is
//! made.
#![tactic(auto)]

mod copying;
mod fault;
mod same;
mod slots;
mod stored;

pub use fault::{Full, NoMemory};
pub use stored::Buffer;
