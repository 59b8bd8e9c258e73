//! The steps of a run as deltas, of which a page is made that is stepped through.
//!
//! A [`PageDelta`] is what one step changes: of its core the outcome, the state, the registers and the lines that
//! joined its sets, the bytes that it stored or the store that is pending now, and whom it condemned. It is the
//! difference of what the machine shows before the step ([`Before`]) and behind it. Promised (`specs/Shows.antt`): what
//! a reader of the page does with a delta (`specs/Applied.antt`, in words) takes the page of the machine before the
//! step to that of the machine behind it, so that behind all steps of a run the page is what the machine shows; a core
//! sees its private bytes over its pending stores, and these over memory; and a delta names exactly the cores that its
//! step condemns. How a delta is written is `elide_page`'s. Stands on `tm_core` and, for what is asked before a step,
//! on `tm_why`.
#![tactic(auto)]

mod before;
mod bytes;
mod changes;
mod delta;
mod difference;
mod laws;
mod lines;

pub use before::Before;
pub use delta::{Changes, PageDelta, StoredByte};
pub use difference::delta_of;
pub use laws::{condemned_are_named, differences_are_deltas, private_bytes_are_seen, states_stand};
