//! Schedules that nobody writes down: which core steps next, in turn or by chance, and under which event.
//!
//! A [`Picker`] picks one step after another: a core, among those that have not stopped ([`Going`]), and the event that
//! its step comes under, where it was put under [`Events`]. What it picks is a function of the numbers that it was made
//! from and of what it was told of the cores, so that a run by chance is the same on every machine. Its chance is
//! xoshiro256++ of the crate `rand_xoshiro`, seeded by SplitMix64; an [`Interferer`] draws the events from a generator
//! of their own, and [`Drains`] from one more which steps are drains, where stores may be pending. Takes no memory.
//!
//! Promised: a pick's core is one that has not stopped; where the cores go round by round it is the one whose turn it
//! is; its event is of the kinds that were asked for, and it has none where none were. Of the run of a number: by which
//! method its cores are drawn, and that they and its events are drawn from the generators of its seed and its number
//! (`specs/Begun.antt`); each core that is drawn, by chance, in bursts or where other cores see it, is the one that the
//! generator's next numbers say (`specs/Choices.antt`), and so is each event (`specs/Befalls.antt`) and each drain
//! (`specs/Drains.antt`). By priorities just
//! their order at first and where they fall is: at a PAUSE, where they were drawn to fall, and behind rows of steps
//! alone that are longer than twice the length of a run. Which steps no other core sees ([`is_unseen`]) is promised
//! nothing. Stands on `ia_image`, `tm_rule` and `tm_core` for the instruction that a core is at.
#![tactic(auto)]

mod bursts;
mod chance;
mod drains;
mod events;
mod front;
mod going;
mod interferer;
mod kinds;
mod lot;
mod manner;
mod method;
mod picker;
mod priorities;
mod rounds;
mod seen;
mod tail;
mod turn;
mod unseen;
mod waiting;

pub use drains::Drains;
pub use events::Events;
pub use going::Going;
pub use interferer::Interferer;
pub use kinds::Kinds;
pub use method::{Method, Plan};
pub use picker::Picker;
pub use unseen::is_unseen;
pub use waiting::is_waiting;
