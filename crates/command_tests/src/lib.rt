//! Tests of the crates of commands and of pictures by their public calls.
//!
//! They are what no command shows: a board's machine beside serial runs of other boards, since in a command both are of
//! one history, and texts beside refusals that no worked row has. A picture (`tm_timeline`) is read by a small reader
//! of XML, which knows nothing of how pictures are written; what is counted in it is known from the run that was told.
//! They stand here, and not in `elide_replay`, `elide_advice` and `tm_timeline`, so that each of those is proved once.
//! Nothing is promised here.
#![tactic(auto)]

#[cfg(test)]
mod advice;
#[cfg(test)]
mod agreement;
pub mod markup;
#[cfg(test)]
mod pictures;
