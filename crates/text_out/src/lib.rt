//! Devices that texts go to, and rows of text in the making.
//!
//! Promises of each device that a call which fails has written a beginning of its text and counted the failure, and of
//! each word that adds to a row which bytes it adds and the most room that these take. `page` has the words for numbers
//! and bytes, `text_line` a line in the making. Stands on no crate; takes no memory but what a list of bytes grows by.
#![tactic(auto)]

mod out;
pub mod page;
pub mod text_line;

pub use out::{Failed, Out, ToVec, ToWriter, WriteFault};
