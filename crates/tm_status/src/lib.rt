//! Why a transaction aborts, and the status that EAX then holds.
//!
//! The status is the one of the SDM, volume 1, section 16.3.5 "RTM Abort Status Definition" (table 16-1). Which of its
//! bits each cause sets is fixed here, where the manual leaves it to the processor. Takes no memory.
#![tactic(auto)]

mod cause;
mod word;

pub use cause::{Cause, Causes};
pub use word::{causes, status};
