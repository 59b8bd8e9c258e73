//! The names of a source, each by a number.
//!
//! A local label's whole name is the label before it and its own behind that (NASM manual, "Local Labels"), so a source
//! of a few letters a line can have whole names that are long. `Names` keeps them as a tree: a name is the number of
//! the name before its last dot, and what stands from that dot on. So a name costs what is written of it, however long
//! the label that it belongs to is.
//!
//! Promised by `Names::symbol`: the symbol of a whole name, which no other name has, and which stays as more names
//! come.
//!
//! It stands on `ia_item` for symbols and names.
#![tactic(auto)]

mod cut;
mod names;
mod naming;
mod node;
mod numbering;

pub use cut::is_local;
pub use names::Names;
