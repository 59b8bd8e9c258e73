//! The law of the stores that are pending: the steps that are told as those that made them are those that did.
//!
//! A watch (`tm_why`) is told of each step of a run with what the machine said before it, and keeps of each core which
//! steps made its pending stores. The function here does nothing: its contract is the law that these are the stores of
//! the state that the rules lead to, each at its place in the queue. So the instruction that is told with the hit of a
//! drain is the one that stored what reached memory. Stands on `tm_why` and on the rules of `tm_model` alone.
#![tactic(auto)]

mod laws;

pub use laws::stores_stand;
