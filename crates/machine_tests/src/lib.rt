//! Tests of the machine, by public calls alone: over both representations of the sets, of transactions that are made at
//! once, by each call of `tm_quick`, of stores that are pending, and of cores that there are not.
//!
//! They are what neither a clause nor a row of `doc_tests` says. They stand here, and not in `tm_core` and `tm_quick`,
//! so that each of those is proved once. Nothing is promised here.
#![tactic(auto)]

#[cfg(test)]
mod machine;
