//! Tests of ledgers, desks and workers, by public calls alone, with real threads.
//!
//! They are what no clause says: that several threads work at once, and what a gate hears. They stand here, and not in
//! `tm_ledger` and `tm_work`, so that each of those is proved once. Nothing is promised here.
#![tactic(auto)]

#[cfg(test)]
mod drains;
#[cfg(test)]
mod ledgers;
#[cfg(test)]
mod workers;
