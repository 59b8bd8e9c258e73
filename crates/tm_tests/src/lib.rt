//! Tests of the parts of a transaction, and of machines with any bytes as code, by public calls alone.
//!
//! They are what neither a clause nor a row of `doc_tests` says. They stand here, and not in `tm_status`, `tm_sets`,
//! `tm_buffer` and `tm_core`, so that each of those is proved once. Nothing is promised here.
#![tactic(auto)]

#[cfg(test)]
mod buffers;
#[cfg(test)]
mod hostile;
#[cfg(test)]
mod sets;
#[cfg(test)]
mod slots;
#[cfg(test)]
mod statuses;
