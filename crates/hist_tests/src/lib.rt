//! Tests of boards and their beginnings, of the texts of histories, of serial runs with store buffers, and of want of
//! memory, by public calls alone.
//!
//! They are what neither a clause nor a row of `doc_tests` says: what stands after a refusal, texts with numbers that
//! no command has, and public calls that none makes. They stand here, and not in `tm_hist`, so that it is proved once.
//! Nothing is promised here.
#![tactic(auto)]

#[cfg(test)]
mod beginnings;
#[cfg(test)]
mod boards;
#[cfg(test)]
mod increment;
#[cfg(test)]
mod memory;
#[cfg(test)]
mod schedules;
#[cfg(test)]
mod store_buffers;
#[cfg(test)]
mod texts;
