//! A ledger that lies under a lock, and outside the lock a token for each of its lines.
//!
//! A line of the ledger says how far a worker has come, its progress, and the worker's token says the same. Promised:
//! the progress that a token carries is the one in its line of the ledger, and it changes only with the token. So
//! whoever holds a token knows its line, whatever other threads wrote into the other lines meanwhile. Only
//! `UnnamedLedger::new` takes memory, and nothing waits. Tokens and their ledger belong together by a type parameter,
//! the ledger's identity.
//!
//! It stands on `atomic_table`, a table of shared words whose steps keep a rule, and on no other crate of the machine.
#![tactic(auto)]

mod ledger;
mod rule;

pub use ledger::{Ledger, LedgerIdentity, Token, UnnamedLedger};
