//! The tests of one instruction, from the code range to a store into code, in the order of docs/MACHINE.md, "One step".
//!
//! `row` finds the instruction at EIP where it was decoded before, and `fetch` decodes it. `load_at` says what it
//! loads, and with these bytes `outside` and `inside` say what it comes to outside of transactions and inside, and
//! `outside_in` and `inside_in` the same with the registers in place: their contracts are the table of
//! `specs/Rule.antt`. `load_lying` and `outside_lying` are for a caller who asks first whether the load lies in memory,
//! and `fallback` is the address that an XBEGIN names. Takes no memory. Stands on `ia_decode` (spellings), `ia_exec`
//! (results and flags, and by it `ia_addr`, addresses) and `tm_status`.
#![tactic(auto)]

mod kinds;
mod rule;

pub use kinds::{Code, Inside, InsideResult, Outside, OutsideResult, Stop};
pub use rule::{
    fallback, fetch, inside, inside_in, load_at, load_lying, outside, outside_in, outside_lying,
    row,
};
