//! What no row of `doc_tests` shows of a machine: whole transactions, sets of the caller's own, the calls of
//! `tm_quick`, store buffers, and what is refused. Code lies from 100h on, in a memory of 65,536 bytes.

mod alike;
mod both;
mod drawn;
mod in_place;
mod quick;
mod refusals;
mod stores;
mod whole;

use ia_image::{Program, load};
use std::alloc::Global;
use std::process::Abort;

fn program(rt: &impl Abort, alloc: Global, code: &[u8], entries: &[u32]) -> Program {
    let len = u32::try_from(code.len()).expect(rt, "length");
    load(alloc, code, 0x100, len, 0x10000, entries).expect(rt, "loads")
}
