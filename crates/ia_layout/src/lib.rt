//! Where the items of a source stand, and the bytes of each.
//!
//! A walk over the entries, some of them at a time, gives each its address, in the code or in the data (NASM manual,
//! chapter 7, ORG and SECTION); what `equ` and `resb` take is known from the `equ` symbols above (chapter 3, "Critical
//! Expressions"). Each place is handed to what takes it: one makes the symbols, and a later one may write the bytes. No
//! walk keeps the entries or the places.
//!
//! Promised: addresses, symbols and bytes are those of `specs/Placement`, exact however far an item lies.
//!
//! It stands on `ia_resolve` for values and instructions, and on `ia_encode` for their bytes.
#![tactic(auto)]

mod base;
mod bytes;
mod layout;
mod placer;
mod symbols;
mod taker;

pub use base::FirstOrg;
pub use bytes::{join, push_bytes, push_item, push_part};
pub use layout::{Layout, PlacedEntry, gap, tail_base};
pub use placer::Placer;
pub use taker::{Both, NoTaker, Taker};
