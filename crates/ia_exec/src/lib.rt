//! The instruction table: what each instruction does to registers and memory.
//!
//! `specs/Table.antt` has one row a shape of instructions, and one a mnemonic where instructions of one shape differ in
//! their kind, to be laid beside its page in Intel's SDM, volume 2. The table is decided by the instruction and its
//! length, the registers, what was loaded and the depth of transactions. It loads and stores nothing itself: `load_of`
//! says what is to be loaded, and `Finished` what is to be stored. Two laws hold of every row: faults and halts come
//! only outside of transactions, ends and aborts only inside, and what is given as loaded counts only where the
//! instruction loads. Stands on `ia_alu`, `ia_addr` and `ia_insn`; takes no memory.
#![tactic(auto)]

mod arithmetic;
mod bare;
mod control;
mod done;
mod laws;
mod moves;
mod operand;
mod table;
mod unary;

pub use done::{AbortKind, Done, Exception, Finished, Store};
pub use laws::{each_outcome_is_lawful, loaded_counts_only_where_there_is_a_load};
pub use table::{fallback, finish, finish_in};
