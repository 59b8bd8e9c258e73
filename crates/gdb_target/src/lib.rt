//! What a target of gdb's remote serial protocol shows of a board: registers, memory and cores.
//!
//! Promised: what is told of a register is what the core holds there, what is told of memory is what the core sees, and
//! what is told of a text is the part that is asked, each by the definitions in `specs/`. Stands on `tm_hist` (boards)
//! and on `gdb_packet` (rows of bytes); takes no memory.
#![tactic(auto)]

mod description;
mod memory;
mod part;
mod register;
mod shown;
mod status;
mod threads;

pub use description::push_description;
pub use memory::push_memory;
pub use part::push_part;
pub use register::{REGISTERS, Register, push_register, push_registers};
pub use shown::CoreShown;
pub use threads::{push_thread, push_thread_list, push_threads};
