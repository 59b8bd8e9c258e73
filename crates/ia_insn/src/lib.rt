//! Instructions of the subset of IA-32, and the bytes that spell them.
//!
//! `specs/Table.antt` is the table to lay beside the opcode pages of Intel's SDM, volume 2: one row an opcode.
//! `specs/Spelling.antt` says when bytes spell an instruction, `specs/Reading.antt` what reading bytes from left to
//! right gives, `specs/Encoding.antt` which instructions have a spelling and which one is written,
//! `specs/Arguments.antt` what an instruction's operands are and what is done to each, and `specs/Operations.antt` what
//! sets apart the operations that share a shape: number, name, and what they do to their operands.
//!
//! Promises that no spelling begins another or spells two instructions, that each row of the opcode maps is reached,
//! that an instruction is encodable exactly where some bytes spell it, and that its operands alone decide that. Stands
//! on `ia_word`; takes no memory.
#![tactic(auto)]

mod argument;
mod encodable;
mod fault;
mod kinds;
mod laws;
mod lockable;
mod mnemonic;
mod op;
mod operand;
mod operations;

pub use argument::{Argument, Arguments, Role};
pub use encodable::{is_encodable, is_signed_byte};
pub use fault::DecodeFault;
pub use kinds::Count;
pub use laws::{
    distances_count_from_the_end, encodable_by_operands, no_spelling_begins_another,
    one_instruction, rows_are_reached,
};
pub use lockable::is_lockable;
pub use mnemonic::Mnemonic;
pub use op::{Insn, Op};
pub use operand::{Mem, Operand};
pub use operations::{
    alu_number, bare_bytes, bit_number, condition_name, conditions, exchange_opcode, extend_opcode,
    inc_dec_number, loop_opcode, other_conditions, shift_number, unary_number,
};
