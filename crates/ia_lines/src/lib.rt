//! Line numbers of an executable: which line of which source file an address comes from (DWARF version 4 and 5,
//! section 6.2, "Line Number Information").
//!
//! [`read_lines`] goes over the units of `.debug_line` in order: header, tables of files, line number program. It
//! refuses nothing: a unit that is damaged or of another version gives no lines, and the others stand. At one of 64
//! bits, or that goes past the section, reading ends.
//!
//! Promises that the row of an address is the first of the table that covers it (`specs/Table.antt`); that an opcode is
//! read, and does to the registers and the table, what the standard says (`specs/Opcodes.antt`, `specs/Machine.antt`);
//! that a program which is read to its end appends the rows of its run and no others; and that a table has no more rows
//! than `.debug_line` has bytes. Recursion goes ten deep at most, over the bytes of one number. Tested only: which
//! bytes are a unit's header and program, and which file a row names. Not done: standard opcodes above 12, which a
//! header may announce (such a unit gives no lines), columns, discriminators, and more than one operation an
//! instruction (VLIW). Stands on no other crate of the machine.
#![tactic(auto)]

mod cursor;
mod files;
mod header;
mod layout;
mod lines;
mod machine;
mod opcodes;
mod program;
mod read;

pub use lines::{Lines, Place, Row, UnitFiles};
pub use read::{Sections, read_lines};
