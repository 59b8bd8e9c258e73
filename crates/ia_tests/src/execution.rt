//! Instructions one by one: what the manual says of registers, memory, the stack, jumps and transactions.

mod rows;
mod rows_table;

use bitflags::Flags as _;
use ia_exec::{Exception, each_outcome_is_lawful, loaded_counts_only_where_there_is_a_load};
use ia_regs::Flags;
use std::alloc::AllocError;

// Flags by their sum.
fn flags(sum: u16) -> Flags {
    Flags::from_bits_retain(sum)
}

#[test]
fn instructions_come_to_what_the_manual_says(rt: HostRuntime) {
    for table in rows_table::TABLES {
        for row in table.lines() {
            assert!(rt; rows::row_agrees(rt.alloc(), row), "{row}");
        }
    }
}

#[test]
fn exceptions_have_vectors_and_names(rt: HostRuntime) -> Result<(), AllocError> {
    assert_eq!(rt; Exception::Divide.vector(), 0);
    assert_eq!(rt; Exception::Breakpoint.vector(), 3);
    assert_eq!(rt; Exception::Undefined.vector(), 6);
    assert_eq!(rt; Exception::Protection.vector(), 13);
    let name = format!(in rt.alloc(); "{}", Exception::Protection)?;
    assert_eq!(rt; name.as_str(), "Protection");
    each_outcome_is_lawful();
    loaded_counts_only_where_there_is_a_load();
    Ok(())
}
