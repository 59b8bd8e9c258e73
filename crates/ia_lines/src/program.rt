//! The run of a line number program.

ghost use Rattle.std.specs.Prelude.{◌≡◌, ◌+◌, ◌≤◌, ◌++◌, List, IfOk, OnOk, length};
ghost use Rattle.std.specs.Option.{option_to_list};
ghost use Rattle.ia_lines.specs.Machine.{Runs, initial};
ghost use Rattle.ia_lines.specs.declared.lines.Row.{Row};

use crate::layout::Layout;
use crate::lines::Row;
use crate::machine::{after, initial, row_of};
use crate::opcodes::next_opcode;
use std::alloc::AllocError;

/// Whether a program was read to its end.
#[derive(Clone, Copy, PartialEq, Eq, Debug)]
pub(crate) enum Ended {
    Whole,
    /// An opcode breaks the form.
    Damaged,
}

// Appends a row, where there is one.
fn push_row(rows: &mut Vec<Row>, row: Option<Row>) -> Result<(), AllocError>
    ensures ok { OnOk result (rows.new.items ≡ rows.old.items ++ option_to_list row) }
    ensures few { length rows.new.items ≤ length rows.old.items + 1 }
{
    match row {
        Some(row) => rows.push(row).map_err(|_| AllocError),
        None => Ok(()),
    }
}

/// Appends the rows of a program, one for a byte of it at most. Where it is damaged, those up to the damage.
pub(crate) fn run(layout: &Layout, program: &[u8], rows: &mut Vec<Row>) -> Result<Ended, AllocError>
    ensures runs { IfOk result
        (λ ended. ended ≡ Ended.Whole → (new : List Row) × Runs layout.now initial program.now new
        × (rows.new.items ≡ rows.old.items ++ new)) }
    ensures few { length rows.new.items ≤ length rows.old.items + length program.now }
{
    let mut rest = program;
    let mut registers = initial();
    'opcodes: while !rest.is_empty() {
        let Some((found, behind)) = next_opcode(layout.opcode_base, rest) else {
            return Ok(Ended::Damaged);
        };
        push_row(rows, row_of(layout, found, registers))?;
        registers = after(layout, found, registers);
        rest = behind;
    }
    Ok(Ended::Whole)
}
