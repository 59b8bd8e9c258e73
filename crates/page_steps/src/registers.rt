//! Registers by their numbers: EAX, ECX, EDX, EBX, ESP, EBP, ESI, EDI, EIP and the flags, 0 to 9.
//!
//! [`register_values`] has all ten in this order, for a machine before a page's first step; [`changed_registers`]
//! those that a step changed, each behind its number. Both are rows of fixed room, which `numbers` writes.

ghost use Rattle.std.specs.Prelude.{◌≡◌, ◌+◌, ◌≤◌, ◌++◌, option_map};
ghost use Rattle.arrayvec.specs.ArrayVec.{array_vec_len};
ghost use Rattle.page_steps.specs.Registers.{changed_numbers, number_if, values_of};
ghost use Rattle.tm_hist.specs.Lines.{flag_sum};

use arrayvec::ArrayVec;
use ia_regs::{Flags, Regs};
use tm_hist::flag_bits;
use tm_page::Changes;

/// The values of the ten registers.
pub type RegisterRow = ArrayVec<u32, 10>;

/// Numbers of registers, each with its value.
pub type ChangeRow = ArrayVec<u32, 20>;

/// The values of a core's registers, by their numbers.
pub fn register_values(regs: &Regs) -> RegisterRow
    ensures { result.items ≡ values_of regs.now }
{
    let mut row = RegisterRow::new();
    row.push(regs.gpr[0]);
    row.push(regs.gpr[1]);
    row.push(regs.gpr[2]);
    row.push(regs.gpr[3]);
    row.push(regs.gpr[4]);
    row.push(regs.gpr[5]);
    row.push(regs.gpr[6]);
    row.push(regs.gpr[7]);
    row.push(regs.eip);
    row.push(u32::from(flag_bits(regs.flags)));
    row
}

/// The registers that changed, each number with its value.
pub fn changed_registers(changes: &Changes) -> ChangeRow
    ensures { result.items ≡ changed_numbers changes.now }
{
    let mut row = ChangeRow::new();
    push_changed(&mut row, 0, changes.gpr[0]);
    push_changed(&mut row, 1, changes.gpr[1]);
    push_changed(&mut row, 2, changes.gpr[2]);
    push_changed(&mut row, 3, changes.gpr[3]);
    push_changed(&mut row, 4, changes.gpr[4]);
    push_changed(&mut row, 5, changes.gpr[5]);
    push_changed(&mut row, 6, changes.gpr[6]);
    push_changed(&mut row, 7, changes.gpr[7]);
    push_changed(&mut row, 8, changes.eip);
    push_changed(&mut row, 9, flags_if(changes.flags));
    row
}

// Adds a register, where it changed.
fn push_changed(row: &mut ChangeRow, number: u32, value: Option<u32>)
    requires { array_vec_len row.old + 2 ≤ 20 }
    ensures text { row.new.items ≡ row.old.items ++ number_if number value }
    ensures len { array_vec_len row.new ≤ array_vec_len row.old + 2 }
{
    if let Some(value) = value {
        row.push(number);
        row.push(value);
    }
}

// The flags as a number, where they changed.
fn flags_if(flags: Option<Flags>) -> Option<u32>
    ensures { result ≡ option_map flag_sum flags }
{
    match flags {
        Some(flags) => Some(u32::from(flag_bits(flags))),
        None => None,
    }
}
