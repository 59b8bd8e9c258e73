//! Registers by the numbers that gdb knows them by, 0 to 37, in the order of the description.
//!
//! [`push_register`] adds one and [`push_registers`] all. What no core has, segments and x87, are so many `x` as it
//! has digits, since gdb wants a place for it; behind these stand those of a transaction. The values are gathered
//! in `shown`.

ghost use Rattle.std.specs.Prelude.{◌≡◌, ℕ, ◌+◌, ◌≤◌, ◌++◌};
ghost use Rattle.arrayvec.specs.ArrayVec.{array_vec_len};
ghost use Rattle.gdb_target.specs.Registers.{eflags, register_of, register_text, registers_text};
ghost use Rattle.gdb_target.specs.Registers.{state_number};
ghost use Rattle.gdb_target.specs.Registers.{tm_value};

use crate::shown::CoreShown;
use bitflags::Flags as _;
use gdb_packet::Bytes;
use ia_regs::Flags;
use text_out::page::{push, push_bytes};
use tm_hist::depth_of;
use tm_model::CoreState;

/// How many registers there are.
pub const REGISTERS: u8 = 38;

/// What a register holds.
#[derive(Clone, Copy, PartialEq, Eq, Debug)]
pub enum Register {
    /// This number, of 32 bits.
    Value(u32),
    /// Nothing, in so many bytes: no core has it.
    Missing(u8),
}

fn eflags(flags: Flags) -> u32
    ensures { result ≡ eflags flags }
{
    u32::from(flags.bits() | 2)
}

fn state_number(state: CoreState) -> u32
    ensures { result ≡ state_number state }
{
    match state {
        CoreState::Running | CoreState::Mid => 0,
        CoreState::Open(_) => 1,
        CoreState::Condemned(_) => 2,
        CoreState::Stopped(_) => 3,
    }
}

// The registers of the transaction.
fn tm_value(core: &CoreShown, number: u8) -> u32
    ensures { result ≡ tm_value core.now number }
{
    if number == 32 {
        state_number(core.state)
    } else if number == 33 {
        u32::from(depth_of(core.state))
    } else if number == 34 {
        core.status
    } else if number == 35 {
        core.reads
    } else if number == 36 {
        core.writes
    } else {
        core.step
    }
}

// The register of this number.
fn register_of(core: &CoreShown, number: u8) -> Register
    ensures register { result ≡ register_of core.now number }
    ensures short { (bytes : ℕ) → result ≡ Register.Missing bytes → bytes ≤ 10 }
{
    if number < 8 {
        Register::Value(core.regs.get(number))
    } else if number == 8 {
        Register::Value(core.regs.eip)
    } else if number == 9 {
        Register::Value(eflags(core.regs.flags))
    } else if number < 16 {
        Register::Missing(4)
    } else if number < 24 {
        Register::Missing(10)
    } else if number < 32 {
        Register::Missing(4)
    } else {
        Register::Value(tm_value(core, number))
    }
}

/// Adds what a core's register of this number, 0 to 37, holds: `p`.
pub fn push_register(row: &mut Bytes, core: &CoreShown, number: u8)
    requires { array_vec_len row.old + 20 ≤ 16384 }
    ensures text { row.new.items ≡ row.old.items ++ register_text (register_of core.now number) }
    ensures len { array_vec_len row.new ≤ array_vec_len row.old + 20 }
{
    match register_of(core, number) {
        Register::Value(value) => push_bytes(row, &value.to_le_bytes()),
        Register::Missing(bytes) => push(row, &[b'x'; 20][..2 * usize::from(bytes)]),
    }
}

/// Adds what all registers of a core hold: `g`.
pub fn push_registers(row: &mut Bytes, core: &CoreShown)
    requires { array_vec_len row.old + 760 ≤ 16384 }
    ensures text { row.new.items ≡ row.old.items ++ registers_text core.now }
    ensures len { array_vec_len row.new ≤ array_vec_len row.old + 760 }
{
    'registers: for number in 0..REGISTERS {
        push_register(row, core, number);
    }
}
