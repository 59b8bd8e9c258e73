//! Values of a machine: a register of a core, a doubleword of memory, or a number that is no machine's.
//!
//! [`Item::value`] sees nothing of an open transaction: the registers are those before it, and memory is without
//! its bytes. Where there is no such core or register, or not all four bytes, it is None, and what comes of that is
//! said in `clause`.

ghost use Rattle.std.specs.Prelude.{◌≡◌};
ghost use Rattle.tm_condition.specs.Conditions.{doubleword_of, seen_of, value_of};

use ia_word::Width;
use tm_core::Machine;
use tm_whole::memory::read;

/// A value of a machine.
#[derive(Clone, Copy, PartialEq, Eq, Debug)]
pub enum Item {
    /// A general register of a core, outside of transactions: the core's number, and the register's, 0 to 7.
    Register(u8, u8),
    /// The doubleword at this address, little-endian.
    Memory(u32),
    /// This number, of whatever machine.
    Number(u32),
}

impl Item {
    /// The value; none where there is no such core or register, or the doubleword is not in memory.
    pub fn value(self, machine: &Machine) -> Option<u32>
        ensures { result ≡ value_of (seen_of machine.now) self }
    {
        match self {
            Item::Register(core, register) => register_of(machine, core, register),
            Item::Memory(address) => doubleword_at(machine.view(), address),
            Item::Number(number) => Some(number),
        }
    }
}

// A register of a core.
fn register_of(machine: &Machine, core: u8, register: u8) -> Option<u32>
    ensures { result ≡ value_of (seen_of machine.now) (Item.Register core register) }
{
    if register >= 8 {
        return None;
    }
    match machine.base_regs(core) {
        Ok(regs) => Some(regs.get(register)),
        Err(_) => None,
    }
}

// The doubleword at an address.
fn doubleword_at(memory: &[u8], address: u32) -> Option<u32>
    ensures { result ≡ doubleword_of memory.now address }
{
    if address as usize + 4 > memory.len() {
        return None;
    }
    Some(read(memory, address, Width::D))
}
