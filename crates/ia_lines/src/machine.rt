//! The state machine of a line number program (DWARF version 5, section 6.2.2).

ghost use Rattle.std.specs.Prelude.{◌≡◌};
ghost use Rattle.std.specs.Option.{option_to_list};
ghost use Rattle.ia_lines.specs.Machine.{after, initial, moved, plus, rows_of};

use crate::layout::Layout;
use crate::lines::Row;
use crate::opcodes::Opcode;

/// The registers that decide the rows which are kept.
#[derive(Clone, Copy)]
pub(crate) struct Registers {
    /// The address of an instruction.
    pub(crate) address: u32,
    /// The number of its file in the unit.
    pub(crate) file: u32,
    /// Its line, 0 for none.
    pub(crate) line: u32,
}

/// The registers at the start of each sequence.
pub(crate) fn initial() -> Registers
    ensures { result ≡ initial }
{
    Registers {
        address: 0,
        file: 1,
        line: 1,
    }
}

// The address moved on by so many instructions of the least length.
fn moved(layout: &Layout, registers: Registers, count: u32) -> u32
    ensures { result ≡ moved layout.now registers count }
{
    let bytes = u32::from(layout.least).wrapping_mul(count);
    registers.address.wrapping_add(bytes)
}

// What a special opcode makes of the registers.
#[tactic(auto, unfolding(crate::specs::Machine::after))]
fn special(layout: &Layout, number: u8, registers: Registers) -> Registers
    ensures { result ≡ after layout.now (Opcode.Special number) registers }
{
    let lines = layout
        .line_base
        .wrapping_add(u32::from(number % layout.line_range));
    Registers {
        address: moved(layout, registers, u32::from(number / layout.line_range)),
        file: registers.file,
        line: registers.line.wrapping_add(lines),
    }
}

// What DW_LNS_const_add_pc makes of the registers: the address of special opcode 255.
#[tactic(auto, unfolding(crate::specs::Machine::after))]
fn const_add_pc(layout: &Layout, registers: Registers) -> Registers
    ensures { result ≡ after layout.now Opcode.ConstAddPc registers }
{
    let count = u32::from((255 - layout.opcode_base) / layout.line_range);
    Registers {
        address: moved(layout, registers, count),
        file: registers.file,
        line: registers.line,
    }
}

/// The registers after an opcode.
#[tactic(auto, unfolding(crate::specs::Machine::after))]
pub(crate) fn after(layout: &Layout, opcode: Opcode, registers: Registers) -> Registers
    ensures { result ≡ after layout.now opcode registers }
{
    let Registers {
        address,
        file,
        line,
    } = registers;
    match opcode {
        Opcode::Special(number) => special(layout, number, registers),
        Opcode::Copy => registers,
        Opcode::AdvancePc(count) => Registers {
            address: moved(layout, registers, count),
            file,
            line,
        },
        Opcode::AdvanceLine(count) => Registers {
            address,
            file,
            line: line.wrapping_add(count),
        },
        Opcode::SetFile(file) => Registers {
            address,
            file,
            line,
        },
        Opcode::ConstAddPc => const_add_pc(layout, registers),
        Opcode::FixedAdvancePc(count) => Registers {
            address: address.wrapping_add(u32::from(count)),
            file,
            line,
        },
        Opcode::EndSequence => initial(),
        Opcode::SetAddress(address) => Registers {
            address,
            file,
            line,
        },
        Opcode::Other => registers,
    }
}

// A row with the values of the registers.
fn make_row(layout: &Layout, registers: Registers, ends: bool) -> Row
    ensures { result ≡ record {
      address = registers.address;
      unit = layout.now.unit;
      file = registers.file;
      line = registers.line;
      ends = ends;
    } }
{
    Row {
        address: registers.address,
        unit: layout.unit,
        file: registers.file,
        line: registers.line,
        ends,
    }
}

/// The row that an opcode appends, where it appends one.
#[tactic(auto, unfolding(crate::specs::Machine::rows_of))]
pub(crate) fn row_of(layout: &Layout, opcode: Opcode, registers: Registers) -> Option<Row>
    ensures { option_to_list result ≡ rows_of layout.now opcode registers }
{
    match opcode {
        Opcode::Special(number) => Some(make_row(
            layout,
            special(layout, number, registers),
            false,
        )),
        Opcode::Copy => Some(make_row(layout, registers, false)),
        Opcode::AdvancePc(_count) => None,
        Opcode::AdvanceLine(_count) => None,
        Opcode::SetFile(_file) => None,
        Opcode::ConstAddPc => None,
        Opcode::FixedAdvancePc(_count) => None,
        Opcode::EndSequence => Some(make_row(layout, registers, true)),
        Opcode::SetAddress(_address) => None,
        Opcode::Other => None,
    }
}
