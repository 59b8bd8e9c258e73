//! What a line number program needs to know of its unit (DWARF version 5, section 6.2.4).

ghost use Rattle.std.specs.Prelude.{◌<◌};

/// What a unit's header says of its program.
#[derive(Clone, Copy)]
pub(crate) struct Layout {
    /// The unit's number, for its rows.
    pub(crate) unit: usize,
    /// How many bytes the shortest instruction has: 1 on IA-32.
    pub(crate) least: u8,
    /// The least advance of the line by a special opcode, modulo 2^32, and how many advances there are.
    pub(crate) line_base: u32,
    pub(crate) line_range: u8,
    /// The number of the first special opcode.
    pub(crate) opcode_base: u8,
    ghost ranged: { 0 < line_range },
}
