//! The header of a unit (DWARF version 5, section 6.2.4; version 4, section 6.2.4).

ghost use Rattle.std.specs.Prelude.{◌≡◌, ◌+◌, ◌<◌, ◌≤◌, IfSome, length};

use crate::cursor::{block, byte, half, word};
use crate::layout::Layout;

/// A unit's header, with what stands behind it.
#[derive(Clone, Copy)]
pub(crate) struct Header<'a> {
    /// 4 or 5.
    pub(crate) version: u16,
    /// What it says of the program.
    pub(crate) layout: Layout,
    /// The bytes of its directories and files.
    pub(crate) tables: &'a [u8],
    /// The line number program.
    pub(crate) program: &'a [u8],
}

// The fields of a header behind its length, and the bytes of its tables.
fn layout_in(bytes: &[u8], unit: usize) -> Option<(Layout, &[u8])> {
    let (least, rest) = byte(bytes)?;
    let (_operations, rest) = byte(rest)?;
    let (_is_statement, rest) = byte(rest)?;
    let (line_base, rest) = byte(rest)?;
    let (line_range, rest) = byte(rest)?;
    let (opcode_base, rest) = byte(rest)?;
    if line_range == 0 || opcode_base == 0 {
        return None;
    }
    let (_lengths, tables) = block(rest, usize::from(opcode_base - 1))?;
    let layout = Layout {
        unit,
        least,
        line_base: extended(line_base),
        line_range,
        opcode_base,
    };
    Some((layout, tables))
}

// A signed byte, extended to 32 bits.
fn extended(byte: u8) -> u32 {
    if byte < 128 {
        u32::from(byte)
    } else {
        u32::from(byte) + 0xffff_ff00
    }
}

// The bytes behind the sizes of an address and of a segment's selector, which version 5 has.
fn behind_sizes(version: u16, bytes: &[u8]) -> Option<&[u8]>
    ensures { IfSome result (λ rest. length rest.now ≤ length bytes.now) }
{
    match version {
        4 => Some(bytes),
        5 => {
            let (_sizes, rest) = block(bytes, 2)?;
            Some(rest)
        }
        _ => None,
    }
}

/// The header of a unit of these bytes, of this number; `None` where it is damaged or of another version.
pub(crate) fn header_in(bytes: &[u8], unit: usize) -> Option<Header<'_>>
    ensures { IfSome result (λ h. length h.program.now ≤ length bytes.now) }
{
    let (version, rest) = half(bytes)?;
    let rest = behind_sizes(version, rest)?;
    let (count, rest) = word(rest)?;
    let (head, program) = block(rest, count as usize)?;
    let (layout, tables) = layout_in(head, unit)?;
    Some(Header {
        version,
        layout,
        tables,
        program,
    })
}
