//! Reads the tables of an executable.

ghost use Rattle.std.specs.Prelude.{◌≡◌, ◌+◌, ◌<◌, ◌≤◌, IfOk, IfSome, length};

use crate::cursor::{block, word};
use crate::files::{Named, push_files_4, push_files_5};
use crate::header::{Header, header_in};
use crate::lines::{Lines, UnitFiles};
use crate::program::{Ended, run};
use std::alloc::{AllocError, Global};

/// The sections of an executable that have its lines; empty where it has none.
#[derive(Clone, Copy)]
pub struct Sections<'a> {
    /// `.debug_line`.
    pub lines: &'a [u8],
    /// `.debug_line_str`, which version 5 has names in.
    pub line_strings: &'a [u8],
    /// `.debug_str`, which it may have names in.
    pub strings: &'a [u8],
}

// The bytes of the unit in front, behind its length, and what stands behind it. `None` at the end, and where the length
// is of 64 bits or beyond the end.
fn unit_in(bytes: &[u8]) -> Option<(&[u8], &[u8])>
    ensures { IfSome result (λ x. length x.0.now + length x.1.now + 4 ≡ length bytes.now) }
{
    let (count, rest) = word(bytes)?;
    block(rest, count as usize)
}

// Appends the files of a unit.
fn push_files<'a>(
    alloc: Global,
    header: &Header<'a>,
    sections: &Sections<'a>,
    lines: &mut Lines,
) -> Result<Named, AllocError>
    ensures { lines.new.rows.items ≡ lines.old.rows.items }
{
    let start = lines.names.len();
    let (named, first) = if header.version == 5 {
        (
            push_files_5(alloc, header.tables, sections, &mut lines.names)?,
            0,
        )
    } else {
        (push_files_4(alloc, header.tables, &mut lines.names)?, 1)
    };
    let unit = UnitFiles {
        start,
        count: lines.names.len().saturating_sub(start),
        first,
    };
    lines.units.push(unit).map_err(|_| AllocError)?;
    Ok(named)
}

// Appends the rows of a unit, or none where it is damaged.
fn read_unit<'a>(
    alloc: Global,
    bytes: &'a [u8],
    sections: &Sections<'a>,
    lines: &mut Lines,
) -> Result<(), AllocError>
    ensures { length lines.new.rows.items ≤ length lines.old.rows.items + length bytes.now }
{
    let Some(header) = header_in(bytes, lines.units.len()) else {
        return Ok(());
    };
    if push_files(alloc, &header, sections, lines)? == Named::Damaged {
        return Ok(());
    }
    let start = lines.rows.len();
    if run(&header.layout, header.program, &mut lines.rows)? == Ended::Damaged {
        lines.rows.truncate(start);
    }
    Ok(())
}

/// Reads the tables of all units. Damaged units give no lines. Takes memory for at most one row (32 bytes) for a
/// byte of `.debug_line`, and for at most one name (of up to 255 bytes) for a byte of its headers; the work is in
/// proportion to the section's bytes, and for a path in another section to at most 4,096 more. [`AllocError`] where
/// there is no memory for them.
pub fn read_lines(alloc: Global, sections: &Sections<'_>) -> Result<Lines, AllocError>
    ensures few { IfOk result (λ lines. length lines.rows.items ≤ length sections.now.lines.now) }
{
    let mut lines = Lines::none(alloc);
    let mut rest = sections.lines;
    'units: while let Some((unit, behind)) = unit_in(rest) {
        read_unit(alloc, unit, sections, &mut lines)?;
        rest = behind;
    }
    Ok(lines)
}
