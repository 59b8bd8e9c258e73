//! The tables of directories and files in a header (DWARF version 4, section 6.2.4, and version 5, section 6.2.4.1).

ghost use Rattle.std.specs.Prelude.{◌≡◌, ◌+◌, ◌<◌, ◌≤◌, IfOk, IfSome, length};

use crate::cursor::{block, byte, text, unsigned, word};
use crate::read::Sections;
use std::alloc::{AllocError, Global};

/// What an entry's part says: its path.
const DW_LNCT_PATH: u32 = 1;

/// The most bytes of a name that stands in a section of strings: a longer one is none.
const MOST_NAME: usize = 4096;

/// The most bytes of a file's name without its directories.
const MOST_BASE: usize = 255;

// The first bytes, this many at most.
fn front(bytes: &[u8], most: usize) -> &[u8] {
    if bytes.len() > most {
        &bytes[..most]
    } else {
        bytes
    }
}

// The text at a place of a section of strings; nothing where it doesn't end in time.
fn string_at(strings: &[u8], place: u32) -> &[u8] {
    let place = place as usize;
    if place >= strings.len() {
        return &[];
    }
    match text(front(&strings[place..], MOST_NAME)) {
        Some((name, _behind)) => name,
        None => &[],
    }
}

// Nothing for a name, and what stands behind so many bytes.
fn skipped(bytes: &[u8], count: usize) -> Option<(&[u8], &[u8])>
    requires { 1 ≤ count }
    ensures { IfSome result (λ x. length x.1.now + 1 ≤ length bytes.now) }
{
    let (_front, rest) = block(bytes, count)?;
    Some((&[], rest))
}

// The text at the place that stands in front.
fn string_of<'a>(strings: &'a [u8], bytes: &'a [u8]) -> Option<(&'a [u8], &'a [u8])>
    ensures { IfSome result (λ x. length x.1.now + 1 ≤ length bytes.now) }
{
    let (place, rest) = word(bytes)?;
    Some((string_at(strings, place), rest))
}

// A block with its length in front.
fn sized_block(bytes: &[u8]) -> Option<(&[u8], &[u8])>
    ensures { IfSome result (λ x. length x.1.now + 1 ≤ length bytes.now) }
{
    let (count, rest) = unsigned(bytes)?;
    let (_front, rest) = block(rest, count as usize)?;
    Some((&[], rest))
}

// A value of this form (DWARF version 5, section 7.5.6): its text, nothing for what is none, and the bytes behind it.
fn value<'a>(form: u32, bytes: &'a [u8], sections: &Sections<'a>) -> Option<(&'a [u8], &'a [u8])>
    ensures { IfSome result (λ x. length x.1.now + 1 ≤ length bytes.now) }
{
    match form {
        0x05 => skipped(bytes, 2),
        0x06 => skipped(bytes, 4),
        0x07 => skipped(bytes, 8),
        0x08 => text(bytes),
        0x09 => sized_block(bytes),
        0x0b => skipped(bytes, 1),
        0x0e => string_of(sections.strings, bytes),
        0x0f => {
            let (_number, rest) = unsigned(bytes)?;
            Some((&[], rest))
        }
        0x1e => skipped(bytes, 16),
        0x1f => string_of(sections.line_strings, bytes),
        _ => None,
    }
}

// The parts that each entry of a table has: kind and form, so often.
#[derive(Clone, Copy)]
struct Parts<'a> {
    count: u8,
    bytes: &'a [u8],
}

// The parts in front, and what stands behind them.
fn parts_in(bytes: &[u8]) -> Option<(Parts<'_>, &[u8])>
    ensures { IfSome result (λ x. length x.1.now ≤ length bytes.now) }
{
    let (count, start) = byte(bytes)?;
    let mut rest = start;
    'parts: for _ in 0..count {
        let (_kind, behind) = unsigned(rest)?;
        let (_form, behind) = unsigned(behind)?;
        rest = behind;
    }
    let parts = Parts {
        count,
        bytes: start,
    };
    Some((parts, rest))
}

// An entry of these parts: its path, and what stands behind it. An entry of no bytes is damaged.
fn entry<'a>(
    parts: Parts<'a>,
    bytes: &'a [u8],
    sections: &Sections<'a>,
) -> Option<(&'a [u8], &'a [u8])>
    ensures { IfSome result (λ x. length x.1.now + 1 ≤ length bytes.now) }
{
    let mut kinds = parts.bytes;
    let mut rest = bytes;
    let mut path: &'a [u8] = &[];
    'parts: for _ in 0..parts.count {
        let (kind, behind) = unsigned(kinds)?;
        let (form, behind) = unsigned(behind)?;
        kinds = behind;
        let (text, behind) = value(form, rest, sections)?;
        rest = behind;
        if kind == DW_LNCT_PATH {
            path = text;
        }
    }
    if rest.len() < bytes.len() {
        Some((path, rest))
    } else {
        None
    }
}

// What stands behind a table of version 5.
fn behind_table<'a>(bytes: &'a [u8], sections: &Sections<'a>) -> Option<&'a [u8]>
    ensures { IfSome result (λ rest. length rest.now ≤ length bytes.now) }
{
    let (parts, rest) = parts_in(bytes)?;
    let (count, rest) = unsigned(rest)?;
    let mut rest = rest;
    'entries: for _ in 0..count {
        let (_path, behind) = entry(parts, rest, sections)?;
        rest = behind;
    }
    Some(rest)
}

// What stands behind the last slash of a path; nothing of one that is longer than the name of a file can be.
fn base_name(path: &[u8]) -> &[u8]
    ensures { length result.now ≤ 255 }
{
    let name = behind_slash(path);
    if name.len() > MOST_BASE { &[] } else { name }
}

fn behind_slash(path: &[u8]) -> &[u8] {
    let mut start = 0;
    'bytes: for (place, byte) in path.iter().enumerate() {
        if *byte == b'/' {
            start = place + 1;
        }
    }
    &path[start..]
}

// Appends the last part of a path.
fn push_name(alloc: Global, path: &[u8], names: &mut Vec<Vec<u8>>) -> Result<(), AllocError>
    ensures { length names.new.items ≤ length names.old.items + 1 }
{
    let name = Vec::from_slice(alloc, base_name(path))?;
    names.push(name).map_err(|_| AllocError)
}

/// The names of a unit's files were appended, all of them or not.
#[derive(Clone, Copy, PartialEq, Eq, Debug)]
pub(crate) enum Named {
    All,
    /// The tables are damaged.
    Damaged,
}

// Appends the paths of so many entries.
fn push_entries<'a>(
    alloc: Global,
    count: u32,
    parts: Parts<'a>,
    bytes: &'a [u8],
    sections: &Sections<'a>,
    names: &mut Vec<Vec<u8>>,
) -> Result<Named, AllocError>
    ensures { length names.new.items ≤ length names.old.items + length bytes.now }
{
    let mut rest = bytes;
    'entries: for _ in 0..count {
        let Some((path, behind)) = entry(parts, rest, sections) else {
            return Ok(Named::Damaged);
        };
        push_name(alloc, path, names)?;
        rest = behind;
    }
    Ok(Named::All)
}

// The parts of the files of version 5, how many there are, and the bytes of their entries.
fn file_entries<'a>(bytes: &'a [u8], sections: &Sections<'a>) -> Option<(Parts<'a>, u32, &'a [u8])>
    ensures { IfSome result (λ x. length x.2.now ≤ length bytes.now) }
{
    let rest = behind_table(bytes, sections)?;
    let (parts, rest) = parts_in(rest)?;
    let (count, rest) = unsigned(rest)?;
    Some((parts, count, rest))
}

/// Appends the names of the files in the tables of version 5.
pub(crate) fn push_files_5<'a>(
    alloc: Global,
    bytes: &'a [u8],
    sections: &Sections<'a>,
    names: &mut Vec<Vec<u8>>,
) -> Result<Named, AllocError>
    ensures { length names.new.items ≤ length names.old.items + length bytes.now }
{
    match file_entries(bytes, sections) {
        Some((parts, count, rest)) => push_entries(alloc, count, parts, rest, sections, names),
        None => Ok(Named::Damaged),
    }
}

// What stands behind the directories of version 4: texts, and an empty one.
fn behind_directories(bytes: &[u8]) -> Option<&[u8]>
    ensures { IfSome result (λ rest. length rest.now ≤ length bytes.now) }
{
    let mut rest = bytes;
    'texts: loop {
        let (name, behind) = text(rest)?;
        rest = behind;
        if name.is_empty() {
            return Some(rest);
        }
    }
}

// A file of version 4: its name, and what stands behind its directory, time and size.
fn file_4(bytes: &[u8]) -> Option<(&[u8], &[u8])>
    ensures { IfSome result (λ x. length x.1.now + 1 ≤ length bytes.now) }
{
    let (name, rest) = text(bytes)?;
    if name.is_empty() {
        return Some((name, rest));
    }
    let (_directory, rest) = unsigned(rest)?;
    let (_time, rest) = unsigned(rest)?;
    let (_size, rest) = unsigned(rest)?;
    Some((name, rest))
}

/// Appends the names of the files in the tables of version 4.
pub(crate) fn push_files_4(
    alloc: Global,
    bytes: &[u8],
    names: &mut Vec<Vec<u8>>,
) -> Result<Named, AllocError>
    ensures { length names.new.items ≤ length names.old.items + length bytes.now }
{
    let Some(start) = behind_directories(bytes) else {
        return Ok(Named::Damaged);
    };
    let mut rest = start;
    'files: while let Some((name, behind)) = file_4(rest) {
        if name.is_empty() {
            return Ok(Named::All);
        }
        push_name(alloc, name, names)?;
        rest = behind;
    }
    Ok(Named::Damaged)
}
