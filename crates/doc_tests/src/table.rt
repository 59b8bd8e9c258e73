//! The table of worked rows, as a text.

use std::alloc::{AllocError, Global};

/// How a part of the table begins.
#[derive(Clone, Copy, Debug)]
pub enum PartHead<'a> {
    /// A row, with its title.
    Row(&'a str),
    /// A file of the row, with its name and its lines below.
    Text(&'a str),
    /// The same, with bytes in hex digits below.
    Bytes(&'a str),
    /// A folder of the row: what can neither be read nor written as a file.
    Folder(&'a str),
    /// A file of the row that is larger than memory, with the count of its bytes below.
    Large(&'a str),
    /// A command of the row, with what it comes to below.
    Command(&'a str),
}

/// A part of the table.
#[derive(Debug, Drop)]
pub struct TablePart<'a> {
    /// How it begins.
    pub head: PartHead<'a>,
    /// The lines below.
    pub lines: Vec<&'a str>,
}

/// The parts of a table in their order. Blank lines and those that begin with `#` say nothing.
pub fn parts<'a>(alloc: Global, text: &'a str) -> Result<Vec<TablePart<'a>>, AllocError> {
    let mut parts: Vec<TablePart<'a>> = Vec::new(alloc);
    for line in text.lines() {
        if !line.is_empty() && !line.starts_with('#') {
            take_line(alloc, &mut parts, line)?;
        }
    }
    Ok(parts)
}

// One line more.
fn take_line<'a>(
    alloc: Global,
    parts: &mut Vec<TablePart<'a>>,
    line: &'a str,
) -> Result<(), AllocError> {
    if let Some(head) = head_of(line) {
        let lines = Vec::new(alloc);
        return parts
            .push(TablePart { head, lines })
            .map_err(|_| AllocError);
    }
    match parts.last_mut() {
        Some(last) => last.lines.push(line).map_err(|_| AllocError),
        None => Ok(()),
    }
}

// The head that a line is, if it is one.
fn head_of(line: &str) -> Option<PartHead<'_>> {
    let (mark, name) = line.split_once(' ')?;
    match mark {
        "==" => Some(PartHead::Row(name)),
        "--" => Some(PartHead::Text(name)),
        "-x" => Some(PartHead::Bytes(name)),
        "-/" => Some(PartHead::Folder(name)),
        "-n" => Some(PartHead::Large(name)),
        "$" => Some(PartHead::Command(name)),
        _ => None,
    }
}
