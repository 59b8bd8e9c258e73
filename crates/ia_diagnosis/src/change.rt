//! Lines that are changed in a copy of a source, to see whether it is read then: a faulty line is taken out, or other
//! bytes stand in place of a part. The source itself stays.

use crate::line::{head_of, line_at};
use crate::piece::next_piece;
use ia_asm::AsmFault;
use ia_source::{SourceFault, entries};
use std::alloc::{AllocError, Global};

/// Takes the line of a fault out of a copy of its source: blanks stand in place of it, except for its label. The name
/// of an `equ` keeps a value.
pub fn take_out(copy: &mut Vec<u8>, source: &[u8], fault: AsmFault) {
    let Some(number) = fault.line() else {
        return;
    };
    let Some((start, line)) = line_at(source, number) else {
        return;
    };
    let kept = match fault {
        AsmFault::SymbolTwice(_) => 0,
        _ => kept_of(line),
    };
    let end = start.saturating_add(line.len());
    blank(copy.as_mut_slice(), start.saturating_add(kept), end);
    if is_equ(line, kept) {
        if let Some(value) = copy.get_mut(end.saturating_sub(1)) {
            *value = b'0';
        }
    }
}

// Puts blanks in place of a part of a text.
fn blank(text: &mut [u8], start: usize, end: usize) {
    if start <= end && end <= text.len() {
        text[start..end].fill(b' ');
    }
}

// How many bytes of a line are its label with the colon, and `equ`.
fn kept_of(line: &[u8]) -> usize {
    let head = head_of(line);
    if head.label.is_none() {
        return 0;
    }
    match next_piece(line, head.rest) {
        Some(equ) if equ.is_named("equ") && equ.end().saturating_add(1) < line.len() => equ.end(),
        _ => head.rest,
    }
}

// Whether what is kept of a line ends with `equ`.
fn is_equ(line: &[u8], kept: usize) -> bool {
    match line.get(..kept) {
        Some(front) => front.len() >= 3 && front[front.len() - 3..].eq_ignore_ascii_case(b"equ"),
        None => false,
    }
}

/// Whether a line alone is read without a fault.
pub fn reads(alloc: Global, line: &[u8]) -> Result<bool, AllocError> {
    match entries(alloc, line) {
        Ok(_found) => Ok(true),
        Err(SourceFault::Line { .. }) => Ok(false),
        Err(SourceFault::NoMemory) => Err(AllocError),
    }
}

/// Whether a line alone is read with other bytes in place of a part.
pub fn reads_with(
    alloc: Global,
    line: &[u8],
    start: usize,
    end: usize,
    bytes: &[u8],
) -> Result<bool, AllocError> {
    let front = line.get(..start).unwrap_or(line);
    let behind = line.get(end..).unwrap_or(b"");
    let other = [front, bytes, behind].concat(alloc)?;
    reads(alloc, other.as_slice())
}
