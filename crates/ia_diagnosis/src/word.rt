//! Words that stand where an instruction or a directive belongs.

use crate::finding::Finding;
use crate::meaning::Meaning;
use crate::near::near_keyword;
use crate::piece::{Piece, next_piece};
use crate::words::{instead_of, is_kept};
use std::alloc::{AllocError, Global};

/// What stands on a line in place of an instruction or a directive.
pub fn not_in_subset<'a>(alloc: Global, line: &'a [u8]) -> Result<Finding<'a>, AllocError> {
    match statement_of(alloc, line)? {
        Some(piece) => of_statement(alloc, &piece),
        None => Ok(Finding::whole(line, Meaning::NoStatement)),
    }
}

// The part of a line that stands where an instruction or a directive belongs.
fn statement_of<'a>(alloc: Global, line: &'a [u8]) -> Result<Option<Piece<'a>>, AllocError> {
    let Some(first) = next_piece(line, 0) else {
        return Ok(None);
    };
    let second = next_piece(line, first.end());
    if first.is_named("lock") {
        return Ok(second);
    }
    match second {
        Some(second) if first.is_label() => behind_label(alloc, line, first, second),
        _ => Ok(Some(first)),
    }
}

// What follows the colon of a label. Of two words of which neither names an instruction: the first, unless the second
// is near one and the first is not.
fn behind_label<'a>(
    alloc: Global,
    line: &'a [u8],
    first: Piece<'a>,
    second: Piece<'a>,
) -> Result<Option<Piece<'a>>, AllocError> {
    if second.is_mark(b':') {
        return Ok(next_piece(line, second.end()));
    }
    if second.is_label() && is_strange(alloc, &first)? && !is_strange(alloc, &second)? {
        return Ok(Some(second));
    }
    Ok(Some(first))
}

// Whether a word is near no instruction, and no other assembler's.
fn is_strange(alloc: Global, word: &Piece<'_>) -> Result<bool, AllocError> {
    Ok(instead_of(word.text).is_none() && near_keyword(alloc, word.text)?.is_none())
}

// A part in place of an instruction.
fn of_statement<'a>(alloc: Global, piece: &Piece<'a>) -> Result<Finding<'a>, AllocError> {
    let meaning = if let Some(instead) = instead_of(piece.text) {
        Meaning::NotRead(piece.text, instead)
    } else if piece.is_label() || is_kept(piece.text) {
        Meaning::NoInstruction(piece.text, near_keyword(alloc, piece.text)?)
    } else {
        Meaning::NoStatement
    };
    Ok(Finding::at(piece, meaning))
}
