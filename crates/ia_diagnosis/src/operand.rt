//! Operands that fit no form.
//!
//! Where another line would be read, what it has otherwise tells what is wrong with this one.

use crate::check::{CHECKS, Check, Operands};
use crate::finding::Finding;
use crate::line::head_of;
use crate::meaning::Meaning;
use crate::piece::{Piece, next_piece};
use std::alloc::{AllocError, Global};

/// The operands of a line that fit no form, and what is wrong with them.
pub fn bad_operand<'a>(
    alloc: Global,
    line: &'a [u8],
    pieces: &[Piece<'a>],
) -> Result<Finding<'a>, AllocError> {
    let Some(word) = next_piece(line, head_of(line).rest) else {
        return Ok(Finding::whole(line, Meaning::NoStatement));
    };
    let operands = Operands { line, word, pieces };
    for check in &CHECKS {
        if let Some(finding) = found(alloc, &operands, *check)? {
            return Ok(finding);
        }
    }
    Ok(operands.behind(&word, Meaning::NoForm(word.text)))
}

// What a check finds at the first of the pieces that it looks at.
fn found<'a>(
    alloc: Global,
    operands: &Operands<'a, '_>,
    check: Check,
) -> Result<Option<Finding<'a>>, AllocError> {
    for index in 0..operands.pieces.len() {
        if let Some(suspect) = operands.suspect(check, index) {
            if suspect.is_confirmed(alloc, operands.line)? {
                return Ok(Some(suspect.finding));
            }
        }
    }
    Ok(None)
}
