//! Bytes that are no token: the first part of a line that is none, and what may be meant by it.

use crate::finding::Finding;
use crate::meaning::Meaning;
use crate::piece::{Piece, next_piece};
use ia_lex::{LexFault, tokens};
use std::alloc::{AllocError, Global};

// Whether a part of a line is no token.
fn is_bad(alloc: Global, piece: &Piece<'_>) -> Result<bool, AllocError> {
    match tokens(alloc, piece.text) {
        Ok(_tokens) => Ok(false),
        Err(LexFault::BadToken) => Ok(true),
        Err(LexFault::NoMemory) => Err(AllocError),
    }
}

/// The first part of a line that is no token.
pub fn bad_token<'a>(
    alloc: Global,
    line: &'a [u8],
    pieces: &[Piece<'a>],
) -> Result<Finding<'a>, AllocError> {
    for piece in pieces {
        if is_bad(alloc, piece)? {
            return Ok(meant(line, piece));
        }
    }
    Ok(Finding::whole(line, Meaning::NoCharacter))
}

// What is meant by a part that is no token.
fn meant<'a>(line: &'a [u8], piece: &Piece<'a>) -> Finding<'a> {
    if piece.is_mark(b'%') {
        return preprocessor(line, piece);
    }
    let meaning = if piece.is_number() {
        Meaning::NoNumber(piece.text)
    } else if piece.text.starts_with(b"'") || piece.text.starts_with(b"\"") {
        Meaning::NoQuote
    } else {
        Meaning::NoCharacter
    };
    Finding::at(piece, meaning)
}

// What is meant by `%`: the word behind it is of a preprocessor.
fn preprocessor<'a>(line: &'a [u8], percent: &Piece<'a>) -> Finding<'a> {
    let end = match next_piece(line, percent.end()) {
        Some(word) if word.is_word() && word.start == percent.end() => word.end(),
        _ => percent.end(),
    };
    let text = line.get(percent.start..end).unwrap_or(percent.text);
    Finding {
        start: percent.start,
        end,
        meaning: Meaning::NoPreprocessor(text),
    }
}
