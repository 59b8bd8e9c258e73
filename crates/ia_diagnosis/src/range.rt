//! Numbers outside their range, and jumps that lead too far.

use crate::finding::Finding;
use crate::line::head_of;
use crate::meaning::{Field, Meaning};
use crate::piece::{Piece, has_word, next_piece};
use crate::words::is_among;
use ia_lex::{register_of, word_number};
use ia_word::Width;

/// The most bytes from the base to an item's end.
const FAR: u64 = 268_435_456;

/// Words that say that a number goes into a byte.
const OF_BYTES: [&str; 13] = [
    "byte", "db", "xabort", "rol", "ror", "shl", "sal", "shr", "sar", "bt", "bts", "btr", "btc",
];

/// The first number of a line that is outside its range, or all operands.
pub fn range<'a>(line: &'a [u8], pieces: &[Piece<'a>]) -> Finding<'a> {
    let from = operands_from(line);
    let field = field_of(pieces);
    match first_outside(field, pieces, from) {
        Some(piece) if field == Field::Size => Finding::at(&piece, Meaning::TooFar),
        Some(piece) => Finding::at(&piece, Meaning::OutOfRange(field)),
        None if field == Field::Dword && !has_number(pieces, from) => {
            operands(line, from, pieces, Meaning::TooFar)
        }
        None => operands(line, from, pieces, Meaning::OutOfRange(field)),
    }
}

/// The operands of a short jump.
pub fn short_jump<'a>(line: &'a [u8], pieces: &[Piece<'a>]) -> Finding<'a> {
    let instead = if has_word(pieces, "loop") {
        "write dec ecx and jnz"
    } else if has_word(pieces, "jecxz") {
        "write test ecx, ecx and jz"
    } else {
        "leave short away"
    };
    operands(
        line,
        operands_from(line),
        pieces,
        Meaning::ShortJump(instead),
    )
}

// Where the operands of a line begin.
fn operands_from(line: &[u8]) -> usize {
    let rest = head_of(line).rest;
    let Some(word) = next_piece(line, rest) else {
        return rest;
    };
    if !word.is_named("lock") {
        return word.end();
    }
    next_piece(line, word.end()).unwrap_or(word).end()
}

// All parts of a line from this place on.
fn operands<'a>(
    line: &'a [u8],
    from: usize,
    pieces: &[Piece<'a>],
    meaning: Meaning<'a>,
) -> Finding<'a> {
    let start = match next_piece(line, from) {
        Some(piece) => piece.start,
        None => 0,
    };
    let end = match pieces.last() {
        Some(piece) => piece.end(),
        None => line.len(),
    };
    Finding {
        start,
        end,
        meaning,
    }
}

// Whether there is a number from this place on.
fn has_number(pieces: &[Piece<'_>], from: usize) -> bool {
    for piece in pieces {
        if piece.start >= from && piece.is_number() {
            return true;
        }
    }
    false
}

// The first number from this place on that no such field takes.
fn first_outside<'a>(field: Field, pieces: &[Piece<'a>], from: usize) -> Option<Piece<'a>> {
    for piece in pieces {
        if piece.start >= from && is_outside(field, piece) {
            return Some(*piece);
        }
    }
    None
}

// What the numbers of a line go into.
fn field_of(pieces: &[Piece<'_>]) -> Field {
    if has_word(pieces, "org") {
        Field::Base
    } else if has_word(pieces, "resb") {
        Field::Size
    } else if has_word(pieces, "ret") {
        Field::Return
    } else if is_of_bytes(pieces) {
        Field::Byte
    } else {
        Field::Dword
    }
}

// Whether a line says that a number goes into a byte: by such a word, or a register of 8 bits.
fn is_of_bytes(pieces: &[Piece<'_>]) -> bool {
    for piece in pieces {
        if is_among(&OF_BYTES, piece.text) || is_narrow(piece.text) {
            return true;
        }
    }
    false
}

// Whether a word is a register of 8 bits.
fn is_narrow(word: &[u8]) -> bool {
    match register_of(word) {
        Some((Width::B, _number)) => true,
        _ => false,
    }
}

// Whether a part is a number that no such field takes.
fn is_outside(field: Field, piece: &Piece<'_>) -> bool {
    if !piece.is_number() {
        return false;
    }
    let most: u64 = match field {
        Field::Byte => 255,
        Field::Return => 65_535,
        Field::Dword => 4_294_967_295,
        Field::Base => 4_294_967_295,
        Field::Size => FAR,
    };
    match word_number(piece.text) {
        Some(number) => number > most,
        None => true,
    }
}
