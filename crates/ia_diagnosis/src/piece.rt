//! The parts of a line, with where they stand.

ghost use Rattle.std.specs.Prelude.{◌≤◌, ◌<◌, length};

use ia_lex::register_of;
use ia_source::is_label;
use std::alloc::{AllocError, Global};

/// A part of a line: a name, a number, a quoted text, or a byte alone.
#[derive(Clone, Copy)]
pub struct Piece<'a> {
    /// Where it begins, in bytes of the line.
    pub start: usize,
    /// The part.
    pub text: &'a [u8],
}

impl Piece<'_> {
    /// Where it ends.
    pub fn end(&self) -> usize {
        self.start.saturating_add(self.text.len())
    }

    /// Whether it is this mark.
    pub fn is_mark(&self, mark: u8) -> bool {
        match self.text {
            [byte] => *byte == mark,
            _ => false,
        }
    }

    /// Whether it is a word, no number.
    pub fn is_word(&self) -> bool {
        match self.text.first() {
            Some(byte) => is_of_name(*byte) && !byte.is_ascii_digit(),
            None => false,
        }
    }

    /// Whether it begins with a digit.
    pub fn is_number(&self) -> bool {
        match self.text.first() {
            Some(byte) => byte.is_ascii_digit(),
            None => false,
        }
    }

    /// Whether it is this word, in any case.
    pub fn is_named(&self, name: &str) -> bool {
        self.text.eq_ignore_ascii_case(name.as_bytes())
    }

    /// Whether it is a word that may be a label: it names no instruction, directive, prefix, register or size.
    pub fn is_label(&self) -> bool {
        self.is_word() && is_label(self.text)
    }

    /// Whether it is a word that names an instruction, a directive or a prefix, or one that NASM keeps for itself.
    pub fn is_keyword(&self) -> bool {
        self.is_word() && !is_label(self.text) && register_of(self.text).is_none()
    }
}

/// Bytes that stand in a row.
#[derive(Clone, Copy)]
enum Class {
    // Blanks.
    Blank,
    // Those of names and numbers.
    Name,
    // All but the quote that ends a quoted text.
    Quoted(u8),
}

impl Class {
    fn has(self, byte: u8) -> bool {
        match self {
            Class::Blank => byte == b' ' || byte == b'\t',
            Class::Name => is_of_name(byte),
            Class::Quoted(quote) => byte != quote,
        }
    }
}

// Whether a byte is a part of names and numbers.
fn is_of_name(byte: u8) -> bool {
    byte.is_ascii_alphanumeric() || byte == b'_' || byte == b'.'
}

// How many bytes of a class stand in front.
fn run_length(text: &[u8], class: Class) -> usize
    ensures { result ≤ length text.now }
{
    let found = text.iter().position(|byte| !class.has(*byte));
    found.unwrap_or(text.len()).min(text.len())
}

// How many bytes of the text belong to what stands in front.
fn piece_length(text: &[u8]) -> usize {
    match text.first() {
        None => 0,
        Some(quote) if *quote == b'\'' || *quote == b'"' => quoted_length(*quote, text),
        Some(byte) if is_of_name(*byte) => run_length(text, Class::Name),
        Some(_) => 1,
    }
}

// How many bytes a quoted text has with its quotes; all, where the second one is missing.
fn quoted_length(quote: u8, text: &[u8]) -> usize {
    let rest = text.get(1..).unwrap_or(b"");
    run_length(rest, Class::Quoted(quote))
        .saturating_add(2)
        .min(text.len())
}

/// What stands behind this place of a line, up to a comment.
pub fn next_piece<'a>(line: &'a [u8], from: usize) -> Option<Piece<'a>> {
    let behind = line.get(from..)?;
    let start = run_length(behind, Class::Blank);
    let rest = &behind[start..];
    let first = *rest.first()?;
    if first == b';' {
        return None;
    }
    let long = piece_length(rest).max(1).min(rest.len());
    Some(Piece {
        start: from.saturating_add(start),
        text: &rest[..long],
    })
}

/// What stands on a line, up to a comment.
pub fn pieces<'a>(alloc: Global, line: &'a [u8]) -> Result<Vec<Piece<'a>>, AllocError> {
    let mut found = Vec::new(alloc);
    let mut from = 0;
    // Each part has a byte or more.
    for _ in 0..line.len() {
        let Some(piece) = next_piece(line, from) else {
            return Ok(found);
        };
        from = piece.end();
        found.push(piece)?;
    }
    Ok(found)
}

/// Whether this word is among the pieces of a line.
pub fn has_word(pieces: &[Piece<'_>], name: &str) -> bool {
    for piece in pieces {
        if piece.is_named(name) {
            return true;
        }
    }
    false
}

/// The first piece from this place on that is this mark.
pub fn next_mark<'a>(pieces: &[Piece<'a>], from: usize, mark: u8) -> Option<Piece<'a>> {
    for piece in pieces {
        if piece.start >= from && piece.is_mark(mark) {
            return Some(*piece);
        }
    }
    None
}
