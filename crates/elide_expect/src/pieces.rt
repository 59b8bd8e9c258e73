//! The lines that are expected, in which `...` stands for any characters.

ghost use Rattle.std.specs.Prelude.{◌≡◌, IfOk, drop, map};
ghost use Rattle.elide_expect.specs.Patterns.{meets, pieces_of, some_end};

use crate::text::place_of;
use std::alloc::{AllocError, Global};

/// The pieces of a text between `...`.
pub fn pieces_of(alloc: Global, text: &[u8]) -> Result<Vec<&[u8]>, AllocError>
    ensures { IfOk result (λ pieces. map (λ piece. piece.now) pieces.items ≡ pieces_of text.now) }
{
    let mut pieces = Vec::new(alloc);
    let mut from = 0;
    while let Some(at) = place_of(b"...", &text[from..]) {
        pieces.push(&text[from..from + at])?;
        from += at + 3;
    }
    pieces.push(&text[from..])?;
    Ok(pieces)
}

// Whether some end of a line meets the pieces. Each piece is looked for behind the one before: the first place is the
// best, since it leaves the most behind it.
fn end_meets(pieces: &[&[u8]], line: &[u8]) -> bool
    ensures { result ≡ some_end (meets (map (λ piece. piece.now) pieces.now)) line.now }
{
    let Some((last, middle)) = pieces.split_last() else {
        return false;
    };
    let mut from = 0;
    for piece in middle {
        let Some(at) = place_of(piece, &line[from..]) else {
            return false;
        };
        from += at + piece.len();
    }
    line[from..].ends_with(last)
}

/// Whether a line is these pieces, with any characters between.
pub fn meets(pieces: &[&[u8]], line: &[u8]) -> bool
    ensures { result ≡ meets (map (λ piece. piece.now) pieces.now) line.now }
{
    let Some((first, rest)) = pieces.split_first() else {
        return false;
    };
    if rest.is_empty() {
        return *first == line;
    }
    line.starts_with(first) && end_meets(rest, &line[first.len()..])
}
