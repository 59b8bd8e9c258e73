//! Lines, and texts without blanks round them.

ghost use Rattle.std.specs.Prelude.{◌≡◌, ◌+◌, ◌≤◌, IfOk, IfSome, length, map};
ghost use Rattle.ia_lex.specs.Lines.{lines_of};
ghost use Rattle.elide_expect.specs.Comments.{trimmed, without_end_blanks};
ghost use Rattle.elide_expect.specs.Patterns.{place_of};

use ia_lex::first_line;
use std::alloc::{AllocError, Global};

/// The lines of a text.
pub fn lines_of(alloc: Global, text: &[u8]) -> Result<Vec<&[u8]>, AllocError>
    ensures { IfOk result (λ lines. map (λ line. line.now) lines.items ≡ lines_of text.now) }
{
    let mut lines = Vec::new(alloc);
    let mut place = 0;
    while place < text.len() {
        let (line, size) = first_line(&text[place..]);
        lines.push(line)?;
        place += size;
    }
    Ok(lines)
}

// A text without the blanks at its end.
fn without_end_blanks(text: &[u8]) -> &[u8]
    ensures { result.now ≡ without_end_blanks text.now }
{
    text.trim_ascii_end()
}

/// A text without the blanks at both ends: ASCII white space.
pub fn trimmed(text: &[u8]) -> &[u8]
    ensures { result.now ≡ trimmed text.now }
{
    without_end_blanks(text.trim_ascii_start())
}

/// Where this piece stands first in a text.
pub fn place_of(piece: &[u8], text: &[u8]) -> Option<usize>
    ensures place { result ≡ place_of piece.now text.now }
    ensures within { IfSome result (λ at. at + length piece.now ≤ length text.now) }
{
    for at in 0..text.len() {
        if text[at..].starts_with(piece) {
            return Some(at);
        }
    }
    if piece.is_empty() {
        Some(text.len())
    } else {
        None
    }
}
