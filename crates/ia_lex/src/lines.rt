//! The lines of a source, from the first on: an end is a line feed, with a carriage return before it or without, and
//! belongs to no line.

ghost use Rattle.std.specs.Prelude.{◌≡◌, ◌∷◌, ◌<◌, ◌≤◌, drop, length};
ghost use Rattle.std.specs.List.{prefix_len};
ghost use Rattle.ia_lex.specs.Chars.{differs};
ghost use Rattle.ia_lex.specs.Lines.{lines_of, without_cr};

use crate::chars::quote_place;

/// A line without the carriage return that may end it.
#[tactic(auto, using(crate::proofs::Ends::line_ends))]
pub fn without_cr(line: &[u8]) -> &[u8]
    ensures { result.now ≡ without_cr line.now }
{
    let long = line.len();
    if long == 0 {
        return line;
    }
    if line[long - 1] == b'\r' {
        &line[..long - 1]
    } else {
        line
    }
}

/// The first line of a text that isn't empty, and how many bytes it takes with its end: a line feed, which may have a
/// carriage return before it, or the end of the text.
#[tactic(auto, using(crate::proofs::Ends::first_is, crate::proofs::Ends::first_is_all))]
pub fn first_line(text: &[u8]) -> (&[u8], usize)
    requires { 0 < length text.now }
    ensures lines { lines_of text.now ≡ result.0.now ∷ lines_of (drop result.1 text.now) }
    ensures some { 0 < result.1 }
    ensures within { result.1 ≤ length text.now }
{
    let end = quote_place(b'\n', text);
    if end < text.len() {
        (without_cr(&text[..end]), end + 1)
    } else {
        (text, end)
    }
}
