//! The comments of tests in the lines of a file.

ghost use Rattle.std.specs.Prelude.{◌≡◌, IfOk, map, option_map};
ghost use Rattle.elide_expect.specs.Comments.{beside_comment, comment_content, comment_in, comment_of, comments_from};
ghost use Rattle.elide_expect.specs.Comments.{path_in, source_comment};

use crate::text::trimmed;
use std::alloc::{AllocError, Global};

/// The kind of a file with tests.
#[derive(Clone, Copy, PartialEq, Eq, Debug)]
pub enum Kind {
    /// A source: tests stand in its comments, behind `;`.
    Source,
    /// A file beside an executable: it begins with `program PATH`, and tests stand in its lines.
    Beside,
}

/// A comment of a test.
#[derive(Clone, Copy)]
pub struct Comment<'a> {
    /// The line, from 1.
    pub line: usize,
    /// Whether it is a command, or else an expectation.
    pub is_command: bool,
    /// What stands behind `elide:` or `expect:`, without blanks round it.
    pub text: &'a [u8],
}

// A text that begins with `elide:` or `expect:`.
#[tactic(auto, unfolding(crate::specs::Comments::comment_in))]
fn comment_in(line: usize, text: &[u8]) -> Option<Comment<'_>>
    ensures { option_map comment_content result ≡ comment_in line text.now }
{
    if text.starts_with(b"elide:") {
        Some(Comment {
            line,
            is_command: true,
            text: trimmed(&text[6..]),
        })
    } else if text.starts_with(b"expect:") {
        Some(Comment {
            line,
            is_command: false,
            text: trimmed(&text[7..]),
        })
    } else {
        None
    }
}

#[tactic(auto, unfolding(crate::specs::Comments::source_comment))]
fn source_comment(number: usize, line: &[u8]) -> Option<Comment<'_>>
    ensures { option_map comment_content result ≡ source_comment number line.now }
{
    let text = trimmed(line);
    if text.starts_with(b";") {
        comment_in(number, trimmed(&text[1..]))
    } else {
        None
    }
}

// A line that is neither is taken for an expectation without text, which cannot be read.
#[tactic(auto, unfolding(crate::specs::Comments::beside_comment))]
fn beside_comment(number: usize, line: &[u8]) -> Option<Comment<'_>>
    ensures { option_map comment_content result ≡ beside_comment number line.now }
{
    if number == 1 || trimmed(line).is_empty() || line.starts_with(b"#") {
        return None;
    }
    match comment_in(number, line) {
        Some(comment) => Some(comment),
        None => Some(Comment {
            line: number,
            is_command: false,
            text: &[],
        }),
    }
}

fn comment_of(kind: Kind, number: usize, line: &[u8]) -> Option<Comment<'_>>
    ensures { option_map comment_content result ≡ comment_of kind number line.now }
{
    match kind {
        Kind::Source => source_comment(number, line),
        Kind::Beside => beside_comment(number, line),
    }
}

/// The comments of tests in all lines of a file.
pub fn comments_in<'a>(
    alloc: Global,
    kind: Kind,
    lines: &[&'a [u8]],
) -> Result<Vec<Comment<'a>>, AllocError>
    ensures { IfOk result (λ comments. map comment_content comments.items
        ≡ comments_from kind 1 (map (λ line. line.now) lines.now)) }
{
    let mut comments = Vec::new(alloc);
    for (i, line) in lines.iter().enumerate() {
        if let Some(comment) = comment_of(kind, i + 1, line) {
            comments.push(comment)?;
        }
    }
    Ok(comments)
}

/// The path that the first line beside an executable names.
#[tactic(auto, unfolding(crate::specs::Comments::path_in))]
pub fn path_in(line: &[u8]) -> Option<&[u8]>
    ensures { option_map (λ path. path.now) result ≡ path_in line.now }
{
    if !line.starts_with(b"program ") {
        return None;
    }
    let path = trimmed(&line[8..]);
    if path.is_empty() { None } else { Some(path) }
}
