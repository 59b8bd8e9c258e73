//! The lines of a source, by their numbers, and the label that a line begins with. They are found anew at each call,
//! since faults are few.

ghost use Rattle.std.specs.Prelude.{◌≡◌, ◌≤◌, MatchOption, None, Some, length};
ghost use Rattle.ia_diagnosis.specs.Diagnoses.{line_at};

use crate::piece::{Piece, next_piece};
use ia_lex::first_line;

/// The line of this number, from 1, and where it begins.
pub fn line_at(source: &[u8], number: u32) -> Option<(usize, &[u8])>
    ensures { MatchOption result (line_at source.now number ≡ None)
        (λ found. line_at source.now number ≡ Some found.1.now) }
{
    let mut place = 0;
    let mut above = number.saturating_sub(1);
    'lines: while place < source.len() {
        let (line, taken) = first_line(&source[place..]);
        if above == 0 {
            return Some((place, line));
        }
        above -= 1;
        place += taken;
    }
    None
}

/// A line's label and what stands behind it.
#[derive(Clone, Copy)]
pub struct Head<'a> {
    /// The label.
    pub label: Option<Piece<'a>>,
    /// Where the rest begins.
    pub rest: usize,
}

impl Head<'_> {
    /// A line without a label.
    const BARE: Head<'static> = Head {
        label: None,
        rest: 0,
    };
}

/// The label of a line: a word that may be one with a colon behind it, or alone, or before the name of an instruction
/// or a directive.
pub fn head_of<'a>(line: &'a [u8]) -> Head<'a> {
    let Some(first) = next_piece(line, 0) else {
        return Head::BARE;
    };
    if !first.is_label() {
        return Head::BARE;
    }
    let rest = first.end();
    match next_piece(line, rest) {
        Some(colon) if colon.is_mark(b':') => Head {
            label: Some(first),
            rest: colon.end(),
        },
        Some(other) if !other.is_keyword() => Head::BARE,
        _ => Head {
            label: Some(first),
            rest,
        },
    }
}
