//! A part of a line that is at fault.

use crate::meaning::Meaning;
use crate::piece::Piece;

/// A part of a line that is at fault, and what is meant.
#[derive(Clone, Copy)]
pub struct Finding<'a> {
    /// Where the part begins, in bytes of the line.
    pub start: usize,
    /// Where it ends.
    pub end: usize,
    /// What is meant.
    pub meaning: Meaning<'a>,
}

impl<'a> Finding<'a> {
    /// A piece of a line.
    pub fn at(piece: &Piece<'a>, meaning: Meaning<'a>) -> Finding<'a> {
        Finding {
            start: piece.start,
            end: piece.end(),
            meaning,
        }
    }

    /// A whole line.
    pub fn whole(line: &[u8], meaning: Meaning<'a>) -> Finding<'a> {
        Finding {
            start: 0,
            end: line.len(),
            meaning,
        }
    }
}
