//! What may be wrong with a line, and what confirms it.

use crate::change::reads_with;
use crate::finding::Finding;
use crate::piece::Piece;
use std::alloc::{AllocError, Global};

/// What may be wrong with a line.
#[derive(Clone, Copy)]
pub struct Suspect<'a> {
    /// What is wrong, if it is confirmed.
    pub finding: Finding<'a>,
    // What confirms it; nothing has to where it is plain.
    cure: Option<Cure>,
}

/// Texts that may stand in place of a part of a line.
#[derive(Clone, Copy)]
struct Cure {
    // Where the part begins, in bytes of the line.
    start: usize,
    // Where it ends.
    end: usize,
    texts: &'static [&'static str],
}

impl<'a> Suspect<'a> {
    /// What is plainly wrong.
    pub fn plain(finding: Finding<'a>) -> Suspect<'a> {
        Suspect {
            finding,
            cure: None,
        }
    }

    /// What is wrong if the line is read with one of these texts in place of a piece.
    pub fn cured(
        finding: Finding<'a>,
        piece: &Piece<'a>,
        texts: &'static [&'static str],
    ) -> Suspect<'a> {
        Suspect::cured_at(finding, piece.start, piece.end(), texts)
    }

    /// What is wrong if the line is read with one of these texts in place of a part.
    pub fn cured_at(
        finding: Finding<'a>,
        start: usize,
        end: usize,
        texts: &'static [&'static str],
    ) -> Suspect<'a> {
        Suspect {
            finding,
            cure: Some(Cure { start, end, texts }),
        }
    }

    /// Whether it is wrong with this line.
    pub fn is_confirmed(&self, alloc: Global, line: &[u8]) -> Result<bool, AllocError> {
        match &self.cure {
            None => Ok(true),
            Some(cure) => cure.helps(alloc, line),
        }
    }
}

impl Cure {
    // Whether a line is read with one of the texts.
    fn helps(&self, alloc: Global, line: &[u8]) -> Result<bool, AllocError> {
        for text in self.texts {
            if reads_with(alloc, line, self.start, self.end, text.as_bytes())? {
                return Ok(true);
            }
        }
        Ok(false)
    }
}
