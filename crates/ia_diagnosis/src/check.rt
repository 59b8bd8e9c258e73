//! What can be wrong with the operands of a line.

use crate::finding::Finding;
use crate::meaning::Meaning;
use crate::piece::{Piece, next_mark, next_piece};
use crate::suspect::Suspect;
use crate::words::{is_other_register, is_other_size, is_sixteen_bits};
use ia_lex::register_of;
use ia_word::Width;

/// What is looked for at the pieces of a line.
#[derive(Clone, Copy)]
pub enum Check {
    /// An `org` that is read alone.
    LateOrg,
    /// What a directive tells by its name.
    Directive,
    /// A word that is read nowhere here.
    Words,
    /// A memory operand whose size nothing says.
    Size,
    /// A LOCK that is not allowed.
    Lock,
    /// A bracket that is not closed, and a second operand in memory.
    Brackets,
    /// A scale that is none.
    Scale,
    /// A register or a size word of another width.
    Width,
    /// An operand that is left over.
    TooMany,
    /// An operand that is missing.
    TooFew,
    /// A number where a result goes.
    Destination,
}

/// All checks, in the order in which they are made.
pub const CHECKS: [Check; 11] = [
    Check::LateOrg,
    Check::Directive,
    Check::Words,
    Check::Size,
    Check::Lock,
    Check::Brackets,
    Check::Scale,
    Check::Width,
    Check::TooMany,
    Check::TooFew,
    Check::Destination,
];

impl Check {
    /// Whether the last piece is looked at first.
    pub fn is_from_behind(self) -> bool {
        match self {
            Check::Width | Check::TooMany => true,
            _ => false,
        }
    }
}

// Texts with which a line would be read.
const NOTHING: [&str; 1] = [""];

const SIZED: [&str; 2] = ["dword [", "byte ["];

const SCALES: [&str; 2] = ["4", "dword 4"];

const REGISTERS: [&str; 2] = ["eax", "al"];

const MORE: [&str; 6] = [" eax", ", eax", ", 1", " 1", " [0]", " eax, eax"];

/// The operands of an instruction or a directive.
#[derive(Clone, Copy)]
pub struct Operands<'a, 'b> {
    /// The line.
    pub line: &'a [u8],
    /// The instruction, the directive or the prefix.
    pub word: Piece<'a>,
    /// All pieces of the line.
    pub pieces: &'b [Piece<'a>],
}

impl<'a> Operands<'a, '_> {
    /// What a check suspects of a piece, by its place among those that it looks at.
    pub fn suspect(&self, check: Check, index: usize) -> Option<Suspect<'a>> {
        let place = if check.is_from_behind() {
            self.pieces.len().saturating_sub(index.saturating_add(1))
        } else {
            index
        };
        match self.pieces.get(place) {
            Some(piece) => self.suspect_of(check, piece),
            None => None,
        }
    }

    fn suspect_of(&self, check: Check, piece: &Piece<'a>) -> Option<Suspect<'a>> {
        let is_word = piece.start == self.word.start;
        match check {
            Check::LateOrg if is_word => late_org(piece),
            Check::Directive if is_word => self.directive(),
            Check::Words if piece.start > self.word.start => not_read(piece),
            Check::Size => self.size(piece),
            Check::Lock if is_word => lock(piece),
            Check::Brackets => self.brackets(piece),
            Check::Scale => self.scale(piece),
            Check::Width => width(piece),
            Check::TooMany => self.too_many(piece),
            Check::TooFew if is_word => self.too_few(),
            Check::Destination if is_word => self.destination(),
            _ => None,
        }
    }

    /// What stands behind a piece, or the piece where it is the last one.
    pub fn behind(&self, piece: &Piece<'a>, meaning: Meaning<'a>) -> Finding<'a> {
        match next_piece(self.line, piece.end()) {
            Some(next) => Finding {
                start: next.start,
                end: self.end(),
                meaning,
            },
            None => Finding::at(piece, meaning),
        }
    }

    // Where the last piece ends.
    fn end(&self) -> usize {
        match self.pieces.last() {
            Some(piece) => piece.end(),
            None => self.line.len(),
        }
    }

    fn directive(&self) -> Option<Suspect<'a>> {
        let word = self.word;
        if word.is_named("equ") {
            return self.bare_equ();
        }
        let meaning = if word.is_named("section") {
            Meaning::NoSection
        } else if word.is_named("bits") {
            Meaning::NotThirtyTwo
        } else if word.is_named("align") {
            Meaning::NoAlignment
        } else if word.is_named("org") {
            Meaning::NoBase
        } else {
            return None;
        };
        Some(Suspect::plain(self.behind(&word, meaning)))
    }

    // An `equ` that begins a line.
    fn bare_equ(&self) -> Option<Suspect<'a>> {
        match self.pieces.first() {
            Some(first) if first.start == self.word.start => {
                Some(Suspect::plain(Finding::at(first, Meaning::NoName)))
            }
            _ => None,
        }
    }

    fn size(&self, piece: &Piece<'a>) -> Option<Suspect<'a>> {
        if piece.is_mark(b'[') {
            let finding = self.bracket(piece, Meaning::SizeNotSpecified);
            return Some(Suspect::cured(finding, piece, &SIZED));
        }
        None
    }

    // A memory operand from its bracket on.
    fn bracket(&self, open: &Piece<'a>, meaning: Meaning<'a>) -> Finding<'a> {
        match next_mark(self.pieces, open.end(), b']') {
            Some(close) => Finding {
                start: open.start,
                end: close.end(),
                meaning,
            },
            None => Finding::at(open, Meaning::NoBracket),
        }
    }

    fn brackets(&self, piece: &Piece<'a>) -> Option<Suspect<'a>> {
        if !piece.is_mark(b'[') {
            return None;
        }
        if next_mark(self.pieces, 0, b']').is_none() {
            return Some(Suspect::plain(Finding::at(piece, Meaning::NoBracket)));
        }
        match next_mark(self.pieces, 0, b'[') {
            Some(first) if first.start < piece.start => {
                Some(Suspect::plain(self.bracket(piece, Meaning::TwoInMemory)))
            }
            _ => None,
        }
    }

    fn scale(&self, piece: &Piece<'a>) -> Option<Suspect<'a>> {
        if piece.is_number() && next_mark(self.pieces, 0, b'[').is_some() {
            let finding = Finding::at(piece, Meaning::NoScale);
            return Some(Suspect::cured(finding, piece, &SCALES));
        }
        None
    }

    // What stands behind a comma, or all operands.
    fn too_many(&self, piece: &Piece<'a>) -> Option<Suspect<'a>> {
        let from = if piece.is_mark(b',') {
            piece.start
        } else if piece.start == self.word.start {
            piece.end()
        } else {
            return None;
        };
        let finding = self.behind(piece, Meaning::TooMany);
        Some(Suspect::cured_at(finding, from, self.line.len(), &NOTHING))
    }

    fn too_few(&self) -> Option<Suspect<'a>> {
        let finding = self.behind(&self.word, Meaning::TooFew);
        Some(Suspect::cured_at(finding, self.end(), self.line.len(), &MORE))
    }

    fn destination(&self) -> Option<Suspect<'a>> {
        match next_piece(self.line, self.word.end()) {
            Some(first) if first.is_number() || first.is_label() => {
                let finding = Finding::at(&first, Meaning::NoDestination);
                Some(Suspect::cured(finding, &first, &REGISTERS))
            }
            _ => None,
        }
    }
}

fn late_org<'a>(word: &Piece<'a>) -> Option<Suspect<'a>> {
    if word.is_named("org") {
        let finding = Finding::at(word, Meaning::LateOrg);
        return Some(Suspect::cured_at(finding, word.start, word.start, &NOTHING));
    }
    None
}

fn lock<'a>(word: &Piece<'a>) -> Option<Suspect<'a>> {
    if word.is_named("lock") {
        let finding = Finding::at(word, Meaning::NoLock);
        return Some(Suspect::cured(finding, word, &NOTHING));
    }
    None
}

// A word of operands that is read nowhere here.
fn not_read<'a>(piece: &Piece<'a>) -> Option<Suspect<'a>> {
    let word = piece.text;
    let meaning = if is_sixteen_bits(word) {
        Meaning::SixteenBits(word)
    } else if is_other_register(word) {
        Meaning::NoRegister(word)
    } else if is_other_size(word) {
        Meaning::NoSize(word)
    } else if piece.is_named("ptr") {
        Meaning::NoPointer(word)
    } else {
        return None;
    };
    Some(Suspect::plain(Finding::at(piece, meaning)))
}

// A register or a size word, where the line is read with one of another width in its place.
fn width<'a>(piece: &Piece<'a>) -> Option<Suspect<'a>> {
    let (others, meaning) = other_width(piece)?;
    Some(Suspect::cured(Finding::at(piece, meaning), piece, others))
}

// What is of another width than a register or a size word, and what is meant where it belongs there.
fn other_width<'a>(piece: &Piece<'a>) -> Option<(&'static [&'static str], Meaning<'a>)> {
    let word = piece.text;
    if piece.is_named("byte") {
        return Some((&["dword"], Meaning::TooNarrow(word)));
    }
    if piece.is_named("dword") {
        return Some((&["byte"], Meaning::TooWide(word)));
    }
    match register_of(word) {
        Some((Width::B, _number)) => Some((&["ecx"], Meaning::TooNarrow(word))),
        Some((Width::D, _number)) => Some((&["cl"], Meaning::TooWide(word))),
        _ => None,
    }
}
