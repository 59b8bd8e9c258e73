//! What is said of a fault.

use crate::meaning::Meaning;
use std::{fmt, str};

/// What is said of a fault: texts, with a name between them and a word behind them.
#[derive(Clone, Copy)]
pub struct Sentence<'a> {
    before: &'static str,
    name: Word<'a>,
    behind: &'static str,
    last: Word<'a>,
}

/// A word of a sentence.
#[derive(Clone, Copy)]
enum Word<'a> {
    // None.
    Nothing,
    // A name in quotes, cut where it is long.
    Name(&'a [u8]),
    // A name that is near the one in front.
    Near(&'a [u8]),
    // A text as it stands.
    Text(&'a [u8]),
    // The number of a line.
    Line(u32),
}

impl<'a> Sentence<'a> {
    /// What is said of what is meant.
    pub fn of(meaning: Meaning<'a>) -> Sentence<'a> {
        let (before, name, behind) = around(meaning);
        Sentence {
            before,
            name,
            behind,
            last: last(meaning),
        }
    }
}

// The name that is told, with the texts around it.
fn around<'a>(meaning: Meaning<'a>) -> (&'static str, Word<'a>, &'static str) {
    match meaning {
        Meaning::NoNumber(word) => ("", Word::Name(word), " is no number"),
        Meaning::NoPreprocessor(word) => ("", Word::Name(word), ": there is no preprocessor"),
        Meaning::NoInstruction(word, _) => {
            ("", Word::Name(word), " is no instruction or directive")
        }
        Meaning::NotRead(word, _) => ("", Word::Name(word), " is not read here; "),
        Meaning::SymbolTwice(word, _) => ("", Word::Name(word), " is defined above, on line "),
        Meaning::UnknownSymbol(word, _) => ("no symbol ", Word::Name(word), ""),
        Meaning::NotAbove(word) => ("", Word::Name(word), " is no equ name from above"),
        Meaning::NoRegister(word) => ("no register ", Word::Name(word), ""),
        Meaning::NoSize(word) => ("no size ", Word::Name(word), ": byte or dword"),
        Meaning::NoPointer(word) => {
            (
                "",
                Word::Name(word),
                " is not written: dword [..] or byte [..]",
            )
        }
        Meaning::TooNarrow(word) => ("", Word::Name(word), " has 8 bits; 32 are wanted"),
        Meaning::TooWide(word) => ("", Word::Name(word), " has 32 bits; 8 are wanted"),
        Meaning::NoForm(word) => ("operands fit no form of ", Word::Name(word), ""),
        other => (plain(other), Word::Nothing, ""),
    }
}

// What is said where no name is told.
fn plain(meaning: Meaning<'_>) -> &'static str {
    match meaning {
        Meaning::NoCharacter => "no character of a source",
        Meaning::NoQuote => "the quote is not closed",
        Meaning::NoStatement => "an instruction or a directive belongs here",
        Meaning::SixteenBits(_) => "no 16-bit registers: ",
        Meaning::SizeNotSpecified => "size not specified: byte or dword",
        Meaning::NoLock => "lock is not allowed with this instruction or destination",
        Meaning::NoBracket => "the bracket is not closed",
        Meaning::NoScale => "a scale is 1, 2, 4 or 8",
        Meaning::TooFew => "an operand is missing",
        Meaning::TooMany => "one operand too many",
        Meaning::TwoInMemory => "only one operand can be in memory",
        Meaning::NoDestination => "a number is no destination",
        Meaning::NoSection => "the sections are .text and .data",
        Meaning::NotThirtyTwo => "code has 32 bits: bits 32",
        Meaning::LateOrg => "org stands once, before anything is placed",
        Meaning::NoBase => "org takes one number",
        Meaning::NoAlignment => "an alignment is a power of two up to 4096",
        Meaning::NoName => "equ takes a name in front",
        Meaning::OutOfRange(_) => "out of range: ",
        Meaning::TooFar => "ends more than 268435456 bytes from the base, or past 2^32",
        Meaning::ShortJump(_) => "leads further than -128 to 127 bytes; ",
        _ => "",
    }
}

// The word at the end.
fn last<'a>(meaning: Meaning<'a>) -> Word<'a> {
    match meaning {
        Meaning::NoInstruction(_, Some(near)) => Word::Near(near),
        Meaning::UnknownSymbol(_, Some(near)) => Word::Near(near),
        Meaning::NotRead(_, instead) => Word::Text(instead),
        Meaning::SixteenBits(word) => Word::Text(word),
        Meaning::SymbolTwice(_, line) => Word::Line(line),
        Meaning::OutOfRange(field) => Word::Text(field.takes().as_bytes()),
        Meaning::ShortJump(instead) => Word::Text(instead.as_bytes()),
        _ => Word::Nothing,
    }
}

impl fmt::Display for Sentence<'_> {
    fn fmt<W: fmt::Write>(&self, f: &mut fmt::Formatter<W>) -> fmt::Result {
        write!(
            f,
            "{}{}{}{}",
            self.before, self.name, self.behind, self.last
        )
    }
}

impl fmt::Display for Word<'_> {
    fn fmt<W: fmt::Write>(&self, f: &mut fmt::Formatter<W>) -> fmt::Result {
        match self {
            Word::Nothing => Ok(()),
            Word::Name(name) => QuotedName(name).fmt(f),
            Word::Near(name) => write!(f, "; {} is near", QuotedName(name)),
            Word::Text(text) => f.write_str(text_of(text)),
            Word::Line(line) => line.fmt(f),
        }
    }
}

// The most bytes of a name that are told.
const MOST: usize = 48;

/// A name as it is told: in quotes, cut where it is long.
#[derive(Clone, Copy)]
struct QuotedName<'a>(&'a [u8]);

impl fmt::Display for QuotedName<'_> {
    fn fmt<W: fmt::Write>(&self, f: &mut fmt::Formatter<W>) -> fmt::Result {
        let front = self.0.get(..MOST).unwrap_or(self.0);
        let end = if front.len() < self.0.len() {
            "..'"
        } else {
            "'"
        };
        write!(f, "'{}{end}", text_of(front))
    }
}

// The text of a word, which is UTF-8 where it stands in a source that was read.
fn text_of(bytes: &[u8]) -> &str {
    str::from_utf8(bytes).unwrap_or("?")
}
