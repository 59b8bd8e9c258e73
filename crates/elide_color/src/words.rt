//! A device that paints the first words of each line.

ghost use Rattle.std.specs.Prelude.{◌≡◌, ◌+◌, ◌≤◌, MatchResult};
ghost use Rattle.arrayvec.specs.ArrayVec.{array_vec_len};
ghost use Rattle.text_out.specs.Writing.{Rose};
ghost use Rattle.elide_color.specs.Painting.{held};

use crate::style::{ENDING, Style};
use arrayvec::ArrayVec;
use text_out::page::push;
use text_out::{Failed, Out};

/// How many bytes are gathered before they are handed on.
const ROOM: usize = 1024;

/// The most bytes that one byte of the text is written as.
const MOST: usize = 12;

type Row = ArrayVec<u8, 1024>;

/// Which words of each line are painted, and how.
#[derive(Clone, Copy, PartialEq, Eq)]
pub enum Painting {
    /// None of them.
    Plain,
    /// Of a listing its address, its bytes and the word behind them.
    Listing,
    /// Of a warning its first word.
    Warning,
}

impl Painting {
    /// How a word of a line is painted, counted from 0.
    fn style(self, word: usize) -> Option<Style> {
        match (self, word) {
            (Painting::Listing, 0) => Some(Style::Address),
            (Painting::Listing, 1) => Some(Style::Bytes),
            (Painting::Listing, 2) => Some(Style::Mnemonic),
            (Painting::Warning, 0) => Some(Style::Warning),
            _ => None,
        }
    }
}

// Where the next byte of the text stands.
#[derive(Clone, Copy)]
struct Place {
    // How many words of the line came before.
    words: usize,
    // Whether the byte before is a word's.
    is_word: bool,
    // Whether that word is painted, so that its end has to be told.
    is_painted: bool,
}

impl Place {
    // The beginning of a line.
    const FIRST: Place = Place {
        words: 0,
        is_word: false,
        is_painted: false,
    };
}

/// A device that hands text on to another one, with the first words of each line painted. What it is given is handed on
/// whole before the call ends. Words are what stands between spaces.
#[derive(Drop)]
pub struct PaintedWords<'o, O> {
    out: &'o mut O,
    painting: Painting,
    place: Place,
}

impl<'o, O: Out> PaintedWords<'o, O> {
    /// Hands on to this device.
    pub fn new(out: &'o mut O, painting: Painting) -> PaintedWords<'o, O>
        ensures out { result.out ≡ out.entry }
        ensures painting { result.painting ≡ painting }
    {
        PaintedWords {
            out,
            painting,
            place: Place::FIRST,
        }
    }
}

impl<O: Out> Out for PaintedWords<'_, O> {
    // What the other one holds is this text where nothing is painted.
    ghost device = { λ p. record {
      contents = held p.painting (O.device p.out.now).contents;
      failures = (O.device p.out.now).failures;
    } };

    fn put(&mut self, bytes: &[u8]) -> Result<(), Failed> {
        match self.painting {
            Painting::Plain => self.out.put(bytes),
            painting => paint(self.out, painting, &mut self.place, bytes),
        }
    }

    fn failures(&self) -> u64 {
        self.out.failures()
    }
}

// Hands text on, painted. At an error the other device failed, and else it did not.
fn paint<O: Out>(
    out: &mut O,
    painting: Painting,
    place: &mut Place,
    bytes: &[u8],
) -> Result<(), Failed>
    ensures { MatchResult result
        (λ _. (O.device out.new).failures ≡ (O.device out.old).failures)
        (λ _. Rose (O.device out.old).failures (O.device out.new).failures) }
{
    let mut row = Row::new();
    for byte in bytes {
        if row.remaining_capacity() < MOST {
            out.put(row.as_slice())?;
            row.clear();
        }
        push_byte(&mut row, painting, place, *byte);
    }
    out.put(row.as_slice())
}

// Adds a byte of the text.
fn push_byte(row: &mut Row, painting: Painting, place: &mut Place, byte: u8)
    requires { array_vec_len row.old + 12 ≤ 1024 }
{
    if byte == b' ' || byte == b'\n' {
        if place.is_painted {
            push(row, ENDING);
            place.is_painted = false;
        }
        if byte == b'\n' {
            *place = Place::FIRST;
        } else if place.is_word {
            place.is_word = false;
            place.words = place.words.saturating_add(1);
        }
    } else if !place.is_word {
        place.is_word = true;
        if let Some(style) = painting.style(place.words) {
            push(row, style.beginning());
            place.is_painted = true;
        }
    }
    push(row, &[byte]);
}
