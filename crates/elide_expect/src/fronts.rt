//! The outcomes that are expected, as the fronts of their lines.

ghost use Rattle.std.specs.Prelude.{◌≡◌, ◌∷◌, ◌++◌, ◌^◌, ◌<◌, ℕ, List, IfNone, IfOk, IfSome, None, [], option_map, map};
ghost use Rattle.std.specs.Prelude.{length, ◌==◌};
ghost use Rattle.std.specs.List.{list_all};
ghost use Rattle.elide_expect.specs.Outcomes.{are_alike, front_of, fronts_of, fronts_with, lists_of, value_in};
ghost use Rattle.elide_expect.specs.Outcomes.{value_text};
ghost use Rattle.elide_expect.specs.Words.{texts};

use crate::words::words_of;
use arrayvec::ArrayVec;
use ia_lex::word_number;
use std::alloc::{AllocError, Global};
use text_out::page::{push, push_eight};

/// The fronts of a beginning of the words.
#[derive(Drop)]
pub struct FrontReader {
    pub fronts: Vec<Vec<u8>>,
    pub front: Vec<u8>,
}

fn value_text(value: u32) -> ArrayVec<u8, 9>
    ensures { result.items ≡ value_text value }
{
    let mut text = ArrayVec::new();
    push_eight(&mut text, value);
    push(&mut text, b" ");
    text
}

impl FrontReader {
    fn with_value(self, value: u32) -> Result<FrontReader, AllocError>
        ensures fronts { IfOk result (λ next. next.fronts ≡ self.fronts) }
        ensures front { IfOk result (λ next. next.front.items ≡ self.front.items ++ value_text value) }
    {
        let mut front = self.front;
        front.extend_from_slice(&value_text(value))?;
        Ok(FrontReader {
            fronts: self.fronts,
            front,
        })
    }

    fn at_end(self, alloc: Global) -> Result<FrontReader, AllocError>
        ensures fronts { IfOk result
            (λ next. texts next.fronts.items ≡ texts self.fronts.items ++ self.front.items ∷ []) }
        ensures front { IfOk result (λ next. next.front.items ≡ []) }
    {
        let mut fronts = self.fronts;
        fronts.push(self.front)?;
        Ok(FrontReader {
            fronts,
            front: Vec::new(alloc),
        })
    }
}

// The number below 2^32 that a word says.
fn value_in(word: &[u8]) -> Option<u32>
    ensures { result ≡ value_in word.now }
{
    match word_number(word) {
        Some(number) => u32::try_from(number).ok(),
        None => None,
    }
}

// The fronts behind one more word; none where it says neither a value nor the end of a list.
fn with_next(
    alloc: Global,
    reader: FrontReader,
    word: &[u8],
) -> Result<Option<FrontReader>, AllocError>
    ensures some { IfOk result (λ next. IfSome next (λ next.
        (rest : List (List ℕ)) → fronts_with next rest ≡ fronts_with reader (word.now ∷ rest))) }
    ensures none { IfOk result (λ next. IfNone next
        ((rest : List (List ℕ)) → fronts_with reader (word.now ∷ rest) ≡ None)) }
{
    if word == b"|".as_slice() {
        return Ok(Some(reader.at_end(alloc)?));
    }
    match value_in(word) {
        Some(value) => Ok(Some(reader.with_value(value)?)),
        None => Ok(None),
    }
}

// The fronts of the lists that words say.
fn fronts_in(alloc: Global, words: &[Vec<u8>]) -> Result<Option<Vec<Vec<u8>>>, AllocError>
    ensures { IfOk result (λ fronts. option_map (λ some. texts some.items) fronts
        ≡ option_map (map front_of) (lists_of (texts words.now))) }
{
    let mut reader = FrontReader {
        fronts: Vec::new(alloc),
        front: Vec::new(alloc),
    };
    for word in words {
        match with_next(alloc, reader, word)? {
            Some(next) => reader = next,
            None => return Ok(None),
        }
    }
    Ok(Some(reader.at_end(alloc)?.fronts))
}

fn have_length(fronts: &[Vec<u8>], size: usize) -> bool
    ensures { result ≡ list_all (λ front. length front == size) (texts fronts.now) }
{
    for front in fronts {
        if front.len() != size {
            return false;
        }
    }
    true
}

// Whether they have as many values each, one at least.
fn are_alike(fronts: &[Vec<u8>]) -> bool
    ensures { result ≡ are_alike (texts fronts.now) }
{
    let Some((first, others)) = fronts.split_first() else {
        return false;
    };
    !first.is_empty() && have_length(others, first.len())
}

/// The fronts of the lines of the outcomes that a text says: lists of numbers below 2^32, as many in each and one at
/// least, with `|` between blanks between them. None where it says none.
pub fn fronts_of(alloc: Global, text: &[u8]) -> Result<Option<Vec<Vec<u8>>>, AllocError>
    ensures { IfOk result (λ fronts. option_map (λ some. texts some.items) fronts ≡ fronts_of text.now) }
{
    let Some(words) = words_of(alloc, text)? else {
        return Ok(None);
    };
    let Some(fronts) = fronts_in(alloc, &words)? else {
        return Ok(None);
    };
    if are_alike(&fronts) {
        Ok(Some(fronts))
    } else {
        Ok(None)
    }
}
