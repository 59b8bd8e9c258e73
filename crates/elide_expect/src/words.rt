//! The words of a command, read a byte at a time, with blanks between and quotes as a shell has them. Nothing is
//! expanded.

ghost use Rattle.std.specs.Prelude.{◌≡◌, ◌∷◌, ◌++◌, [], ℕ, List, IfOk, option_map};
ghost use Rattle.ia_lex.specs.Chars.{is_blank, is_quote};
ghost use Rattle.elide_expect.specs.Words.{texts, words_of, words_with};

use std::alloc::{AllocError, Global};

/// Where the next byte of a command stands.
#[derive(Clone, Copy, PartialEq, Eq)]
pub enum Place {
    /// Between words.
    Between,
    /// Within a word, or right behind it.
    Within,
    /// Within this quote, `'` or `"`.
    Quoted(u8),
}

/// The words of a beginning of a command.
#[derive(Drop)]
pub struct WordReader {
    pub words: Vec<Vec<u8>>,
    pub word: Vec<u8>,
    pub place: Place,
}

impl WordReader {
    // Goes on at another place.
    fn at(self, place: Place) -> WordReader
        ensures words { result.words ≡ self.words }
        ensures word { result.word ≡ self.word }
        ensures place { result.place ≡ place }
    {
        WordReader {
            words: self.words,
            word: self.word,
            place,
        }
    }

    // The byte is of the word.
    fn with_byte(self, byte: u8, place: Place) -> Result<WordReader, AllocError>
        ensures words { IfOk result (λ next. next.words ≡ self.words) }
        ensures word { IfOk result (λ next. next.word.items ≡ self.word.items ++ byte ∷ []) }
        ensures place { IfOk result (λ next. next.place ≡ place) }
    {
        let mut word = self.word;
        word.push(byte)?;
        Ok(WordReader {
            words: self.words,
            word,
            place,
        })
    }

    // The word ends.
    fn at_end(self, alloc: Global) -> Result<WordReader, AllocError>
        ensures words { IfOk result (λ next. texts next.words.items ≡ texts self.words.items ++ self.word.items ∷ []) }
        ensures word { IfOk result (λ next. next.word.items ≡ []) }
        ensures place { IfOk result (λ next. next.place ≡ Place.Between) }
    {
        let mut words = self.words;
        words.push(self.word)?;
        Ok(WordReader {
            words,
            word: Vec::new(alloc),
            place: Place::Between,
        })
    }
}

fn is_blank(byte: u8) -> bool
    ensures { result ≡ is_blank byte }
{
    byte == b' ' || byte == b'\t'
}

fn is_quote(byte: u8) -> bool
    ensures { result ≡ is_quote byte }
{
    byte == b'\'' || byte == b'"'
}

// The words behind one more byte.
fn with_next(alloc: Global, reader: WordReader, byte: u8) -> Result<WordReader, AllocError>
    ensures { IfOk result (λ next. (rest : List ℕ) → words_with next rest ≡ words_with reader (byte ∷ rest)) }
{
    match reader.place {
        Place::Quoted(quote) => {
            if byte == quote {
                Ok(reader.at(Place::Within))
            } else {
                reader.with_byte(byte, Place::Quoted(quote))
            }
        }
        Place::Within => {
            if is_blank(byte) {
                reader.at_end(alloc)
            } else if is_quote(byte) {
                Ok(reader.at(Place::Quoted(byte)))
            } else {
                reader.with_byte(byte, Place::Within)
            }
        }
        Place::Between => {
            if is_blank(byte) {
                Ok(reader)
            } else if is_quote(byte) {
                Ok(reader.at(Place::Quoted(byte)))
            } else {
                reader.with_byte(byte, Place::Within)
            }
        }
    }
}

// The words at the end of the command.
fn ended(reader: WordReader) -> Result<Option<Vec<Vec<u8>>>, AllocError>
    ensures { IfOk result (λ words. option_map (λ some. texts some.items) words ≡ words_with reader []) }
{
    let mut words = reader.words;
    match reader.place {
        Place::Quoted(_quote) => return Ok(None),
        Place::Within => words.push(reader.word)?,
        Place::Between => {
            if !reader.word.is_empty() {
                words.push(reader.word)?;
            }
        }
    }
    Ok(Some(words))
}

/// The words of a text: between blanks, where what stands within `'..'` or `".."` is of one word, and nothing is
/// escaped. None where a quote does not end.
pub fn words_of(alloc: Global, text: &[u8]) -> Result<Option<Vec<Vec<u8>>>, AllocError>
    ensures { IfOk result (λ words. option_map (λ some. texts some.items) words ≡ words_of text.now) }
{
    let mut reader = WordReader {
        words: Vec::new(alloc),
        word: Vec::new(alloc),
        place: Place::Between,
    };
    for byte in text {
        reader = with_next(alloc, reader, *byte)?;
    }
    ended(reader)
}
