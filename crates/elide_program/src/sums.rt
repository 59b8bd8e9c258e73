//! Sums of symbols and numbers, as options have them for addresses.
//!
//! [`is_sum`] tests the form, without a program; [`sum_of`] has the value, by the program's symbols, and is `None`
//! where a term is none of them. Signs go from left to right, and values modulo 2^32, so that no sum is too great.
//! Spaces may stand around each term.

ghost use Rattle.std.specs.Prelude.{◌≡◌, ◌+◌, ◌%◌, ◌^◌, ◌++◌, ◌<◌, ◌≤◌, ℕ, false, length, slice_index, true};
ghost use Rattle.std.specs.List.{list_all, slice_split};
ghost use Rattle.elide_program.specs.Forms.{behind_sign, is_sum_form, is_term, is_word, trimmed};
ghost use Rattle.elide_program.specs.Sums.{BeginsWithSign, HasNoSign, IsSum, IsSumBehind, IsTerm};
ghost use Rattle.elide_program.specs.Sums.{IsTrimmedSum, is_sign, signed};

use crate::file::ProgramFile;
use crate::number::number_in;

/// The value modulo 2^32 of a sum of a file's symbols and numbers: terms with `+` or `-` between them, of which the
/// first may have one in front, too. None where a term is neither a number nor a symbol.
pub fn sum_of(text: &str, file: &ProgramFile<'_>) -> Option<u32>
    ensures { IsSum file.now text.now result }
{
    trimmed_sum(text.as_bytes().trim_ascii(), file)
}

// What [`sum_of`] answers, of a sum without the spaces around it.
fn trimmed_sum(text: &[u8], file: &ProgramFile<'_>) -> Option<u32>
    ensures { IsTrimmedSum file.now text.now result }
{
    match text {
        [] => sum_behind(b'+', text, file),
        [sign, rest @ ..] => {
            if is_sign(*sign) {
                sum_behind(*sign, rest, file)
            } else {
                sum_behind(b'+', text, file)
            }
        }
    }
}

/// Whether a text has the form of a sum: each term is a number, or may be a symbol's name.
pub fn is_sum(text: &str) -> bool
    ensures { result ≡ is_sum_form text.now }
{
    are_terms(behind_sign(trimmed(text.as_bytes())))
}

// Without the spaces around it.
fn trimmed(bytes: &[u8]) -> &[u8]
    ensures { result.now ≡ trimmed bytes.now }
{
    bytes.trim_ascii()
}

// What stands behind a sign in front, where there is one.
fn behind_sign(bytes: &[u8]) -> &[u8]
    ensures { result.now ≡ behind_sign bytes.now }
{
    match bytes {
        [sign, rest @ ..] => if is_sign(*sign) { rest } else { bytes },
        [] => bytes,
    }
}

// Whether what stands between signs are terms.
fn are_terms(bytes: &[u8]) -> bool
    ensures { result ≡ list_all is_term (slice_split is_sign bytes.now) }
{
    bytes.split(|byte| is_sign(*byte)).all(|term| is_term(term))
}

// Whether a term is a word with spaces around it.
fn is_term(term: &[u8]) -> bool
    ensures { result ≡ is_term term.now }
{
    is_word(trimmed(term))
}

// Whether a word is a number below 2^32, or may be a symbol's name.
fn is_word(word: &[u8]) -> bool
    ensures { result ≡ is_word word.now }
{
    match word {
        [first, ..] => number_in(word).is_some() || !first.is_ascii_digit(),
        [] => number_in(word).is_some(),
    }
}

// The value of what stands behind the first sign.
fn sum_behind(first: u8, text: &[u8], file: &ProgramFile<'_>) -> Option<u32>
    ensures { IsSumBehind file.now first text.now result }
{
    let mut sum: u32 = 0;
    let mut sign = first;
    let mut rest = text;
    'terms: loop {
        let (term, others) = split_at_sign(rest);
        sum = with_term(sum, sign, term_of(term, file)?);
        match others {
            [] => return Some(sum),
            [next, more @ ..] => {
                sign = *next;
                rest = more;
            }
        }
    }
}

// A sum and a term with its sign.
fn with_term(sum: u32, sign: u8, value: u32) -> u32
    ensures { result ≡ (sum + signed sign value) % 2 ^ 32 }
{
    if sign == b'-' {
        sum.wrapping_sub(value)
    } else {
        sum.wrapping_add(value)
    }
}

// The value of a number, or of a symbol.
fn term_of(term: &[u8], file: &ProgramFile<'_>) -> Option<u32>
    ensures { IsTerm file.now term.now result }
{
    let word = term.trim_ascii();
    match number_in(word) {
        Some(number) => Some(number),
        None => file.symbol(word),
    }
}

// The bytes up to the first sign, and the others.
fn split_at_sign(text: &[u8]) -> (&[u8], &[u8])
    ensures whole { text.now ≡ result.0.now ++ result.1.now }
    ensures term { HasNoSign result.0.now }
    ensures others { BeginsWithSign result.1.now }
{
    let at = sign_at(text);
    (&text[..at], &text[at..])
}

// Where the first sign stands, or the end.
fn sign_at(text: &[u8]) -> usize
    ensures bound { result ≤ length text.now }
    ensures front { (k : ℕ) → k < result → is_sign (slice_index text.now k) ≡ false }
    ensures sign { result < length text.now → is_sign (slice_index text.now result) ≡ true }
{
    for at in 0..text.len() {
        if is_sign(text[at]) {
            return at;
        }
    }
    text.len()
}

fn is_sign(byte: u8) -> bool
    ensures { result ≡ is_sign byte }
{
    byte == b'+' || byte == b'-'
}
