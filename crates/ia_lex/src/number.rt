//! Numbers as a source writes them: decimal, hex (0x in front or h behind) and binary, of 64 bits. A word that begins
//! with a digit is a number or a fault, never a name.

ghost use Rattle.std.specs.Prelude.{◌≡◌, ◌≤◌, ◌<◌, ◌+◌, ◌*◌, ℕ, length};
ghost use Rattle.std.specs.Char.{digit_value};
ghost use Rattle.std.specs.Str.Parse.{digits_value};
ghost use Rattle.ia_lex.specs.Numbers.{all_digits, small, suffixed, is_prefixed, number_of, word_number};

use crate::chars::digit_value;

#[tactic(auto, using(crate::proofs::Fronts::all_step, crate::proofs::Fronts::all_stop, crate::proofs::Fronts::all_end))]
/// Whether these are digits in that base, at least one.
fn all_digits(radix: u8, bytes: &[u8]) -> bool
    ensures { result ≡ all_digits radix bytes.now }
{
    for b in bytes {
        if digit_value(*b) >= radix {
            return false;
        }
    }
    !bytes.is_empty()
}

fn with_digit(radix: u8, sum: u64, digit: u8) -> Option<u64>
    ensures { result ≡ small (sum * radix + digit_value digit) }
{
    let product = u128::from(sum) * u128::from(radix) + u128::from(digit_value(digit));
    if product > u128::from(u64::MAX) {
        None
    } else {
        Some(product as u64)
    }
}

#[tactic(auto, using(crate::proofs::Fronts::value_steps))]
/// The value of digits, or none where it is above u64::MAX.
fn value(radix: u8, bytes: &[u8]) -> Option<u64>
    requires { 2 ≤ radix }
    ensures { result ≡ small (digits_value radix bytes.now) }
{
    let mut sum: u64 = 0;
    for b in bytes {
        match with_digit(radix, sum, *b) {
            Some(next) => sum = next,
            None => return None,
        }
    }
    Some(sum)
}

#[tactic(auto, unfolding(crate::specs::Numbers::suffixed))]
fn suffixed(word: &[u8]) -> Option<Option<u64>>
    requires { 0 < length word.now }
    ensures { result ≡ suffixed word.now }
{
    let front = &word[..word.len() - 1];
    let last = word[word.len() - 1];
    if last == b'h' {
        if all_digits(16, front) {
            Some(value(16, front))
        } else {
            None
        }
    } else if last == b'b' {
        if all_digits(2, front) {
            Some(value(2, front))
        } else {
            None
        }
    } else {
        None
    }
}

fn is_prefixed(word: &[u8]) -> bool
    ensures { result ≡ is_prefixed word.now }
{
    if word.len() > 2 {
        word[0] == b'0' && word[1] == b'x' && all_digits(16, &word[2..])
    } else {
        false
    }
}

/// The number that a word beginning with a digit writes.
#[tactic(auto, unfolding(crate::specs::Numbers::number_of))]
pub fn number(word: &[u8]) -> Option<Option<u64>>
    requires { 0 < length word.now }
    ensures { result ≡ number_of word.now }
{
    if is_prefixed(word) {
        Some(value(16, &word[2..]))
    } else if all_digits(10, word) {
        Some(value(10, word))
    } else {
        suffixed(word)
    }
}

/// The number that a word writes: decimal digits, `0x` and hex digits, hex digits with a decimal one in front and a
/// final `h`, or binary digits and a final `b`. `None` where it writes none, or one above 2^64 - 1. A number begins
/// with a digit.
pub fn word_number(word: &[u8]) -> Option<u64>
    ensures { result ≡ word_number word.now }
{
    match word.first() {
        Some(first) if first.is_ascii_digit() => number(word)?,
        _ => None,
    }
}
