//! Addresses in a command, as numbers and by symbols.

ghost use Rattle.std.specs.Prelude.{◌≡◌, ◌==◌, ◌||◌, ◌<◌, IfSome, Some, length};
ghost use Rattle.std.specs.Option.{option_or};
ghost use Rattle.debug_command.specs.Addresses.{address_in, bytes_behind_sign, is_sign, signed_sum, sum_at};
ghost use Rattle.symbols.specs.Symbols.{symbol_in};

use crate::number::number;
use symbols::{Symbol, value_of};

fn is_sign(byte: u8) -> bool
    ensures { result ≡ is_sign byte }
{
    byte == b'+' || byte == b'-'
}

// How many bytes stand behind the last sign of a word.
fn bytes_behind_sign(word: &[u8]) -> Option<usize>
    ensures count { result ≡ bytes_behind_sign word.now }
    ensures within { IfSome result (λ behind. behind < length word.now) }
{
    word.iter().rev().position(|byte| is_sign(*byte))
}

// A value and a number behind a sign.
fn signed_sum(value: u32, sign: u8, number: u64) -> u64
    ensures { result ≡ signed_sum value sign number }
{
    let value = u64::from(value);
    if sign == b'+' {
        value.saturating_add(number)
    } else if value < number {
        u64::MAX
    } else {
        value - number
    }
}

// A symbol, a sign and a number, where so many bytes stand behind the sign.
fn sum_at(behind: usize, symbols: &[Symbol], word: &[u8]) -> Option<u64>
    requires { behind < length word.now }
    ensures { result ≡ sum_at (Some behind) symbols.now word.now }
{
    let at = word.len() - 1 - behind;
    let value = value_of(symbols, &word[..at])?;
    let number = number(&word[at + 1..])?;
    Some(signed_sum(value, word[at], number))
}

// The sum that a word writes.
fn sum(symbols: &[Symbol], word: &[u8]) -> Option<u64>
    ensures { result ≡ sum_at (bytes_behind_sign word.now) symbols.now word.now }
{
    let behind = bytes_behind_sign(word)?;
    sum_at(behind, symbols, word)
}

// The address of a symbol, or of a sum.
fn named(symbols: &[Symbol], word: &[u8]) -> Option<u64>
    ensures { result ≡ option_or (symbol_in symbols.now word.now)
        (sum_at (bytes_behind_sign word.now) symbols.now word.now) }
{
    match value_of(symbols, word) {
        Some(value) => Some(u64::from(value)),
        None => sum(symbols, word),
    }
}

/// The address that a word writes: that of a number, else of the first symbol of this name, else of a symbol with a
/// number behind its last sign. `None` where it writes none of these. What lies below 0 or above `u64::MAX` is told as
/// `u64::MAX`.
pub fn read_address(symbols: &[Symbol], word: &[u8]) -> Option<u64>
    ensures { result ≡ address_in symbols.now word.now }
{
    match number(word) {
        Some(value) => Some(value),
        None => named(symbols, word),
    }
}
