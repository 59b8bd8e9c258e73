//! Numbers in a packet: hex digits without a sign, at most 2^32 - 1; one that is larger is none.

ghost use Rattle.std.specs.Prelude.{◌≡◌, ◌∷◌, ℕ, List, MatchOption, None, IfSome, ◌<◌};
ghost use Rattle.hex.specs.Hex.{hex_digit_value};
ghost use Rattle.gdb_packet.specs.Numbers.{fitting, number_in, with_digits};

// The value of a hex digit.
fn digit_value(byte: u8) -> Option<u32>
    ensures value { result ≡ hex_digit_value byte }
    ensures small { IfSome result (λ digit. digit < 16) }
{
    if 65 <= byte && byte <= 70 {
        Some(u32::from(byte - 55))
    } else if 97 <= byte && byte <= 102 {
        Some(u32::from(byte - 87))
    } else if 48 <= byte && byte <= 57 {
        Some(u32::from(byte - 48))
    } else {
        None
    }
}

// A number with one digit more, at most 2^32 - 1.
#[tactic(auto, unfolding(crate::specs::Numbers::with_digits))]
fn with_digit(number: u32, byte: u8) -> Option<u32>
    ensures { (text : List ℕ) → MatchOption result (with_digits number (byte ∷ text) ≡ None)
        (λ next. with_digits number (byte ∷ text) ≡ with_digits next text) }
{
    match digit_value(byte) {
        Some(digit) => fitting(16 * u64::from(number) + u64::from(digit)),
        None => None,
    }
}

fn fitting(number: u64) -> Option<u32>
    ensures { result ≡ fitting number }
{
    if number < 0x1_0000_0000 {
        Some(number as u32)
    } else {
        None
    }
}

fn with_digits(text: &[u8]) -> Option<u32>
    ensures { result ≡ with_digits 0 text.now }
{
    let mut number = 0;
    'digits: for index in 0..text.len() {
        match with_digit(number, text[index]) {
            Some(next) => number = next,
            None => return None,
        }
    }
    Some(number)
}

/// The number of at most 2^32 - 1 that hex digits write, at least one.
pub fn number_in(text: &[u8]) -> Option<u32>
    ensures { result ≡ number_in text.now }
{
    if text.is_empty() {
        None
    } else {
        with_digits(text)
    }
}
