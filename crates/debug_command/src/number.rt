//! Whether a word is a number in a command: decimal, hex or binary digits, in the assembler's spellings, however many.
//! Its value is `ia_lex`'s.

ghost use Rattle.std.specs.Prelude.{◌≡◌, ◌==◌, ◌||◌, ◌<◌, length};
ghost use Rattle.std.specs.Char.{is_ascii_digit, is_ascii_hexdigit};
ghost use Rattle.std.specs.List.{list_all};
ghost use Rattle.debug_command.specs.Numbers.{is_number, is_prefixed, is_suffixed, number_in};

use ia_lex::word_number;

fn are_hex(bytes: &[u8]) -> bool
    ensures { result ≡ list_all is_ascii_hexdigit bytes.now }
{
    bytes.iter().all(|b| b.is_ascii_hexdigit())
}

fn are_decimal(bytes: &[u8]) -> bool
    ensures { result ≡ list_all is_ascii_digit bytes.now }
{
    bytes.iter().all(|b| b.is_ascii_digit())
}

fn are_binary(bytes: &[u8]) -> bool
    ensures { result ≡ list_all (λ b. (b == 48) || (b == 49)) bytes.now }
{
    bytes.iter().all(|b| *b == b'0' || *b == b'1')
}

fn is_prefixed(word: &[u8]) -> bool
    ensures { result ≡ is_prefixed word.now }
{
    if word.len() > 2 {
        word[0] == b'0' && word[1] == b'x' && are_hex(&word[2..])
    } else {
        false
    }
}

fn is_suffixed(last: u8, front: &[u8]) -> bool
    ensures { result ≡ is_suffixed last front.now }
{
    (last == b'h' && are_hex(front)) || (last == b'b' && are_binary(front))
}

// Whether a word is a number, however large.
#[tactic(auto, unfolding(crate::specs::Numbers::is_number))]
fn is_number(word: &[u8]) -> bool
    ensures { result ≡ is_number word.now }
{
    if word.len() > 1 && word[0].is_ascii_digit() {
        let at = word.len() - 1;
        is_prefixed(word) || are_decimal(word) || is_suffixed(word[at], &word[..at])
    } else {
        false
    }
}

/// The number that a word writes, or nothing where it writes none. One above `u64::MAX` is read as `u64::MAX`.
pub fn number(word: &[u8]) -> Option<u64>
    ensures { result ≡ number_in word.now }
{
    match word_number(word) {
        Some(value) => Some(value),
        None => {
            if is_number(word) {
                Some(u64::MAX)
            } else {
                None
            }
        }
    }
}
