//! Numbers and names of the command line, in the forms that sources have.
//!
//! [`word32`] and [`number_in`] answer nothing for what is no number below 2^32; which option that makes misused is
//! said where it is read. Whether a name is a symbol's is not asked here.

ghost use Rattle.std.specs.Prelude.{◌≡◌};
ghost use Rattle.std.specs.List.{list_all};
ghost use Rattle.elide_program.specs.Entries.{is_name, is_name_part};
ghost use Rattle.elide_program.specs.Settings.{word32};

use ia_lex::word_number;

/// The number that a word writes, where it is one below 2^32: decimal, hex after `0x`, hex with a leading digit and a
/// final `h`, or binary with a final `b`.
pub fn word32(word: &str) -> Option<u32>
    ensures { result ≡ word32 word.now }
{
    number_in(word.as_bytes())
}

/// The number that [`word32`] reads, of bytes.
pub fn number_in(word: &[u8]) -> Option<u32>
    ensures { result ≡ word32 word.now }
{
    u32::try_from(word_number(word)?).ok()
}

/// Whether a word is a name: letters, digits, `_` and `.`, not beginning with a digit.
pub fn is_name(word: &str) -> bool
    ensures { result ≡ is_name word.now }
{
    match word.as_bytes() {
        [] => false,
        [first, ..] => !first.is_ascii_digit() && are_name_parts(word.as_bytes()),
    }
}

fn are_name_parts(word: &[u8]) -> bool
    ensures { result ≡ list_all is_name_part word.now }
{
    word.iter().all(|byte| is_name_part(*byte))
}

fn is_name_part(byte: u8) -> bool
    ensures { result ≡ is_name_part byte }
{
    byte.is_ascii_alphanumeric() || byte == b'_' || byte == b'.'
}
