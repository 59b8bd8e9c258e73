//! Words in any case, and the names of registers.

ghost use Rattle.std.specs.Prelude.{◌≡◌, map};
ghost use Rattle.ia_lex.specs.Words.{lower, is_word, row, find_word, register_of};

use ia_word::Width;

fn lower(byte: u8) -> u8
    ensures { result ≡ lower byte }
{
    if b'A' <= byte && byte <= b'Z' {
        byte + 32
    } else {
        byte
    }
}

fn has_letters(name: &[u8], word: &[u8]) -> bool
    ensures { result ≡ is_word name.now word.now }
{
    match (name.split_first(), word.split_first()) {
        (None, None) => true,
        (Some((a, name)), Some((b, word))) => *a == lower(*b) && has_letters(name, word),
        _ => false,
    }
}

/// Whether a word is this name, in any case. The name is in lower case. Lengths are compared first, since most words
/// that are compared are of another.
#[tactic(auto, using(crate::proofs::Lengths::other_length))]
pub fn is_word(name: &[u8], word: &[u8]) -> bool
    ensures { result ≡ is_word name.now word.now }
{
    name.len() == word.len() && has_letters(name, word)
}

static REGISTERS: [(&str, (Width, u8)); 16] = [
    ("eax", (Width::D, 0)),
    ("ecx", (Width::D, 1)),
    ("edx", (Width::D, 2)),
    ("ebx", (Width::D, 3)),
    ("esp", (Width::D, 4)),
    ("ebp", (Width::D, 5)),
    ("esi", (Width::D, 6)),
    ("edi", (Width::D, 7)),
    ("al", (Width::B, 0)),
    ("cl", (Width::B, 1)),
    ("dl", (Width::B, 2)),
    ("bl", (Width::B, 3)),
    ("ah", (Width::B, 4)),
    ("ch", (Width::B, 5)),
    ("dh", (Width::B, 6)),
    ("bh", (Width::B, 7)),
];

/// What stands beside the first of these names that a word is, in any case. The names are in lower case.
#[tactic(auto, using(crate::proofs::Rows::row_step, crate::proofs::Rows::row_stop, crate::proofs::Rows::row_end))]
pub fn find_word<T: Copy>(rows: &[(&str, T)], word: &[u8]) -> Option<T>
    ensures { result ≡ find_word (map row rows.now) word.now }
{
    for (i, row) in rows.iter().enumerate() {
        if is_word(row.0.as_bytes(), word) {
            return Some(row.1);
        }
    }
    None
}

/// The width and the number of a register, by its name in any case.
pub fn register_of(word: &[u8]) -> Option<(Width, u8)>
    ensures { result ≡ register_of word.now }
{
    find_word(&REGISTERS, word)
}
