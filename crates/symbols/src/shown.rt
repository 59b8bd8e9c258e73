//! How the name of a symbol is shown, so that it drives no terminal and has no space.
//!
//! [`shown_name`] makes the text, and [`shown_otherwise`] only where it is not the name itself. Whole names are meant:
//! cutting one that is long is `symbols`'s. JSON and pictures, which escape on their own, ask for none of this.

ghost use Rattle.std.specs.Prelude.{◌≡◌, ◌++◌, IfOk, OnOk, true};
ghost use Rattle.std.specs.List.{list_all};
ghost use Rattle.std.specs.Char.{is_ascii_graphic};
ghost use Rattle.symbols.specs.Shown.{is_plain, letter_of, octal, octal_digit, shown_byte, shown_name, shown_of};

use std::alloc::{AllocError, Global};

/// The name of a symbol as text for a terminal and for columns: each byte of `!` to `~` stands for itself, but for the
/// backslash; a tab, a line feed, a carriage return and a backslash are `\t`, `\n`, `\r` and `\\`; every other byte is
/// a backslash and three octal digits, as `\033`, so that a C string of this text has the bytes of the name. A space is
/// `\040`, since the columns of `stats` part at spaces, and so are the bytes from 80 hex on, some of which terminals
/// obey (ECMA-48, 5.3).
///
/// Names of sources are shown as they are. [`AllocError`] where there is no memory.
#[tactic(auto, using(crate::proofs::Showing::graphic_text))]
pub fn shown_name(alloc: Global, name: &[u8]) -> Result<Vec<u8>, AllocError>
    ensures text { IfOk result (λ shown. shown.items ≡ shown_name name.now) }
    ensures graphic { IfOk result (λ shown. list_all is_ascii_graphic shown.items ≡ true) }
    ensures plain { list_all is_plain name.now ≡ true → IfOk result (λ shown. shown.items ≡ name.now) }
{
    let mut shown = Vec::new(alloc);
    'bytes: for index in 0..name.len() {
        push_byte(&mut shown, name[index])?;
    }
    Ok(shown)
}

/// What [`shown_name`] answers, where that is another text than the name: most names are shown as they are, and need no
/// second text.
pub(crate) fn shown_otherwise(alloc: Global, name: &[u8]) -> Result<Option<Vec<u8>>, AllocError>
    ensures { IfOk result (λ shown. shown_of name.now shown ≡ shown_name name.now) }
{
    if is_shown_as_it_is(name) {
        return Ok(None);
    }
    let shown = shown_name(alloc, name)?;
    Ok(Some(shown))
}

// Whether each byte of a name stands for itself.
fn is_shown_as_it_is(name: &[u8]) -> bool
    ensures { result ≡ list_all is_plain name.now }
{
    name.iter().all(|byte| is_plain(*byte))
}

// Adds a byte of a name, as it is shown.
fn push_byte(shown: &mut Vec<u8>, byte: u8) -> Result<(), AllocError>
    ensures { OnOk result (shown.new.items ≡ shown.old.items ++ shown_byte byte) }
{
    if is_plain(byte) {
        return shown.extend_from_slice(&[byte]);
    }
    shown.extend_from_slice(b"\\")?;
    match letter_of(byte) {
        Some(letter) => shown.extend_from_slice(&[letter]),
        None => shown.extend_from_slice(&octal(byte)),
    }
}

/// Whether a byte stands for itself.
pub fn is_plain(byte: u8) -> bool
    ensures { result ≡ is_plain byte }
{
    byte.is_ascii_graphic() && byte != b'\\'
}

// The letter that stands for a byte behind a backslash, where there is one.
fn letter_of(byte: u8) -> Option<u8>
    ensures { result ≡ letter_of byte }
{
    match byte {
        b'\t' => Some(b't'),
        b'\n' => Some(b'n'),
        b'\r' => Some(b'r'),
        b'\\' => Some(b'\\'),
        _ => None,
    }
}

// The three octal digits of a byte.
fn octal(byte: u8) -> [u8; 3]
    ensures { result ≡ octal byte }
{
    [
        octal_digit(byte / 64),
        octal_digit(byte / 8),
        octal_digit(byte),
    ]
}

// The last octal digit of a number.
fn octal_digit(number: u8) -> u8
    ensures { result ≡ octal_digit number }
{
    b'0' + number % 8
}
