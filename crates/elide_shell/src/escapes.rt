//! Texts from outside, with C's escapes in place of control characters.

ghost use Rattle.std.specs.Prelude.{◌≡◌, OnOk};
ghost use Rattle.text_out.specs.Writing.{Wrote};
ghost use Rattle.elide_shell.specs.Controls.{before_mark, ends_control, escape, escaped, escaped_behind, escaped_byte};
ghost use Rattle.elide_shell.specs.Controls.{first_escaped, has_control, is_c1, is_of_control, letter_of, mark_byte};
ghost use Rattle.elide_shell.specs.Controls.{octal_digit};

use text_out::{Failed, Out};

/// What else a text that is shown does not have by itself.
#[derive(Clone, Copy)]
pub enum Mark {
    /// Nothing but a backslash, before which another stands.
    Backslash,
    /// A `#` too, with a backslash before it, as in a line of the Test Anything Protocol.
    Hash,
    /// A `'`, with a backslash before it, as between the quotes of `$'..'`.
    Quote,
    /// A `'`, with another before it, as between single quotes of YAML.
    DoubledQuote,
}

impl Mark {
    fn byte(self) -> u8
        ensures { result ≡ mark_byte self }
    {
        match self {
            Mark::Backslash => b'\\',
            Mark::Hash => b'#',
            Mark::Quote | Mark::DoubledQuote => b'\'',
        }
    }

    // What stands before it.
    fn before(self) -> u8
        ensures { result ≡ before_mark self }
    {
        match self {
            Mark::Backslash | Mark::Hash | Mark::Quote => b'\\',
            Mark::DoubledQuote => b'\'',
        }
    }
}

/// Writes a text as it is shown to a person, so that it drives no terminal and ends no line: each byte of a control
/// character as C's escape, `\t`, `\n`, `\r`, or a backslash and three octal digits, as `\033`; a backslash as two; and
/// what stands before a mark, where the text has one.
///
/// Control characters are those below 32, 127, and those of 128 to 159, which some terminals obey (ECMA-48, 5.3).
#[tactic(auto, unfolding(crate::specs::Controls::escaped))]
pub fn put_escaped<O: Out>(text: &str, mark: Mark, out: &mut O) -> Result<(), Failed>
    ensures { OnOk result (Wrote (O.device out.old) (O.device out.new) (escaped mark text.now)) }
{
    put_bytes(text.as_bytes(), mark, out)
}

fn put_bytes<O: Out>(text: &[u8], mark: Mark, out: &mut O) -> Result<(), Failed>
    ensures { OnOk result (Wrote (O.device out.old) (O.device out.new) (escaped_behind mark 0 text.now)) }
{
    let mut before = 0;
    'bytes: for at in 0..text.len() {
        put_first(&text[at..], mark, before, out)?;
        before = text[at];
    }
    Ok(())
}

// Writes the first byte of a text that stands behind this one.
fn put_first<O: Out>(text: &[u8], mark: Mark, before: u8, out: &mut O) -> Result<(), Failed>
    ensures { OnOk result (Wrote (O.device out.old) (O.device out.new) (first_escaped mark before text.now)) }
{
    match text {
        [] => Ok(()),
        [byte] => put_byte(mark, is_of_control(before, *byte, 0), *byte, out),
        [byte, next, ..] => put_byte(mark, is_of_control(before, *byte, *next), *byte, out),
    }
}

fn put_byte<O: Out>(mark: Mark, is_hidden: bool, byte: u8, out: &mut O) -> Result<(), Failed>
    ensures { OnOk result (Wrote (O.device out.old) (O.device out.new) (escaped_byte mark is_hidden byte)) }
{
    if is_hidden {
        put_escape(byte, out)
    } else if byte == b'\\' {
        out.put(b"\\\\")
    } else if byte == mark.byte() {
        out.put(&[mark.before(), byte])
    } else {
        out.put(&[byte])
    }
}

fn put_escape<O: Out>(byte: u8, out: &mut O) -> Result<(), Failed>
    ensures { OnOk result (Wrote (O.device out.old) (O.device out.new) (escape byte)) }
{
    match letter_of(byte) {
        Some(letter) => out.put(&[b'\\', letter]),
        None => out.put(&[
            b'\\',
            octal_digit(byte / 64),
            octal_digit(byte / 8),
            octal_digit(byte),
        ]),
    }
}

// The letter that stands for a byte behind a backslash, where there is one.
fn letter_of(byte: u8) -> Option<u8>
    ensures { result ≡ letter_of byte }
{
    match byte {
        b'\t' => Some(b't'),
        b'\n' => Some(b'n'),
        b'\r' => Some(b'r'),
        _ => None,
    }
}

// The last octal digit of a number.
fn octal_digit(number: u8) -> u8
    ensures { result ≡ octal_digit number }
{
    b'0' + number % 8
}

/// Whether a text has a control character.
pub(crate) fn has_control(text: &[u8]) -> bool
    ensures { result ≡ has_control 0 text.now }
{
    let mut before = 0;
    for byte in text {
        if ends_control(before, *byte) {
            return true;
        }
        before = *byte;
    }
    false
}

// Whether a byte is of a control character, by the bytes before it and behind it.
fn is_of_control(before: u8, byte: u8, next: u8) -> bool
    ensures { result ≡ is_of_control before byte next }
{
    ends_control(before, byte) || is_c1(byte, next)
}

// Whether a control character ends with a byte.
fn ends_control(before: u8, byte: u8) -> bool
    ensures { result ≡ ends_control before byte }
{
    byte.is_ascii_control() || is_c1(before, byte)
}

// Whether these bytes are a control character of 128 to 159.
fn is_c1(first: u8, second: u8) -> bool
    ensures { result ≡ is_c1 first second }
{
    first == 0xc2 && (0x80..=0x9f).contains(&second)
}
