//! How a character stands in a page.

ghost use Rattle.std.specs.Prelude.{◌≡◌, ◌+◌, ◌<◌, ◌≤◌, ◌++◌};
ghost use Rattle.std.specs.Char.{digit_char};
ghost use Rattle.arrayvec.specs.ArrayVec.{array_vec_len};
ghost use Rattle.page_text.specs.Escaped.{escaped_char, is_plain, number_text, unit_text, units_text};

use text_out::page::{Page, push, push_hex};

/// Where a text stands.
#[derive(Clone, Copy, PartialEq, Eq, Debug)]
pub enum Escape {
    /// In a string of JSON.
    Json,
    /// Between two tags.
    Markup,
}

/// Adds a character.
#[tactic(auto, unfolding(crate::specs::Escaped::escaped_char))]
pub(crate) fn push_escaped(page: &mut Page, escape: Escape, code: u32)
    requires small { code < 0x110000 }
    requires room { array_vec_len page.old + 12 ≤ 4096 }
    ensures text { page.new.items ≡ page.old.items ++ escaped_char escape code }
    ensures len { array_vec_len page.new ≤ array_vec_len page.old + 12 }
{
    if is_plain(code) {
        push(page, &[code as u8]);
    } else {
        push_number(page, escape, code);
    }
}

// Whether a character stands for itself.
fn is_plain(code: u32) -> bool
    ensures { result ≡ is_plain code }
{
    32 <= code && code <= 126 && code != 38 && code != 60 && code != 62 && code != 34 && code != 92
}

// Adds a character by its number.
fn push_number(page: &mut Page, escape: Escape, code: u32)
    requires small { code < 0x110000 }
    requires room { array_vec_len page.old + 12 ≤ 4096 }
    ensures text { page.new.items ≡ page.old.items ++ number_text escape code }
    ensures len { array_vec_len page.new ≤ array_vec_len page.old + 12 }
{
    match escape {
        Escape::Json => push_units(page, code),
        Escape::Markup => {
            push(page, b"&#x");
            push_hex(page, code);
            push(page, b";");
        }
    }
}

// Adds one unit of UTF-16, or the two of a pair.
fn push_units(page: &mut Page, code: u32)
    requires small { code < 0x110000 }
    requires room { array_vec_len page.old + 12 ≤ 4096 }
    ensures text { page.new.items ≡ page.old.items ++ units_text code }
    ensures len { array_vec_len page.new ≤ array_vec_len page.old + 12 }
{
    if code < 0x10000 {
        push_unit(page, code);
    } else {
        push_unit(page, 0xD800 + (code - 0x10000) / 1024);
        push_unit(page, 0xDC00 + (code - 0x10000) % 1024);
    }
}

fn push_unit(page: &mut Page, unit: u32)
    requires small { unit < 0x10000 }
    requires room { array_vec_len page.old + 6 ≤ 4096 }
    ensures text { page.new.items ≡ page.old.items ++ unit_text unit }
    ensures len { array_vec_len page.new ≡ array_vec_len page.old + 6 }
{
    push(
        page,
        &[
            b'\\',
            b'u',
            digit(unit / 4096),
            digit(unit / 256 % 16),
            digit(unit / 16 % 16),
            digit(unit % 16),
        ],
    );
}

fn digit(value: u32) -> u8
    requires { value < 16 }
    ensures { result ≡ digit_char value }
{
    if value < 10 {
        48 + value as u8
    } else {
        87 + value as u8
    }
}
