//! Which characters are shown by their number.

ghost use Rattle.std.specs.Prelude.{◌≡◌};
ghost use Rattle.std.specs.Int.{is_in_range};
ghost use Rattle.page_text.specs.Shown.{is_control, is_hidden, is_turning, is_unseen};

/// Whether a character does not print, or turns the direction of text.
pub(crate) fn is_hidden(code: u32) -> bool
    ensures { result ≡ is_hidden code }
{
    is_control(code) || is_turning(code) || is_unseen(code)
}

fn is_control(code: u32) -> bool
    ensures { result ≡ is_control code }
{
    is_within(code, 0, 8) || is_within(code, 10, 31) || is_within(code, 127, 159)
}

fn is_turning(code: u32) -> bool
    ensures { result ≡ is_turning code }
{
    is_within(code, 0x61C, 0x61C)
        || is_within(code, 0x200B, 0x200F)
        || is_within(code, 0x2028, 0x202E)
        || is_within(code, 0x2060, 0x206F)
}

fn is_unseen(code: u32) -> bool
    ensures { result ≡ is_unseen code }
{
    is_within(code, 0xAD, 0xAD)
        || is_within(code, 0xFEFF, 0xFEFF)
        || is_within(code, 0xFFF0, 0xFFFB)
        || is_within(code, 0xE0000, 0xE0FFF)
}

fn is_within(code: u32, low: u32, high: u32) -> bool
    ensures { result ≡ is_in_range low high code }
{
    low <= code && code <= high
}
