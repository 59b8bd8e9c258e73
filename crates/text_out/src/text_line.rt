//! A line of text in the making.

ghost use Rattle.std.specs.Prelude.{◌≡◌, ◌+◌, ◌≤◌, ◌++◌};
ghost use Rattle.arrayvec.specs.ArrayVec.{array_vec_len};
ghost use Rattle.text_out.specs.TextLine.{number_text};

use crate::page::push;
use arrayvec::ArrayVec;

/// A line, of at most 160 bytes with its line feed.
pub type TextLine = ArrayVec<u8, 160>;

/// Adds a number in decimal digits.
#[tactic(auto, unfolding(crate::specs::TextLine::number_text))]
pub fn push_number(row: &mut TextLine, n: u8)
    requires { array_vec_len row.old + 3 ≤ 160 }
    ensures text { row.new.items ≡ row.old.items ++ number_text n }
    ensures len { array_vec_len row.new ≤ array_vec_len row.old + 3 }
{
    if n < 10 {
        push(row, &[b'0' + n]);
    } else if n < 100 {
        push(row, &[b'0' + n / 10, b'0' + n % 10]);
    } else {
        push(row, &[b'0' + n / 100, b'0' + n / 10 % 10, b'0' + n % 10]);
    }
}
