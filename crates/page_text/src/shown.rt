//! What is shown of a character.

ghost use Rattle.std.specs.Prelude.{◌≡◌, ◌+◌, ◌<◌, ◌≤◌, ◌++◌};
ghost use Rattle.arrayvec.specs.ArrayVec.{array_vec_len};
ghost use Rattle.page_text.specs.Escaped.{escaped};
ghost use Rattle.page_text.specs.Shown.{by_number, shown_char};

use crate::escape::{Escape, push_escaped};
use crate::hidden::is_hidden;
use text_out::page::{Page, push, push_hex};

/// The most bytes that stand for a character.
pub(crate) const ROOM: usize = 24;

/// Adds a character, or its number where it is hidden.
pub(crate) fn push_shown(page: &mut Page, escape: Escape, code: u32)
    requires small { code < 0x110000 }
    requires room { array_vec_len page.old + 24 ≤ 4096 }
    ensures text { page.new.items ≡ page.old.items ++ escaped escape (shown_char code) }
    ensures len { array_vec_len page.new ≤ array_vec_len page.old + 24 }
{
    if is_hidden(code) {
        push_by_number(page, escape, code);
    } else {
        push_escaped(page, escape, code);
    }
}

// Adds `\u{`, the number and `}`: of these only the backslash does not stand for itself.
fn push_by_number(page: &mut Page, escape: Escape, code: u32)
    requires { array_vec_len page.old + 24 ≤ 4096 }
    ensures text { page.new.items ≡ page.old.items ++ escaped escape (by_number code) }
    ensures len { array_vec_len page.new ≤ array_vec_len page.old + 24 }
{
    push_escaped(page, escape, 92);
    push(page, b"u{");
    push_hex(page, code);
    push(page, b"}");
}
