//! Texts from outside, such as a file's name, on a page: as a string of its data, or between tags. Each is cut to a
//! length and escaped, so that it can neither end the string nor begin a tag.

ghost use Rattle.std.specs.Prelude.{◌≡◌, ◌≤◌, ◌++◌, Some, encode_utf8_all, drop, length, true};
ghost use Rattle.std.specs.List.{list_all};
ghost use Rattle.text_out.specs.Writing.{Writes};
ghost use Rattle.json.specs.Text.{content, plain};
ghost use Rattle.page_text.specs.Escaped.{escaped, is_safe, is_unmarked, string_text, title_text};
ghost use Rattle.page_text.specs.Shown.{dots_if, shown};

use crate::escape::Escape;
use crate::shown::{ROOM, push_shown};
use bstr::decode_lossy;
use text_out::page::{Page, make_room, push};
use text_out::{Out, WriteFault};

/// Writes a text as a string of JSON, with its quotes: at most `most` characters, and two dots behind them where there
/// are more. On 5 `Write` a beginning of it was written, and the count of failures rose.
#[tactic(auto, using(crate::proofs::Reading::string_reads, crate::proofs::Reading::string_is_safe))]
pub fn write_string<O: Out>(text: &[u8], most: usize, out: &mut O) -> Result<(), WriteFault>
    ensures text { Writes (O.device out.old) (O.device out.new) (string_text text.now most) result }
    ensures safe { list_all is_safe (string_text text.now most) ≡ true }
    ensures reads { content plain (drop 1 (string_text text.now most)) ≡ Some (encode_utf8_all (shown most text.now)) }
{
    out.put(b"\"")?;
    write_shown(text, most, Escape::Json, out)?;
    out.put(b"\"")?;
    Ok(())
}

/// Writes a text between two tags, as a title: at most `most` characters, and two dots behind them where there are
/// more. On 5 `Write` a beginning of it was written, and the count of failures rose.
#[tactic(auto, using(crate::proofs::Reading::title_is_unmarked))]
pub fn write_title<O: Out>(text: &[u8], most: usize, out: &mut O) -> Result<(), WriteFault>
    ensures text { Writes (O.device out.old) (O.device out.new) (title_text text.now most) result }
    ensures unmarked { list_all is_unmarked (title_text text.now most) ≡ true }
{
    write_shown(text, most, Escape::Markup, out)
}

// Writes what is shown of a text.
fn write_shown<O: Out>(
    text: &[u8],
    most: usize,
    escape: Escape,
    out: &mut O,
) -> Result<(), WriteFault>
    ensures { Writes (O.device out.old) (O.device out.new) (escaped escape (shown most text.now)) result }
{
    let mut page = Page::new();
    let mut place = 0;
    let mut left = most;
    'characters: while place < text.len() && 0 < left {
        make_room(&mut page, ROOM, out)?;
        let (character, size) = decode_lossy(&text[place..]);
        push_shown(&mut page, escape, character as u32);
        place += size;
        left -= 1;
    }
    put_last(&mut page, dots(place < text.len()), out)
}

// What stands behind the front of a text.
fn dots(is_more: bool) -> &'static [u8]
    ensures text { result.now ≡ dots_if is_more }
    ensures short { length result.now ≤ 2 }
{
    if is_more { b".." } else { b"" }
}

/// Puts a page, with up to two bytes behind it.
pub(crate) fn put_last<O: Out>(page: &mut Page, last: &[u8], out: &mut O) -> Result<(), WriteFault>
    requires { length last.now ≤ 2 }
    ensures { Writes (O.device out.old) (O.device out.new) (page.old.items ++ last.now) result }
{
    make_room(page, 2, out)?;
    push(page, last);
    out.put(page.as_slice())?;
    Ok(())
}
