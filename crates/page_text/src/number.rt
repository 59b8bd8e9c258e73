//! Numbers in decimal digits, and bytes in hex, as a page's data has them. Both are written piece by piece, with no
//! text of their own in memory.

ghost use Rattle.std.specs.Prelude.{decimal};
ghost use Rattle.text_out.specs.Writing.{Writes};
ghost use Rattle.page_text.specs.Escaped.{hex_text};

use crate::text::put_last;
use itoa::Buffer;
use text_out::page::{Page, make_room, push, push_bytes};
use text_out::{Out, WriteFault};

/// How many bytes go to a page at a time.
const CHUNK: usize = 32;

/// Writes a number in decimal digits. On 5 `Write` a beginning of it was written, and the count of failures rose.
pub fn write_number<O: Out>(number: u64, out: &mut O) -> Result<(), WriteFault>
    ensures { Writes (O.device out.old) (O.device out.new) (decimal number) result }
{
    let mut buffer = Buffer::new();
    out.put(buffer.format(number).as_bytes())?;
    Ok(())
}

/// Writes bytes in hex as a string of JSON, with its quotes. On 5 `Write` a beginning of it was written, and the count
/// of failures rose.
pub fn write_hex<O: Out>(bytes: &[u8], out: &mut O) -> Result<(), WriteFault>
    ensures { Writes (O.device out.old) (O.device out.new) (hex_text bytes.now) result }
{
    let mut page = Page::new();
    push(&mut page, b"\"");
    let mut place = 0;
    'chunks: while place < bytes.len() {
        make_room(&mut page, 2 * CHUNK, out)?;
        let end = bytes.len().min(place + CHUNK);
        push_bytes(&mut page, &bytes[place..end]);
        place = end;
    }
    put_last(&mut page, b"\"", out)
}
