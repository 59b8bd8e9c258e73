//! An image is written as text: its header, and the bytes of its code in rows of 32. What is written is read as the
//! same image; the format is in docs/FORMATS.md.

ghost use Rattle.std.specs.Prelude.{◌≡◌, ◌+◌, ◌*◌, ◌≤◌, ◌<◌, ◌++◌, ◌∷◌, [], Ok, length};
ghost use Rattle.arrayvec.specs.ArrayVec.{array_vec_len};
ghost use Rattle.hex.specs.Hex.{encode_lower};
ghost use Rattle.ia_image.specs.ImageText.{digit_rows, header_line, image_read, image_text};
ghost use Rattle.text_out.specs.Writing.{Writes};

use text_out::page::{Page, make_room, push, push_bytes, push_hex};
use text_out::{Out, WriteFault};

/// How many bytes a line shows.
const ROW: usize = 32;

/// The most bytes that such a line takes.
const LINE: usize = 2 * ROW + 1;

fn push_header(page: &mut Page, base: u32, code_len: u32)
    requires { array_vec_len page.old + 26 ≤ 4096 }
    ensures { page.new.items ≡ page.old.items ++ (header_line base code_len ++ 10 ∷ []) }
{
    push(page, b"image 1 ");
    push_hex(page, base);
    push(page, b" ");
    push_hex(page, code_len);
    push(page, b"\n");
}

fn push_row(page: &mut Page, bytes: &[u8])
    requires few { length bytes.now ≤ 32 }
    requires room { array_vec_len page.old + 65 ≤ 4096 }
    ensures { page.new.items ≡ page.old.items ++ (encode_lower bytes.now ++ 10 ∷ []) }
{
    push_bytes(page, bytes);
    push(page, b"\n");
}

/// Writes an image text: the line `image 1 BASE CODE` in lower case hex without leading zeros, then 32 bytes a line in
/// lower case, each line ended by LF. What is written is read back. Takes no memory; lines are written several at a
/// time. On 5 `Write` a beginning of the text was written, and the count of failures rose.
#[tactic(auto, using(crate::proofs::Rows::text_starts, crate::proofs::ReadBack::read_back))]
pub fn write_image<O: Out>(
    bytes: &[u8],
    base: u32,
    code_len: u32,
    out: &mut O,
) -> Result<(), WriteFault>
    ensures text { Writes (O.device out.old) (O.device out.new) (image_text bytes.now base code_len) result }
    ensures read_back { image_read (image_text bytes.now base code_len) ≡
        Ok (record { bytes = bytes.now; base = base; code_len = code_len }) }
{
    let mut page = Page::new();
    push_header(&mut page, base, code_len);
    let mut place = 0;
    'rows: while place < bytes.len() {
        make_room(&mut page, LINE, out)?;
        let count = ROW.min(bytes.len() - place);
        push_row(&mut page, &bytes[place..place + count]);
        place += count;
    }
    out.put(page.as_slice())?;
    Ok(())
}
