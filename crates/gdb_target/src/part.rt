//! Parts of a text that gdb reads piece by piece: [`push_part`].
//!
//! The whole text is handed in for each part, and nothing is kept from one to the next, as gdb says where it goes
//! on. From a place behind the end the part is the last, and empty.

ghost use Rattle.std.specs.Prelude.{◌≡◌, ◌++◌};
ghost use Rattle.arrayvec.specs.ArrayVec.{array_vec_len};
ghost use Rattle.gdb_target.specs.Parts.{part_of, part_room};

use gdb_packet::Bytes;
use text_out::page::push;

fn part_room(count: u32) -> usize
    ensures { result ≡ part_room count }
{
    if count < 16000 { count as usize } else { 16000 }
}

/// Adds the part of a text from a place on, of so many bytes or 16000 where that is less: behind an `l` where it is the
/// last, and behind an `m` where more follows.
pub fn push_part(row: &mut Bytes, text: &[u8], at: u32, count: u32)
    requires { array_vec_len row.old ≡ 0 }
    ensures { row.new.items ≡ row.old.items ++ part_of text.now at count }
{
    let start = (at as usize).min(text.len());
    let rest = &text[start..];
    let room = part_room(count);
    if rest.len() <= room {
        push(row, b"l");
        push(row, rest);
    } else {
        push(row, b"m");
        push(row, &rest[..room]);
    }
}
