//! Lines of sources as text, for instructions of executables that tell where they come from.
//!
//! [`push_source_place`] empties the row and writes the last part of the file's name and the line, or nothing. Bytes
//! that are not plain are shown as `?`, one for one, and not as those of symbols. The line of a source that is
//! assembled is told by [`Places::line_of`] instead.

ghost use Rattle.std.specs.Prelude.{◌≡◌, true};
ghost use Rattle.std.specs.List.{list_all};
ghost use Rattle.elide_places.specs.Shown.{is_printable};

use crate::places::Places;
use crate::symbol_text::{SymbolText, push_cut, push_where_room};
use arrayvec::ArrayVec;
use itoa::Buffer;
use symbols::is_plain;
use text_out::page::push;

/// The name of a file: the longest has 255 bytes.
type FileText = ArrayVec<u8, 256>;

/// Writes which line of which source an instruction of an executable comes from, as `bank.c:41`; nothing where the
/// executable has no line numbers for it. Of the file's name stands the last part, and each byte of it that is no
/// printable ASCII, a space or a backslash is shown as `?`; a name past 96 bytes is told as `..`.
pub fn push_source_place(row: &mut SymbolText, places: &Places, address: u32)
    ensures { list_all is_printable row.new.items ≡ true }
{
    row.clear();
    if let Some(place) = places.source_of(address) {
        push_file(row, place.file);
        push_line(row, place.line);
    }
}

// Adds the name of a file.
fn push_file(row: &mut SymbolText, name: &[u8])
    ensures { list_all is_printable row.old.items ≡ true → list_all is_printable row.new.items ≡ true }
{
    let mut shown = FileText::new();
    push_plain(&mut shown, name);
    let _ = push_cut(row, shown.as_slice());
}

// Adds a line, behind a colon.
fn push_line(row: &mut SymbolText, line: u32)
    ensures { list_all is_printable row.old.items ≡ true → list_all is_printable row.new.items ≡ true }
{
    let mut buffer = Buffer::new();
    push_where_room(row, b":");
    push_plain(row, buffer.format(line).as_bytes());
}

// Adds the bytes of a text as they are shown, as far as there is room.
fn push_plain<const ROOM: usize>(row: &mut ArrayVec<u8, ROOM>, text: &[u8])
    ensures { list_all is_printable row.old.items ≡ true → list_all is_printable row.new.items ≡ true }
{
    'bytes: for index in 0..text.len() {
        push_byte(row, shown(text[index]));
    }
}

// A byte as it is shown.
#[tactic(auto, using(crate::proofs::Showing::plain_is_printable))]
fn shown(byte: u8) -> u8
    ensures { is_printable result ≡ true }
{
    if is_plain(byte) { byte } else { b'?' }
}

// Adds a byte, where there is room.
#[tactic(auto, using(crate::proofs::Showing::one_more_is_printable))]
fn push_byte<const ROOM: usize>(row: &mut ArrayVec<u8, ROOM>, byte: u8)
    requires { is_printable byte ≡ true }
    ensures { list_all is_printable row.old.items ≡ true → list_all is_printable row.new.items ≡ true }
{
    if row.remaining_capacity() > 0 {
        push(row, &[byte]);
    }
}
