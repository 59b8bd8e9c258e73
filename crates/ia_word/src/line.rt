//! Lines of memory, of 64 bytes each.

ghost use Rattle.std.specs.Prelude.{◌≡◌, ◌+◌, ◌^◌, ◌≤◌};
ghost use Rattle.arrayvec.specs.ArrayVec.{array_vec_len};
ghost use Rattle.ia_word.specs.Line.{line, lines};
ghost use Rattle.ia_word.specs.Width.{bytes_of};

use crate::width::Width;
use arrayvec::ArrayVec;

/// The line of an address: the address divided by 64.
#[inline(always)]
pub fn line_of(address: u32) -> u32
    ensures { result ≡ line address }
{
    address / 64
}

/// The lines of an access of one or four bytes: one line, or two where it crosses a line's end. Asked for an access
/// that ends at or below 2^32.
pub fn lines_of(address: u32, width: Width) -> ArrayVec<u32, 2>
    requires { address + bytes_of width ≤ 2 ^ 32 }
    ensures lines { result.items ≡ lines address width }
    ensures len { array_vec_len result ≤ 2 }
{
    let first = line_of(address);
    let last = line_of(address + (width.bytes() - 1));
    let mut lines = ArrayVec::new();
    lines.push(first);
    if last != first {
        lines.push(last);
    }
    lines
}
