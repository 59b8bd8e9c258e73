//! How a text is painted: by what it is, not by the colour, and with the terminal's own eight colours.

ghost use Rattle.std.specs.Prelude.{◌≡◌, ◌+◌, ◌≤◌, ◌++◌, length};
ghost use Rattle.arrayvec.specs.ArrayVec.{array_vec_len};
ghost use Rattle.elide_color.specs.Painting.{beginning, painted};

use arrayvec::ArrayVec;
use text_out::page::push;

/// What a text is, which tells its colour.
#[derive(Clone, Copy, PartialEq, Eq)]
pub enum Style {
    /// A fault, and what is wrong in a line: bold, red.
    Fault,
    /// A warning: bold, yellow.
    Warning,
    /// Where a line stands: bold, blue.
    Place,
    /// An address of a listing: cyan.
    Address,
    /// The bytes of a listing: faint.
    Bytes,
    /// What a line of a listing has behind its bytes, up to the first space: bold.
    Mnemonic,
}

/// What stands behind each painted text.
pub const ENDING: &[u8] = b"\x1b[0m";

impl Style {
    /// What stands before a text.
    pub fn beginning(self) -> &'static [u8]
        ensures text { result.now ≡ beginning self }
        ensures len { length result.now ≤ 7 }
    {
        match self {
            Style::Fault => b"\x1b[1;31m",
            Style::Warning => b"\x1b[1;33m",
            Style::Place => b"\x1b[1;34m",
            Style::Address => b"\x1b[36m",
            Style::Bytes => b"\x1b[2m",
            Style::Mnemonic => b"\x1b[1m",
        }
    }
}

/// Adds a text at the end of a row, painted where that is asked for.
pub fn push_painted<const ROOM: usize>(
    row: &mut ArrayVec<u8, ROOM>,
    is_painted: bool,
    style: Style,
    text: &[u8],
)
    requires { array_vec_len row.old + length text.now + 11 ≤ ROOM }
    ensures text { row.new.items ≡ row.old.items ++ painted is_painted style text.now }
    ensures len { array_vec_len row.new ≤ array_vec_len row.old + length text.now + 11 }
{
    if is_painted {
        push(row, style.beginning());
        push(row, text);
        push(row, ENDING);
    } else {
        push(row, text);
    }
}
