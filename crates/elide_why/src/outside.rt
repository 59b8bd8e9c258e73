//! Code that is no instruction of the subset, and what is told of it: the shape alone.
//!
//! `subset` makes an [`Outside`] of a program's code and writes its text. Its ghost fields keep what the lines need of
//! it: few bytes, and symbols in printable ASCII.

ghost use Rattle.std.specs.Prelude.{◌≡◌, ◌≤◌, length, true};
ghost use Rattle.std.specs.List.{list_all};
ghost use Rattle.elide_places.specs.Shown.{is_printable};

use elide_places::SymbolText;
use ia_foreign::Words as ForeignWords;

/// Code that is no instruction of the subset.
#[derive(Drop)]
pub struct Outside<'a> {
    /// The code from the address on, up to 15 bytes.
    pub code: &'a [u8],
    /// The address.
    pub address: u32,
    /// Of an executable the symbol there, or the last one below with the distance, as it is shown.
    pub place: SymbolText,
    /// Of an executable the line of its source, as `list.c:41`, where it tells it.
    pub source: SymbolText,
    /// What stands there, where that is asked for and known.
    pub name: Option<ForeignWords>,
    pub ghost short: { length code.now ≤ 15 },
    pub ghost printable: { list_all is_printable place.items ≡ true },
    pub ghost source_printable: { list_all is_printable source.items ≡ true },
}
