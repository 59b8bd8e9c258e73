//! The symbols on a line of 64 bytes, and the one of an instruction, as text of fixed room.
//!
//! [`push_symbols`] looks for labels on the line, and only where there are none for the nearest below, of several the
//! last; [`push_code_place`] looks for a symbol of the code, of several the first. Both empty the row first, and tell
//! what goes past its room as `..`. They take no memory and refuse nothing.

ghost use Rattle.std.specs.Prelude.{◌≡◌, true};
ghost use Rattle.std.specs.List.{list_all};
ghost use Rattle.elide_places.specs.Shown.{is_printable};
ghost use Rattle.elide_places.specs.declared.symbol_text.Naming.TheVariants.{Shown};

use crate::places::Places;
use arrayvec::ArrayVec;
use symbols::{Symbol, last_nearest};
use text_out::page::{Page, push, push_number};

/// How many bytes of names are told of a line.
const NAMES: usize = 96;

/// The room of a row: behind its names may stand `, ..`.
const ROOM: usize = 100;

/// Names of symbols: up to 96 bytes of them, and `..` in place of the first that goes past these.
pub type SymbolText = ArrayVec<u8, ROOM>;

/// In which form a device is given names.
#[derive(Clone, Copy, PartialEq, Eq, Debug)]
pub enum Naming {
    /// As they are shown, by [`Symbol::shown`].
    Shown,
    /// As they are, by [`Symbol::name`]: for a device that has escapes of its own.
    Raw,
}

impl Naming {
    /// The name of a symbol in this form.
    #[tactic(auto, using(crate::proofs::Showing::text_is_printable))]
    pub fn name_of(self, symbol: &Symbol) -> &[u8]
        ensures { self ≡ Shown → list_all is_printable result.now ≡ true }
    {
        match self {
            Naming::Shown => symbol.shown(),
            Naming::Raw => symbol.name(),
        }
    }
}

/// Writes what stands on a line of 64 bytes, of this number: the labels on it, as `mutex, owner`; where there is none,
/// the nearest below it with the distance, as `table+0x40`, whether the line lies in the image or behind it, as a stack
/// does; and nothing where there is none, either. The first name that goes past 96 bytes is told as `..`, and those
/// behind it are not told.
pub fn push_symbols(row: &mut SymbolText, places: &Places, line: u32, naming: Naming)
    ensures { naming ≡ Shown → list_all is_printable row.new.items ≡ true }
{
    row.clear();
    'labels: for label in places.labels() {
        if label.line() == line && !push_name(row, naming.name_of(label)) {
            return;
        }
    }
    if row.is_empty() {
        push_below(row, places, line, naming);
    }
}

/// Writes where an instruction of an executable stands: the symbol of its code at the address or the last below it,
/// with the distance, as `insert+0x1c`; nothing where there is none. The name is shown by [`Symbol::shown`]; one past
/// 96 bytes is told as `..`.
#[tactic(auto, using(crate::proofs::Showing::text_is_printable))]
pub fn push_code_place(row: &mut SymbolText, places: &Places, address: u32)
    ensures { list_all is_printable row.new.items ≡ true }
{
    row.clear();
    if let Some(label) = places.code_label(address) {
        let _ = push_cut(row, label.shown());
        push_distance(row, address.saturating_sub(label.value()));
    }
}

// One more name, where it has room; tells whether it has.
fn push_name(row: &mut SymbolText, name: &[u8]) -> bool
    ensures { list_all is_printable row.old.items ≡ true → list_all is_printable name.now ≡ true
        → list_all is_printable row.new.items ≡ true }
{
    if !row.is_empty() {
        push_where_room(row, b", ");
    }
    push_cut(row, name)
}

// The nearest label below a line, with the distance to it.
fn push_below(row: &mut SymbolText, places: &Places, line: u32, naming: Naming)
    ensures { naming ≡ Shown → list_all is_printable row.old.items ≡ true → list_all is_printable row.new.items ≡ true }
{
    if let Some(label) = last_nearest(places.labels(), u64::from(line) * 64) {
        let distance = line.saturating_mul(64).saturating_sub(label.value());
        let _ = push_cut(row, naming.name_of(label));
        push_distance(row, distance);
    }
}

// Adds a distance, as `+0x40`, unless it is 0.
#[tactic(auto, using(crate::proofs::Showing::distance_is_printable))]
fn push_distance(row: &mut SymbolText, distance: u32)
    ensures { list_all is_printable row.old.items ≡ true → list_all is_printable row.new.items ≡ true }
{
    if distance != 0 {
        let mut sum = Page::new();
        push(&mut sum, b"+");
        push_number(&mut sum, distance);
        let _ = push_cut(row, sum.as_slice());
    }
}

/// Adds a text, or, where it goes past the names' bytes, `..` in its place; tells whether it has room.
#[tactic(auto, using(crate::proofs::Showing::more_is_printable))]
pub(crate) fn push_cut(row: &mut SymbolText, text: &[u8]) -> bool
    ensures { list_all is_printable row.old.items ≡ true → list_all is_printable text.now ≡ true
        → list_all is_printable row.new.items ≡ true }
{
    let has_room = text.len() <= NAMES.saturating_sub(row.len());
    if has_room {
        push_where_room(row, text);
    } else {
        push_where_room(row, b"..");
    }
    has_room
}

/// Adds a text that the row has room for.
#[tactic(auto, using(crate::proofs::Showing::more_is_printable))]
pub(crate) fn push_where_room(row: &mut SymbolText, text: &[u8])
    ensures { list_all is_printable row.old.items ≡ true → list_all is_printable text.now ≡ true
        → list_all is_printable row.new.items ≡ true }
{
    if text.len() <= row.remaining_capacity() {
        push(row, text);
    }
}
