//! The listing: a line for each instruction, and for data one for up to twelve bytes, in the order of their addresses.
//! Places come in as for the bytes.

ghost use Rattle.std.specs.Prelude.{◌≡◌, ◌+◌, ◌*◌, ◌<◌, ◌%◌, ◌^◌, ◌++◌, ◌∷◌, [], false, refl, IsTrue, List, length};
ghost use Rattle.std.specs.Prelude.{IfOk, OnOk};
ghost use Rattle.ia_text.specs.Listing.{listing_line};
ghost use Rattle.ia_resolve.specs.Symbols.{known};
ghost use Rattle.ia_layout.specs.Placement.{EntryPlace};
ghost use Rattle.ia_asm.specs.ListingText.{bytes_line, bytes_lines, is_datum, own_line, goes_on, listing_text};
ghost use Rattle.ia_layout.specs.Contents.{entry_place, IsBounded};
ghost use Rattle.ia_layout.specs.Parts.{Keeps, keeps_both};
ghost use Rattle.ia_asm.specs.Lister.{row_text, row_line, listing_with};

use ia_item::Item;
use ia_layout::{PlacedEntry, Taker, push_bytes, push_item};
use ia_resolve::Table;
use ia_text::write_line;
use std::alloc::{AllocError, Global};
use text_out::ToVec;
use text_out::page::{Page, push, push_bytes as push_hex_bytes, push_eight};

/// Where a line of `db` or `dd` begins.
#[derive(Clone, Copy)]
pub struct ListingRow {
    pub line: u32,
    pub at: u128,
}

/// A listing in the making: the lines so far, and a line of `db` or `dd` that may go on, with its bytes so far.
#[derive(Drop)]
pub struct Lister<'t> {
    /// The values of the symbols.
    pub symbols: &'t Table,
    pub out: ToVec,
    pub row: Option<ListingRow>,
    pub bytes: Vec<u8>,
}

/// Whether an item is a part of a line of `db` or `dd`.
#[tactic(auto, unfolding(crate::specs::ListingText::is_datum))]
fn is_datum(item: &Item) -> bool
    ensures { result ≡ is_datum item.now }
{
    match item {
        Item::Byte(_) => true,
        Item::Text(_) => true,
        Item::Numbers(_) => true,
        Item::Long(_) => true,
        _ => false,
    }
}

/// The address of the line with this index.
fn line_address(at: u128, index: usize) -> u32
    ensures { result ≡ (at + 12 * index) % 2 ^ 32 }
{
    ((at % (1 << 32) + 12 * index as u128) % (1 << 32)) as u32
}

/// Writes the line with this index: its address and up to 12 bytes.
fn write_bytes_line(
    out: &mut Vec<u8>,
    at: u128,
    bytes: &[u8],
    index: usize,
) -> Result<(), AllocError>
    requires { 12 * index < length bytes.now }
    ensures { OnOk result (out.new.items ≡ out.old.items ++ bytes_line bytes.now at index) }
{
    let rest = &bytes[12 * index..];
    let mut page = Page::new();
    push_eight(&mut page, line_address(at, index));
    push(&mut page, b"  ");
    push_hex_bytes(&mut page, &rest[..rest.len().min(12)]);
    push(&mut page, b"\n");
    push_bytes(out, page.as_slice())
}

/// Writes the lines of bytes that stand at an address.
fn write_bytes(out: &mut Vec<u8>, at: u128, bytes: &[u8]) -> Result<(), AllocError>
    ensures { OnOk result (out.new.items ≡ out.old.items ++ bytes_lines at bytes.now) }
{
    for index in 0..bytes.len().div_ceil(12) {
        write_bytes_line(out, at, bytes, index)?;
    }
    Ok(())
}

/// Writes the line of an instruction.
fn write_insn(out: &mut ToVec, at: u128, bytes: &[u8]) -> Result<(), AllocError>
    ensures { OnOk result (out.new.bytes.items ≡ out.old.bytes.items ++ listing_line bytes.now (at % 2 ^ 32)) }
{
    match write_line(bytes, (at % (1 << 32)) as u32, out) {
        Ok(_) => Ok(()),
        Err(_) => Err(AllocError),
    }
}

/// Whether an item goes on with the row before it.
fn goes_on(row: Option<ListingRow>, spot: &PlacedEntry) -> bool
    ensures { result ≡ goes_on (row_line row) (entry_place spot.now) }
{
    match row {
        None => false,
        Some(row) => is_datum(&spot.entry.item) && spot.entry.line == row.line,
    }
}

impl<'t> Lister<'t> {
    /// No lines yet.
    pub fn new(alloc: Global, symbols: &'t Table) -> Lister<'t>
        ensures symbols { result.symbols.now ≡ symbols.now }
        ensures empty { (ps : List EntryPlace) → listing_with result ps
            ≡ listing_text (known symbols.now.values.entries) ps }
    {
        Lister {
            symbols,
            out: ToVec::new(Vec::new(alloc)),
            row: None,
            bytes: Vec::new(alloc),
        }
    }

    /// Writes the row before, if there is one.
    fn finish(&mut self) -> Result<(), AllocError>
        ensures out { OnOk result (self.new.out.bytes.items
            ≡ self.old.out.bytes.items ++ row_text self.old.row self.old.bytes.items) }
        ensures bytes { OnOk result (self.new.bytes.items ≡ []) }
        ensures row { OnOk result (self.new.row ≡ self.old.row) }
        ensures symbols { OnOk result (self.new.symbols ≡ self.old.symbols) }
    {
        if let Some(row) = self.row {
            write_bytes(&mut self.out.bytes, row.at, self.bytes.as_slice())?;
        }
        self.bytes.clear();
        Ok(())
    }

    /// Writes the lines of an item that stands alone.
    #[tactic(auto, unfolding(crate::specs::ListingText::own_line))]
    fn write_own(&mut self, spot: &PlacedEntry) -> Result<(), AllocError>
        requires good { IsBounded spot.now }
        requires empty { self.old.bytes.items ≡ [] }
        ensures line { OnOk result (self.new.out.bytes.items
            ≡ self.old.out.bytes.items ++ own_line (known self.old.symbols.now.values.entries) (entry_place spot.now)
            (entry_place spot.now).entry.item) }
        ensures row { OnOk result (self.new.row ≡ self.old.row) }
        ensures symbols { OnOk result (self.new.symbols ≡ self.old.symbols) }
    {
        match &spot.entry.item {
            Item::Code(_) => {
                push_item(&mut self.bytes, self.symbols, spot)?;
                write_insn(&mut self.out, spot.at, self.bytes.as_slice())
            }
            Item::Reserve(_) => {
                push_item(&mut self.bytes, self.symbols, spot)?;
                write_bytes(&mut self.out.bytes, spot.at, self.bytes.as_slice())
            }
            Item::Align(_) => {
                push_item(&mut self.bytes, self.symbols, spot)?;
                write_bytes(&mut self.out.bytes, spot.at, self.bytes.as_slice())
            }
            _ => Ok(()),
        }
    }

    /// Takes in a part of a row.
    fn list_datum(&mut self, spot: &PlacedEntry) -> Result<(), AllocError>
        requires good { IsBounded spot.now }
        requires datum { IsTrue (is_datum spot.now.entry.now.item) }
        ensures { OnOk result ((more : List EntryPlace)
            → listing_with self.new more ≡ listing_with self.old (entry_place spot.now ∷ more)) }
    {
        if goes_on(self.row, spot) {
            push_item(&mut self.bytes, self.symbols, spot)
        } else {
            self.finish()?;
            self.row = Some(ListingRow {
                line: spot.entry.line,
                at: spot.at,
            });
            push_item(&mut self.bytes, self.symbols, spot)
        }
    }

    /// Takes in an item that stands alone.
    fn list_own(&mut self, spot: &PlacedEntry) -> Result<(), AllocError>
        requires good { IsBounded spot.now }
        requires own { is_datum spot.now.entry.now.item ≡ false }
        ensures { OnOk result ((more : List EntryPlace)
            → listing_with self.new more ≡ listing_with self.old (entry_place spot.now ∷ more)) }
    {
        self.finish()?;
        self.row = None;
        self.write_own(spot)?;
        self.bytes.clear();
        Ok(())
    }

    /// The listing of the places that were taken.
    pub fn listing(self) -> Result<Vec<u8>, AllocError>
        ensures { IfOk result (λ v. v.items ≡ listing_with self.entry []) }
    {
        let mut lister = self;
        lister.finish()?;
        Ok(lister.out.bytes)
    }
}

impl<'a, 't> Taker<'a> for Lister<'t> {
    ghost Taken = { Keeps listing_with };

    ghost stays = { λ t more. refl };

    ghost goes_on = { keeps_both listing_with };

    fn take(&mut self, spot: &PlacedEntry<'a, '_>) -> Result<(), AllocError> {
        if is_datum(&spot.entry.item) {
            self.list_datum(spot)
        } else {
            self.list_own(spot)
        }
    }
}
