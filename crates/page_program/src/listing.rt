//! A listing: its rows, and which of them are shown.
//!
//! [`Listing::of`] decides it all before anything is written: the rows, of a long listing those near what ran, and
//! of these the ones that stand in a source instead. [`write_listing`] and [`write_spots`] then go over the rows
//! with one kind of cursor, so that an instruction's line is the one that was written.

use crate::code::{Loaded, address_of, length_at, text_at, write_text_at};
use crate::sources::Sources;
use elide_places::{SymbolText, push_source_place};
use page_text::{LINE, write_number, write_string};
use std::alloc::{AllocError, Global};
use symbols::{Mark, marks_of, standing_at};
use text_out::page::{Page, push, push_eight};
use text_out::{Out, WriteFault};

/// The most rows of a listing that is shown as a whole.
const WHOLE: usize = 160;

/// How many rows are shown on each side of one that ran.
const NEAR: usize = 6;

/// A row of a listing.
#[derive(Clone, Copy)]
pub enum ListingRow<'a> {
    /// A label.
    Label(Mark<'a>),
    /// What stands at this distance from the first byte of the code.
    Code(usize),
}

// Where a row is seen.
#[derive(Clone, Copy)]
enum Sight {
    // Nowhere.
    Hidden,
    // In the listing.
    Listed,
    // In this row of the sources.
    Sourced(u64),
}

/// A listing.
#[derive(Drop)]
pub struct Listing<'a> {
    rows: Vec<ListingRow<'a>>,
    // Where each row is seen.
    sights: Vec<Sight>,
    // How many rows the sources take above the listing.
    above: u64,
}

impl<'a> Listing<'a> {
    /// That of a program, whose instructions at these distances ran: a long one where these are, and near them. What
    /// comes from a line of a source that is shown stands there.
    pub fn of(
        loaded: Loaded<'a>,
        sources: &Sources,
        ran: &[bool],
    ) -> Result<Listing<'a>, AllocError> {
        let alloc = loaded.alloc;
        let rows = rows_of(loaded, ran)?;
        let mut shown = vec![in alloc; rows.len() <= WHOLE; rows.len()]?;
        if rows.len() > WHOLE {
            show_near(rows.as_slice(), ran, &mut shown);
        }
        let sights = sights_of(loaded, sources, rows.as_slice(), shown.as_slice())?;
        drop(shown);
        Ok(Listing {
            rows,
            sights,
            above: sources.rows(),
        })
    }
}

// Where rows are seen, of which these are shown.
fn sights_of(
    loaded: Loaded<'_>,
    sources: &Sources,
    rows: &[ListingRow<'_>],
    shown: &[bool],
) -> Result<Vec<Sight>, AllocError> {
    let mut sights = Vec::new(loaded.alloc);
    for index in 0..rows.len().min(shown.len()) {
        let sight = if shown[index] {
            sight_of(loaded, sources, rows[index])
        } else {
            Sight::Hidden
        };
        sights.push(sight)?;
    }
    Ok(sights)
}

// Where a row is seen that is shown: one from a line of a source in that, but for a label there, which is none of its
// lines.
fn sight_of(loaded: Loaded<'_>, sources: &Sources, row: ListingRow<'_>) -> Sight {
    match row {
        ListingRow::Code(offset) => {
            match sources.row_of(loaded, address_of(loaded.setup, offset)) {
                Some(place) => Sight::Sourced(place),
                None => Sight::Listed,
            }
        }
        ListingRow::Label(mark) => match sources.row_of(loaded, mark.address) {
            Some(_) => Sight::Hidden,
            None => Sight::Listed,
        },
    }
}

// The rows of a listing: the instructions one behind the other, and what ran within one.
fn rows_of<'a>(loaded: Loaded<'a>, ran: &[bool]) -> Result<Vec<ListingRow<'a>>, AllocError> {
    let setup = loaded.setup;
    let marks = marks_of(loaded.alloc, loaded.places.labels())?;
    let mut rows = Vec::new(loaded.alloc);
    let mut next = 0;
    for offset in 0..ran.len() {
        if offset == next || ran[offset] {
            let standing = standing_at(marks.as_slice(), address_of(setup, offset));
            push_labels(&mut rows, standing)?;
            rows.push(ListingRow::Code(offset))?;
        }
        if offset == next {
            next = offset.saturating_add(length_at(setup, offset));
        }
    }
    Ok(rows)
}

// Adds the labels at an address.
fn push_labels<'a>(rows: &mut Vec<ListingRow<'a>>, marks: &[Mark<'a>]) -> Result<(), AllocError> {
    for mark in marks {
        rows.push(ListingRow::Label(*mark))?;
    }
    Ok(())
}

// Shows what ran, and the rows near it.
fn show_near(rows: &[ListingRow<'_>], ran: &[bool], shown: &mut Vec<bool>) {
    for index in 0..rows.len() {
        if has_run(rows[index], ran) {
            show_around(shown, index);
        }
    }
}

fn has_run(row: ListingRow<'_>, ran: &[bool]) -> bool {
    match row {
        ListingRow::Label(_) => false,
        ListingRow::Code(offset) => match ran.get(offset) {
            Some(has_run) => *has_run,
            None => false,
        },
    }
}

// Shows a row, and those on each side.
fn show_around(shown: &mut Vec<bool>, index: usize) {
    let first = index.saturating_sub(NEAR);
    for place in first..index.saturating_add(NEAR + 1) {
        if let Some(is_shown) = shown.get_mut(place) {
            *is_shown = true;
        }
    }
}

// Where a listing stands as it is written.
#[derive(Clone, Copy)]
struct Cursor {
    // How many lines were written, with those of sources.
    lines: u64,
    // Whether the last was a row.
    is_row: bool,
}

impl Cursor {
    // Before the first row, below so many lines of sources. Without these a gap is shown above the first row that is.
    fn below(lines: u64) -> Cursor {
        Cursor {
            lines,
            is_row: lines == 0,
        }
    }

    // Behind a row, which is listed or not: of several that are not, one gap is written.
    fn behind(self, sight: Sight) -> Cursor {
        let is_listed = matches!(sight, Sight::Listed);
        let writes = is_listed || self.is_row;
        Cursor {
            lines: self.lines.saturating_add(u64::from(writes)),
            is_row: is_listed,
        }
    }
}

/// Writes the lines of a listing below those of sources, each a string; of rows side by side that are not listed an
/// empty one.
pub fn write_listing<O: Out>(
    loaded: Loaded<'_>,
    listing: &Listing<'_>,
    out: &mut O,
) -> Result<(), WriteFault> {
    let mut cursor = Cursor::below(listing.above);
    let mut last = SymbolText::new();
    for index in 0..listing.rows.len().min(listing.sights.len()) {
        let after = cursor.behind(listing.sights[index]);
        if after.lines > cursor.lines {
            write_separator(cursor.lines, out)?;
            if let Sight::Listed = listing.sights[index] {
                write_row(loaded, listing.rows[index], &mut last, out)?;
            } else {
                out.put(b"\"\"")?;
            }
        }
        cursor = after;
    }
    Ok(())
}

fn write_separator<O: Out>(lines: u64, out: &mut O) -> Result<(), WriteFault> {
    if lines > 0 {
        out.put(b",\n")?;
    }
    Ok(())
}

// Writes a row: a label, or an address and what stands there, with the place of its source where that is another one.
fn write_row<O: Out>(
    loaded: Loaded<'_>,
    row: ListingRow<'_>,
    last: &mut SymbolText,
    out: &mut O,
) -> Result<(), WriteFault> {
    match row {
        ListingRow::Label(mark) => write_label(loaded.alloc, mark, out),
        ListingRow::Code(offset) => write_code(loaded, offset, last, out),
    }
}

fn write_label<O: Out>(alloc: Global, mark: Mark<'_>, out: &mut O) -> Result<(), WriteFault> {
    let mut line = Vec::new(alloc);
    if line.extend_from_slice(mark.name).is_err() || line.extend_from_slice(b":").is_err() {
        return Err(WriteFault::Write);
    }
    write_string(line.as_slice(), LINE, out)
}

fn write_code<O: Out>(
    loaded: Loaded<'_>,
    offset: usize,
    last: &mut SymbolText,
    out: &mut O,
) -> Result<(), WriteFault> {
    let text = text_at(loaded.alloc, loaded.setup, offset)?;
    let address = address_of(loaded.setup, offset);
    let mut place = SymbolText::new();
    push_source_place(&mut place, loaded.places, address);
    let is_new = place.as_slice() != last.as_slice() && !place.is_empty();
    let shown: &[u8] = if is_new { place.as_slice() } else { &[] };
    let line = line_of(loaded.alloc, address, text.as_slice(), shown);
    *last = place;
    match line {
        Ok(line) => write_string(line.as_slice(), LINE, out),
        Err(_) => Err(WriteFault::Write),
    }
}

// An address, a text, and a place behind it, if any.
fn line_of(alloc: Global, address: u32, text: &[u8], place: &[u8]) -> Result<Vec<u8>, AllocError> {
    let mut front = Page::new();
    push_eight(&mut front, address);
    push(&mut front, b"  ");
    let mut line = Vec::from_slice(alloc, front.as_slice())?;
    line.extend_from_slice(text)?;
    if !place.is_empty() {
        line.extend_from_slice(b"  ; ")?;
        line.extend_from_slice(place)?;
    }
    Ok(line)
}

/// Writes of each instruction that is shown its address, the index of its line, and its text.
pub fn write_spots<O: Out>(
    loaded: Loaded<'_>,
    listing: &Listing<'_>,
    out: &mut O,
) -> Result<(), WriteFault> {
    let mut cursor = Cursor::below(listing.above);
    let mut some = false;
    for index in 0..listing.rows.len().min(listing.sights.len()) {
        let line = cursor.lines;
        cursor = cursor.behind(listing.sights[index]);
        let row = row_seen(listing.sights[index], line);
        if let (ListingRow::Code(offset), Some(row)) = (listing.rows[index], row) {
            write_spot(loaded, some, offset, row, out)?;
            some = true;
        }
    }
    Ok(())
}

// The line of a row, which is this one where it is listed.
fn row_seen(sight: Sight, line: u64) -> Option<u64> {
    match sight {
        Sight::Hidden => None,
        Sight::Listed => Some(line),
        Sight::Sourced(place) => Some(place),
    }
}

/// Writes of the instruction at a distance from the first byte of the code its address, the index of its line, and its
/// text, behind a comma where there was another.
pub fn write_spot<O: Out>(
    loaded: Loaded<'_>,
    some: bool,
    offset: usize,
    line: u64,
    out: &mut O,
) -> Result<(), WriteFault> {
    if some {
        out.put(b",\n")?;
    }
    out.put(b"[")?;
    write_number(u64::from(address_of(loaded.setup, offset)), out)?;
    out.put(b",")?;
    write_number(line, out)?;
    out.put(b",")?;
    write_text_at(loaded.alloc, loaded.setup, offset, out)?;
    out.put(b"]")?;
    Ok(())
}
