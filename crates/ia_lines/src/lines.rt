//! Tables of lines that were read, and the line of an address.

ghost use Rattle.std.specs.Prelude.{◌≡◌, ◌≤◌, ◌<◌, ◌+◌, ◌↔◌, [], IsTrue, length};
ghost use Rattle.ia_lines.specs.Table.{Covers, IsFirstCover};

use std::alloc::Global;

/// A row of the table (DWARF version 5, section 6.2.2): the instructions from its address on, up to that of the next
/// row of its sequence, come from this line.
#[derive(Clone, Copy, PartialEq, Eq, Debug)]
pub struct Row {
    /// The address of the first of them.
    pub address: u32,
    /// The number of the unit whose program appended it, counted from 0.
    pub unit: usize,
    /// The number of the file among those of its unit.
    pub file: u32,
    /// The line, counted from 1; 0 where the instructions come from none.
    pub line: u32,
    /// Whether it only ends its sequence: its address is the first behind it.
    pub ends: bool,
}

/// The files of a unit.
#[derive(Clone, Copy, PartialEq, Eq, Debug)]
pub struct UnitFiles {
    /// Where they begin among the names, and how many there are.
    pub start: usize,
    pub count: usize,
    /// The number of the first: 1 in version 4, 0 in version 5.
    pub first: u32,
}

/// A line of a source file.
#[derive(Clone, Copy, PartialEq, Eq, Debug)]
pub struct Place<'a> {
    /// The file's name, without its directories, of one byte or more.
    pub file: &'a [u8],
    /// The line, counted from 1.
    pub line: u32,
}

/// The rows of an executable's tables, with the files that they name.
#[derive(Drop)]
pub struct Lines {
    pub(crate) rows: Vec<Row>,
    pub(crate) units: Vec<UnitFiles>,
    pub(crate) names: Vec<Vec<u8>>,
}

// Whether the row of this number covers an address.
fn covers(rows: &[Row], address: u32, number: usize) -> bool
    requires { number + 1 < length rows.now }
    ensures { IsTrue result ↔ Covers rows.now address number }
{
    let row = &rows[number];
    !row.ends && row.address <= address && address < rows[number + 1].address
}

// The first row that covers an address.
fn first_cover(rows: &[Row], address: u32) -> Option<Row>
    ensures { IsFirstCover rows.now address result }
{
    if rows.is_empty() {
        return None;
    }
    for number in 0..rows.len() - 1 {
        if covers(rows, address, number) {
            return Some(rows[number]);
        }
    }
    None
}

impl Lines {
    /// No rows.
    pub fn none(alloc: Global) -> Lines
        ensures { result.rows.items ≡ [] }
    {
        Lines {
            rows: Vec::new(alloc),
            units: Vec::new(alloc),
            names: Vec::new(alloc),
        }
    }

    /// The rows, in the order of the programs that appended them.
    pub fn rows(&self) -> &[Row]
        ensures { result.now ≡ self.now.rows.items }
    {
        self.rows.as_slice()
    }

    /// The first row that covers an address: of its sequence it is the one with the greatest address that isn't above.
    pub fn row_of(&self, address: u32) -> Option<Row>
        ensures { IsFirstCover self.now.rows.items address result }
    {
        first_cover(self.rows.as_slice(), address)
    }

    // The name of a row's file, where its unit has one of its number.
    fn name_of(&self, row: Row) -> Option<&[u8]> {
        let unit = self.units.as_slice().get(row.unit)?;
        let number = row.file.checked_sub(unit.first)? as usize;
        if number >= unit.count {
            return None;
        }
        let place = unit.start.checked_add(number)?;
        let name = self.names.as_slice().get(place)?;
        Some(name.as_slice())
    }

    /// The file and the line that an address comes from: by [`Lines::row_of`]. `None` where no row covers the address,
    /// its row has line 0, or a file that its unit doesn't name.
    pub fn line_of(&self, address: u32) -> Option<Place<'_>> {
        let row = self.row_of(address)?;
        let file = self.name_of(row)?;
        if row.line == 0 || file.is_empty() {
            return None;
        }
        Some(Place {
            file,
            line: row.line,
        })
    }
}
