//! The sources that stand beside an executable: [`Sources::beside`] looks for them, of the code that ran.
//!
//! A name of the table of lines is taken only if it is a source's and names no other folder. A file that cannot be
//! read, or is no text, is not shown and refuses nothing; it is not asked for again. The rows go on from one source
//! to the next, and a listing stands below them all.

use crate::code::{Loaded, address_of};
use crate::lines::{line_count, write_lines};
use elide_program::Paths;
use page_text::{LINE, write_comma, write_number, write_string};
use std::alloc::{AllocError, Global};
use text_out::{Out, WriteFault};

/// The most bytes of a source that is shown.
const MOST_BYTES: usize = 262_144;

/// The most sources that are looked for.
const MOST_SOURCES: usize = 16;

/// What the name of a source ends in.
const ENDINGS: [&str; 7] = [".c", ".h", ".cc", ".cpp", ".hpp", ".s", ".S"];

// A source that code of an executable comes from.
#[derive(Drop)]
struct Source {
    // Its name, as the table of lines tells it.
    name: Vec<u8>,
    // What stands in it; nothing, where it is not shown.
    text: Vec<u8>,
    // The row of its first line among those of all sources.
    first: u64,
    // How many lines it has; 0, where it is not shown.
    lines: u64,
}

/// The sources that an executable's code was made from, as far as they are shown: one below the other, each under its
/// name.
#[derive(Drop)]
pub struct Sources {
    list: Vec<Source>,
    // How many rows they take.
    rows: u64,
}

impl Sources {
    /// None.
    pub fn none(alloc: Global) -> Sources {
        Sources {
            list: Vec::new(alloc),
            rows: 0,
        }
    }

    /// The sources of the instructions at these distances from the first byte of the code, that ran: those that stand
    /// in the folder of the executable at this path under the names that its table of lines has. A source is UTF-8
    /// without a byte of 0, of at most 256 KiB, and its name ends as that of a source does; the first 16 are looked
    /// for. One that cannot be read is not shown.
    pub fn beside<P: Paths>(
        loaded: Loaded<'_>,
        path: &str,
        ran: &[bool],
        paths: &mut P,
    ) -> Result<Sources, AllocError> {
        let mut sources = Sources::none(loaded.alloc);
        for offset in 0..ran.len() {
            if ran[offset] {
                sources.look(loaded, offset, path, paths)?;
            }
        }
        Ok(sources)
    }

    // Looks for the source of the instruction at a distance from the first byte of the code, where that was not done
    // yet.
    fn look<P: Paths>(
        &mut self,
        loaded: Loaded<'_>,
        offset: usize,
        path: &str,
        paths: &mut P,
    ) -> Result<(), AllocError> {
        let address = address_of(loaded.setup, offset);
        let Some(place) = loaded.places.source_of(address) else {
            return Ok(());
        };
        if self.list.len() >= MOST_SOURCES || self.named(place.file).is_some() {
            return Ok(());
        }
        let text = text_beside(loaded.alloc, path, place.file, paths)?;
        self.add(loaded.alloc, place.file, text)
    }

    // Adds what a source of this name holds, below the others.
    fn add(&mut self, alloc: Global, name: &[u8], text: Vec<u8>) -> Result<(), AllocError> {
        let lines = line_count(text.as_slice());
        let first = self.rows.saturating_add(1);
        self.list.push(Source {
            name: Vec::from_slice(alloc, name)?,
            text,
            first,
            lines,
        })?;
        if lines > 0 {
            self.rows = first.saturating_add(lines);
        }
        Ok(())
    }

    // The source of this name, shown or not.
    fn named(&self, name: &[u8]) -> Option<&Source> {
        self.list
            .as_slice()
            .iter()
            .find(|source| source.name.as_slice() == name)
    }

    /// How many rows they take.
    pub fn rows(&self) -> u64 {
        self.rows
    }

    /// The row of the line that the instruction at an address comes from, where it is shown.
    pub fn row_of(&self, loaded: Loaded<'_>, address: u32) -> Option<u64> {
        let place = loaded.places.source_of(address)?;
        let source = self.named(place.file)?;
        let line = u64::from(place.line);
        if line == 0 || line > source.lines {
            return None;
        }
        Some(source.first.saturating_add(line - 1))
    }

    /// Writes the rows, each a string: of each source its name, and below it its lines.
    pub fn write_rows<O: Out>(&self, out: &mut O) -> Result<(), WriteFault> {
        for source in self.list.as_slice() {
            if source.lines > 0 {
                write_separator(source.first > 1, out)?;
                write_string(source.name.as_slice(), LINE, out)?;
                out.put(b",\n")?;
                write_lines(source.text.as_slice(), out)?;
            }
        }
        Ok(())
    }

    /// Writes of each source the row of its first line, and how many it has.
    pub fn write_extents<O: Out>(&self, out: &mut O) -> Result<(), WriteFault> {
        for source in self.list.as_slice() {
            if source.lines > 0 {
                write_extent(source, out)?;
            }
        }
        Ok(())
    }
}

fn write_separator<O: Out>(some: bool, out: &mut O) -> Result<(), WriteFault> {
    if some {
        out.put(b",\n")?;
    }
    Ok(())
}

fn write_extent<O: Out>(source: &Source, out: &mut O) -> Result<(), WriteFault> {
    write_comma(source.first > 1, out)?;
    out.put(b"[")?;
    write_number(source.first, out)?;
    out.put(b",")?;
    write_number(source.lines, out)?;
    out.put(b"]")?;
    Ok(())
}

// What the source of this name in the folder of a path holds; nothing, where there is none that is shown.
fn text_beside<P: Paths>(
    alloc: Global,
    path: &str,
    name: &[u8],
    paths: &mut P,
) -> Result<Vec<u8>, AllocError> {
    let Some(name) = source_name(name) else {
        return Ok(Vec::new(alloc));
    };
    let beside = path_beside(alloc, path, name)?;
    match paths.read(beside.as_str(), MOST_BYTES) {
        Ok(text) => Ok(only_text(alloc, text)),
        Err(_) => Ok(Vec::new(alloc)),
    }
}

// A name, where it is that of a source.
fn source_name(name: &[u8]) -> Option<&str> {
    let Ok(name) = str::from_utf8(name) else {
        return None;
    };
    if name.contains('/') || !ENDINGS.iter().any(|ending| name.ends_with(*ending)) {
        return None;
    }
    Some(name)
}

// The path of this name in the folder of another path.
fn path_beside(alloc: Global, path: &str, name: &str) -> Result<String, AllocError> {
    let mut beside = String::new(alloc);
    if let Some((folder, _name)) = path.rsplit_once('/') {
        beside.push_str(folder)?;
        beside.push_str("/")?;
    }
    beside.push_str(name)?;
    Ok(beside)
}

// These bytes, where they are text, and else none.
fn only_text(alloc: Global, bytes: Vec<u8>) -> Vec<u8> {
    if str::from_utf8(bytes.as_slice()).is_ok() && !bytes.as_slice().contains(&0) {
        bytes
    } else {
        Vec::new(alloc)
    }
}
