//! The places of a program: which line or symbol stands at an address.
//!
//! [`Places::of_file`] takes them from the file that was read. Those of a source the assembly kept; of an executable
//! they are its symbols and, out of the sections of its text, its line numbers. FILE's symbols are gone over by
//! `file_symbols`: here is said which of them are labels, and which can stand in memory ([`placed_symbols`]). Want of
//! memory is the only refusal.

use crate::file_symbols::symbols_of;
use elide_program::ProgramFile;
use ia_asm::{CodeLine, ProgramImage, SymbolKind};
use ia_elf::section_named;
use ia_lines::{Lines, Place, Sections, read_lines};
use indexmap::IndexMap;
use std::alloc::{AllocError, Global};
use symbols::{Symbol, first_nearest};

/// The end of the largest memory: 256 MiB.
const MOST_MEMORY: u32 = 268_435_456;

/// The lines of a source by the addresses of their instructions, and its labels; of an executable its symbols, and the
/// lines of the sources that it was made from, where it tells them. Of image text there are none.
#[derive(Drop)]
pub struct Places {
    lines: IndexMap<u32, u32>,
    labels: Vec<Symbol>,
    end: u32,
    // Where the code of an executable ends, whose places are told by its symbols.
    code_end: u32,
    // Which lines of which sources the code of an executable comes from.
    sources: Lines,
}

impl Places {
    /// No places.
    pub fn none(alloc: Global) -> Places {
        Places {
            lines: IndexMap::new(alloc),
            labels: Vec::new(alloc),
            end: 0,
            code_end: 0,
            sources: Lines::none(alloc),
        }
    }

    /// The places of a file that was read from this text: those of a source or an executable, and none of image text.
    pub fn of_file(
        alloc: Global,
        file: &ProgramFile<'_>,
        text: &[u8],
    ) -> Result<Places, AllocError> {
        let mut places = Places::none(alloc);
        match file {
            ProgramFile::Image(_) => {}
            ProgramFile::Elf(elf) => {
                places.labels = placed_symbols(alloc, file)?;
                places.end = elf.end();
                places.code_end = elf.base().saturating_add(elf.code_len());
                places.sources = sources_of(alloc, text)?;
            }
            ProgramFile::Source(program) => {
                places.labels = labels_of(alloc, file, program)?;
                let size = u32::try_from(program.image.len()).unwrap_or(u32::MAX);
                places.end = program.base.saturating_add(size);
                places.add_lines(program.lines.as_slice())?;
            }
        }
        Ok(places)
    }

    // Adds the lines of a source, by their addresses.
    fn add_lines(&mut self, lines: &[CodeLine]) -> Result<(), AllocError> {
        for line in lines {
            self.lines.insert(line.address, line.line)?;
        }
        Ok(())
    }

    /// The line of the source, from 1, whose instruction stands at this address.
    pub fn line_of(&self, address: u32) -> Option<u32> {
        self.lines.get(&address).copied()
    }

    /// The symbol of an executable's code with the greatest address up to this one, of an address in the code; of
    /// several the first.
    pub fn code_label(&self, address: u32) -> Option<&Symbol> {
        if address < self.code_end {
            first_nearest(self.labels.as_slice(), u64::from(address) + 1)
        } else {
            None
        }
    }

    /// The source file of an executable, and its line from 1, that an instruction at this address comes from, where the
    /// executable has line numbers.
    pub fn source_of(&self, address: u32) -> Option<Place<'_>> {
        self.sources.line_of(address)
    }

    /// The labels, in the order of the source or of the table of symbols.
    pub fn labels(&self) -> &[Symbol] {
        self.labels.as_slice()
    }

    /// The same, for who needs nothing else of the places.
    pub fn into_labels(self) -> Vec<Symbol> {
        self.labels
    }

    /// The address behind the last byte of the image.
    pub fn end(&self) -> u32 {
        self.end
    }
}

/// The symbols of a file that can stand in its program's memory, in their order: of a source those in its image and at
/// its end, of an executable those from its first byte on. An image text has none.
pub fn placed_symbols(alloc: Global, file: &ProgramFile<'_>) -> Result<Vec<Symbol>, AllocError> {
    let mut symbols = symbols_of(alloc, file)?;
    let first = file.base();
    let end = end_of(file);
    symbols.retain(|symbol| first <= symbol.value() && symbol.value() < end);
    Ok(symbols)
}

// The address behind the last one of them. A label of a source can stand at its image's end, and a symbol of an
// executable anywhere in memory.
fn end_of(file: &ProgramFile<'_>) -> u32 {
    match file {
        ProgramFile::Elf(_) => MOST_MEMORY,
        _ => {
            let size = file.bytes().len().min(MOST_MEMORY as usize) as u32;
            file.base().saturating_add(size).saturating_add(1)
        }
    }
}

// The labels of a source: a constant names no place. One that stands at 2^32, behind the last address, has the value 0,
// and is left out.
fn labels_of(
    alloc: Global,
    file: &ProgramFile<'_>,
    program: &ProgramImage<'_>,
) -> Result<Vec<Symbol>, AllocError> {
    let mut symbols = symbols_of(alloc, file)?;
    let mut kinds = program.kinds.iter();
    symbols.retain(|symbol| {
        matches!(kinds.next(), Some(SymbolKind::Label)) && program.base <= symbol.value()
    });
    Ok(symbols)
}

// The lines of an executable of this text.
fn sources_of(alloc: Global, text: &[u8]) -> Result<Lines, AllocError> {
    let sections = Sections {
        lines: section_of(text, b".debug_line"),
        line_strings: section_of(text, b".debug_line_str"),
        strings: section_of(text, b".debug_str"),
    };
    read_lines(alloc, &sections)
}

// The bytes of a section of this name, none where there is none.
fn section_of<'a>(text: &'a [u8], name: &[u8]) -> &'a [u8] {
    match section_named(text, name) {
        Some(bytes) => bytes,
        None => &[],
    }
}
