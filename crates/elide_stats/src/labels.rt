//! What places and lines of memory are called.
//!
//! [`Labels::of_file`] takes the symbols once, in their order, those alone that can stand in the program's memory, as
//! `elide_places` says; [`Labels::place`] and [`Labels::line`] then look for the nearest, of several at one address for
//! the last. A dash is told where there is none. In which form names are told is said at the start, as JSON escapes
//! them itself and columns do not.

use elide_places::{Naming, placed_symbols};
use elide_program::ProgramFile;
use std::alloc::{AllocError, Global};
use symbols::{Symbol, last_nearest};

/// The symbols of a source or of an executable, by their addresses: of a source those in its image and at its end, of
/// an executable those from its first byte on. An image text has none.
#[derive(Drop)]
pub struct Labels {
    symbols: Vec<Symbol>,
    // The address behind the code.
    code_end: u32,
    // In which form names are told.
    naming: Naming,
}

impl Labels {
    /// The symbols of a file, whose names are told in this form.
    pub fn of_file(
        alloc: Global,
        file: &ProgramFile<'_>,
        naming: Naming,
    ) -> Result<Labels, AllocError> {
        Ok(Labels {
            symbols: placed_symbols(alloc, file)?,
            code_end: file.base().saturating_add(file.code_len()),
            naming,
        })
    }

    /// The nearest symbol of the code at or below an address, with the distance, as `start.next+0x19`; a dash, where
    /// there is none.
    pub fn place(&self, alloc: Global, address: u32) -> Result<String, AllocError> {
        let end = (u64::from(address) + 1).min(u64::from(self.code_end));
        let mut text = String::new(alloc);
        self.push_nearest(alloc, &mut text, end, address)?;
        Ok(text)
    }

    /// The symbols on a line of 64 bytes, in the order of the source, with commas between; where none is, the last one
    /// below it, with the distance, as `table+0x40`; a dash, where there is none, either.
    pub fn line(&self, alloc: Global, line: u32) -> Result<String, AllocError> {
        let mut text = String::new(alloc);
        for symbol in self.symbols.as_slice() {
            if symbol.line() == line {
                if !text.is_empty() {
                    text.push_str(",")?;
                }
                self.push_name(&mut text, symbol)?;
            }
        }
        if text.is_empty() {
            let end = u64::from(line) * 64;
            self.push_nearest(alloc, &mut text, end, line.saturating_mul(64))?;
        }
        Ok(text)
    }

    // Adds the nearest symbol below an end, and how far an address lies above it; a dash, where there is none.
    fn push_nearest(
        &self,
        alloc: Global,
        text: &mut String,
        end: u64,
        address: u32,
    ) -> Result<(), AllocError> {
        let Some(symbol) = last_nearest(self.symbols.as_slice(), end) else {
            return text.push_str("-");
        };
        self.push_name(text, symbol)?;
        if symbol.value() < address {
            let distance = format!(in alloc; "+{:#x}", address - symbol.value())?;
            text.push_str(distance.as_str())?;
        }
        Ok(())
    }

    // Adds a symbol's whole name, where it is text.
    fn push_name(&self, text: &mut String, symbol: &Symbol) -> Result<(), AllocError> {
        let name = self.naming.name_of(symbol);
        text.push_str(str::from_utf8(name).unwrap_or(""))
    }
}
