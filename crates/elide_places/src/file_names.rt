//! What a command asks of FILE's names, taken of one reading of it.
//!
//! [`FileNames::of_file`] takes the places and then the symbols, each only where it is wanted. Want of memory is the
//! only refusal, and comes behind all faults of FILE: whoever calls has the program by then.

ghost use Rattle.std.specs.Prelude.{◌≡◌, IfOk, true};
ghost use Rattle.elide_places.specs.FileSymbols.{AreSymbolsOf};

use crate::file_symbols::symbols_of;
use crate::places::Places;
use elide_program::ProgramFile;
use std::alloc::{AllocError, Global};
use symbols::Symbol;

/// What is asked of FILE beside its program.
#[derive(Clone, Copy)]
pub struct Wants {
    /// Where its instructions and labels stand.
    pub places: bool,
    /// Its symbols, by which a name is an address.
    pub symbols: bool,
}

/// What FILE tells of its addresses.
#[derive(Drop)]
pub struct FileNames {
    /// Where its instructions and labels stand; none of them, where they are not wanted.
    pub places: Places,
    /// Its symbols; none of them, where they are not wanted.
    pub symbols: Vec<Symbol>,
}

impl Wants {
    /// The places alone.
    pub const PLACES: Wants = Wants {
        places: true,
        symbols: false,
    };
}

impl FileNames {
    /// What is wanted of a file that was read from this text.
    pub fn of_file(
        alloc: Global,
        file: &ProgramFile<'_>,
        text: &[u8],
        wants: Wants,
    ) -> Result<FileNames, AllocError>
        ensures { wants.symbols ≡ true → IfOk result (λ names. AreSymbolsOf file.now names.symbols.items) }
    {
        let places = if wants.places {
            Places::of_file(alloc, file, text)?
        } else {
            Places::none(alloc)
        };
        let symbols = if wants.symbols {
            symbols_of(alloc, file)?
        } else {
            Vec::new(alloc)
        };
        Ok(FileNames { places, symbols })
    }
}
