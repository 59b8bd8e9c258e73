//! The symbols of a program's file, in a row of their own, which outlives FILE's text.
//!
//! [`symbols_of`] has each with its value, by which a name is an address: labels and constants of a source, and what a
//! table of symbols has; no other call goes over them. Want of memory is all that refuses it. Nothing is sorted: of
//! several symbols of one name the first counts.

ghost use Rattle.std.specs.Prelude.{◌≡◌, ◌+◌, ◌<◌, ℕ, List, IfOk, OnOk, length, take};
ghost use Rattle.symbols.specs.Symbols.{symbol_in};
ghost use Rattle.elide_places.specs.FileSymbols.{AreSymbolsOf, IsFirstBelow};
ghost use Rattle.ia_asm.specs.Assemblies.{known_as};
ghost use Rattle.ia_elf.specs.Symbols.{IsFirstValue};

use elide_program::ProgramFile;
use ia_elf::Elf;
use ia_item::Name;
use indexmap::IndexMap;
use std::alloc::{AllocError, Global};
use symbols::Symbol;

/// The symbols of a source or an executable, in the order of the source or of its table. Image text has none.
pub fn symbols_of(alloc: Global, file: &ProgramFile<'_>) -> Result<Vec<Symbol>, AllocError>
    ensures { IfOk result (λ row. AreSymbolsOf file.now row.items) }
{
    match file {
        ProgramFile::Image(_) => Ok(Vec::new(alloc)),
        ProgramFile::Elf(elf) => elf_symbols(alloc, elf),
        ProgramFile::Source(program) => source_symbols(alloc, &program.symbols),
    }
}

// Takes in the entry of a table of symbols, where it is one.
fn add_entry(
    alloc: Global,
    elf: &Elf<'_>,
    index: usize,
    row: &mut Vec<Symbol>,
) -> Result<(), AllocError>
    ensures { OnOk result ((name : List ℕ) →
        IsFirstBelow elf.now.symbols elf.now.strings index name (symbol_in row.old.items name) →
        IsFirstBelow elf.now.symbols elf.now.strings (index + 1) name (symbol_in row.new.items name)) }
{
    if let Some(entry) = elf.symbol_at(index) {
        let symbol = Symbol::of(alloc, &[], entry.name, entry.value)?;
        row.push(symbol)?;
    }
    Ok(())
}

// The symbols of an executable, in the order of its table.
fn elf_symbols(alloc: Global, elf: &Elf<'_>) -> Result<Vec<Symbol>, AllocError>
    ensures { IfOk result (λ row. (name : List ℕ) →
        IsFirstValue elf.now.symbols elf.now.strings name (symbol_in row.items name)) }
{
    let mut row = Vec::new(alloc);
    'entries: for index in 0..elf.symbol_count() {
        add_entry(alloc, elf, index, &mut row)?;
    }
    Ok(row)
}

// Takes in the symbol of this number.
fn add_symbol(
    alloc: Global,
    symbols: &IndexMap<Name<'_>, u32>,
    index: usize,
    row: &mut Vec<Symbol>,
) -> Result<(), AllocError>
    requires { index < length symbols.now.entries }
    ensures { OnOk result ((name : List ℕ) →
        symbol_in row.old.items name ≡ known_as name (take index symbols.now.entries) →
        symbol_in row.new.items name ≡ known_as name (take (index + 1) symbols.now.entries)) }
{
    if let Some((name, value)) = symbols.get_index(index) {
        let symbol = Symbol::of(alloc, name.scope, name.own, *value)?;
        row.push(symbol)?;
    }
    Ok(())
}

// The symbols of a source, in their order.
fn source_symbols(
    alloc: Global,
    symbols: &IndexMap<Name<'_>, u32>,
) -> Result<Vec<Symbol>, AllocError>
    ensures { IfOk result (λ row. (name : List ℕ) → symbol_in row.items name ≡ known_as name symbols.now.entries) }
{
    let mut row = Vec::new(alloc);
    'symbols: for index in 0..symbols.len() {
        add_symbol(alloc, symbols, index, &mut row)?;
    }
    Ok(row)
}
