//! Executables that were read: memory, code, start and symbols, as the file states them. Whether a program can be made
//! of them is asked elsewhere.

ghost use Rattle.std.specs.Prelude.{◌≡◌, ◌+◌, ◌/◌, ◌≤◌, IfErr, IfOk, OnOk, length};
ghost use Rattle.ia_elf.specs.Faults.{IsFirstFault, IsFreeBefore};
ghost use Rattle.ia_elf.specs.Loaded.{IsElf};
ghost use Rattle.ia_elf.specs.Symbols.{IsFirstValue, IsSymbolAt};

use crate::fault::ElfFault;
use crate::fields::{E_ENTRY, word_at};
use crate::layout::base;
use crate::memory::load;
use crate::order::test;
use crate::symbols::{Symbol, first_value, symbol_at};
use crate::tables::{SYMBOL, Tables};
use std::alloc::Global;
use std::marker::Model;

/// An executable: the memory that its segments state, where its code lies and starts, and its symbols.
#[derive(Drop)]
pub struct Elf<'a> {
    bytes: Vec<u8>,
    base: u32,
    code_len: u32,
    entry: u32,
    end: u32,
    tables: Tables<'a>,
}

impl<'a> Model for Elf<'a> {
    ghost use Rattle.ia_elf.specs.Loaded.{ElfValue};

    ghost Value = { ElfValue };

    ghost view = { λ elf. record {
      bytes = elf.bytes.items;
      base = elf.base;
      code_len = elf.code_len;
      entry = elf.entry;
      end = elf.end;
      symbols = elf.tables.symbols.now;
      strings = elf.tables.strings.now;
    } };
}

impl<'a> Elf<'a> {
    /// The bytes from the base to the last that the file has for memory: those of its segments, and zeros between them.
    /// Memory behind them is zero.
    pub fn bytes(&self) -> &[u8]
        ensures { result.now ≡ self.now.bytes }
    {
        self.bytes.as_slice()
    }

    /// The address of the first byte.
    pub fn base(&self) -> u32
        ensures { result ≡ self.now.base }
    {
        self.base
    }

    /// How many bytes from the base on are code: up to the last byte of an executable segment. Bytes between two such
    /// segments are zeros, and count.
    pub fn code_len(&self) -> u32
        ensures { result ≡ self.now.code_len }
    {
        self.code_len
    }

    /// The address at which the program starts. It may be any: whether it lies in the code isn't tested here.
    pub fn entry(&self) -> u32
        ensures { result ≡ self.now.entry }
    {
        self.entry
    }

    /// The first address above all segments, with the zeros that they want behind their bytes: at most 268,435,456.
    pub fn end(&self) -> u32
        ensures { result ≡ self.now.end }
    {
        self.end
    }

    /// How many entries the symbol table has: 0 in a file without one.
    pub fn symbol_count(&self) -> usize
        ensures { result ≡ length self.now.symbols / 16 }
    {
        self.tables.symbols.len() / SYMBOL
    }

    /// The symbol of this entry, counted from 0. `None` for an entry that the table doesn't have, or that has no name,
    /// is undefined, or is neither a function nor an object nor without type.
    pub fn symbol_at(&self, index: usize) -> Option<Symbol<'a>>
        ensures { IsSymbolAt self.now.symbols self.now.strings index result }
    {
        symbol_at(self.tables.symbols, self.tables.strings, index)
    }

    /// The value of the first symbol of this name, in the order of the table.
    pub fn symbol(&self, name: &[u8]) -> Option<u32>
        ensures { IsFirstValue self.now.symbols self.now.strings name.now result }
    {
        first_value(self.tables.symbols, self.tables.strings, name)
    }
}

/// Reads an executable for IA-32: its loadable segments at their virtual addresses, all code in front.
///
/// The tests are made in this order: 90 `NotForThisMachine`, 91 `Damaged`, 92 `NotAnExecutable`, 93 `NothingToLoad`,
/// 94 `TooHigh`, 95 `Overlap`, 96 `CodeNotInFront`, 97 `NoMemory`. The bytes are taken only once all others passed, and
/// are at most 268,435,456.
pub fn read_elf<'a>(alloc: Global, file: &'a [u8]) -> Result<Elf<'a>, ElfFault>
    ensures elf { IfOk result (λ elf. IsElf file.now elf) }
    ensures fits { IfOk result (λ elf. (elf.code_len ≤ length elf.bytes)
        × (elf.base + length elf.bytes ≤ elf.end) × (elf.end ≤ 268435456)) }
    ensures passed { OnOk result (IsFreeBefore file.now ElfFault.NoMemory) }
    ensures fault { IfErr result (λ f. IsFirstFault file.now f) }
{
    let tested = test(file)?;
    let base = base(file);
    let bytes = load(alloc, file, base)?;
    Ok(Elf {
        bytes,
        base,
        code_len: (tested.code_end - u64::from(base)) as u32,
        entry: word_at(file, E_ENTRY),
        end: tested.end as u32,
        tables: tested.tables,
    })
}
