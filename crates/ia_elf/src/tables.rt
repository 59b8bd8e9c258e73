//! The symbol table and its strings (gABI, chapter 4, "Sections").

ghost use Rattle.std.specs.Prelude.{◌≡◌, ◌≢◌, ◌+◌, ◌*◌, ◌/◌, ◌<◌, ◌≤◌, ◌↔◌, ℕ, IsTrue, IfNone, IfSome, length};
ghost use Rattle.ia_elf.specs.Fields.{e_shnum, e_shoff, section, word_at};
ghost use Rattle.ia_elf.specs.Tables.{AreHeadersWhole, AreNamed, AreTables, AreTablesWhole, IsSectionWhole};
ghost use Rattle.ia_elf.specs.Tables.{IsSymbolTable, IsTableWhole, bytes_of};

use crate::fields::{E_SHENTSIZE, E_SHNUM, E_SHOFF, half_at, word_at};

/// The section is a symbol table.
const SHT_SYMTAB: u32 = 2;

/// The section is a string table.
const SHT_STRTAB: u32 = 3;

/// How many bytes a symbol takes.
pub(crate) const SYMBOL: usize = 16;

/// The fields of a section header that are read, by their names in the ABI.
#[derive(Clone, Copy)]
pub(crate) struct Section {
    pub(crate) sh_name: u32,
    pub(crate) sh_type: u32,
    pub(crate) sh_offset: u32,
    pub(crate) sh_size: u32,
    pub(crate) sh_link: u32,
    pub(crate) sh_entsize: u32,
}

/// The bytes of the symbol table, and of the string table that has its names. Both are empty where the file has none.
#[derive(Clone, Copy)]
pub(crate) struct Tables<'a> {
    pub(crate) symbols: &'a [u8],
    pub(crate) strings: &'a [u8],
}

/// The section header of this number.
#[tactic(auto, unfolding(crate::specs::Fields::section))]
pub(crate) fn section_at(file: &[u8], number: u32) -> Section
    requires header { 52 ≤ length file.now }
    requires table { e_shoff file.now + 40 * (number + 1) ≤ length file.now }
    ensures { result ≡ section file.now number }
{
    let at = word_at(file, E_SHOFF) as usize + 40 * number as usize;
    Section {
        sh_name: word_at(file, at),
        sh_type: word_at(file, at + 4),
        sh_offset: word_at(file, at + 16),
        sh_size: word_at(file, at + 20),
        sh_link: word_at(file, at + 24),
        sh_entsize: word_at(file, at + 36),
    }
}

/// Whether the section headers lie in the file.
pub(crate) fn has_headers(file: &[u8]) -> bool
    requires { 52 ≤ length file.now }
    ensures { IsTrue result ↔ AreHeadersWhole file.now }
{
    let count = half_at(file, E_SHNUM);
    let start = word_at(file, E_SHOFF) as usize;
    count == 0
        || (half_at(file, E_SHENTSIZE) == 40 && start + 40 * usize::from(count) <= file.len())
}

// The first section that is a symbol table.
fn find_symbols(file: &[u8]) -> Option<u32>
    requires header { 52 ≤ length file.now }
    requires headers { AreHeadersWhole file.now }
    ensures some { IfSome result (λ s. IsSymbolTable file.now s) }
    ensures none { IfNone result ((s : ℕ) → s < e_shnum file.now → (section file.now s).sh_type ≢ 2) }
{
    let count = u32::from(half_at(file, E_SHNUM));
    for number in 0..count {
        if section_at(file, number).sh_type == SHT_SYMTAB {
            return Some(number);
        }
    }
    None
}

/// The bytes of a section, where they lie in the file.
pub(crate) fn section_bytes(file: &[u8], section: Section) -> Option<&[u8]>
    ensures some { IfSome result (λ bytes. IsSectionWhole file.now section × (bytes.now ≡ bytes_of file.now section)) }
    ensures none { IfNone result (¬ IsSectionWhole file.now section) }
{
    let start = section.sh_offset as usize;
    let end = start + section.sh_size as usize;
    if end <= file.len() {
        Some(&file[start..end])
    } else {
        None
    }
}

// Whether each symbol's name begins in the strings.
fn names_begin(symbols: &[u8], strings: &[u8]) -> bool
    ensures { IsTrue result ↔
        ((k : ℕ) → k < length symbols.now / 16 → word_at symbols.now (16 * k) < length strings.now) }
{
    for number in 0..symbols.len() / SYMBOL {
        if word_at(symbols, SYMBOL * number) as usize >= strings.len() {
            return false;
        }
    }
    true
}

// Whether the symbols are whole, and have their names in the strings.
fn are_named(symbols: &[u8], strings: &[u8]) -> bool
    ensures { IsTrue result ↔ AreNamed symbols.now strings.now }
{
    symbols.len() % SYMBOL == 0
        && !strings.is_empty()
        && strings[strings.len() - 1] == 0
        && names_begin(symbols, strings)
}

// The tables of a symbol table's section, or nothing where one breaks the form.
fn tables_of(file: &[u8], symbols: Section) -> Option<Tables<'_>>
    requires header { 52 ≤ length file.now }
    requires headers { AreHeadersWhole file.now }
    ensures some { IfSome result (λ tables. IsTableWhole file.now symbols
        × (tables.symbols.now ≡ bytes_of file.now symbols)
        × (tables.strings.now ≡ bytes_of file.now (section file.now symbols.sh_link))) }
    ensures none { IfNone result (¬ IsTableWhole file.now symbols) }
{
    if symbols.sh_entsize != SYMBOL as u32 || symbols.sh_link >= u32::from(half_at(file, E_SHNUM)) {
        return None;
    }
    let linked = section_at(file, symbols.sh_link);
    if linked.sh_type != SHT_STRTAB {
        return None;
    }
    let symbols = section_bytes(file, symbols)?;
    let strings = section_bytes(file, linked)?;
    if are_named(symbols, strings) {
        Some(Tables { symbols, strings })
    } else {
        None
    }
}

/// The tables of a file, or nothing where a section header or a table breaks the form.
pub(crate) fn read_tables(file: &[u8]) -> Option<Tables<'_>>
    requires { 52 ≤ length file.now }
    ensures some { IfSome result (λ tables. AreTablesWhole file.now
        × AreTables file.now tables.symbols.now tables.strings.now) }
    ensures none { IfNone result (¬ AreTablesWhole file.now) }
{
    if !has_headers(file) {
        return None;
    }
    match find_symbols(file) {
        None => Some(Tables {
            symbols: &[],
            strings: &[],
        }),
        Some(number) => tables_of(file, section_at(file, number)),
    }
}
