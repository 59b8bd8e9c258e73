//! Sections by their names (gABI, chapter 4, "Sections").

ghost use Rattle.std.specs.Prelude.{◌≡◌, ◌<◌, ◌≤◌, ◌↔◌, ℕ, IsTrue, IfNone, IfSome, length};
ghost use Rattle.ia_elf.specs.Fields.{e_shnum, section};
ghost use Rattle.ia_elf.specs.Named.{HasNames, IsNamedSection, IsSectionNamed, section_names};
ghost use Rattle.ia_elf.specs.Symbols.{name_at};
ghost use Rattle.ia_elf.specs.Tables.{AreHeadersWhole, bytes_of};

use crate::fields::{E_SHNUM, E_SHSTRNDX, HEADER, half_at};
use crate::symbols::name_at;
use crate::tables::{has_headers, section_at, section_bytes};

// The bytes that the names of the sections stand in, where they lie in the file.
fn names(file: &[u8]) -> Option<&[u8]>
    ensures some { IfSome result (λ names. HasNames file.now × (names.now ≡ section_names file.now)) }
    ensures none { IfNone result (¬ HasNames file.now) }
{
    if file.len() < HEADER || !has_headers(file) {
        return None;
    }
    let number = half_at(file, E_SHSTRNDX);
    if number >= half_at(file, E_SHNUM) {
        return None;
    }
    section_bytes(file, section_at(file, u32::from(number)))
}

// Whether the section of this number has this name.
fn is_named(file: &[u8], names: &[u8], number: u32, name: &[u8]) -> bool
    requires header { 52 ≤ length file.now }
    requires headers { AreHeadersWhole file.now }
    requires number { number < e_shnum file.now }
    ensures { IsTrue result ↔ (name_at names.now (section file.now number).sh_name ≡ name.now) }
{
    name_at(names, section_at(file, number).sh_name as usize) == name
}

// The bytes of the section of this number, where it has this name and lies in the file.
fn named_bytes<'a>(file: &'a [u8], names: &[u8], number: u32, name: &[u8]) -> Option<&'a [u8]>
    requires names { HasNames file.now }
    requires strings { names.now ≡ section_names file.now }
    requires number { number < e_shnum file.now }
    ensures some { IfSome result (λ bytes. IsSectionNamed file.now name.now number
        × (bytes.now ≡ bytes_of file.now (section file.now number))) }
    ensures none { IfNone result (¬ IsSectionNamed file.now name.now number) }
{
    if is_named(file, names, number, name) {
        section_bytes(file, section_at(file, number))
    } else {
        None
    }
}

/// The bytes of the first section of this name that lies in the file. `None` where the file has none, or its sections
/// have no names: the file need not be one that [`read_elf`](crate::read_elf) reads.
pub fn section_named<'a>(file: &'a [u8], name: &[u8]) -> Option<&'a [u8]>
    ensures some { IfSome result (λ bytes. HasNames file.now
        × (k : ℕ) × IsNamedSection file.now name.now bytes.now k) }
    ensures none { IfNone result (HasNames file.now → (k : ℕ) → ¬ IsSectionNamed file.now name.now k) }
{
    let names = names(file)?;
    for number in 0..u32::from(half_at(file, E_SHNUM)) {
        if let Some(bytes) = named_bytes(file, names, number, name) {
            return Some(bytes);
        }
    }
    None
}
