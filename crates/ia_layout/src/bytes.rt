//! The bytes of items, each at the place that it was given, with the values of symbols at hand. An item comes in that
//! fits; nothing is refused here but memory.

ghost use Rattle.std.specs.Prelude.{◌≡◌, ◌≤◌, ◌^◌, ◌++◌, replicate, IfOk, OnOk};
ghost use Rattle.ia_word.specs.Bytes.{long_bytes};
ghost use Rattle.ia_item.specs.Fits.{Fits};
ghost use Rattle.ia_resolve.specs.Symbols.{known};
ghost use Rattle.ia_resolve.specs.Items.{code_bytes};
ghost use Rattle.ia_layout.specs.Placement.{pad, bytes_at, item_bytes, in_section, part_of};
ghost use Rattle.ia_layout.specs.Placement.{code_and_data};
ghost use Rattle.ia_layout.specs.Contents.{entry_place, IsBounded};

use crate::layout::{PlacedEntry, gap};
use ia_encode::encode_with;
use ia_item::{Field, Item, Section, Template};
use ia_resolve::{Table, modulo_long, resolve_field, resolve_template, wide};
use std::alloc::AllocError;

pub fn push_bytes(out: &mut Vec<u8>, bytes: &[u8]) -> Result<(), AllocError>
    ensures { OnOk result (out.new.items ≡ out.old.items ++ bytes.now) }
{
    match out.extend_from_slice(bytes) {
        Ok(()) => Ok(()),
        Err(_) => Err(AllocError),
    }
}

fn push_copies(out: &mut Vec<u8>, count: u64, byte: u8) -> Result<(), AllocError>
    ensures { OnOk result (out.new.items ≡ out.old.items ++ replicate count byte) }
{
    for _ in 0..count {
        if out.push(byte).is_err() {
            return Err(AllocError);
        }
    }
    Ok(())
}

#[tactic(auto, unfolding(ia_resolve::specs::Items::code_bytes))]
fn push_code(
    out: &mut Vec<u8>,
    symbols: &Table,
    at: u128,
    template: &Template,
) -> Result<(), AllocError>
    requires near { at ≤ 2 ^ 126 }
    requires fits { Fits template.now }
    ensures { OnOk result (out.new.items ≡ out.old.items ++ code_bytes
        (known symbols.now.values.entries) at template.now) }
{
    let resolved = resolve_template(symbols, at, template);
    let bytes = encode_with(
        &resolved.insn,
        wide(&template.number),
        wide(&template.displacement),
    );
    push_bytes(out, bytes.as_slice())
}

/// What `align` fills a section with: NOP, or 0.
fn pad(section: Section) -> u8
    ensures { result ≡ pad section }
{
    match section {
        Section::Text => 0x90,
        Section::Data => 0,
    }
}

/// Adds the bytes of an item.
#[tactic(auto, using(crate::proofs::Powers::power_some), unfolding(crate::specs::Placement::bytes_at))]
pub fn push_item(out: &mut Vec<u8>, symbols: &Table, spot: &PlacedEntry) -> Result<(), AllocError>
    requires { IsBounded spot.now }
    ensures { OnOk result (out.new.items ≡ out.old.items ++ item_bytes (known symbols.now.values.entries)
        (entry_place spot.now)) }
{
    match &spot.entry.item {
        Item::Label(_) => Ok(()),
        Item::Equ(_, _) => Ok(()),
        Item::Code(template) => push_code(out, symbols, spot.at, template),
        Item::Byte(expression) => {
            let found = resolve_field(symbols, spot.at, Field::Byte, expression);
            push_bytes(out, &[found.number as u8])
        }
        Item::Text(bytes) => push_bytes(out, bytes),
        Item::Numbers(bytes) => push_bytes(out, bytes.as_slice()),
        Item::Long(expression) => {
            let found = resolve_field(symbols, spot.at, Field::Long, expression);
            push_bytes(out, &found.number.to_le_bytes())
        }
        Item::Reserve(_) => push_copies(out, u64::from(modulo_long(spot.critical_value)), 0),
        Item::Align(multiple) => push_copies(out, gap(*multiple, spot.at), pad(spot.entry.section)),
        Item::Org(_) => Ok(()),
    }
}

fn in_section(a: Section, b: Section) -> bool
    ensures { result ≡ in_section a b }
{
    match (a, b) {
        (Section::Text, Section::Text) => true,
        (Section::Data, Section::Data) => true,
        _ => false,
    }
}

/// Adds the bytes of an item of a section.
pub fn push_part(
    out: &mut Vec<u8>,
    symbols: &Table,
    section: Section,
    spot: &PlacedEntry,
) -> Result<(), AllocError>
    requires { IsBounded spot.now }
    ensures { OnOk result (out.new.items ≡ out.old.items ++ part_of section (known symbols.now.values.entries)
        (entry_place spot.now)) }
{
    if in_section(section, spot.entry.section) {
        push_item(out, symbols, spot)
    } else {
        Ok(())
    }
}

/// The code, and zeros up to the data where there is any.
pub fn join(code: Vec<u8>, count: u64, tail: &[u8]) -> Result<Vec<u8>, AllocError>
    ensures { IfOk result (λ v. v.items ≡ code_and_data code.items count tail.now) }
{
    let mut image = code;
    if tail.is_empty() {
        return Ok(image);
    }
    push_copies(&mut image, count, 0)?;
    push_bytes(&mut image, tail)?;
    Ok(image)
}
