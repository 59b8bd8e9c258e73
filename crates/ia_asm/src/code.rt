//! The bytes of a source: each item's place comes in, from the lowest on, and its bytes are kept. Values of symbols are
//! known before.

ghost use Rattle.std.specs.Prelude.{◌≡◌, ◌≤◌, ◌+◌, ◌^◌, [], refl, IfOk};
ghost use Rattle.ia_layout.specs.Placement.{gap, code_and_data};
ghost use Rattle.ia_layout.specs.Parts.{Keeps, keeps_both};
ghost use Rattle.ia_asm.specs.Takers.{code_with, tail_with};

use crate::assembly::CodeImage;
use crate::program_layout::ProgramLayout;
use ia_item::Section;
use ia_layout::{PlacedEntry, Taker, gap, join, push_part};
use ia_resolve::Table;
use std::alloc::{AllocError, Global};

/// Takes places, and keeps the bytes of each.
#[derive(Drop)]
pub struct Code<'t> {
    /// The values of the symbols.
    pub symbols: &'t Table,
    /// The bytes of the code.
    pub code: Vec<u8>,
    /// The bytes of the data.
    pub tail: Vec<u8>,
}

impl<'t> Code<'t> {
    /// No bytes yet.
    pub fn new(alloc: Global, symbols: &'t Table) -> Code<'t>
        ensures symbols { result.symbols.now ≡ symbols.now }
        ensures code { result.code.items ≡ [] }
        ensures tail { result.tail.items ≡ [] }
    {
        Code {
            symbols,
            code: Vec::new(alloc),
            tail: Vec::new(alloc),
        }
    }
}

impl<'a, 't> Taker<'a> for Code<'t> {
    ghost Taken = { λ a ps b. Keeps code_with a ps b × Keeps tail_with a ps b };

    ghost stays = { λ t. (λ more. refl, λ more. refl) };

    ghost goes_on = { λ a b c ps qs x y. (
      keeps_both code_with a b c ps qs x.0 y.0,
      keeps_both tail_with a b c ps qs x.1 y.1,
    ) };

    fn take(&mut self, spot: &PlacedEntry<'a, '_>) -> Result<(), AllocError> {
        push_part(&mut self.code, self.symbols, Section::Text, spot)?;
        push_part(&mut self.tail, self.symbols, Section::Data, spot)
    }
}

fn code_length(base: u32, end: u128) -> u32
    requires begins { base ≤ end }
    requires short { end ≤ base + 2 ^ 28 }
    ensures { base + result ≡ end }
{
    (end - u128::from(base)) as u32
}

/// The image of the bytes of a source that is laid out.
pub fn image_of(layout: &ProgramLayout, bytes: Code<'_>) -> Result<CodeImage, AllocError>
    requires begins { layout.now.base ≤ layout.now.end }
    requires short { layout.now.end ≤ layout.now.base + 2 ^ 28 }
    ensures base { IfOk result (λ p. p.base ≡ layout.now.base) }
    ensures image { IfOk result (λ p. p.image.items ≡ code_and_data bytes.entry.code.items
        (gap 64 layout.now.end) bytes.entry.tail.items) }
    ensures code_len { IfOk result (λ p. layout.now.base + p.code_len ≡ layout.now.end) }
{
    let Code { code, tail, .. } = bytes;
    let image = join(code, gap(64, layout.end), tail.as_slice())?;
    Ok(CodeImage {
        image,
        base: layout.base,
        code_len: code_length(layout.base, layout.end),
    })
}
