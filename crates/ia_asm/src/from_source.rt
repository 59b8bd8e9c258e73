//! From a source to what it gives.

ghost use Rattle.std.specs.Prelude.{◌≡◌, [], MatchResult};
ghost use Rattle.ia_asm.specs.Assemblies.{kinds_of, lines_of, listing_of, symbols_of};
ghost use Rattle.ia_asm.specs.Assembles.{Assembles, AssemblesImage, AssemblesCode, GivesListing, RefusedAs};
ghost use Rattle.ia_asm.specs.Lister.{listing_with};
ghost use Rattle.ia_asm.specs.ProgramLayouts.{IsLaidOut, HasLaidOut};
ghost use Rattle.ia_asm.specs.Takers.{HasBytes};

use crate::assembly::{CodeImage, ProgramImage, Unit};
use crate::code::{Code, image_of};
use crate::fault::AsmFault;
use crate::listing::Lister;
use crate::marks::Marks;
use crate::named_values::NamedValues;
use crate::program_layout::{ProgramLayout, lay_out, take_all};
use ia_layout::Both;
use ia_source::Reader;
use std::alloc::Global;

/// The bytes of the entries of a source that is laid out.
fn take_code<'t>(
    alloc: Global,
    layout: &'t ProgramLayout,
    reader: &mut Reader<'_>,
) -> Result<Code<'t>, AsmFault>
    requires { IsLaidOut reader.old.source.now reader.old.names layout.now }
    ensures { MatchResult result
        (λ t. HasLaidOut reader.old.source.now layout.now (λ es. HasBytes es t))
        (RefusedAs reader.old.source.now) }
{
    let taker = Code::new(alloc, &layout.table);
    let taken = take_all(alloc, layout, taker, reader)?;
    Ok(taken)
}

/// The bytes, the symbols and the marks of the entries of a source that is laid out.
fn take_program<'t, 'a: 't>(
    alloc: Global,
    layout: &'t ProgramLayout,
    reader: &mut Reader<'a>,
) -> Result<Both<Both<Code<'t>, NamedValues<'a>>, Marks>, AsmFault>
    requires { IsLaidOut reader.old.source.now reader.old.names layout.now }
    ensures { MatchResult result
        (λ t. HasLaidOut reader.old.source.now layout.now (λ es.
        HasBytes es t.first.first × (t.first.second.symbols.entries ≡ symbols_of es)
        × (t.second.kinds.items ≡ kinds_of es) × (t.second.lines.items ≡ lines_of es)))
        (RefusedAs reader.old.source.now) }
{
    let program = Both {
        first: Code::new(alloc, &layout.table),
        second: NamedValues::new(alloc),
    };
    let taker = Both {
        first: program,
        second: Marks::new(alloc),
    };
    let taken = take_all(alloc, layout, taker, reader)?;
    Ok(taken)
}

/// The lines that the entries of a source that is laid out have in the listing.
fn take_lines<'t>(
    alloc: Global,
    layout: &'t ProgramLayout,
    reader: &mut Reader<'_>,
) -> Result<Lister<'t>, AsmFault>
    requires { IsLaidOut reader.old.source.now reader.old.names layout.now }
    ensures { MatchResult result
        (λ t. HasLaidOut reader.old.source.now layout.now (λ es. listing_with t [] ≡ listing_of es))
        (RefusedAs reader.old.source.now) }
{
    let taker = Lister::new(alloc, &layout.table);
    let taken = take_all(alloc, layout, taker, reader)?;
    Ok(taken)
}

/// The bytes, the symbols and the lines in the listing of the entries of a source that is laid out.
fn take_everything<'t, 'a: 't>(
    alloc: Global,
    layout: &'t ProgramLayout,
    reader: &mut Reader<'a>,
) -> Result<Both<Both<Code<'t>, NamedValues<'a>>, Lister<'t>>, AsmFault>
    requires { IsLaidOut reader.old.source.now reader.old.names layout.now }
    ensures { MatchResult result
        (λ t. HasLaidOut reader.old.source.now layout.now (λ es.
        HasBytes es t.first.first × (t.first.second.symbols.entries ≡ symbols_of es)
        × (listing_with t.second [] ≡ listing_of es)))
        (RefusedAs reader.old.source.now) }
{
    let program = Both {
        first: Code::new(alloc, &layout.table),
        second: NamedValues::new(alloc),
    };
    let taker = Both {
        first: program,
        second: Lister::new(alloc, &layout.table),
    };
    let taken = take_all(alloc, layout, taker, reader)?;
    Ok(taken)
}

/// Assembles a source, as docs/FORMATS.md says under "Source". If any line has 10 `BadToken`, 15 `NotInSubset`, 13
/// `SymbolTwice` or 11 `BadOperand`, the first such line is told with the first of these; else the first line with 12
/// `UnknownSymbol`, 14 `Range` or 16 `ShortJumpTooFar`. 17 `NoMemory`, where memory was
/// refused or the source would take more than it may, comes without a line.
pub fn assemble<'a>(alloc: Global, source: &'a [u8]) -> Result<Unit<'a>, AsmFault>
    ensures { Assembles source.now result }
{
    let mut reader = Reader::new(alloc, source);
    let layout = lay_out(alloc, &mut reader)?;
    let taken = take_everything(alloc, &layout, &mut reader)?;
    let Both {
        first: program,
        second: lister,
    } = taken;
    let listing = lister.listing()?;
    let image = image_of(&layout, program.first)?;
    Ok(Unit {
        image: image.image,
        base: image.base,
        code_len: image.code_len,
        symbols: program.second.symbols,
        listing,
    })
}

/// Assembles a source, as `assemble` does, without a listing.
pub fn assemble_image<'a>(alloc: Global, source: &'a [u8]) -> Result<ProgramImage<'a>, AsmFault>
    ensures { AssemblesImage source.now result }
{
    let mut reader = Reader::new(alloc, source);
    let layout = lay_out(alloc, &mut reader)?;
    let taken = take_program(alloc, &layout, &mut reader)?;
    let Both {
        first: program,
        second: marks,
    } = taken;
    let image = image_of(&layout, program.first)?;
    Ok(ProgramImage {
        image: image.image,
        base: image.base,
        code_len: image.code_len,
        symbols: program.second.symbols,
        kinds: marks.kinds,
        lines: marks.lines,
    })
}

/// Assembles a source, as `assemble` does, without the symbols and a listing.
pub fn assemble_code(alloc: Global, source: &[u8]) -> Result<CodeImage, AsmFault>
    ensures { AssemblesCode source.now result }
{
    let mut reader = Reader::new(alloc, source);
    let layout = lay_out(alloc, &mut reader)?;
    let taken = take_code(alloc, &layout, &mut reader)?;
    let image = image_of(&layout, taken)?;
    Ok(image)
}

/// The listing of a source, as `assemble` makes it, without the rest.
pub fn assemble_listing(alloc: Global, source: &[u8]) -> Result<Vec<u8>, AsmFault>
    ensures { MatchResult result (λ v. GivesListing source.now v.items) (RefusedAs source.now) }
{
    let mut reader = Reader::new(alloc, source);
    let layout = lay_out(alloc, &mut reader)?;
    let taken = take_lines(alloc, &layout, &mut reader)?;
    let listing = taken.listing()?;
    Ok(listing)
}
