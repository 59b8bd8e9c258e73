//! `elide asm`: [`asm`] reads FILE, assembles all of it, and then prints.
//!
//! A fault of the source comes before a byte is printed, and so does want of memory, also that for FILE, which is told
//! as the assembler's. Image text is made without a listing, and a listing without image text, so that neither is kept
//! for nothing. Warnings are told where FILE is read, by `elide_program`; the output is painted above.

ghost use Rattle.std.specs.Prelude.{MatchResult};
ghost use Rattle.ia_asm.specs.Assembles.{GivesListing};
ghost use Rattle.elide_asm.specs.Printed.{IsImageText, Prints, PrintsAssembly, RefusesAssembly, RefusesSource};

use elide_args::AsmOptions;
use elide_program::{Paths, ProgramRefusal, read_source};
use ia_asm::{assemble_code, assemble_listing};
use ia_image::write_image;
use std::alloc::Global;
use text_out::Out;

/// Prints the image text of a source, or its listing.
pub fn asm<P: Paths, O: Out>(
    alloc: Global,
    options: &AsmOptions<'_>,
    paths: &mut P,
    out: &mut O,
) -> Result<(), ProgramRefusal>
    ensures { MatchResult result
        (λ _. PrintsAssembly (P.content paths.old options.now.file.now) options.now.lists
        (O.device out.old) (O.device out.new))
        (RefusesAssembly (P.content paths.old options.now.file.now) options.now.lists
        (O.device out.old) (O.device out.new)) }
{
    let text = read_source(options.file, paths)?;
    if options.lists {
        list(alloc, text.as_slice(), out)
    } else {
        write(alloc, text.as_slice(), out)
    }
}

// Prints the listing of a source.
fn list<O: Out>(alloc: Global, text: &[u8], out: &mut O) -> Result<(), ProgramRefusal>
    ensures { MatchResult result
        (λ _. Prints (GivesListing text.now) (O.device out.old) (O.device out.new))
        (RefusesSource text.now (GivesListing text.now) (O.device out.old) (O.device out.new)) }
{
    let listing = assemble_listing(alloc, text)?;
    out.put(listing.as_slice())?;
    Ok(())
}

// Prints the image text of a source, for which no symbols and no listing are kept.
fn write<O: Out>(alloc: Global, text: &[u8], out: &mut O) -> Result<(), ProgramRefusal>
    ensures { MatchResult result
        (λ _. Prints (IsImageText text.now) (O.device out.old) (O.device out.new))
        (RefusesSource text.now (IsImageText text.now) (O.device out.old) (O.device out.new)) }
{
    let code = assemble_code(alloc, text)?;
    write_image(code.image.as_slice(), code.base, code.code_len, out)?;
    Ok(())
}
