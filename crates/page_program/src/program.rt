//! The program of a page, and where its instructions stand in it: [`write_program`].
//!
//! The lines come first, then the place of each instruction among them: of a source its own lines, of anything else
//! a listing, below the sources that stand beside an executable (`sources`). What ran is known before, by the
//! survey. Labels and the bounds of the code are written by `elide_page`.

use crate::code::{Loaded, address_of, insn_at};
use crate::lines::write_lines;
use crate::listing::{Listing, write_listing, write_spot, write_spots};
use crate::sources::Sources;
use elide_program::Form;
use elide_setup::Refusal;
use text_out::{Out, WriteFault};

/// Writes the lines of a program of this text, of which the instructions at these distances from the first byte of the
/// code ran, and where its instructions stand in them. The lines of an executable's sources come before those of its
/// listing.
pub fn write_program<O: Out>(
    loaded: Loaded<'_>,
    form: Form,
    text: &[u8],
    sources: &Sources,
    ran: &[bool],
    out: &mut O,
) -> Result<(), Refusal> {
    match form {
        Form::Source => {
            out.put(b",\n\"text\":[")?;
            write_lines(text, out)?;
            out.put(b"],\n\"at\":[")?;
            write_source_spots(loaded, out)?;
        }
        Form::Executable | Form::Image => write_listed(loaded, sources, ran, out)?,
    }
    out.put(b"]")?;
    Ok(())
}

fn write_listed<O: Out>(
    loaded: Loaded<'_>,
    sources: &Sources,
    ran: &[bool],
    out: &mut O,
) -> Result<(), Refusal> {
    let listing = Listing::of(loaded, sources, ran)?;
    let written = write_both(loaded, sources, &listing, out);
    drop(listing);
    written?;
    Ok(())
}

fn write_both<O: Out>(
    loaded: Loaded<'_>,
    sources: &Sources,
    listing: &Listing<'_>,
    out: &mut O,
) -> Result<(), WriteFault> {
    if sources.rows() > 0 {
        out.put(b",\n\"sources\":[")?;
        sources.write_extents(out)?;
        out.put(b"]")?;
    }
    out.put(b",\n\"text\":[")?;
    sources.write_rows(out)?;
    write_listing(loaded, listing, out)?;
    out.put(b"],\n\"at\":[")?;
    write_spots(loaded, listing, out)
}

// The instructions of a source, each with its line.
fn write_source_spots<O: Out>(loaded: Loaded<'_>, out: &mut O) -> Result<(), WriteFault> {
    let setup = loaded.setup;
    let mut some = false;
    for offset in 0..setup.program.code().len() {
        let line = loaded.places.line_of(address_of(setup, offset));
        if let (Some(line), Some(_insn)) = (line, insn_at(setup, offset)) {
            write_spot(loaded, some, offset, u64::from(line).saturating_sub(1), out)?;
            some = true;
        }
    }
    Ok(())
}
