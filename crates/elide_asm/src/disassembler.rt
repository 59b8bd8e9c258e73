//! `elide dis`: [`dis`] reads FILE, whatever form it has, and prints the instructions of its code.
//!
//! A source is assembled first, and its faults are told as those of `asm`. Then comes code that is longer than its
//! image, and only then a line is printed. With labels `labels` prints, and code outside of the subset is named. Data
//! behind the code is not shown.

ghost use Rattle.std.specs.Prelude.{◌≡◌, ◌≤◌, false, length, take, true, IfOk};
ghost use Rattle.elide_program.specs.declared.file.ProgramFile.{ProgramFile};
ghost use Rattle.elide_program.specs.ProgramFile.{IsFile, file_bytes, file_code_len};
ghost use Rattle.elide_asm.specs.Printed.{AppendsLabelled, IsCodeListing, Prints, PrintsLabelled, PrintsListing};

use crate::labels::list_labelled;
use elide_args::DisOptions;
use elide_places::Places;
use elide_program::{Paths, ProgramFile, ProgramRefusal, read_file};
use ia_image::LoadFault;
use ia_text::disassemble;
use std::alloc::Global;
use text_out::Out;

/// Prints the listing of the code, with its labels where they are asked for, and gives the device back.
pub fn dis<P: Paths, O: Out + Drop>(
    alloc: Global,
    options: &DisOptions<'_>,
    paths: &mut P,
    out: O,
) -> Result<O, ProgramRefusal>
    ensures listing { options.now.shows_labels ≡ false → IfOk result (λ given. PrintsListing
        (P.content paths.old options.now.file.now) (O.device out) (O.device given)) }
    ensures labelled { options.now.shows_labels ≡ true → IfOk result (λ given. PrintsLabelled
        (P.content paths.old options.now.file.now) (O.device out).contents (O.device given).contents) }
{
    let text = read_file(options.file, paths)?;
    let listed = list_text(alloc, options.shows_labels, text.as_slice(), out);
    drop(text);
    listed
}

// Prints the listing of a file of this text.
fn list_text<O: Out + Drop>(
    alloc: Global,
    shows_labels: bool,
    text: &[u8],
    out: O,
) -> Result<O, ProgramRefusal>
    ensures listing { shows_labels ≡ false → IfOk result (λ given. (file : ProgramFile) × IsFile text.now file
        × Prints (IsCodeListing file) (O.device out) (O.device given)) }
    ensures labelled { shows_labels ≡ true → IfOk result (λ given. (file : ProgramFile) × IsFile text.now file
        × AppendsLabelled file (O.device out).contents (O.device given).contents) }
{
    let file = ProgramFile::read(alloc, text)?;
    let listed = if shows_labels {
        list_with_labels(alloc, text, &file, out)
    } else {
        list(&file, out)
    };
    drop(file);
    listed
}

// Prints the listing of a program's file.
fn list<O: Out + Drop>(file: &ProgramFile<'_>, out: O) -> Result<O, ProgramRefusal>
    ensures { IfOk result (λ given. Prints (IsCodeListing file.now) (O.device out) (O.device given)) }
{
    let code = code_of(file)?;
    let mut out = out;
    disassemble(code, file.base(), &mut out)?;
    Ok(out)
}

// What [`list`] does, with the labels of the file, which was read from this text.
fn list_with_labels<O: Out + Drop>(
    alloc: Global,
    text: &[u8],
    file: &ProgramFile<'_>,
    out: O,
) -> Result<O, ProgramRefusal>
    ensures { IfOk result (λ given. AppendsLabelled file.now (O.device out).contents (O.device given).contents) }
{
    let code = code_of(file)?;
    let places = Places::of_file(alloc, file, text)?;
    let listed = list_labelled(alloc, code, file.base(), &places, out);
    drop(places);
    listed
}

// The code, where the image has as many bytes as the file says.
fn code_of<'f>(file: &'f ProgramFile<'_>) -> Result<&'f [u8], ProgramRefusal>
    ensures { IfOk result (λ code. (file_code_len file.now ≤ length (file_bytes file.now))
        × (code.now ≡ take (file_code_len file.now) (file_bytes file.now))) }
{
    match file.bytes().get(..file.code_len() as usize) {
        Some(code) => Ok(code),
        None => Err(ProgramRefusal::from(LoadFault::CodeTooLong)),
    }
}
