//! What is printed of memory: dumps, and doublewords at sums.
//!
//! [`is_dump`] tests a form with the options, before FILE is read; [`MemoryParts::of_file`] comes with the program, and
//! makes addresses of symbols: those of `--dump` first, then those of `--show`. Whether memory has the parts is asked
//! where they are printed.

ghost use Rattle.std.specs.Prelude.{◌≡◌, ◌++◌, ◌∷◌, [], IfErr, IfOk, MatchOption, None};
ghost use Rattle.std.specs.Prelude.{Some, false};
ghost use Rattle.std.specs.List.{AllZip};
ghost use Rattle.elide_program.specs.Forms.{HasNoColon, IsNoDump};
ghost use Rattle.elide_program.specs.Parts.{AreParts, IsDump};
ghost use Rattle.elide_program.specs.Refusals.{HasNoPart, IsNoPart};
ghost use Rattle.elide_program.specs.Settings.{word32};
ghost use Rattle.elide_program.specs.Sums.{IsSum};

use crate::fault::ProgramRefusal;
use crate::file::ProgramFile;
use crate::number::word32;
use crate::row::add;
use crate::settings::Settings;
use crate::sums::{is_sum, sum_of};
use std::alloc::Global;

/// A part of memory that is printed.
#[derive(Clone, Copy, PartialEq, Eq)]
pub struct Dump {
    /// The address of its first byte.
    pub address: u32,
    /// How many bytes it has.
    pub length: u32,
}

/// What is printed of memory behind the cores.
#[derive(Drop)]
pub struct MemoryParts {
    /// The parts, in the order of the command line.
    pub dumps: Vec<Dump>,
    /// The address of each doubleword, in the order of the command line.
    pub values: Vec<u32>,
}

impl MemoryParts {
    /// What the settings ask for, by the symbols of the file. One that it does not have is a misuse of the option.
    pub fn of_file(
        alloc: Global,
        settings: &Settings<'_>,
        file: &ProgramFile<'_>,
    ) -> Result<MemoryParts, ProgramRefusal>
        ensures parts { IfOk result (AreParts file.now settings.now.dumps.now settings.now.shows.now) }
        ensures none { IfErr result (HasNoPart file.now settings.now.dumps.now settings.now.shows.now) }
    {
        let dumps = dumps_of(alloc, settings.dumps, file)?;
        let values = values_of(alloc, settings.shows, file)?;
        Ok(MemoryParts { dumps, values })
    }
}

fn dumps_of(
    alloc: Global,
    texts: &[&str],
    file: &ProgramFile<'_>,
) -> Result<Vec<Dump>, ProgramRefusal>
    ensures parts { IfOk result (λ dumps. AllZip (λ text dump. IsDump file.now text.now dump) texts.now dumps.items) }
    ensures none { IfErr result (HasNoPart file.now texts.now []) }
{
    let mut dumps = Vec::new(alloc);
    for text in texts {
        let Some(dump) = dump_of(text, file) else {
            return Err(ProgramRefusal::Usage("--dump"));
        };
        add(&mut dumps, dump)?;
    }
    Ok(dumps)
}

fn values_of(
    alloc: Global,
    texts: &[&str],
    file: &ProgramFile<'_>,
) -> Result<Vec<u32>, ProgramRefusal>
    ensures parts { IfOk result
        (λ values. AllZip (λ text address. IsSum file.now text.now (Some address)) texts.now values.items) }
    ensures none { IfErr result (HasNoPart file.now [] texts.now) }
{
    let mut values = Vec::new(alloc);
    for text in texts {
        let Some(address) = sum_of(text, file) else {
            return Err(ProgramRefusal::Usage("--show"));
        };
        add(&mut values, address)?;
    }
    Ok(values)
}

// The part `AT:BYTES`.
fn dump_of(text: &str, file: &ProgramFile<'_>) -> Option<Dump>
    ensures { MatchOption result (IsNoPart file.now text.now) (IsDump file.now text.now) }
{
    let (at, count) = cut(text)?;
    Some(Dump {
        address: sum_of(at, file)?,
        length: word32(count)?,
    })
}

// What stands before the last colon, and behind it.
fn cut(text: &str) -> Option<(&str, &str)>
    ensures { MatchOption result (HasNoColon text.now) (λ parts. text.now ≡ parts.0.now ++ 58 ∷ parts.1.now) }
{
    text.rsplit_once(':')
}

/// Whether a text has the form `AT:BYTES`.
pub fn is_dump(text: &str) -> bool
    ensures { result ≡ false → IsNoDump text.now }
{
    match cut(text) {
        Some((at, count)) => is_sum(at) && word32(count).is_some(),
        None => false,
    }
}
