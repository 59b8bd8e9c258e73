//! Symbols that a program does not have, and the one that may be meant.
//!
//! [`advise_symbol`] reads FILE as a program again and looks for the first word of the option that is none of its
//! symbols, for `--entry`, `--show` and `--dump`; [`advise_unknown`] takes a word from `checks`. Both answer whether
//! they wrote: if not, the option is told by its form. What is near is said by `near`.

use crate::asked::machine_of;
use crate::near::is_near;
use crate::page::Page;
use elide_args::{MachineOptions, Subcommand};
use elide_program::{MOST_BYTES, Paths, ProgramFile};
use ia_asm::ProgramImage;
use ia_diagnosis::Meaning;
use std::alloc::{AllocError, Global};
use std::fmt;
use std::fmt::Write;
use text_out::Out;

/// Names that are longer are near none.
const MOST: usize = 64;

/// Writes the first word of an option's values that is no symbol of FILE, where it takes symbols, and the first symbol
/// that is near. False, and nothing is written, where there is none: also of image text, which has no symbols, and
/// where FILE is not read as a program now.
pub fn advise_symbol<P: Paths, O: Out>(
    alloc: Global,
    subcommand: &Subcommand<'_>,
    name: &str,
    paths: &mut P,
    page: &mut Page<'_, O>,
) -> Result<bool, fmt::Error> {
    if !matches!(name, "--entry" | "--show" | "--dump") {
        return Ok(false);
    }
    let Some(machine) = machine_of(subcommand) else {
        return Ok(false);
    };
    let Ok(text) = paths.read(machine.file, MOST_BYTES) else {
        return Ok(false);
    };
    match ProgramFile::read(alloc, text.as_slice()) {
        Ok(file) => advise_unknown(alloc, unknown_of(subcommand, name, &file), &file, page),
        Err(_) => Ok(false),
    }
}

/// Writes that there is no symbol of this name, and which one is near; false, and nothing is written, where no word is
/// given.
pub fn advise_unknown<O: Out>(
    alloc: Global,
    word: Option<&[u8]>,
    file: &ProgramFile<'_>,
    page: &mut Page<'_, O>,
) -> Result<bool, fmt::Error> {
    let Some(word) = word else {
        return Ok(false);
    };
    let Ok(near) = near_symbol(alloc, word, file) else {
        return Ok(false);
    };
    match &near {
        Some(name) => write_unknown(word, Some(name.as_slice()), page)?,
        None => write_unknown(word, None, page)?,
    }
    Ok(true)
}

// Writes that there is no such symbol, and which one is near.
fn write_unknown<'a, O: Out>(
    word: &'a [u8],
    near: Option<&'a [u8]>,
    page: &mut Page<'_, O>,
) -> fmt::Result {
    writeln!(page, "{}", Meaning::UnknownSymbol(word, near))
}

// The first word of an option's values that is no symbol, in the order of the command line.
fn unknown_of<'s>(
    subcommand: &'s Subcommand<'_>,
    name: &str,
    file: &ProgramFile<'_>,
) -> Option<&'s [u8]> {
    if matches!(file, ProgramFile::Image(_)) {
        return None;
    }
    match (name, subcommand) {
        ("--show", Subcommand::Outcomes(options)) => unknown_in(options.show?, file),
        (name, other) => unknown_of_machine(machine_of(other)?, name, file),
    }
}

fn unknown_of_machine<'s>(
    machine: &'s MachineOptions<'_>,
    name: &str,
    file: &ProgramFile<'_>,
) -> Option<&'s [u8]> {
    match name {
        "--entry" => unknown_in(machine.entry?, file),
        "--show" => unknown_in_all(machine.shows.as_slice(), file),
        "--dump" => unknown_in_all(machine.dumps.as_slice(), file),
        _ => None,
    }
}

fn unknown_in_all<'s>(texts: &'s [&str], file: &ProgramFile<'_>) -> Option<&'s [u8]> {
    for text in texts {
        if let Some(word) = unknown_in(text, file) {
            return Some(word);
        }
    }
    None
}

/// The first word of a value that is no symbol: of what stands before a colon.
pub fn unknown_in<'s>(text: &'s str, file: &ProgramFile<'_>) -> Option<&'s [u8]> {
    let mut sums = text.as_bytes().split(|byte| *byte == b':');
    let sum = sums.next()?;
    for word in sum.split(|byte| parts_words(*byte)) {
        if is_name(word) && file.symbol(word).is_none() {
            return Some(word);
        }
    }
    None
}

// Whether a byte stands between the words of a sum or a list.
fn parts_words(byte: u8) -> bool {
    matches!(byte, b'+' | b'-' | b',') || byte.is_ascii_whitespace()
}

// Whether a word can be the name of a symbol: it begins as no number does, and is no register of a core, as `eax@0`.
fn is_name(word: &[u8]) -> bool {
    match word {
        [] => false,
        [first, ..] => !first.is_ascii_digit() && word.iter().all(|byte| is_name_part(*byte)),
    }
}

fn is_name_part(byte: u8) -> bool {
    byte.is_ascii_graphic() && byte != b'@'
}

// The first symbol that is near a word.
fn near_symbol(
    alloc: Global,
    word: &[u8],
    file: &ProgramFile<'_>,
) -> Result<Option<Vec<u8>>, AllocError> {
    match file {
        ProgramFile::Image(_) => Ok(None),
        ProgramFile::Source(program) => near_in_source(alloc, word, program),
        ProgramFile::Elf(elf) => {
            for index in 0..elf.symbol_count() {
                if let Some(symbol) = elf.symbol_at(index) {
                    if is_meant(word, symbol.name) {
                        return Ok(Some(Vec::from_slice(alloc, symbol.name)?));
                    }
                }
            }
            Ok(None)
        }
    }
}

// What [`near_symbol`] answers of a source, whose local labels have whole names.
fn near_in_source(
    alloc: Global,
    word: &[u8],
    program: &ProgramImage<'_>,
) -> Result<Option<Vec<u8>>, AllocError> {
    for (name, _value) in program.symbols.iter() {
        let mut whole = Vec::from_slice(alloc, name.scope)?;
        whole.extend_from_slice(name.own)?;
        if is_meant(word, whole.as_slice()) {
            return Ok(Some(whole));
        }
    }
    Ok(None)
}

// Whether a symbol could be meant by a word. One whose name a terminal does not print is not told.
fn is_meant(word: &[u8], name: &[u8]) -> bool {
    name.len() <= MOST && is_near(word, name) && name.iter().all(|byte| byte.is_ascii_graphic())
}
