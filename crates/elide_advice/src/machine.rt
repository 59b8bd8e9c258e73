//! Machines that are not made: which option is at fault, what it was, and what it takes.
//!
//! Values are read from the options once more, with what stands for one that is not given. No file is read: of a
//! program that does not fit, the fault itself says why. Of limits each is looked at, and each that is none has a line.

use crate::asked::{machine_of, number_text};
use crate::page::Page;
use elide_args::{MachineOptions, Subcommand};
use elide_program::number_of;
use ia_image::LoadFault;
use std::fmt;
use std::fmt::Write;
use text_out::Out;

/// The bytes of the least memory of a core, and of a machine's own.
const PAGE: u64 = 4096;

/// The most bytes of memory.
const MOST: u32 = 268_435_456;

// The value of an option, or what it is where it is not given.
fn number_or(text: Option<&str>, default: u32) -> u32 {
    match text {
        Some(_) => number_of(text, "").unwrap_or(default),
        None => default,
    }
}

/// How many cores there are.
pub fn cores_of(machine: &MachineOptions<'_>) -> u32 {
    number_or(machine.cores, 1)
}

/// How many bytes of memory there are.
pub fn memory_of(machine: &MachineOptions<'_>) -> u32 {
    number_or(machine.memory, 65_536)
}

/// Writes what an executable is not, of which this fault was told by its number (docs/FAULTS.md), and how it is made.
pub fn advise_executable<O: Out>(file: &str, fault: u8, page: &mut Page<'_, O>) -> fmt::Result {
    let meaning = match fault {
        90 => "not for a 32-bit Intel 80386; compile with -m32 -march=i486",
        92 => {
            "an object file, a shared one or one with dynamic linking; link with -static -nostdlib -no-pie"
        }
        96 => {
            "a segment without code lies below the end of the code; link with -Wl,-T,elide.ld, the script of examples/c"
        }
        _ => return Ok(()),
    };
    page.put_wrong(file, &meaning)
}

/// Writes why a program is not loaded into a machine.
pub fn advise_load<O: Out>(
    subcommand: &Subcommand<'_>,
    fault: LoadFault,
    page: &mut Page<'_, O>,
) -> fmt::Result {
    let Some(machine) = machine_of(subcommand) else {
        return Ok(());
    };
    let file = machine.file;
    let memory = memory_of(machine);
    match fault {
        LoadFault::Empty => page.put_wrong(file, &"a program has one byte at least"),
        LoadFault::BadCores => writeln!(page, "--cores {}: 1 to 64", cores_of(machine)),
        LoadFault::BadMemorySize => advise_memory(cores_of(machine), memory, page),
        LoadFault::TooLarge => {
            page.put_name(file)?;
            writeln!(page, ": the program ends above --mem {memory}")
        }
        LoadFault::CodeTooLong => page.put_wrong(
            file,
            &"its first line says more bytes of code than there are",
        ),
        LoadFault::EntryOutsideCode => match machine.entry {
            Some(entry) => page.put_value("--entry", entry, &"an entry is the address of code"),
            None => page.put_wrong(file, &"its entry is no address of code"),
        },
        LoadFault::NoMemory => Ok(()),
    }
}

// Why there is no memory of this size.
fn advise_memory<O: Out>(cores: u32, memory: u32, page: &mut Page<'_, O>) -> fmt::Result {
    let least = PAGE.saturating_mul(u64::from(cores).saturating_add(1));
    if u64::from(memory) < least {
        let noun = if cores == 1 {
            "core needs"
        } else {
            "cores need"
        };
        writeln!(page, "{cores} {noun} --mem {least} or more")
    } else if memory > MOST {
        writeln!(page, "--mem {memory}: {MOST} at most")
    } else {
        writeln!(page, "--mem {memory}: a multiple of {PAGE}")
    }
}

/// Writes which limits on lines and on pending stores are none.
pub fn advise_limits<O: Out>(subcommand: &Subcommand<'_>, page: &mut Page<'_, O>) -> fmt::Result {
    for name in ["--reads", "--writes"] {
        let value = number_or(number_text(subcommand, name), 512);
        if value < 1 || value > 4096 {
            writeln!(page, "{name} {value}: 1 to 4096 lines")?;
        }
    }
    let stores = number_or(number_text(subcommand, "--store-buffer"), 0);
    if stores > 64 {
        writeln!(page, "--store-buffer {stores}: 0 to 64 stores")?;
    }
    Ok(())
}

/// Writes why there is no room for so many steps.
pub fn advise_steps<O: Out>(subcommand: &Subcommand<'_>, page: &mut Page<'_, O>) -> fmt::Result {
    match subcommand {
        Subcommand::Threads(options) => {
            let cores = cores_of(&options.machine);
            let budget = number_or(options.budget, 0);
            let steps = u64::from(cores).saturating_mul(u64::from(budget));
            writeln!(
                page,
                "--cores {cores} times --budget {budget}: {steps} steps; 1 to 16777216 are made"
            )
        }
        other => match number_text(other, "--limit") {
            Some(limit) => writeln!(page, "--limit {limit}: 1 to 16777216"),
            None => Ok(()),
        },
    }
}
