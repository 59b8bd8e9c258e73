//! What is written beside each fault: [`advise`] is the one call, made when the fault's own line stands.
//!
//! A misused option is looked at as a condition first, then for symbols that there are not, and last by its form. What
//! is written is gathered; where it comes to no end, what is still held is dropped, and nobody is told. No exit status
//! depends on it. Each kind of fault has a module of its own here.

use crate::asked::file_of;
use crate::checks::{advise_condition, asked_by};
use crate::files::{advise_input, advise_length, advise_output};
use crate::machine::{advise_executable, advise_limits, advise_load, advise_steps};
use crate::misuse::advise_misuse;
use crate::page::Page;
use crate::range::advise_range;
use crate::source::advise_source;
use crate::steps::{advise_core, advise_schedule, write_line};
use crate::unknown::advise_symbol;
use elide_args::Subcommand;
use elide_program::{Paths, ProgramFault};
use elide_setup::{Fault, Refusal};
use ia_image::ImageFault;
use std::alloc::Global;
use std::fmt;
use std::fmt::Write;
use text_out::Out;
use tm_core::{MachineFault, RunFault};
use tm_hist::{BoardFault, StepFault};

/// Writes where the fault of a command stands and what is meant, for a person at a terminal. FILE and a schedule's file
/// are read again. Nothing is written where there is nothing to add, and it ends where no memory is left or the device
/// fails. Painted or not, the text is the same.
pub fn advise<P: Paths, O: Out>(
    alloc: Global,
    subcommand: &Subcommand<'_>,
    refusal: Refusal,
    paths: &mut P,
    is_painted: bool,
    err: &mut O,
) {
    let mut page = Page::new(err, is_painted);
    let written = match refusal {
        Refusal::Usage(name) => advise_usage(alloc, subcommand, name, paths, &mut page),
        Refusal::Fault(fault) => advise_fault(alloc, subcommand, fault, paths, &mut page),
    };
    if written.is_ok() {
        // A failure here has no further place to be told.
        let _ = page.finish();
    }
}

// How an option is used, or which part of its value cannot be read, or which symbol of it there is not.
fn advise_usage<P: Paths, O: Out>(
    alloc: Global,
    subcommand: &Subcommand<'_>,
    name: &str,
    paths: &mut P,
    page: &mut Page<'_, O>,
) -> fmt::Result {
    if let Some(asked) = asked_by(subcommand, name) {
        return advise_condition(alloc, asked, name, paths, page);
    }
    // Before the form, which is right where only a symbol is not there.
    if advise_symbol(alloc, subcommand, name, paths, page)? {
        return Ok(());
    }
    advise_misuse(subcommand, name, page)
}

fn advise_fault<P: Paths, O: Out>(
    alloc: Global,
    subcommand: &Subcommand<'_>,
    fault: Fault,
    paths: &mut P,
    page: &mut Page<'_, O>,
) -> fmt::Result {
    match fault {
        Fault::Program(fault) => advise_program(alloc, subcommand, fault, paths, page),
        Fault::Machine(MachineFault::BadLimits) => advise_limits(subcommand, page),
        Fault::Board(BoardFault::BadLimits) => advise_limits(subcommand, page),
        Fault::Board(BoardFault::BadLimit) => advise_steps(subcommand, page),
        Fault::Run(RunFault::NoSuchCore) => advise_core(alloc, subcommand, paths, page),
        Fault::Step(StepFault::NoSuchCore) => advise_core(alloc, subcommand, paths, page),
        Fault::Schedule(fault) => advise_schedule(subcommand, fault, paths, page),
        Fault::OutOfRange => advise_range(subcommand, page),
        Fault::SpawnRefused => writeln!(
            page,
            "the system refused a thread: it starts no further one (ulimit -u), or has no memory for its stack (ulimit -v)"
        ),
        Fault::Output => advise_output(subcommand, page),
        _ => Ok(()),
    }
}

fn advise_program<P: Paths, O: Out>(
    alloc: Global,
    subcommand: &Subcommand<'_>,
    fault: ProgramFault,
    paths: &mut P,
    page: &mut Page<'_, O>,
) -> fmt::Result {
    let Some(file) = file_of(subcommand) else {
        return Ok(());
    };
    match fault {
        ProgramFault::Assemble(fault) => advise_source(alloc, file, fault, paths, page),
        ProgramFault::Image(ImageFault::BadImageText(1)) => {
            let meaning = "the first line is 'image 1 BASE CODE', two numbers in hex";
            write_line(file, 1, meaning, paths, page)
        }
        ProgramFault::Image(ImageFault::BadImageText(line)) => {
            let meaning = "a line has hex digits, an even number of them";
            write_line(file, line, meaning, paths, page)
        }
        ProgramFault::Elf(fault) => advise_executable(file, fault.code(), page),
        ProgramFault::Load(fault) => advise_load(subcommand, fault, page),
        ProgramFault::Input => advise_input(subcommand, paths, page),
        ProgramFault::TooLong => advise_length(page),
        _ => Ok(()),
    }
}
