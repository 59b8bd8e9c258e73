//! Runs each `elide` command that the documents and the table of worked rows show, and tells where it comes to
//! something else than they say.
//!
//! A document's commands are the lines `$ ./elide ..` and `$ cat ..` of its code blocks. What has to be printed stands
//! below a command, up to the next one or the block's end; a line `...` there stands for any lines. The table,
//! `rows.txt`, says its form at its head; its commands run over files in memory, and status, standard output and
//! standard error are compared.
//!
//! Promises no more than safety: it is a test. What a document or a table shows is read by `document` and `table`
//! alone, and `wanted` and `printed` compare; none of these calls a command. Stands on `elide_trial`, whose commands it
//! runs.
#![tactic(auto)]

mod document;
mod exercise;
mod memory;
mod printed;
mod reply;
mod rows;
mod table;
mod wanted;
mod words;

use document::exercises;
use elide_program::Paths;
use elide_test::{SharedPaths, SystemPaths};
use exercise::{Verdict, run};
use rows::Course;
use std::io::Write;
use std::process::ExitCode;
use std::rt::Files;
use std::sync::Wait;
use std::thread::Threads;
use std::{fs, io};
use table::parts;

/// The documents whose commands are run, in this order, so that a later one may read what an earlier one wrote. The
/// last is there for the tests alone.
const DOCUMENTS: [&str; 4] = [
    "docs/TUTORIAL.md",
    "docs/FAULTS.md",
    "examples/README.md",
    "files.md",
];

/// The table of worked rows.
const TABLE: &str = "rows.txt";

fn main(rt: HostRuntime) -> io::Result<ExitCode> {
    let mut out = io::writer(&rt);
    // Made here, where it is known of the runtime itself that threads may share it.
    let mut paths = SystemPaths::new(&rt);
    let mut wrong = 0usize;
    for path in DOCUMENTS {
        wrong = wrong.saturating_add(check(&rt, path, &mut paths, &mut out)?);
    }
    wrong = wrong.saturating_add(check_rows(&rt, TABLE, &mut out)?);
    Ok(if wrong == 0 {
        ExitCode::SUCCESS
    } else {
        ExitCode::FAILURE
    })
}

// Runs the commands of one document, and answers how many print something else.
fn check<R: Threads + Wait + Sync + AllocGlobal + Files, P: Paths + SharedPaths + Sync, W: Write>(
    rt: &R,
    path: &str,
    paths: &mut P,
    out: &mut W,
) -> io::Result<usize> {
    let text = fs::read_to_string(rt, path)?;
    let exercises = exercises(rt.alloc(), &text)?;
    let mut wrong = 0usize;
    for exercise in &exercises {
        match run(rt, exercise, paths)? {
            Verdict::AsShown => {}
            Verdict::Otherwise(said) => {
                wrong = wrong.saturating_add(1);
                writeln!(out, "{path}: {} prints\n{said}", exercise.command)?;
            }
        }
    }
    writeln!(
        out,
        "{path}: {} commands, {wrong} print something else",
        exercises.len()
    )?;
    Ok(wrong)
}

// Runs the commands of the table, and answers how many come to something else.
fn check_rows<R: Threads + Wait + Sync + AllocGlobal + Files, W: Write>(
    rt: &R,
    path: &str,
    out: &mut W,
) -> io::Result<usize> {
    let text = fs::read_to_string(rt, path)?;
    let parts = parts(rt.alloc(), &text)?;
    let mut course = Course::new(rt.alloc());
    for part in &parts {
        course.take(rt, part, out)?;
    }
    let Course {
        rows,
        commands,
        wrong,
        ..
    } = &course;
    writeln!(
        out,
        "{path}: {commands} commands in {rows} rows, {wrong} come to something else"
    )?;
    Ok(course.wrong)
}
