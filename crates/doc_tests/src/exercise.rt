//! One command of a document, run.

use crate::document::Exercise;
use crate::printed::is_as_shown;
use crate::reply::{ALL, reply_to};
use crate::words::{CommandWords, line_of};
use elide_program::Paths;
use elide_test::SharedPaths;
use std::rt::Files;
use std::sync::Wait;
use std::thread::Threads;
use std::{fs, io};

/// What came of a command.
#[derive(Debug, Drop)]
pub enum Verdict {
    /// It printed what the document shows.
    AsShown,
    /// It printed this.
    Otherwise(String),
}

/// Runs a command: `./elide` or `cat`.
pub fn run<R: Threads + Wait + Sync + AllocGlobal + Files, P: Paths + SharedPaths + Sync>(
    rt: &R,
    exercise: &Exercise<'_>,
    paths: &mut P,
) -> io::Result<Verdict> {
    let alloc = rt.alloc();
    let line = line_of(alloc, exercise.command)?;
    let said = match line.words.as_slice().split_first() {
        Some((first, rest)) if first.as_str() == "cat" => cat(rt, rest)?,
        Some((_elide, rest)) => elide(rt, rest, &line, paths)?,
        None => String::new(alloc),
    };
    if is_as_shown(alloc, exercise.wanted.as_slice(), said.as_str())? {
        Ok(Verdict::AsShown)
    } else {
        Ok(Verdict::Otherwise(said))
    }
}

// The text of a file.
fn cat<R: AllocGlobal + Files>(rt: &R, words: &[String]) -> io::Result<String> {
    match words.first() {
        Some(path) => fs::read_to_string(rt, path.as_str()),
        None => Ok(String::new(rt.alloc())),
    }
}

// What `elide` prints on both of its outputs, but for what goes to a file.
fn elide<R: Threads + Wait + Sync + AllocGlobal + Files, P: Paths + SharedPaths + Sync>(
    rt: &R,
    words: &[String],
    line: &CommandWords,
    paths: &mut P,
) -> io::Result<String> {
    let given = match &line.input {
        Some(path) => fs::read(rt, path.as_str())?,
        None => Vec::new(rt.alloc()),
    };
    let reply = reply_to(rt, words, paths, given.as_slice(), ALL)?;
    let mut said = reply.out;
    if let Some(path) = &line.output {
        fs::write(rt, path.as_str(), said.as_str())?;
        said.clear();
    }
    said.push_str(reply.err.as_str())?;
    Ok(said)
}
