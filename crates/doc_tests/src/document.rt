//! The commands of a document, each with the lines that the document shows below it. Nothing is run here.

use std::alloc::{AllocError, Global};

/// A command, and the lines that it has to print.
#[derive(Debug, Drop)]
pub struct Exercise<'a> {
    /// The command, as a shell has it.
    pub command: &'a str,
    /// What it prints, line by line; `...` stands for any lines.
    pub wanted: Vec<&'a str>,
}

/// The commands of a document in their order.
pub fn exercises<'a>(alloc: Global, text: &'a str) -> Result<Vec<Exercise<'a>>, AllocError> {
    let mut found: Vec<Exercise<'a>> = Vec::new(alloc);
    let mut inside = false;
    for line in text.lines() {
        inside = take_line(alloc, &mut found, inside, line)?;
    }
    Ok(found)
}

// One line more; answers whether the next one may belong to a command.
fn take_line<'a>(
    alloc: Global,
    found: &mut Vec<Exercise<'a>>,
    inside: bool,
    line: &'a str,
) -> Result<bool, AllocError> {
    if let Some(command) = line.strip_prefix("$ ") {
        if !is_run(command) {
            return Ok(false);
        }
        let wanted = Vec::new(alloc);
        found
            .push(Exercise { command, wanted })
            .map_err(|_| AllocError)?;
        return Ok(true);
    }
    if !inside || line.starts_with("```") {
        return Ok(false);
    }
    if let Some(last) = found.last_mut() {
        last.wanted.push(line).map_err(|_| AllocError)?;
    }
    Ok(true)
}

// Whether a command is one of those that are run.
fn is_run(command: &str) -> bool {
    command.starts_with("./elide ") || command.starts_with("cat ")
}
