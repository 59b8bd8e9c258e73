//! What was printed against what a document shows.

use std::alloc::{AllocError, Global};

/// Whether lines are those that are wanted, where `...` stands for any lines.
pub fn is_as_shown(alloc: Global, wanted: &[&str], said: &str) -> Result<bool, AllocError> {
    let lines: Vec<&str> = said.lines().collect(alloc)?;
    Ok(is_same(wanted, lines.as_slice()))
}

fn is_same(wanted: &[&str], said: &[&str]) -> bool {
    let mut place = 0usize;
    let mut skips = false;
    for line in wanted {
        if *line == "..." {
            skips = true;
        } else {
            match behind(said, place, line, skips) {
                Some(next) => place = next,
                None => return false,
            }
            skips = false;
        }
    }
    skips || place == said.len()
}

// The place behind a line: at this place, or at the first one from there on, where lines may be skipped.
fn behind(said: &[&str], place: usize, line: &str, skips: bool) -> Option<usize> {
    for index in place..said.len() {
        if said[index] == line {
            return index.checked_add(1);
        }
        if !skips {
            return None;
        }
    }
    None
}
