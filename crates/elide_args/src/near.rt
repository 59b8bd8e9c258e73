//! The subcommand whose name a wrong word is near.

use crate::subcommands::SUBCOMMANDS;
use std::alloc::{AllocError, Global};
use strsim::{jaro, osa_distance};

// Names that are more alike than this by Jaro's measure are suggested by clap itself.
const SUGGESTED: f64 = 0.7;

/// The first subcommand to whose name one edit leads from a word, as `run` from `rnu`: a character more, one less,
/// another one, or two that are swapped. None where clap suggests a name itself.
pub fn near_subcommand(alloc: Global, word: &str) -> Result<Option<&'static str>, AllocError> {
    if is_suggested(alloc, word)? {
        return Ok(None);
    }
    first_near(alloc, word)
}

// Whether clap suggests a name.
fn is_suggested(alloc: Global, word: &str) -> Result<bool, AllocError> {
    for text in &SUBCOMMANDS {
        if is_alike(alloc, word, text.name)? {
            return Ok(true);
        }
    }
    Ok(false)
}

fn first_near(alloc: Global, word: &str) -> Result<Option<&'static str>, AllocError> {
    for text in &SUBCOMMANDS {
        if is_near(alloc, word, text.name)? {
            return Ok(Some(text.name));
        }
    }
    Ok(None)
}

fn is_alike(alloc: Global, word: &str, name: &str) -> Result<bool, AllocError> {
    Ok(jaro(alloc, word, name)? > SUGGESTED)
}

fn is_near(alloc: Global, word: &str, name: &str) -> Result<bool, AllocError> {
    Ok(osa_distance(alloc, word, name)? == 1)
}
