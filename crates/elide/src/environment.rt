//! What the environment asks for. Takes no memory.
//!
//! Each variable is read once, at the start, and handed in by `main`. What `--color` and `--words` say outweighs both,
//! in `elide_command`.

use std::env::FillError;
use std::rt::Env;

/// A value of more bytes than these is none that is known, and set as much as one of fewer.
const ROOM: usize = 64;

/// Whether no colours are asked for: NO_COLOR is set, and not empty (no-color.org).
pub fn asks_for_no_colors<E: Env>(env: &E) -> bool {
    let mut row = [0; ROOM];
    match env.var("NO_COLOR", &mut row) {
        Ok(count) => count > 0,
        Err(FillError::TooLong) => true,
        Err(FillError::NotPresent) => false,
    }
}

/// Whether words are asked for beside each fault: ELIDE_WORDS is `always`. Another value counts as not set.
pub fn asks_for_words<E: Env>(env: &E) -> bool {
    let mut row = [0; ROOM];
    match env.var("ELIDE_WORDS", &mut row) {
        Ok(count) => row.get(..count) == Some(b"always".as_slice()),
        Err(_) => false,
    }
}
