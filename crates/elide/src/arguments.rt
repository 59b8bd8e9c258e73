//! The arguments of the program, whose bytes stand in a row that is handed in.
//!
//! [`read_words`] takes a row on the stack, and memory only where that is too short. Arguments are read one after
//! another, and the first that is no UTF-8, or has no room, is the fault; its line is told by `main`, since there is no
//! command line yet. What the words say is read by `elide_args`.

use arrayvec::ArrayVec;
use std::env::FillError;
use std::rt::Env;
use std::str;

// The most bytes that all arguments have together.
const ROOM: usize = 262_144;

/// The most bytes of arguments that are read without memory.
pub const USUAL_ROOM: usize = 4096;

// The most arguments: some three times as many as a command has use for.
const MOST: usize = 64;

/// The arguments as words.
pub type Words<'a> = ArrayVec<&'a str, MOST>;

/// Why arguments are no words.
#[derive(Clone, Copy, PartialEq, Eq, Debug)]
pub enum NotWords {
    /// One of them is not UTF-8.
    NotText,
    /// They are more than 64, or have more bytes than there is room for.
    TooLong,
    /// There is no memory for so many bytes of them.
    NoMemory,
}

impl NotWords {
    /// The line that tells it.
    pub fn line(self) -> &'static [u8] {
        match self {
            NotWords::NotText => b"error: an argument is not UTF-8\n",
            NotWords::TooLong =>
                b"error: more than 64 arguments, or more than 262144 bytes of them\n",
            NotWords::NoMemory => b"fault 83 NoMemory\n",
        }
    }

    /// The exit status.
    pub fn status(self) -> u8 {
        match self {
            NotWords::NotText | NotWords::TooLong => 2,
            NotWords::NoMemory => 1,
        }
    }
}

/// The program's arguments, without its name, which is the first. Their bytes go to a row, or where that has no room
/// for them into memory, since a stack may be small.
pub fn read_words<'a, E: Env>(
    env: &E,
    usual: &'a mut [u8],
    long: &'a mut Vec<u8>,
    words: &mut Words<'a>,
) -> Result<(), NotWords> {
    match words_from(env, 1, MOST, usual, words) {
        Err(NotWords::TooLong) => {
            words.clear();
            if long.resize(ROOM, 0).is_err() {
                return Err(NotWords::NoMemory);
            }
            words_from(env, 1, MOST, long.as_mut_slice(), words)
        }
        ended => ended,
    }
}

// The program's arguments from this one on, at most so many of them, whose bytes go to a row.
fn words_from<'a, E: Env>(
    env: &E,
    index: usize,
    most: usize,
    row: &'a mut [u8],
    words: &mut Words<'a>,
) -> Result<(), NotWords> {
    let count = match env.arg(index, row) {
        Ok(count) => count,
        Err(FillError::NotPresent) => return Ok(()),
        Err(FillError::TooLong) => return Err(NotWords::TooLong),
    };
    if most == 0 {
        return Err(NotWords::TooLong);
    }
    let (bytes, rest) = row.split_at_mut(count);
    let Ok(word) = str::from_utf8(bytes) else {
        return Err(NotWords::NotText);
    };
    if words.try_push(word).is_err() {
        return Err(NotWords::TooLong);
    }
    words_from(env, index.saturating_add(1), most - 1, rest, words)
}
