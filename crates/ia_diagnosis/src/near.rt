//! Names that are near another one.

use ia_insn::Mnemonic;
use std::alloc::{AllocError, Global};
use std::str;
use strsim::osa_distance;

/// Longer names are near none.
const MOST: usize = 64;

/// The nearest of names that were seen.
#[derive(Clone, Copy)]
pub struct Nearest<'w, 'a> {
    word: &'w [u8],
    // A nearer name is fewer edits away.
    below: usize,
    /// The nearest name so far.
    pub name: Option<&'a [u8]>,
}

impl<'w, 'a> Nearest<'w, 'a> {
    /// Of no names: one is near a word that a third of its letters leads to, of three letters one.
    pub fn new(word: &'w [u8]) -> Nearest<'w, 'a> {
        Nearest {
            word,
            below: word.len().max(3) / 3 + 1,
            name: None,
        }
    }

    /// The nearest with one more name, which counts where it is nearer than the one so far.
    pub fn with(self, alloc: Global, name: &'a [u8]) -> Result<Nearest<'w, 'a>, AllocError> {
        match distance(alloc, self.word, name, self.below)? {
            Some(away) if away < self.below => Ok(Nearest {
                word: self.word,
                below: away,
                name: Some(name),
            }),
            _ => Ok(self),
        }
    }
}

// How many edits lead from a word to a name, in any case; none where the lengths tell that they are not below a number,
// or a text is long.
fn distance(
    alloc: Global,
    word: &[u8],
    name: &[u8],
    below: usize,
) -> Result<Option<usize>, AllocError> {
    if word.len() > MOST || name.len() > MOST || word.len().abs_diff(name.len()) >= below {
        return Ok(None);
    }
    match (str::from_utf8(word), str::from_utf8(name)) {
        (Ok(word), Ok(name)) => {
            if word.eq_ignore_ascii_case(name) {
                return Ok(Some(0));
            }
            Ok(Some(osa_distance(alloc, word, name)?))
        }
        _ => Ok(None),
    }
}

/// Directives and prefixes, and the usual names of jumps.
const OTHERS: [&str; 29] = [
    "section", "org", "bits", "global", "db", "dd", "resb", "align", "equ", "lock", "je", "jne",
    "jz", "jnz", "jb", "jbe", "ja", "jae", "jl", "jle", "jg", "jge", "js", "jns", "jc", "jnc",
    "sete", "setne", "cmove",
];

// The nearest among directives, prefixes and the usual names of jumps.
fn nearest_other(alloc: Global, word: &[u8]) -> Result<Nearest<'_, 'static>, AllocError> {
    let mut nearest = Nearest::new(word);
    for name in &OTHERS {
        nearest = nearest.with(alloc, name.as_bytes())?;
    }
    Ok(nearest)
}

// The nearest with the names of instructions among these.
fn with_mnemonics<'w>(
    alloc: Global,
    nearest: Nearest<'w, 'static>,
    mnemonics: &'static [Mnemonic],
) -> Result<Nearest<'w, 'static>, AllocError> {
    let mut nearest = nearest;
    for mnemonic in mnemonics {
        nearest = nearest.with(alloc, mnemonic.stem())?;
    }
    Ok(nearest)
}

/// The name of an instruction or a directive that is near a word.
pub fn near_keyword(alloc: Global, word: &[u8]) -> Result<Option<&'static [u8]>, AllocError> {
    let names = [
        Mnemonic::moves(),
        Mnemonic::arithmetic(),
        Mnemonic::jumps(),
        Mnemonic::bare_names(),
    ];
    let mut nearest = nearest_other(alloc, word)?;
    for mnemonics in names {
        nearest = with_mnemonics(alloc, nearest, mnemonics)?;
    }
    Ok(nearest.name)
}
