//! What reading a source may take.
//!
//! An assembler takes no more than 12 times its source and 64 MiB beside what it gives: of that reading may spend 10
//! bytes for each of the source's and 60 MiB, on tokens, on the entries of a part and on names. It asks before each
//! line, so that a source that is made to take much is refused and takes nothing from others.

ghost use Rattle.std.specs.Prelude.{◌≡◌, ◌≤◌, length, false};
ghost use Rattle.ia_names.specs.Namings.{Grows};
ghost use Rattle.ia_source.specs.declared.budget.Extent.TheVariants.{Whole};

use crate::list::EntryList;
use ia_names::Names;
use std::alloc::AllocError;

/// What reading may take for each byte of a source, in bytes.
const FOR_A_BYTE: usize = 10;

/// What reading may take for any source, in bytes.
const FOR_ANY: usize = 60 << 20;

/// A token, in bytes: 24 in the list of its line, and 4 for a number's own bytes, which stand twice until they are an
/// entry.
const TOKEN: usize = 28;

/// A part of a name, in bytes: 44 among the parts, 29 among the symbols that are defined, and up to 70 in the largest
/// table that the assembler makes of symbols at a time.
const NAME: usize = 144;

/// What a name that `equ` defines takes more, in bytes, in the table of their values.
const EQU: usize = 52;

/// Lines up to this length count as if each byte were a token.
const SHORT: usize = 4096;

/// What the entries of a part take, in bytes, before those of its last line.
const PART: usize = 40 << 20;

/// What reading a source may take.
#[derive(Clone, Copy)]
pub struct Budget {
    // All that it may take, in bytes.
    all: usize,
    // How many names the source defines by `equ`, as far as it was read before.
    equs: usize,
}

/// How much of a source is read at a time.
#[derive(Clone, Copy)]
pub enum Extent {
    /// All lines, whatever they take.
    Whole,
    /// Lines until a part's entries stand, by a budget.
    Part(Budget),
}

/// Whether a byte is part of a name or a number.
fn is_in_word(byte: u8) -> bool {
    byte.is_ascii_alphanumeric() || byte == b'_' || byte == b'.'
}

/// How many bytes of a line are in no name and no number.
fn marks(line: &[u8]) -> usize
    ensures { result ≤ length line.now }
{
    line.iter().filter(|byte| !is_in_word(**byte)).count()
}

/// How many tokens a line can have: no two names stand side by side, and each other token takes a byte of its own.
fn most_tokens(line: &[u8]) -> usize
    ensures { result ≤ length line.now }
{
    if line.len() <= SHORT {
        line.len()
    } else {
        marks(line)
            .saturating_mul(2)
            .saturating_add(1)
            .min(line.len())
    }
}

impl Budget {
    /// The budget of a source.
    pub fn new(source: &[u8]) -> Budget {
        Budget {
            all: source
                .len()
                .saturating_mul(FOR_A_BYTE)
                .saturating_add(FOR_ANY),
            equs: 0,
        }
    }

    /// The budget of a source that defines so many names by `equ`.
    pub fn with_equs(self, equs: usize) -> Budget {
        Budget {
            all: self.all,
            equs: self.equs.max(equs),
        }
    }

    /// What is left for the entries and the names of a line, in bytes, if anything is.
    fn left(self, names: usize, equs: usize, entries: usize, line: &[u8]) -> Option<usize> {
        let names = names.saturating_mul(NAME);
        let equs = equs.max(self.equs).saturating_mul(EQU);
        let tokens = most_tokens(line).saturating_mul(TOKEN);
        let taken = names
            .saturating_add(equs)
            .saturating_add(entries)
            .saturating_add(tokens);
        self.all.checked_sub(taken)
    }
}

impl Extent {
    /// Whether entries that take so many bytes are all that is read at a time.
    pub fn is_full(self, taken: usize) -> bool
        ensures { self ≡ Whole → result ≡ false }
    {
        match self {
            Extent::Whole => false,
            Extent::Part(_) => taken >= PART,
        }
    }

    /// Lets the entries and the names of a line take what is left for them: a half for each.
    pub fn make_room(
        self,
        names: &mut Names,
        entries: &mut EntryList,
        equs: usize,
        line: &[u8],
    ) -> Result<(), AllocError>
        ensures scope { names.new.scope ≡ names.old.scope }
        ensures grows { Grows names.old names.new }
        ensures entries { entries.new.list ≡ entries.old.list }
    {
        if let Extent::Part(budget) = self {
            let Some(left) = budget.left(names.count(), equs, entries.taken, line) else {
                return Err(AllocError);
            };
            entries.allow(left / 2);
            names.limit(names.count().saturating_add(left / 2 / NAME));
        }
        Ok(())
    }
}
