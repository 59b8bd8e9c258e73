//! Where the cores begin, as `--entry` lists it: one place for all of them, or one each.
//!
//! [`EntryList::read`] comes with the options, before FILE is read, and tests the form and the count.
//! [`EntryList::addresses`] comes with the program, whose symbols it needs; a name that is none is a misuse, as a wrong
//! form is. That an address is one of code is tested by the loading.

ghost use Rattle.std.specs.Prelude.{◌≡◌, IfErr, IfOk, MatchOption, MatchResult, None, Some, codes, false, length, true};
ghost use Rattle.std.specs.Prelude.{ℕ};
ghost use Rattle.std.specs.List.{list_all};
ghost use Rattle.elide_program.specs.Entries.{AreEntries, IsEntry, entry_words, is_entry, is_entry_list};
ghost use Rattle.elide_program.specs.Refusals.{HasNoStart, NamesOption};

use crate::fault::ProgramRefusal;
use crate::file::ProgramFile;
use crate::number::{is_name, word32};
use crate::row::add;
use std::alloc::Global;

/// A list of entries as `--entry` writes it, in which each word is an address or a name: one entry, or one for each
/// core.
#[derive(Clone, Copy)]
pub struct EntryList<'a> {
    text: &'a str,
}

impl<'a> EntryList<'a> {
    /// A text as a list for so many cores. None where it is no such list.
    pub fn read(text: &'a str, cores: u32) -> Option<EntryList<'a>>
        ensures { MatchOption result (is_entry_list text.now cores ≡ false)
            (λ list. (list.text.now ≡ text.now) × (is_entry_list text.now cores ≡ true)) }
    {
        let count = count_of(text);
        if (count == 1 || count == cores as usize) && are_entries(text) {
            Some(EntryList { text })
        } else {
            None
        }
    }

    /// The address of each entry, by the symbols of the file. A name that it does not have is a misuse of the option.
    pub fn addresses(
        self,
        alloc: Global,
        file: &ProgramFile<'_>,
    ) -> Result<Vec<u32>, ProgramRefusal>
        ensures entries { IfOk result (λ addresses. AreEntries file.now self.entry.text.now addresses.items) }
        ensures none { (cores : ℕ) → IfErr result (HasNoStart file.now self.entry.text.now cores) }
    {
        let mut addresses = Vec::new(alloc);
        for word in self.text.split(',') {
            let address = address_of(word, file)?;
            add(&mut addresses, address)?;
        }
        Ok(addresses)
    }
}

// How many words a list has.
fn count_of(text: &str) -> usize
    ensures { result ≡ length (entry_words text.now) }
{
    text.split(',').count()
}

// Whether each word of a list is an entry.
fn are_entries(text: &str) -> bool
    ensures { result ≡ list_all is_entry (entry_words text.now) }
{
    text.split(',').all(|word| is_entry(word))
}

// Whether a word is an address or a name.
fn is_entry(word: &str) -> bool
    ensures { result ≡ is_entry word.now }
{
    word32(word).is_some() || is_name(word)
}

// The address of an entry. A name that the file does not have is a misuse of the option.
fn address_of(word: &str, file: &ProgramFile<'_>) -> Result<u32, ProgramRefusal>
    ensures { MatchResult result (λ address. IsEntry file.now word.now (Some address))
        (λ refusal. IsEntry file.now word.now None × NamesOption (codes "--entry") refusal) }
{
    match found_address(word, file) {
        Some(address) => Ok(address),
        None => Err(ProgramRefusal::Usage("--entry")),
    }
}

// The number that a word is, or else the address of the symbol of this name, if the file has one.
fn found_address(word: &str, file: &ProgramFile<'_>) -> Option<u32>
    ensures { IsEntry file.now word.now result }
{
    match word32(word) {
        Some(address) => Some(address),
        None => file.symbol(word.as_bytes()),
    }
}
