//! Names of numbers: which names of a source stand for a number, and not for a place.
//!
//! [`Constants::read`] goes over the source once more, behind its assembly, so that the one thing which can be wanting
//! is memory. It keeps the names alone: their values are symbols of the file, as those of labels are. `items` asks it
//! what the right side of a comparison is.

ghost use Rattle.std.specs.Prelude.{◌≡◌, ◌++◌, [], List, MatchResult, OnOk, ℕ};
ghost use Rattle.std.specs.Str.{bytes_eq};
ghost use Rattle.ia_item.specs.Names.{whole_name};
ghost use Rattle.elide_checks.specs.Constants.{is_among};
ghost use Rattle.elide_setup.specs.Faults.{want};
ghost use Rattle.elide_checks.specs.EquNames.{both_more, equ_names, names_in, none_more};

use elide_program::ProgramFile;
use elide_setup::Refusal;
use ia_item::{Entry, Item, Name, Walk};
use ia_source::Reader;
use std::alloc::{AllocError, Global};

/// The names of a program that are numbers: those that a source gives by `equ`.
#[derive(Drop)]
pub struct Constants<'t> {
    names: Vec<Name<'t>>,
}

impl<'t> Constants<'t> {
    ghost use Rattle.elide_checks.specs.Constants.{is_constant, is_equ_among};
    ghost use Rattle.ia_source.specs.Source.{entries_of};

    /// Those of the program that a text was read as: a source is read once more. Executables and image text have none.
    pub fn read(
        alloc: Global,
        text: &'t [u8],
        file: &ProgramFile<'_>,
    ) -> Result<Constants<'t>, Refusal>
        ensures { MatchResult result
            (λ constants. (name : List ℕ) → is_among constants.names.items name ≡ is_constant text.now file.now name)
            (λ why. why ≡ want) }
    {
        match file {
            ProgramFile::Source(_) => Constants::of_source(alloc, text),
            ProgramFile::Elf(_) => Ok(Constants::none(alloc)),
            ProgramFile::Image(_) => Ok(Constants::none(alloc)),
        }
    }

    // None.
    fn none(alloc: Global) -> Constants<'t>
        ensures { result.names.items ≡ [] }
    {
        Constants {
            names: Vec::new(alloc),
        }
    }

    // Those of a source.
    fn of_source(alloc: Global, source: &'t [u8]) -> Result<Constants<'t>, Refusal>
        ensures { MatchResult result
            (λ constants. (name : List ℕ)
            → is_among constants.names.items name ≡ is_equ_among name (entries_of source.now))
            (λ why. why ≡ want) }
    {
        let mut walk = EquNames {
            names: Vec::new(alloc),
        };
        let mut reader = Reader::new(alloc, source);
        match reader.go_over(&mut walk) {
            Ok(()) => Ok(Constants { names: walk.names }),
            Err(_) => Err(Refusal::from(AllocError)),
        }
    }

    /// Whether a name is one of them.
    pub fn has(&self, name: &[u8]) -> bool
        ensures { result ≡ is_among self.now.names.items name.now }
    {
        self.names.iter().any(|other| is_named(other, name))
    }
}

// Whether a symbol has this whole name.
fn is_named(symbol: &Name<'_>, name: &[u8]) -> bool
    ensures { result ≡ bytes_eq name.now (whole_name symbol.now) }
{
    Name::new(name) == *symbol
}

// A walk that keeps the names of `equ`s.
#[derive(Drop)]
struct EquNames<'t> {
    names: Vec<Name<'t>>,
}

impl<'t> Walk<'t> for EquNames<'t> {
    ghost Walked = { λ a es b. b.names.items ≡ a.names.items ++ names_in es };

    ghost stays = { λ w. none_more w.names.items };

    ghost goes_on = { λ a b c es fs x y. both_more a.names.items b.names.items c.names.items es fs x y };

    fn go_over(&mut self, entries: &[Entry<'t>]) -> Result<(), AllocError> {
        for entry in entries {
            add_name(&mut self.names, entry)?;
        }
        Ok(())
    }
}

// Adds the name of an entry that is an `equ`.
fn add_name<'t>(names: &mut Vec<Name<'t>>, entry: &Entry<'t>) -> Result<(), AllocError>
    ensures { OnOk result (names.new.items ≡ names.old.items ++ equ_names entry.now) }
{
    if let Item::Equ(definition, _) = &entry.item {
        names.push(definition.name)?;
    }
    Ok(())
}
