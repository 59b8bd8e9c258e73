//! Pages of runs that a command finds, as `hunt` and `outcomes` ask for them.
//!
//! Before a search, [`page_path`] refuses a path that would overwrite FILE or the record; after it,
//! [`Pages::write_page`] is handed the picks of the run that was found. The program's text is handed in, as it was read
//! for the search. What makes a page stands above the commands, in `elide_page`, and comes to them by the trait.

ghost use Rattle.std.specs.Prelude.{◌≡◌, ◌⊎◌, ℕ, IfErr, IfOk, List, Some, true};
ghost use Rattle.std.specs.Option.{option_copied};
ghost use Rattle.elide_setup.specs.Refused.{AreOne, IsNotPaged, IsPageOver};
ghost use Rattle.elide_args.specs.declared.subcommand.MachineOptions.{MachineOptions};
ghost use Rattle.elide_setup.specs.Paging.{IsPaged};
ghost use Rattle.tm_model.specs.declared.outcome.Pick.{Pick};

use crate::fault::Refusal;
use elide_args::MachineOptions;
use elide_program::Paths;
use std::alloc::Global;
use tm_model::Pick;

/// What became of the page of a run.
#[derive(Clone, Copy, PartialEq, Eq, Debug)]
pub enum Paged {
    /// It was written, where one was asked for.
    AsAsked,
    /// The run has more steps than a page can have, and no file was changed.
    TooLong,
}

/// What writes runs as pages. Commands that find a run are given it, so that they do not wait for the page's own
/// crates.
pub trait Pages {
    // A text, the last, is a page of the run of these steps: of the machine of these options, and of the program whose
    // text FILE has.
    ghost shows: { Self → MachineOptions → List ℕ → List Pick → List ℕ → Type 0 };

    /// Writes the run of these steps to a file, as a whole or not at all: of the machine of these options and of the
    /// program whose text FILE has. A run of more than 200,000 steps is [`Paged::TooLong`], and no other is. 81
    /// `Output` where the file cannot be written.
    fn write_page<P: Paths>(
        &self,
        alloc: Global,
        machine: &MachineOptions<'_>,
        text: &[u8],
        picks: &[Pick],
        path: &str,
        paths: &mut P,
    ) -> Result<Paged, Refusal>
        ensures paged { IfOk result (IsPaged (shows self.now machine.now text.now picks.now)
            (P.content paths.old) (P.content paths.new) path.now picks.now) }
        ensures refused { IfErr result (IsNotPaged text.now machine.now picks.now) };
}

/// The path that `--page` gives, which is neither that of the program nor that of the record.
#[tactic(auto, using(crate::proofs::OneFile::is_one))]
pub fn page_path<'a, P: Paths>(
    path: Option<&'a str>,
    file: &str,
    recorded: Option<&str>,
    paths: &mut P,
) -> Result<Option<&'a str>, Refusal>
    ensures kept { (other : List ℕ) → P.content paths.new other ≡ P.content paths.old other }
    ensures given { IfOk result (λ given. given ≡ path.entry) }
    ensures over { IfErr result (IsPageOver (P.are_one paths.old) path.entry file.now (option_copied recorded.entry)) }
{
    let Some(page) = path else {
        return Ok(None);
    };
    if paths.is_same_file(page, file) || is_path(recorded, page, paths) {
        return Err(Refusal::Usage("--page"));
    }
    Ok(Some(page))
}

// Whether both paths are one.
#[tactic(auto, using(crate::proofs::OneFile::is_one))]
fn is_path<P: Paths>(recorded: Option<&str>, page: &str, paths: &mut P) -> bool
    ensures kept { (other : List ℕ) → P.content paths.new other ≡ P.content paths.old other }
    ensures one { result ≡ true → (other : List ℕ) × (option_copied recorded.entry ≡ Some other)
        × ((other ≡ page.now) ⊎ AreOne (P.are_one paths.old page.now other) true) }
{
    match recorded {
        Some(other) => other == page || paths.is_same_file(page, other),
        None => false,
    }
}
