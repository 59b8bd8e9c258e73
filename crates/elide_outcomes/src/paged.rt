//! The page of an outcome: its number and path, and later the page.
//!
//! [`PageAsked::read`] comes before FILE is read, and tells a path that is FILE's before a number that is none. How
//! many outcomes there are is known only behind the search: [`PageAsked::write`] comes when they are printed, and
//! refuses a number above theirs. The page itself is made by what is handed in ([`Pages`]).

ghost use Rattle.std.specs.Prelude.{◌≡◌, ◌⊎◌, ℕ, IfErr, IfOk, List};
ghost use Rattle.elide_outcomes.specs.Refused.{IsNoPage, IsNotShown, IsOverProgram, IsPageOf};

use elide_args::{MachineOptions, OutcomesOptions};
use elide_program::{Paths, number_of};
use elide_setup::{Paged, Pages, Refusal, page_path};
use std::alloc::Global;
use tm_outcomes::FoundOutcome;

/// `--page`: the page that is asked for.
#[derive(Clone, Copy)]
pub enum PageAsked<'a> {
    /// None.
    Nothing,
    /// That of an outcome.
    Of {
        /// How many outcomes are told before it.
        index: u32,
        /// Where it is written.
        path: &'a str,
    },
}

/// A search that has ended: of which machine and text, and what it told.
#[derive(Clone, Copy)]
pub struct Searched<'a> {
    /// What the options say of the machine.
    pub machine: &'a MachineOptions<'a>,
    /// The text that was searched.
    pub text: &'a [u8],
    /// The outcomes, in the order in which they were told.
    pub told: &'a [FoundOutcome],
}

impl<'a> PageAsked<'a> {
    /// What the options ask for. `--page` is misused where its number is none from 1 on, or its path that of the
    /// program.
    pub fn read<P: Paths>(
        options: &OutcomesOptions<'a>,
        paths: &mut P,
    ) -> Result<PageAsked<'a>, Refusal>
        ensures kept { (other : List ℕ) → P.content paths.new other ≡ P.content paths.old other }
        ensures ok { IfOk result (IsPageOf options.now.page.items) }
        ensures err { IfErr result (λ why. IsNoPage options.now.page.items why
            ⊎ IsOverProgram (P.are_one paths.old) options.now.page.items options.now.machine.file.now why) }
    {
        let [number, path] = options.page.as_slice() else {
            return Ok(PageAsked::Nothing);
        };
        let Some(path) = page_path(Some(path), options.machine.file, None, paths)? else {
            return Ok(PageAsked::Nothing);
        };
        // (outcomes are counted from 1)
        match number_of(Some(number), "--page")?.checked_sub(1) {
            Some(index) => Ok(PageAsked::Of { index, path }),
            None => Err(Refusal::Usage("--page")),
        }
    }

    /// Writes the page. `--page` is misused where fewer outcomes were told.
    pub fn write<P: Paths, W: Pages>(
        self,
        alloc: Global,
        searched: Searched<'_>,
        pages: &W,
        paths: &mut P,
    ) -> Result<Paged, Refusal>
        ensures { IfErr result (IsNotShown searched.entry.text.now searched.entry.machine.now
            searched.entry.told.now self.entry) }
    {
        let PageAsked::Of { index, path } = self else {
            return Ok(Paged::AsAsked);
        };
        let Searched {
            machine,
            text,
            told,
        } = searched;
        match told.get(index as usize) {
            Some(outcome) => {
                let picks = outcome.schedule.as_slice();
                pages.write_page(alloc, machine, text, picks, path, paths)
            }
            None => Err(Refusal::Usage("--page")),
        }
    }
}
