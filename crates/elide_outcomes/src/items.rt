//! What an outcome shows, as `--show` says it: its words, in their order, as items.
//!
//! [`items_of`] comes behind the program, whose symbols the sums name; the first word that says none is a misuse. That
//! one is wanted is told only where nothing else is asked for. Whether the machine has them is asked in `command`,
//! before the search. Their words are printed as they were given, by `naming`.

ghost use Rattle.std.specs.Prelude.{◌≡◌, ◌⊎◌, [], MatchOption, MatchResult, None, Some, codes, false, true};
ghost use Rattle.std.specs.Option.{option_copied};
ghost use Rattle.ia_lex.specs.Words.{register_of};
ghost use Rattle.ia_word.specs.declared.width.Width.TheVariants.{D};
ghost use Rattle.elide_checks.specs.Counts.{core_said};
ghost use Rattle.elide_checks.specs.Misread.{IsNoRegister};
ghost use Rattle.elide_setup.specs.Faults.{want};
ghost use Rattle.elide_setup.specs.Misuse.{IsMisuse};
ghost use Rattle.elide_outcomes.specs.Items.{AreItems, HasNoItem, IsItem, IsNoShownItem, SaysItems};
ghost use Rattle.elide_outcomes.specs.Refused.{AreNoItems};

use elide_checks::{core_of, register_named};
use elide_program::{ProgramFile, add, sum_of};
use elide_setup::Refusal;
use std::alloc::Global;
use tm_outcomes::Item;

/// The items of `--show`: registers of cores, as `eax@0`, and doublewords at symbols or sums. One is wanted at least,
/// and without the option, which may be left out where something else is asked for, there are none.
pub fn items_of(
    alloc: Global,
    text: Option<&str>,
    is_wanted: bool,
    file: &ProgramFile<'_>,
) -> Result<Vec<Item>, Refusal>
    ensures { MatchResult result (λ items. AreItems file.now is_wanted (option_copied text.entry) items.items)
        (AreNoItems file.now is_wanted (option_copied text.entry)) }
{
    let Some(text) = text else {
        return no_items(alloc, is_wanted);
    };
    let items = items_in(alloc, text, file)?;
    if items.is_empty() {
        return Err(Refusal::Usage("--show"));
    }
    Ok(items)
}

// No items, where none is wanted.
fn no_items(alloc: Global, is_wanted: bool) -> Result<Vec<Item>, Refusal>
    ensures { MatchResult result (λ items. (is_wanted ≡ false) × (items.items ≡ []))
        (λ why. (is_wanted ≡ true) × IsMisuse (codes "--show") why) }
{
    if is_wanted {
        return Err(Refusal::Usage("--show"));
    }
    Ok(Vec::new(alloc))
}

// The items that the words of a text say.
fn items_in(alloc: Global, text: &str, file: &ProgramFile<'_>) -> Result<Vec<Item>, Refusal>
    ensures { MatchResult result (λ items. SaysItems file.now text.now items.items)
        (λ why. (HasNoItem file.now text.now × IsMisuse (codes "--show") why) ⊎ (why ≡ want)) }
{
    let mut items = Vec::new(alloc);
    for word in text.split_whitespace() {
        let Some(item) = item_of(word, file) else {
            return Err(Refusal::Usage("--show"));
        };
        add(&mut items, item)?;
    }
    Ok(items)
}

fn item_of(word: &str, file: &ProgramFile<'_>) -> Option<Item>
    ensures { MatchOption result (IsNoShownItem file.now word.now) (IsItem file.now word.now) }
{
    match word.split_once('@') {
        Some((name, number)) => {
            let (core, register) = register_in(name, number)?;
            Some(Item::Register(core, register))
        }
        None => Some(Item::Memory(sum_of(word, file)?)),
    }
}

// The core of this number, and the register of 32 bits of this name.
fn register_in(name: &str, number: &str) -> Option<(u8, u8)>
    ensures { MatchOption result (IsNoRegister name.now ⊎ (core_said number.now ≡ None))
        (λ r. (register_of name.now ≡ Some (D, r.1)) × (core_said number.now ≡ Some r.0)) }
{
    let register = register_named(name)?;
    let core = core_of(number)?;
    Some((core, register))
}
