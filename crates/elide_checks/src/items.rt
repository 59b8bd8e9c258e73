//! Items of a check: what stands on one side of a comparison.
//!
//! [`item_of`] looks for an `@` first, and before it for a register, then for a count; else for `&`, and then for a
//! sum. On the left a sum is an address; on the right it is a number where each of its terms is one. Spaces around the
//! word are gone already. What an item holds is asked by `tm_check`.

ghost use Rattle.std.specs.Prelude.{◌≡◌, ◌≢◌, ◌∷◌, List, MatchOption, Some, length, ℕ};
ghost use Rattle.elide_checks.specs.Constants.{is_among};
ghost use Rattle.elide_checks.specs.Items.{IsItem, IsNamed, IsParted, at_place, are_numbers, is_address, is_number};
ghost use Rattle.elide_checks.specs.Items.{trimmed};
ghost use Rattle.elide_checks.specs.Misread.{IsNoItem, IsNoNamed, IsNoRegister};
ghost use Rattle.elide_program.specs.Sums.{is_sign};
ghost use Rattle.elide_program.specs.Settings.{word32};
ghost use Rattle.ia_lex.specs.Words.{register_of};
ghost use Rattle.ia_word.specs.declared.width.Width.TheVariants.{D};
ghost use Rattle.tm_check.specs.declared.clause.Quantity.TheVariants.{OfMachine};

use crate::constants::Constants;
use crate::counts::{core_of, count_of};
use elide_program::{ProgramFile, sum_of};
use ia_lex::{register_of, word_number};
use ia_word::Width;
use tm_check::Quantity;
use tm_condition::Item;

/// On which side of a comparison an item stands.
#[derive(Clone, Copy, PartialEq, Eq)]
pub enum Side {
    /// Before its operator.
    Left,
    /// Behind it.
    Right,
}

/// What the words of a check can name: the symbols of a program, some of which are numbers.
#[derive(Clone, Copy)]
pub struct Scope<'s, 'f, 't> {
    /// The program.
    pub file: &'s ProgramFile<'f>,
    /// Those that are numbers.
    pub constants: &'s Constants<'t>,
}

/// The item of a word, around which no spaces stand: a register of a core, as `eax@0`; a count, as `commits@*`; an
/// address behind `&`; or a sum.
pub fn item_of(word: &str, side: Side, scope: &Scope<'_, '_, '_>) -> Option<Quantity>
    ensures { MatchOption result (IsNoItem scope.now.file.now word.now)
        (IsItem scope.now.file.now (is_among scope.now.constants.now.names.items) side word.now) }
{
    match split_item(word) {
        Some((name, whose)) => {
            let quantity = named_item(name, whose)?;
            Some(quantity)
        }
        None => {
            let item = sum_item(word, side, scope)?;
            Some(Quantity::OfMachine(item))
        }
    }
}

// What stands before the first `@` of a word, and behind it.
fn split_item(word: &str) -> Option<(&str, &str)>
    ensures { MatchOption result (at_place word.now ≡ length word.now)
        (λ parts. IsParted word.now parts.0.now parts.1.now) }
{
    word.split_once('@')
}

// The item that a word with an `@` says: by what stands before the first one and behind it.
fn named_item(name: &str, whose: &str) -> Option<Quantity>
    ensures { MatchOption result (IsNoNamed name.now whose.now) (IsNamed name.now whose.now) }
{
    if let Some(register) = register_named(name) {
        let core = core_of(whose)?;
        return Some(Quantity::OfMachine(Item::Register(core, register)));
    }
    Some(Quantity::OfRun(count_of(name, whose)?))
}

/// The number of a register of 32 bits, 0 to 7, by its name in any case.
pub fn register_named(name: &str) -> Option<u8>
    ensures { MatchOption result (IsNoRegister name.now) (λ register. register_of name.now ≡ Some (D, register)) }
{
    match register_of(name.as_bytes()) {
        Some((Width::D, register)) => Some(register),
        _ => None,
    }
}

// The item that a word without an `@` says.
fn sum_item(word: &str, side: Side, scope: &Scope<'_, '_, '_>) -> Option<Item>
    requires { at_place word.now ≡ length word.now }
    ensures { MatchOption result (IsNoItem scope.now.file.now word.now)
        (λ item. IsItem scope.now.file.now (is_among scope.now.constants.now.names.items) side word.now
        (OfMachine item)) }
{
    match behind_ampersand(word) {
        Some(sum) => {
            let value = sum_of(sum, scope.file)?;
            Some(Item::Number(value))
        }
        None => {
            let value = sum_of(word, scope.file)?;
            if is_address(word, side, scope.constants) {
                Some(Item::Memory(value))
            } else {
                Some(Item::Number(value))
            }
        }
    }
}

// What stands behind `&`.
fn behind_ampersand(word: &str) -> Option<&str>
    ensures { MatchOption result ((rest : List ℕ) → word.now ≢ 38 ∷ rest) (λ rest. word.now ≡ 38 ∷ rest.now) }
{
    word.strip_prefix("&")
}

// Whether a sum is the address of a doubleword.
fn is_address(sum: &str, side: Side, constants: &Constants<'_>) -> bool
    ensures { result ≡ is_address (is_among constants.now.names.items) side sum.now }
{
    match side {
        Side::Left => true,
        Side::Right => !are_numbers(sum.as_bytes(), constants),
    }
}

// Whether each term of a sum is a number, or the name of one.
fn are_numbers(sum: &[u8], constants: &Constants<'_>) -> bool
    ensures { result ≡ are_numbers (is_among constants.now.names.items) sum.now }
{
    sum.split(|byte| is_sign(*byte))
        .all(|term| is_number(term, constants))
}

fn is_sign(byte: u8) -> bool
    ensures { result ≡ is_sign byte }
{
    byte == b'+' || byte == b'-'
}

// Whether a term is a number, or the name of one, or blank.
fn is_number(term: &[u8], constants: &Constants<'_>) -> bool
    ensures { result ≡ is_number (is_among constants.now.names.items) (trimmed term.now) }
{
    is_number_word(term.trim_ascii(), constants)
}

// As [`is_number`], of a term without the spaces around it.
fn is_number_word(word: &[u8], constants: &Constants<'_>) -> bool
    ensures { result ≡ is_number (is_among constants.now.names.items) word.now }
{
    match word {
        [] => true,
        [_, ..] => number_in(word).is_some() || constants.has(word),
    }
}

// The number that a word writes, where it is one below 2^32.
fn number_in(word: &[u8]) -> Option<u32>
    ensures { result ≡ word32 word.now }
{
    u32::try_from(word_number(word)?).ok()
}
