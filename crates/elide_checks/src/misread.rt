//! Where a text is no condition, looked for once it is known that one is none.
//!
//! [`first_misread`] goes over the conditions again by the calls that read them, and stops at the first part that says
//! nothing: all of it, where it has no operator, and else its left side, or its right one where the left is an item. It
//! refuses nothing but for want of memory; the line that a person sees is written by `elide_advice`.

use crate::conditions::{clause_of, split_comparison};
use crate::constants::Constants;
use crate::cut::cut;
use crate::items::{Scope, Side, item_of};
use elide_program::ProgramFile;
use elide_setup::Refusal;
use std::alloc::{AllocError, Global};
use tm_condition::Comparison;

/// What is wanted in the place of words that cannot be read.
#[derive(Clone, Copy, PartialEq, Eq, Debug)]
pub enum Wanted {
    /// A comparison, or bytes.
    Clause,
    /// An item.
    Item,
}

/// Words of a condition that cannot be read.
#[derive(Clone, Copy, Debug)]
pub struct Misread<'a> {
    /// The condition.
    pub text: &'a str,
    /// The character of it at which the words begin, counted from 1.
    pub column: usize,
    /// The words, without white space around: none where something is missing.
    pub words: &'a str,
    /// What is wanted there.
    pub wanted: Wanted,
}

/// The first words that cannot be read in the first of some conditions that is none, for the program that a text was
/// read as.
pub fn first_misread<'a>(
    alloc: Global,
    conditions: &[&'a str],
    text: &[u8],
    file: &ProgramFile<'_>,
) -> Result<Option<Misread<'a>>, Refusal> {
    let constants = Constants::read(alloc, text, file)?;
    let scope = Scope {
        file,
        constants: &constants,
    };
    let found = first_in(alloc, conditions, &scope);
    drop(constants);
    Ok(found?)
}

fn first_in<'a>(
    alloc: Global,
    conditions: &[&'a str],
    scope: &Scope<'_, '_, '_>,
) -> Result<Option<Misread<'a>>, AllocError> {
    for condition in conditions {
        if let Some(found) = unread_words(alloc, condition, scope)? {
            return Ok(Some(found));
        }
    }
    Ok(None)
}

// The first words of a condition that cannot be read.
fn unread_words<'a>(
    alloc: Global,
    text: &'a str,
    scope: &Scope<'_, '_, '_>,
) -> Result<Option<Misread<'a>>, AllocError> {
    let mut before = 0;
    let mut rest = text;
    'parts: while let Some((part, more)) = cut(rest, "&&") {
        if clause_of(alloc, part, scope)?.is_none() {
            return Ok(Some(misread_part(text, before, part, scope)));
        }
        before = behind(before, part, 2);
        rest = more;
    }
    if clause_of(alloc, rest, scope)?.is_none() {
        return Ok(Some(misread_part(text, before, rest, scope)));
    }
    Ok(None)
}

// The first words that cannot be read of a part that is neither a comparison nor bytes, before which so many characters
// stand.
fn misread_part<'a>(
    text: &'a str,
    before: usize,
    part: &'a str,
    scope: &Scope<'_, '_, '_>,
) -> Misread<'a> {
    let Some((left, comparison, right)) = split_comparison(part) else {
        return misread_at(text, before, part, Wanted::Clause);
    };
    if item_of(left.trim(), Side::Left, scope).is_none() {
        return misread_at(text, before, left, Wanted::Item);
    }
    let before = behind(before, left, operator_length(comparison));
    misread_at(text, before, right, Wanted::Item)
}

// Words that cannot be read, before which so many characters stand.
fn misread_at<'a>(text: &'a str, before: usize, words: &'a str, wanted: Wanted) -> Misread<'a> {
    let trimmed = words.trim_start();
    let blank = characters(words).saturating_sub(characters(trimmed));
    Misread {
        text,
        column: before.saturating_add(blank).saturating_add(1),
        words: trimmed.trim_end(),
        wanted,
    }
}

// How many characters stand before what follows a part and an operator.
fn behind(before: usize, part: &str, operator: usize) -> usize {
    before
        .saturating_add(characters(part))
        .saturating_add(operator)
}

fn characters(text: &str) -> usize {
    text.chars().count()
}

// How many characters an operator has.
fn operator_length(comparison: Comparison) -> usize {
    match comparison {
        Comparison::Below | Comparison::Above => 1,
        _ => 2,
    }
}
