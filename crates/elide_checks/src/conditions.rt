//! Conditions, as a text says them: from the value of an option to its clauses, in their order.
//!
//! [`condition_of`] cuts at each `&&`, then looks for an operator; only a part without one is read as bytes. The first
//! part that says nothing makes the option misused, by the name that is handed in. Which words of it are at fault is
//! looked for by `misread`; whether a clause holds is asked by `tm_check`.

ghost use Rattle.std.specs.Prelude.{◌≡◌, ◌⊎◌, ◌++◌, ◌∷◌, ℕ, [], Bool, IfOk, List, MatchOption, MatchResult};
ghost use Rattle.std.specs.Str.{trim};
ghost use Rattle.elide_checks.specs.Conditions.{HasNoOperator, IsClause, IsCompared, IsComparison, IsCondition};
ghost use Rattle.elide_checks.specs.Constants.{is_among};
ghost use Rattle.elide_checks.specs.Misread.{IsNoClause, IsNoCondition, IsNoItem};
ghost use Rattle.elide_checks.specs.Refused.{IsMisreadText};
ghost use Rattle.elide_program.specs.declared.file.ProgramFile.{ProgramFile as ProgramFileOf};
ghost use Rattle.tm_check.specs.declared.clause.RunClause.{RunClause as RunClauseOf};

use crate::bytes::bytes_of;
use crate::cut::cut;
use crate::items::{Scope, Side, item_of};
use elide_program::add;
use elide_setup::Refusal;
use std::alloc::{AllocError, Global};
use tm_check::{Quantity, RunClause};
use tm_condition::{Clause, Comparison};

/// What a text says: comparisons and bytes, with `&&` between them. Anything else is a misuse of the option of this
/// name.
pub fn condition_of(
    alloc: Global,
    text: &str,
    scope: &Scope<'_, '_, '_>,
    name: &'static str,
) -> Result<Vec<RunClause>, Refusal>
    ensures { MatchResult result
        (λ clauses. IsCondition scope.now.file.now (is_among scope.now.constants.now.names.items)
        text.now clauses.items)
        (IsMisreadText (IsNoCondition scope.now.file.now text.now) name.now) }
{
    let mut clauses = Vec::new(alloc);
    let mut rest = text;
    'clauses: while let Some((first, more)) = cut(rest, "&&") {
        add_clause(alloc, &mut clauses, first, scope, name)?;
        rest = more;
    }
    add_clause(alloc, &mut clauses, rest, scope, name)?;
    Ok(clauses)
}

// Adds what one part of a condition says.
fn add_clause(
    alloc: Global,
    clauses: &mut Vec<RunClause>,
    text: &str,
    scope: &Scope<'_, '_, '_>,
    name: &'static str,
) -> Result<(), Refusal>
    ensures { MatchResult result
        (λ _. (clause : RunClauseOf) × (clauses.new.items ≡ clauses.old.items ++ clause ∷ [])
        × IsClause scope.now.file.now (is_among scope.now.constants.now.names.items) text.now clause)
        (IsMisreadText (IsNoClause scope.now.file.now text.now) name.now) }
{
    match clause_of(alloc, text, scope)? {
        Some(clause) => {
            add(clauses, clause)?;
            Ok(())
        }
        None => Err(Refusal::Usage(name)),
    }
}

/// What one part of a condition says: a comparison, or bytes.
pub fn clause_of(
    alloc: Global,
    text: &str,
    scope: &Scope<'_, '_, '_>,
) -> Result<Option<RunClause>, AllocError>
    ensures { IfOk result (λ found. MatchOption found (IsNoClause scope.now.file.now text.now)
        (IsClause scope.now.file.now (is_among scope.now.constants.now.names.items) text.now)) }
{
    // First, since `==` has the `=` of bytes.
    if let Some((before, comparison, behind)) = split_comparison(text) {
        return Ok(comparison_of(before, comparison, behind, scope));
    }
    match bytes_of(alloc, text, scope.file)? {
        Some((address, bytes)) => Ok(Some(RunClause::OfMachine(Clause::Bytes(address, bytes)))),
        None => Ok(None),
    }
}

/// The two sides of a comparison.
pub fn split_comparison(text: &str) -> Option<(&str, Comparison, &str)>
    ensures { MatchOption result (HasNoOperator text.now)
        (λ parts. IsCompared text.now parts.0.now parts.1 parts.2.now) }
{
    if let Some((before, behind)) = cut(text, "==") {
        return Some((before, Comparison::Equal, behind));
    }
    if let Some((before, behind)) = cut(text, "!=") {
        return Some((before, Comparison::NotEqual, behind));
    }
    // Before `<` and `>`, which these begin with.
    if let Some((before, behind)) = cut(text, "<=") {
        return Some((before, Comparison::AtMost, behind));
    }
    if let Some((before, behind)) = cut(text, ">=") {
        return Some((before, Comparison::AtLeast, behind));
    }
    if let Some((before, behind)) = cut(text, "<") {
        return Some((before, Comparison::Below, behind));
    }
    if let Some((before, behind)) = cut(text, ">") {
        return Some((before, Comparison::Above, behind));
    }
    None
}

// The comparison of two items.
fn comparison_of(
    before: &str,
    comparison: Comparison,
    behind: &str,
    scope: &Scope<'_, '_, '_>,
) -> Option<RunClause>
    ensures { MatchOption result
        (IsNoItem scope.now.file.now (trim before.now) ⊎ IsNoItem scope.now.file.now (trim behind.now))
        (λ clause. (text : List ℕ) → IsCompared text before.now comparison behind.now →
        IsClause scope.now.file.now (is_among scope.now.constants.now.names.items) text clause) }
{
    let left = item_of(before.trim(), Side::Left, scope)?;
    let right = item_of(behind.trim(), Side::Right, scope)?;
    Some(clause_between(left, comparison, right))
}

// The comparison of two values: one of a machine alone where both are of it.
fn clause_between(left: Quantity, comparison: Comparison, right: Quantity) -> RunClause
    ensures { (file : ProgramFileOf) (constants : List ℕ → Bool) (text : List ℕ) →
        IsComparison file constants text left comparison right → IsClause file constants text result }
{
    match (left, right) {
        (Quantity::OfMachine(left), Quantity::OfMachine(right)) => {
            RunClause::OfMachine(Clause::Compare(left, comparison, right))
        }
        (left, right) => RunClause::Compare(left, comparison, right),
    }
}
