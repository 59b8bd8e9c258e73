//! Expressions with the symbols that their names stand for.

ghost use Rattle.std.specs.Prelude.{◌≡◌, map, option_map, IfOk};
ghost use Rattle.ia_names.specs.Namings.{Naming, IsNaming, Grows};
ghost use Rattle.ia_source.specs.Contents.{scoped_term_content, expression_content};
ghost use Rattle.ia_source.specs.MemoryOperands.{terms_content};
ghost use Rattle.ia_source.specs.Symbols.{term_in_scope, scoped_term, terms_in_scope};

use ia_item::{ScopedAtom, ScopedExpression, ScopedTerm};
use ia_lex::{Atom, Expression, Term};
use ia_names::Names;
use std::alloc::{AllocError, Global};

fn term_in<'a>(names: &mut Names<'a>, term: &Term<'a>) -> Result<ScopedTerm, AllocError>
    ensures scope { names.new.scope ≡ names.old.scope }
    ensures grows { Grows names.old names.new }
    ensures term { IfOk result (λ t. (naming : Naming) → IsNaming naming names.new
        → scoped_term_content naming t ≡ scoped_term names.old.scope.text.now term.now) }
{
    let Term { negative, atom } = *term;
    match atom {
        Atom::Number(Some(number)) => Ok(ScopedTerm {
            negative,
            atom: ScopedAtom::Number(number),
        }),
        Atom::Number(None) => Ok(ScopedTerm {
            negative,
            atom: ScopedAtom::Huge,
        }),
        Atom::Symbol(own) => {
            let symbol = names.symbol(own)?;
            Ok(ScopedTerm {
                negative,
                atom: ScopedAtom::Symbol(symbol),
            })
        }
    }
}

/// The expression that stands behind a label.
#[tactic(auto, using(crate::proofs::ScopedTerms::scoped_steps))]
pub fn expression_in<'a>(
    alloc: Global,
    names: &mut Names<'a>,
    expression: &Expression<'a>,
) -> Result<ScopedExpression, AllocError>
    ensures scope { names.new.scope ≡ names.old.scope }
    ensures grows { Grows names.old names.new }
    ensures terms { IfOk result (λ s. (naming : Naming) → IsNaming naming names.new → expression_content naming s
        ≡ map (term_in_scope names.old.scope.text.now) (terms_content expression.now)) }
{
    let source_terms = expression.as_slice();
    let mut terms = Vec::with_capacity(alloc, source_terms.len())?;
    for term in source_terms {
        let scoped = term_in(names, term)?;
        terms.push(scoped)?;
    }
    Ok(ScopedExpression { terms })
}

/// The expression, where there is one.
pub fn some_expression<'a>(
    alloc: Global,
    names: &mut Names<'a>,
    expression: &Expression<'a>,
) -> Result<Option<ScopedExpression>, AllocError>
    ensures scope { names.new.scope ≡ names.old.scope }
    ensures grows { Grows names.old names.new }
    ensures terms { IfOk result (λ s. (naming : Naming) → IsNaming naming names.new
        → option_map (expression_content naming) s
        ≡ terms_in_scope names.old.scope.text.now (terms_content expression.now)) }
{
    if expression.is_empty() {
        Ok(None)
    } else {
        let scoped = expression_in(alloc, names, expression)?;
        Ok(Some(scoped))
    }
}
