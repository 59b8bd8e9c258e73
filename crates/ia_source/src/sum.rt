//! Sums of terms, which the tokens of an expression are.

ghost use Rattle.std.specs.Prelude.{◌≡◌, ◌-◌, length, Some, None, map, option_map};
ghost use Rattle.ia_lex.specs.Tokens.{lexeme_of};
ghost use Rattle.ia_lex.specs.Terms.{terms_at, with_terms};
ghost use Rattle.ia_source.specs.MemoryOperands.{terms_content};
ghost use Rattle.ia_source.specs.Operands.{whole, expression_of};

use ia_lex::{Expression, Term, Token, atom, sign};

/// What stands behind a term: a sign and terms, or nothing.
#[cycle(terms)]
#[tactic(auto, using(crate::proofs::Sums::terms_stop, crate::proofs::Sums::terms_nil, crate::proofs::Sums::terms_sign))]
fn behind_term<'a>(out: &mut Expression<'a>, tokens: &[Token<'a>]) -> Option<()>
    ensures { option_map (λ _. terms_content out.new) result
        ≡ whole (with_terms (terms_content out.old) (terms_at (16 - length out.old.items) None
        (map lexeme_of tokens.now))) }
{
    match tokens.split_first() {
        None => Some(()),
        Some((token, rest)) => match sign(token) {
            None => None,
            Some(negative) => behind_sign(out, negative, rest),
        },
    }
}

/// What stands behind a sign: a term and what follows it.
#[cycle(terms)]
#[tactic(auto, using(crate::proofs::Sums::terms_bad, crate::proofs::Sums::terms_full))]
fn behind_sign<'a>(out: &mut Expression<'a>, negative: bool, tokens: &[Token<'a>]) -> Option<()>
    ensures { option_map (λ _. terms_content out.new) result
        ≡ whole (with_terms (terms_content out.old) (terms_at (16 - length out.old.items) (Some negative)
        (map lexeme_of tokens.now))) }
{
    match tokens.split_first() {
        None => None,
        Some((token, rest)) => {
            if out.is_full() {
                return None;
            }
            match atom(token) {
                None => None,
                Some(atom) => {
                    out.push(Term { negative, atom });
                    behind_term(out, rest)
                }
            }
        }
    }
}

/// Takes in the terms of the expression that all of the tokens are, in place of others: a sum or difference of at most
/// 16 numbers and symbols, with a sign in front or none.
pub fn whole_expression<'a>(tokens: &[Token<'a>], terms: &mut Expression<'a>) -> Option<()>
    ensures { option_map (λ _. terms_content terms.new) result ≡ expression_of (map lexeme_of tokens.now) }
{
    terms.clear();
    match tokens.split_first() {
        None => None,
        Some((token, rest)) => match sign(token) {
            None => behind_sign(terms, false, tokens),
            Some(negative) => behind_sign(terms, negative, rest),
        },
    }
}
