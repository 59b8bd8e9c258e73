//! Expressions from tokens: a sign or none, then numbers and symbols with signs between, 16 at most. What stands behind
//! the expression is handed back; the sum is made where symbols have values.

ghost use Rattle.std.specs.Prelude.{◌≡◌, ◌≤◌, ◌-◌, length, Option, Some, None, IfSome, IfNone, map, option_map};
ghost use Rattle.ia_lex.specs.Tokens.{lexeme_of};
ghost use Rattle.ia_lex.specs.Terms.{term_content, atom_content, atom_of, sign_of, expression_and_rest, terms_at};
ghost use Rattle.ia_lex.specs.Terms.{with_terms, expression_at};

use crate::terms::{Atom, Expression, Term};
use crate::token::Token;
use crate::words::register_of;

/// Whether a token takes away what follows it, where it is a sign.
pub fn sign(token: &Token) -> Option<bool>
    ensures { result ≡ sign_of (lexeme_of token.now) }
{
    match token {
        Token::Mark(b'+') => Some(false),
        Token::Mark(b'-') => Some(true),
        _ => None,
    }
}

/// The number or the symbol that a token is. A quoted byte is a number; a register is neither.
pub fn atom<'a>(token: &Token<'a>) -> Option<Atom<'a>>
    ensures { option_map atom_content result ≡ atom_of (lexeme_of token.now) }
{
    match token {
        Token::Word(word) => match register_of(word) {
            None => Some(Atom::Symbol(word)),
            Some(_) => None,
        },
        Token::Number(n) => Some(Atom::Number(*n)),
        Token::Text([byte]) => Some(Atom::Number(Some(u64::from(*byte)))),
        _ => None,
    }
}

/// What stands behind a term: a sign and terms, or nothing of this expression.
#[cycle(terms)]
#[tactic(auto, using(crate::proofs::TermLists::term_steps))]
fn behind_term<'a, 'b>(
    out: Expression<'a>,
    tokens: &'b [Token<'a>],
) -> Option<(Expression<'a>, &'b [Token<'a>])>
    ensures { option_map expression_and_rest result
        ≡ with_terms (map term_content out.entry.items) (terms_at (16 - length out.entry.items) None
        (map lexeme_of tokens.now)) }
{
    match tokens.split_first() {
        None => Some((out, tokens)),
        Some((token, rest)) => match sign(token) {
            None => Some((out, tokens)),
            Some(negative) => behind_sign(out, negative, rest),
        },
    }
}

/// What stands behind a sign: a term and what follows it.
#[cycle(terms)]
#[tactic(auto, using(crate::proofs::TermLists::term_steps))]
fn behind_sign<'a, 'b>(
    out: Expression<'a>,
    negative: bool,
    tokens: &'b [Token<'a>],
) -> Option<(Expression<'a>, &'b [Token<'a>])>
    ensures { option_map expression_and_rest result
        ≡ with_terms (map term_content out.entry.items) (terms_at (16 - length out.entry.items) (Some negative)
        (map lexeme_of tokens.now)) }
{
    let mut out = out;
    match tokens.split_first() {
        None => None,
        Some((token, rest)) => {
            if out.is_full() {
                return None;
            }
            match atom(token) {
                None => None,
                Some(atom) => {
                    out.push(Term { negative, atom });
                    behind_term(out, rest)
                }
            }
        }
    }
}

/// The sum or difference in front, of at most 16 numbers and symbols with a sign in front or none, and the tokens
/// behind it.
pub fn expression<'a, 'b>(tokens: &'b [Token<'a>]) -> Option<(Expression<'a>, &'b [Token<'a>])>
    ensures { option_map expression_and_rest result ≡ expression_at (map lexeme_of tokens.now) }
{
    match tokens.split_first() {
        None => None,
        Some((token, rest)) => match sign(token) {
            None => behind_sign(Expression::new(), false, tokens),
            Some(negative) => behind_sign(Expression::new(), negative, rest),
        },
    }
}
