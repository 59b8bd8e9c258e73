//! What stands between commas: a line's tokens are cut at the first one. A comma in quotes is part of its token.

ghost use Rattle.std.specs.Prelude.{◌≡◌, ◌∷◌, ◌≤◌, length, map};
ghost use Rattle.std.specs.List.{prefix_len};
ghost use Rattle.ia_lex.specs.Tokens.{lexeme_of};
ghost use Rattle.ia_source.specs.Commas.{is_mark_of, goes_on, between_commas, behind_comma, AreFewer};

use ia_lex::Token;

/// Whether a token is that mark.
pub fn is_mark(mark: u8, token: &Token) -> bool
    ensures { result ≡ is_mark_of mark (lexeme_of token.now) }
{
    match token {
        Token::Mark(byte) => *byte == mark,
        _ => false,
    }
}

/// How far the first comma is.
#[tactic(auto, using(crate::proofs::Commas::comma_steps))]
pub fn comma_index(tokens: &[Token]) -> usize
    ensures long { result ≡ prefix_len goes_on tokens.now }
    ensures within { result ≤ length tokens.now }
{
    let mut place = 0;
    while place < tokens.len() {
        if is_mark(b',', &tokens[place]) {
            return place;
        }
        place += 1;
    }
    place
}

/// What stands before the first comma, and what stands behind it, if there is one.
#[tactic(auto, using(crate::proofs::Commas::first_piece, crate::proofs::Commas::only_piece))]
pub fn first_piece<'a, 'b>(tokens: &'b [Token<'a>]) -> (&'b [Token<'a>], Option<&'b [Token<'a>]>)
    ensures pieces { between_commas (map lexeme_of tokens.now) ≡ map lexeme_of result.0.now ∷ behind_comma result.1 }
    ensures fewer { AreFewer result.1 tokens.now }
{
    let end = comma_index(tokens);
    if end < tokens.len() {
        (&tokens[..end], Some(&tokens[end + 1..]))
    } else {
        (tokens, None)
    }
}
