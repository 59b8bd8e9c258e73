//! Lines of one token. Takes no memory.

ghost use Rattle.std.specs.Prelude.{◌≡◌, ◌≤◌, false, drop, length, option_map};
ghost use Rattle.ia_lex.specs.Alone.{is_bare, is_blank_front, only_word};
ghost use Rattle.ia_lex.specs.Tokens.{front, tokens_from, tokens_of};

use crate::scan::Step;
use crate::scan::front::step;
use crate::token::Token;

// How many blanks stand in front.
#[tactic(auto, using(crate::proofs::Alone::blank_more, crate::proofs::Alone::blanks_end))]
fn blanks(line: &[u8]) -> usize
    ensures within { result ≤ length line.now }
    ensures same { tokens_from 0 (drop result line.now) ≡ tokens_from 0 line.now }
    ensures last { is_blank_front (front (drop result line.now)) ≡ false }
{
    let mut place = 0;
    while place < line.len() {
        match step(&line[place..]) {
            Step::Blank => place += 1,
            _ => return place,
        }
    }
    place
}

// Whether nothing but blanks and a comment stands there.
fn is_bare(line: &[u8]) -> bool
    ensures { result ≡ is_bare (tokens_from 0 line.now) }
{
    let rest = &line[blanks(line)..];
    match step(rest) {
        Step::End => true,
        Step::Bad => false,
        Step::Blank => false,
        Step::One(_token, _long) => false,
    }
}

/// The word that is the only token of a line.
#[tactic(auto, unfolding(crate::specs::Tokens::tokens_of))]
pub fn only_word(line: &[u8]) -> Option<&[u8]>
    ensures { option_map (λ word. word.now) result ≡ only_word (tokens_of line.now) }
{
    let rest = &line[blanks(line)..];
    match step(rest) {
        Step::One(Token::Word(word), n) => {
            if is_bare(&rest[n..]) {
                Some(word)
            } else {
                None
            }
        }
        _ => None,
    }
}
