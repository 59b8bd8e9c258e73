//! Operands in memory, between brackets: registers, one of them scaled, and numbers and symbols, in any order, added up
//! term by term. Whether a displacement fits is asked when symbols have values.

ghost use Rattle.std.specs.Prelude.{◌≡◌, ◌≤◌, ◌<◌, length, map, option_map, IfSome, Some, None, false, not};
ghost use Rattle.ia_lex.specs.Tokens.{lexeme_of};
ghost use Rattle.ia_lex.specs.Terms.{term_content, atom_content};
ghost use Rattle.ia_source.specs.MemoryOperands.{long_register, scale_of, both, with_register, with_scaled, with_term};
ghost use Rattle.ia_source.specs.MemoryOperands.{plain, product, factor_of, piece_at, with_piece, memory_from};
ghost use Rattle.ia_source.specs.MemoryOperands.{memory_of, terms_content, piece_content, piece_and_length};
ghost use Rattle.ia_source.specs.MemoryOperands.{place_content};

use crate::comma::is_mark;
use ia_insn::Mem;
use ia_lex::{Atom, Expression, Term, Token, atom, register_of, sign};
use ia_word::Width;

/// A piece of an operand in memory.
#[derive(Clone, Copy)]
pub enum Piece<'a> {
    /// A register.
    Register(u8),
    /// A register and its scale.
    Scaled(u8, u8),
    /// A number or a symbol.
    Valued(Atom<'a>),
}

const NOWHERE: Mem = Mem {
    base: None,
    index: None,
    scale: 1,
    disp: 0,
};

/// The register of 32 bits that a token names.
fn long_register(token: &Token) -> Option<u8>
    ensures { result ≡ long_register (lexeme_of token.now) }
{
    match token {
        Token::Word(word) => match register_of(word) {
            Some((Width::D, register)) => Some(register),
            _ => None,
        },
        _ => None,
    }
}

fn scale(token: &Token) -> Option<u8>
    ensures { result ≡ scale_of (lexeme_of token.now) }
{
    match token {
        Token::Number(Some(1)) => Some(1),
        Token::Number(Some(2)) => Some(2),
        Token::Number(Some(4)) => Some(4),
        Token::Number(Some(8)) => Some(8),
        _ => None,
    }
}

/// One more register: the base, or behind another the index, where ESP changes places with it.
fn with_register(mem: Mem, register: u8) -> Option<Mem>
    ensures { result ≡ with_register mem register }
{
    match (mem.base, mem.index) {
        (None, index) => Some(Mem {
            base: Some(register),
            index,
            scale: mem.scale,
            disp: 0,
        }),
        (Some(_), Some(_)) => None,
        (Some(base), None) => {
            if register != 4 {
                Some(Mem {
                    base: Some(base),
                    index: Some(register),
                    scale: 1,
                    disp: 0,
                })
            } else if base == 4 {
                None
            } else {
                Some(Mem {
                    base: Some(4),
                    index: Some(base),
                    scale: 1,
                    disp: 0,
                })
            }
        }
    }
}

/// One more register with a scale: the index.
fn with_scaled(mem: Mem, register: u8, scale: u8) -> Option<Mem>
    ensures { result ≡ with_scaled mem register scale }
{
    match mem.index {
        Some(_) => None,
        None => {
            if register == 4 {
                None
            } else {
                Some(Mem {
                    base: mem.base,
                    index: Some(register),
                    scale,
                    disp: 0,
                })
            }
        }
    }
}

/// One more term, of at most 16.
#[tactic(auto, using(crate::proofs::MemoryOperands::term_rooms))]
fn push_term<'a>(terms: &mut Expression<'a>, negative: bool, atom: Atom<'a>) -> Option<()>
    ensures { option_map (λ _. terms_content terms.new) result
        ≡ with_term (terms_content terms.old) negative (atom_content atom.entry) }
{
    if terms.is_full() {
        return None;
    }
    terms.push(Term { negative, atom });
    Some(())
}

fn plain<'a>(token: &Token<'a>) -> Option<Piece<'a>>
    ensures { option_map piece_content result ≡ plain (lexeme_of token.now) }
{
    match long_register(token) {
        Some(register) => Some(Piece::Register(register)),
        None => match atom(token) {
            Some(atom) => Some(Piece::Valued(atom)),
            None => None,
        },
    }
}

fn both<'a>(register: &Token<'a>, factor: &Token<'a>) -> Option<Piece<'a>>
    ensures { option_map piece_content result
        ≡ both (long_register (lexeme_of register.now)) (scale_of (lexeme_of factor.now)) }
{
    match (long_register(register), scale(factor)) {
        (Some(register), Some(scale)) => Some(Piece::Scaled(register, scale)),
        _ => None,
    }
}

/// A register times a scale, or a scale times a register.
fn product<'a>(first: &Token<'a>, second: &Token<'a>) -> Option<Piece<'a>>
    ensures { option_map piece_content result ≡ product (lexeme_of first.now) (lexeme_of second.now) }
{
    match first {
        Token::Word(_) => both(first, second),
        _ => both(second, first),
    }
}

/// The token behind a `*` in front.
fn factor<'a, 'b>(tokens: &'b [Token<'a>]) -> Option<&'b Token<'a>>
    ensures token { option_map (λ t. lexeme_of t.now) result ≡ factor_of (map lexeme_of tokens.now) }
    ensures within { IfSome result (λ t. 2 ≤ length tokens.now) }
{
    match tokens {
        [mark, second, ..] => {
            if is_mark(b'*', mark) {
                Some(second)
            } else {
                None
            }
        }
        _ => None,
    }
}

/// The piece in front, and how many tokens it takes.
fn front_piece<'a>(tokens: &[Token<'a>]) -> Option<(Piece<'a>, usize)>
    ensures piece { option_map piece_and_length result ≡ piece_at (map lexeme_of tokens.now) }
    ensures some { IfSome result (λ x. 1 ≤ x.1) }
    ensures within { IfSome result (λ x. x.1 ≤ length tokens.now) }
{
    match tokens.split_first() {
        None => None,
        Some((first, rest)) => match factor(rest) {
            Some(second) => match product(first, second) {
                Some(piece) => Some((piece, 3)),
                None => None,
            },
            None => match plain(first) {
                Some(piece) => Some((piece, 1)),
                None => None,
            },
        },
    }
}

/// A place with one more piece, whose terms go to those of its displacement.
fn with_piece<'a>(
    mem: Mem,
    terms: &mut Expression<'a>,
    negative: bool,
    register: bool,
    piece: Piece<'a>,
) -> Option<Mem>
    ensures { option_map (λ m. (m, terms_content terms.new)) result
        ≡ with_piece mem (terms_content terms.old) negative register (piece_content piece.entry) }
{
    match piece {
        Piece::Register(number) => {
            if !register {
                return None;
            }
            with_register(mem, number)
        }
        Piece::Scaled(number, scale) => {
            if !register {
                return None;
            }
            with_scaled(mem, number, scale)
        }
        Piece::Valued(atom) => match push_term(terms, negative, atom) {
            Some(()) => Some(mem),
            None => None,
        },
    }
}

/// What stands behind a piece: a sign and pieces, or the closing bracket.
#[cycle(memory)]
fn behind_piece<'a>(mem: Mem, terms: &mut Expression<'a>, tokens: &[Token<'a>]) -> Option<Mem>
    ensures { option_map (λ m. place_content m terms.new) result
        ≡ memory_from 0 mem (terms_content terms.old) None (map lexeme_of tokens.now) }
{
    match tokens.split_first() {
        None => None,
        Some((token, rest)) => {
            if is_mark(b']', token) {
                if rest.is_empty() { Some(mem) } else { None }
            } else {
                match sign(token) {
                    None => None,
                    Some(negative) => behind_sign(mem, terms, negative, !negative, rest),
                }
            }
        }
    }
}

/// What stands behind a sign: a piece and what follows it.
#[cycle(memory)]
#[tactic(auto, using(crate::proofs::MemoryOperands::behind_pieces))]
fn behind_sign<'a>(
    mem: Mem,
    terms: &mut Expression<'a>,
    negative: bool,
    register: bool,
    tokens: &[Token<'a>],
) -> Option<Mem>
    ensures { option_map (λ m. place_content m terms.new) result
        ≡ memory_from 0 mem (terms_content terms.old) (Some (negative, register)) (map lexeme_of tokens.now) }
{
    match front_piece(tokens) {
        None => None,
        Some((piece, taken)) => match with_piece(mem, terms, negative, register, piece) {
            None => None,
            Some(mem) => behind_piece(mem, terms, &tokens[taken..]),
        },
    }
}

/// The base and the index of the place whose tokens stand behind an opening bracket, with a displacement of 0, whose
/// terms go to `terms`. A sign in front belongs to a number or a symbol.
#[tactic(auto, unfolding(crate::specs::MemoryOperands::memory_of))]
pub fn read_memory<'a>(tokens: &[Token<'a>], terms: &mut Expression<'a>) -> Option<Mem>
    ensures { option_map (λ m. place_content m terms.new) result ≡ memory_of (map lexeme_of tokens.now) }
{
    terms.clear();
    match tokens.split_first() {
        None => None,
        Some((token, rest)) => match sign(token) {
            None => behind_sign(NOWHERE, terms, false, true, tokens),
            Some(negative) => behind_sign(NOWHERE, terms, negative, false, rest),
        },
    }
}
