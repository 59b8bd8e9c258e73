//! What stands in front of a line: a label, and what the line asks for.

ghost use Rattle.std.specs.Prelude.{◌≡◌, map, option_map};
ghost use Rattle.ia_lex.specs.Tokens.{lexeme_of};
ghost use Rattle.ia_source.specs.Heads.{begins_with_colon, behind_colon, behind_lock, by_keyword, statement_at};
ghost use Rattle.ia_source.specs.Heads.{with_label, head_of, is_label, statement_content, head_content};

use crate::comma::is_mark;
use crate::directive::{Directive, Keyword};
use crate::keyword::keyword;
use ia_insn::Mnemonic;
use ia_lex::{Token, register_of};

/// What a line asks for.
#[derive(Clone, Copy)]
pub enum Statement {
    /// Nothing.
    Nothing,
    /// An instruction, with LOCK or without.
    Code(bool, Mnemonic),
    /// Something of the assembler.
    Directive(Directive),
    /// LOCK stands alone or before a directive.
    Unfit,
}

/// A line, up to its operands.
#[derive(Clone, Copy)]
pub struct Head<'a, 'b> {
    /// The name in front.
    pub label: Option<&'a [u8]>,
    /// What it asks for.
    pub statement: Statement,
    /// Its operands.
    pub rest: &'b [Token<'a>],
}

fn begins_with_colon(tokens: &[Token]) -> bool
    ensures { result ≡ begins_with_colon (map lexeme_of tokens.now) }
{
    match tokens.first() {
        Some(token) => is_mark(b':', token),
        None => false,
    }
}

/// What stands behind a label, and the colon if it has one.
#[tactic(auto, using(crate::proofs::Heads::with_colon, crate::proofs::Heads::without_colon))]
fn behind_colon<'a, 'b>(tokens: &'b [Token<'a>]) -> &'b [Token<'a>]
    ensures { map lexeme_of result.now ≡ behind_colon (map lexeme_of tokens.now) }
{
    if tokens.is_empty() {
        return tokens;
    }
    if begins_with_colon(tokens) {
        &tokens[1..]
    } else {
        tokens
    }
}

/// What stands behind LOCK.
fn behind_lock<'a, 'b>(tokens: &'b [Token<'a>]) -> Option<(Statement, &'b [Token<'a>])>
    ensures { option_map statement_content result ≡ behind_lock (map lexeme_of tokens.now) }
{
    match tokens.split_first() {
        None => Some((Statement::Unfit, tokens)),
        Some((Token::Word(word), rest)) => match keyword(word) {
            None => None,
            Some(Keyword::Lock) => None,
            Some(Keyword::Mnemonic(mnemonic)) => Some((Statement::Code(true, mnemonic), rest)),
            Some(Keyword::Directive(_)) => Some((Statement::Unfit, rest)),
            Some(Keyword::Reserved) => None,
        },
        Some(_) => None,
    }
}

/// What a line asks for that begins with a word, by what the word is there, and what stands behind it.
fn by_keyword<'a, 'b>(
    found: Option<Keyword>,
    rest: &'b [Token<'a>],
) -> Option<(Statement, &'b [Token<'a>])>
    ensures { option_map statement_content result ≡ by_keyword found (map lexeme_of rest.now) }
{
    match found {
        None => None,
        Some(Keyword::Lock) => behind_lock(rest),
        Some(Keyword::Mnemonic(mnemonic)) => Some((Statement::Code(false, mnemonic), rest)),
        Some(Keyword::Directive(directive)) => Some((Statement::Directive(directive), rest)),
        Some(Keyword::Reserved) => None,
    }
}

/// What a line without a label asks for.
fn read_statement<'a, 'b>(tokens: &'b [Token<'a>]) -> Option<(Statement, &'b [Token<'a>])>
    ensures { option_map statement_content result ≡ statement_at (map lexeme_of tokens.now) }
{
    match tokens.split_first() {
        None => Some((Statement::Nothing, tokens)),
        Some((Token::Word(word), rest)) => by_keyword(keyword(word), rest),
        Some(_) => None,
    }
}

fn with_label<'a, 'b>(
    label: Option<&'a [u8]>,
    asked: Option<(Statement, &'b [Token<'a>])>,
) -> Option<Head<'a, 'b>>
    ensures { option_map head_content result
        ≡ with_label (option_map (λ l. l.now) label.entry) (option_map statement_content asked.entry) }
{
    match asked {
        Some((statement, rest)) => Some(Head {
            label,
            statement,
            rest,
        }),
        None => None,
    }
}

/// Whether a word that stands first on a line is a label: it names no instruction, directive, prefix, register or size.
pub fn is_label(word: &[u8]) -> bool
    ensures { result ≡ is_label word.now }
{
    keyword(word).is_none() && register_of(word).is_none()
}

/// The head of a line, or none where a name stands that is no instruction's and no directive's.
pub fn read_head<'a, 'b>(tokens: &'b [Token<'a>]) -> Option<Head<'a, 'b>>
    ensures { option_map head_content result ≡ head_of (map lexeme_of tokens.now) }
{
    match tokens.split_first() {
        None => with_label(None, read_statement(tokens)),
        Some((Token::Word(word), rest)) => {
            let found = keyword(word);
            if found.is_none() && register_of(word).is_none() {
                with_label(Some(word), read_statement(behind_colon(rest)))
            } else {
                with_label(None, by_keyword(found, rest))
            }
        }
        Some(_) => None,
    }
}
