//! The entries that lines ask for.

ghost use Rattle.std.specs.Prelude.{◌≡◌, ℕ, List, Some, None, true, false, map, option_map, MatchResult, IfOk};
ghost use Rattle.ia_lex.specs.Tokens.{lexeme_of};
ghost use Rattle.ia_names.specs.Namings.{Naming, IsNaming, Grows};
ghost use Rattle.ia_source.specs.Contents.{Reading, Reserve, definition_name, item_content, entry_content};
ghost use Rattle.ia_source.specs.Contents.{expression_content};
ghost use Rattle.ia_source.specs.Operands.{operands_of};
ghost use Rattle.ia_source.specs.Statements.{add_some, if_fits, expression_in, code_item, byte_item, value_item};
ghost use Rattle.ia_source.specs.Statements.{only_number, only_text, is_32, is_symbol, is_power, align_item};
ghost use Rattle.ia_source.specs.Statements.{org_item, equ_item, directive_onto, statement_onto, state_content, IsBad};
ghost use Rattle.ia_source.specs.Statements.{IsUnfit};

use crate::directive::Directive;
use crate::expression::{expression_in, some_expression};
use crate::fault::{SourceFault, Why};
use crate::head::Statement;
use crate::list::EntryList;
use crate::operand::{Operands, read_operands};
use crate::state::{SourceState, named_section, only_number};
use crate::sum::whole_expression;
use crate::values::{ValueTokens, push_values};
use ia_form::instruction;
use ia_insn::Mnemonic;
use ia_item::{Definition, Entry, Item, ScopedExpression, Template};
use ia_lex::{Expression, Token, register_of};
use ia_names::Names;
use std::alloc::{AllocError, Global};

/// What stands around a statement: what it has to know of the lines above, its line's label, and the tokens behind it.
#[derive(Clone, Copy)]
pub struct Context<'a, 't> {
    /// What the line has to know of the lines above.
    pub state: SourceState,
    /// The symbol of the line's label, where it has one.
    pub label: Option<Definition<'a>>,
    /// What stands behind the mnemonic or the directive.
    pub tokens: &'t [Token<'a>],
}

/// The expression that tokens are, if they are one.
fn read_expression<'a>(
    alloc: Global,
    terms: &mut Expression<'a>,
    names: &mut Names<'a>,
    tokens: &[Token<'a>],
) -> Result<Option<ScopedExpression>, AllocError>
    ensures scope { names.new.scope ≡ names.old.scope }
    ensures grows { Grows names.old names.new }
    ensures expression { IfOk result (λ s. (naming : Naming) → IsNaming naming names.new
        → option_map (expression_content naming) s
        ≡ expression_in names.old.scope.text.now (map lexeme_of tokens.now)) }
{
    match whole_expression(tokens, terms) {
        None => Ok(None),
        Some(()) => {
            let scoped = expression_in(alloc, names, terms)?;
            Ok(Some(scoped))
        }
    }
}

/// The instruction that a mnemonic and operands write.
fn read_code<'a>(
    alloc: Global,
    operands: &mut Operands<'a>,
    names: &mut Names<'a>,
    lock: bool,
    mnemonic: Mnemonic,
    tokens: &[Token<'a>],
) -> Result<Option<Item<'a>>, AllocError>
    ensures scope { names.new.scope ≡ names.old.scope }
    ensures grows { Grows names.old names.new }
    ensures item { IfOk result (λ i. (r : Reading) → IsNaming r.naming names.new → option_map (item_content r) i
        ≡ code_item names.old.scope.text.now lock mnemonic (operands_of (map lexeme_of tokens.now))) }
{
    match read_operands(operands, tokens) {
        None => Ok(None),
        Some(()) => match instruction(lock, mnemonic, operands.shapes) {
            None => Ok(None),
            Some(insn) => {
                let number = some_expression(alloc, names, &operands.number)?;
                let displacement = some_expression(alloc, names, &operands.displacement)?;
                Ok(Some(Item::Code(Template {
                    insn,
                    number,
                    displacement,
                })))
            }
        },
    }
}

/// What stands between quotes, and alone.
fn only_text<'a>(tokens: &[Token<'a>]) -> Option<&'a [u8]>
    ensures { option_map (λ t. t.now) result ≡ only_text (map lexeme_of tokens.now) }
{
    match tokens {
        [Token::Text(bytes)] => Some(bytes),
        _ => None,
    }
}

/// A value of `db`.
fn read_byte<'a>(
    alloc: Global,
    terms: &mut Expression<'a>,
    names: &mut Names<'a>,
    tokens: &[Token<'a>],
) -> Result<Option<Item<'a>>, AllocError>
    ensures scope { names.new.scope ≡ names.old.scope }
    ensures grows { Grows names.old names.new }
    ensures item { IfOk result (λ i. (r : Reading) → IsNaming r.naming names.new → option_map (item_content r) i
        ≡ byte_item names.old.scope.text.now (map lexeme_of tokens.now)) }
{
    if let Some(bytes) = only_text(tokens) {
        return Ok(Some(Item::Text(bytes)));
    }
    match read_expression(alloc, terms, names, tokens)? {
        Some(expression) => Ok(Some(Item::Byte(expression))),
        None => Ok(None),
    }
}

/// A value of `dd`, or of `db`.
pub fn read_value<'a>(
    alloc: Global,
    terms: &mut Expression<'a>,
    names: &mut Names<'a>,
    long: bool,
    tokens: &[Token<'a>],
) -> Result<Option<Item<'a>>, AllocError>
    ensures scope { names.new.scope ≡ names.old.scope }
    ensures grows { Grows names.old names.new }
    ensures item { IfOk result (λ i. (r : Reading) → IsNaming r.naming names.new → option_map (item_content r) i
        ≡ value_item long names.old.scope.text.now (map lexeme_of tokens.now)) }
{
    if long {
        match read_expression(alloc, terms, names, tokens)? {
            Some(expression) => Ok(Some(Item::Long(expression))),
            None => Ok(None),
        }
    } else {
        read_byte(alloc, terms, names, tokens)
    }
}

fn read_reserve<'a>(
    alloc: Global,
    terms: &mut Expression<'a>,
    names: &mut Names<'a>,
    tokens: &[Token<'a>],
) -> Result<Option<Item<'a>>, AllocError>
    ensures scope { names.new.scope ≡ names.old.scope }
    ensures grows { Grows names.old names.new }
    ensures item { IfOk result (λ i. (r : Reading) → IsNaming r.naming names.new → option_map (item_content r) i
        ≡ option_map Reserve (expression_in names.old.scope.text.now (map lexeme_of tokens.now))) }
{
    match read_expression(alloc, terms, names, tokens)? {
        Some(expression) => Ok(Some(Item::Reserve(expression))),
        None => Ok(None),
    }
}

fn read_equ<'a>(
    alloc: Global,
    terms: &mut Expression<'a>,
    names: &mut Names<'a>,
    label: Option<Definition<'a>>,
    tokens: &[Token<'a>],
) -> Result<Option<Item<'a>>, AllocError>
    ensures scope { names.new.scope ≡ names.old.scope }
    ensures grows { Grows names.old names.new }
    ensures item { IfOk result (λ i. (r : Reading) → IsNaming r.naming names.new → option_map (item_content r) i
        ≡ equ_item names.old.scope.text.now (option_map (definition_name r) label.entry) (map lexeme_of tokens.now)) }
{
    match label {
        None => Ok(None),
        Some(definition) => match read_expression(alloc, terms, names, tokens)? {
            Some(expression) => Ok(Some(Item::Equ(definition, expression))),
            None => Ok(None),
        },
    }
}

/// The base, once and before anything is placed.
fn read_org<'a>(state: SourceState, tokens: &[Token<'a>]) -> Option<Item<'a>>
    ensures { (r : Reading) (scope : List ℕ) → option_map (item_content r) result
        ≡ org_item (state_content scope state) (map lexeme_of tokens.now) }
{
    if state.based || state.placed {
        return None;
    }
    match only_number(tokens) {
        Some(number) => Some(Item::Org(number)),
        None => None,
    }
}

/// A power of two up to 4096.
fn is_power(number: u64) -> bool
    ensures { result ≡ is_power number }
{
    number == 1
        || number == 2
        || number == 4
        || number == 8
        || number == 16
        || number == 32
        || number == 64
        || number == 128
        || number == 256
        || number == 512
        || number == 1024
        || number == 2048
        || number == 4096
}

#[tactic(auto, using(crate::proofs::Powers::small_power))]
fn read_align<'a>(tokens: &[Token<'a>]) -> Option<Item<'a>>
    ensures { (r : Reading) → option_map (item_content r) result
        ≡ align_item (only_number (map lexeme_of tokens.now)) }
{
    match only_number(tokens) {
        Some(Some(number)) => {
            if is_power(number) {
                Some(Item::Align(number as u32))
            } else {
                None
            }
        }
        _ => None,
    }
}

fn is_32(tokens: &[Token]) -> bool
    ensures { result ≡ is_32 (only_number (map lexeme_of tokens.now)) }
{
    match only_number(tokens) {
        Some(Some(number)) => number == 32,
        _ => false,
    }
}

/// A name, which no register has.
fn is_symbol(tokens: &[Token]) -> bool
    ensures { result ≡ is_symbol (map lexeme_of tokens.now) }
{
    match tokens {
        [Token::Word(word)] => register_of(word).is_none(),
        _ => false,
    }
}

/// Adds an entry of an item, if there is one.
#[tactic(auto, using(crate::proofs::AddedEntries::one_more))]
pub fn push_some<'a>(
    entries: &mut EntryList<'a>,
    state: SourceState,
    item: Option<Item<'a>>,
) -> Result<(), SourceFault>
    ensures { (r : Reading) (scope : List ℕ) → MatchResult result
        (λ _. add_some (map (entry_content r) entries.old.list.items) (state_content scope state)
        (option_map (item_content r) item.entry) ≡ Some (map (entry_content r) entries.new.list.items))
        (IsBad (add_some (map (entry_content r) entries.old.list.items) (state_content scope state)
        (option_map (item_content r) item.entry)) state.line) }
{
    match item {
        None => Err(SourceFault::Line {
            line: state.line,
            why: Why::BadOperand,
        }),
        Some(item) => {
            entries.push(Entry {
                line: state.line,
                section: state.section,
                item,
            })?;
            Ok(())
        }
    }
}

fn if_fits(fits: bool, state: SourceState) -> Result<(), SourceFault>
    ensures { MatchResult result (λ _. fits ≡ true) (IsUnfit fits state.line) }
{
    if fits {
        Ok(())
    } else {
        Err(SourceFault::Line {
            line: state.line,
            why: Why::BadOperand,
        })
    }
}

/// Adds what a directive asks for.
#[tactic(auto, unfolding(crate::specs::Statements::directive_onto))]
fn push_directive<'a>(
    alloc: Global,
    operands: &mut Operands<'a>,
    names: &mut Names<'a>,
    entries: &mut EntryList<'a>,
    directive: Directive,
    context: Context<'a, '_>,
) -> Result<(), SourceFault>
    ensures scope { names.new.scope ≡ names.old.scope }
    ensures grows { Grows names.old names.new }
    ensures entries { (r : Reading) → IsNaming r.naming names.new → MatchResult result
        (λ _. directive_onto (map (entry_content r) entries.old.list.items)
        (state_content names.old.scope.text.now context.entry.state)
        (option_map (definition_name r) context.entry.label) directive (map lexeme_of context.entry.tokens.now)
        ≡ Some (map (entry_content r) entries.new.list.items))
        (IsBad (directive_onto (map (entry_content r) entries.old.list.items)
        (state_content names.old.scope.text.now context.entry.state)
        (option_map (definition_name r) context.entry.label) directive (map lexeme_of context.entry.tokens.now))
        context.entry.state.line) }
{
    let state = context.state;
    let tokens = context.tokens;
    match directive {
        Directive::Section => if_fits(named_section(tokens).is_some(), state),
        Directive::Org => push_some(entries, state, read_org(state, tokens)),
        Directive::Bits => if_fits(is_32(tokens), state),
        Directive::Global => if_fits(is_symbol(tokens), state),
        Directive::Db => {
            let values = ValueTokens {
                state,
                long: false,
                tokens,
            };
            push_values(alloc, &mut operands.number, names, entries, values)
        }
        Directive::Dd => {
            let values = ValueTokens {
                state,
                long: true,
                tokens,
            };
            push_values(alloc, &mut operands.number, names, entries, values)
        }
        Directive::Resb => {
            let item = read_reserve(alloc, &mut operands.number, names, tokens)?;
            push_some(entries, state, item)
        }
        Directive::Align => push_some(entries, state, read_align(tokens)),
        Directive::Equ => {
            let label = context.label;
            let item = read_equ(alloc, &mut operands.number, names, label, tokens)?;
            push_some(entries, state, item)
        }
    }
}

/// Adds what a line asks for, behind its label.
pub fn push_statement<'a>(
    alloc: Global,
    operands: &mut Operands<'a>,
    names: &mut Names<'a>,
    entries: &mut EntryList<'a>,
    statement: Statement,
    context: Context<'a, '_>,
) -> Result<(), SourceFault>
    ensures scope { names.new.scope ≡ names.old.scope }
    ensures grows { Grows names.old names.new }
    ensures entries { (r : Reading) → IsNaming r.naming names.new → MatchResult result
        (λ _. statement_onto (map (entry_content r) entries.old.list.items)
        (state_content names.old.scope.text.now context.entry.state)
        (option_map (definition_name r) context.entry.label) statement (map lexeme_of context.entry.tokens.now)
        ≡ Some (map (entry_content r) entries.new.list.items))
        (IsBad (statement_onto (map (entry_content r) entries.old.list.items)
        (state_content names.old.scope.text.now context.entry.state)
        (option_map (definition_name r) context.entry.label) statement (map lexeme_of context.entry.tokens.now))
        context.entry.state.line) }
{
    match statement {
        Statement::Nothing => Ok(()),
        Statement::Code(lock, mnemonic) => {
            let item = read_code(alloc, operands, names, lock, mnemonic, context.tokens)?;
            push_some(entries, context.state, item)
        }
        Statement::Directive(directive) => {
            push_directive(alloc, operands, names, entries, directive, context)
        }
        Statement::Unfit => Err(SourceFault::Line {
            line: context.state.line,
            why: Why::BadOperand,
        }),
    }
}
