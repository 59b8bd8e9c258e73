//! What a line has to know of the lines above.

ghost use Rattle.std.specs.Prelude.{◌≡◌, ℕ, List, [], option_map, map};
ghost use Rattle.ia_names.specs.Namings.{Grows};
ghost use Rattle.ia_source.specs.declared.state.SourceState.{SourceState as SourceStateOf};
ghost use Rattle.ia_lex.specs.Tokens.{lexeme_of};
ghost use Rattle.ia_source.specs.Statements.{first_state, next_line, named_section, only_number, with_label};
ghost use Rattle.ia_source.specs.Statements.{in_section, with_flags, behind_statement, behind, state_content};
ghost use Rattle.ia_source.specs.Statements.{IsLabelOf};

use crate::directive::Directive;
use crate::head::Statement;
use ia_item::{Definition, Section};
use ia_lex::Token;
use ia_names::{Names, is_local};

/// What a line has to know of the lines above.
#[derive(Clone, Copy)]
pub struct SourceState {
    /// The line's number, from 1; from u32::MAX on it stays.
    pub line: u32,
    /// The section in force.
    pub section: Section,
    /// Whether `org` stood above.
    pub based: bool,
    /// Whether anything was placed above.
    pub placed: bool,
    /// How many names `equ` defines above; from usize::MAX on it stays.
    pub equs: usize,
}

/// The state at the first line.
pub fn start() -> SourceState
    ensures { state_content [] result ≡ first_state }
{
    SourceState {
        line: 1,
        section: Section::Text,
        based: false,
        placed: false,
        equs: 0,
    }
}

fn next_line(line: u32) -> u32
    ensures { result ≡ next_line line }
{
    if line < u32::MAX { line + 1 } else { line }
}

/// The section that one word names.
pub fn named_section(tokens: &[Token]) -> Option<Section>
    ensures { result ≡ named_section (map lexeme_of tokens.now) }
{
    match tokens {
        [Token::Word(word)] => {
            let text: &[u8] = b".text";
            let bytes: &[u8] = b".data";
            if *word == text {
                Some(Section::Text)
            } else if *word == bytes {
                Some(Section::Data)
            } else {
                None
            }
        }
        _ => None,
    }
}

/// The number that stands alone, none inside where it is above u64::MAX.
pub fn only_number(tokens: &[Token]) -> Option<Option<u64>>
    ensures { result ≡ only_number (map lexeme_of tokens.now) }
{
    match tokens {
        [Token::Number(number)] => Some(*number),
        _ => None,
    }
}

/// Goes on behind a line's label. The name of an `equ` is no label that local ones belong to.
pub fn enter<'a>(
    names: &mut Names<'a>,
    label: Option<&'a [u8]>,
    definition: Option<Definition<'a>>,
    statement: Statement,
)
    requires { IsLabelOf names.old label definition }
    ensures scope { (state : SourceStateOf) → state_content names.new.scope.text.now state
        ≡ with_label (state_content names.old.scope.text.now state) (option_map (λ l. l.now) label.entry) statement }
    ensures grows { Grows names.old names.new }
{
    match (statement, label, definition) {
        (Statement::Directive(Directive::Equ), _, _) => {}
        (_, Some(own), Some(definition)) => {
            if !is_local(own) {
                names.enter(own, definition.symbol);
            }
        }
        _ => {}
    }
}

fn with_section(state: SourceState, section: Option<Section>) -> SourceState
    ensures { (scope : List ℕ) → state_content scope result ≡ in_section (state_content scope state) section }
{
    SourceState {
        line: state.line,
        section: section.unwrap_or(state.section),
        based: state.based,
        placed: state.placed,
        equs: state.equs,
    }
}

fn with_flags(state: SourceState, based: bool, placed: bool) -> SourceState
    ensures { (scope : List ℕ) → state_content scope result ≡ with_flags (state_content scope state) based placed }
{
    SourceState {
        line: state.line,
        section: state.section,
        based: state.based || based,
        placed: state.placed || placed,
        equs: state.equs,
    }
}

fn with_equ(state: SourceState) -> SourceState
    ensures { (scope : List ℕ) → state_content scope result ≡ state_content scope state }
{
    SourceState {
        line: state.line,
        section: state.section,
        based: state.based,
        placed: state.placed,
        equs: state.equs.saturating_add(1),
    }
}

/// The state behind what a line asks for.
fn behind_statement(state: SourceState, statement: Statement, tokens: &[Token]) -> SourceState
    ensures { (scope : List ℕ) → state_content scope result
        ≡ behind_statement (state_content scope state) statement (map lexeme_of tokens.now) }
{
    match statement {
        Statement::Directive(Directive::Section) => with_section(state, named_section(tokens)),
        Statement::Directive(Directive::Org) => with_flags(state, true, false),
        Statement::Directive(Directive::Db) => with_flags(state, false, true),
        Statement::Directive(Directive::Dd) => with_flags(state, false, true),
        Statement::Directive(Directive::Resb) => with_flags(state, false, true),
        Statement::Directive(Directive::Align) => with_flags(state, false, true),
        Statement::Code(_, _) => with_flags(state, false, true),
        Statement::Directive(Directive::Equ) => with_equ(state),
        _ => state,
    }
}

/// The state at the next line.
pub fn behind(state: SourceState, statement: Statement, tokens: &[Token]) -> SourceState
    ensures { (scope : List ℕ) → state_content scope result
        ≡ behind (state_content scope state) statement (map lexeme_of tokens.now) }
{
    let state = behind_statement(state, statement, tokens);
    SourceState {
        line: next_line(state.line),
        section: state.section,
        based: state.based,
        placed: state.placed,
        equs: state.equs,
    }
}
