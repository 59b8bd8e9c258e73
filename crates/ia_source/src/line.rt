//! The entries of a line, in the order in which they stand on it: its label, and then an item or the values of `db` and
//! `dd` one by one. What it knows of the lines above comes in, and what the next one has to know comes out.

ghost use Rattle.std.specs.Prelude.{◌≡◌, ℕ, List, Ok, Some, false, map, option_map, MatchResult, IfOk};
ghost use Rattle.ia_names.specs.Namings.{Naming, IsNaming, Grows};
ghost use Rattle.ia_source.specs.Contents.{Reading, definition_name, entry_content};
ghost use Rattle.ia_source.specs.Statements.{state_content, IsLabelOf};
ghost use Rattle.ia_source.specs.Source.{is_twice, with_name, add_label, label_onto, label_name, line_onto};
ghost use Rattle.ia_source.specs.Source.{names_content, source_content, Tells, IsTwice};

use crate::directive::Directive;
use crate::fault::{SourceFault, Why};
use crate::head::{Statement, read_head};
use crate::list::EntryList;
use crate::operand::Operands;
use crate::state::{SourceState, behind, enter};
use crate::statement::{Context, push_statement};
use ia_item::{Definition, Entry, Item, Symbol};
use ia_lex::{LexFault, tokens};
use ia_names::Names;
use indexmap::IndexSet;
use std::alloc::{AllocError, Global};

/// Notes the symbol of a line's label, if it is new.
#[tactic(auto, using(crate::proofs::Names::names_after, crate::proofs::Names::was_among))]
fn define<'a>(
    names: &mut Names<'a>,
    defined: &mut IndexSet<Symbol>,
    state: SourceState,
    label: Option<&'a [u8]>,
) -> Result<Option<Definition<'a>>, SourceFault>
    ensures scope { names.new.scope ≡ names.old.scope }
    ensures grows { Grows names.old names.new }
    ensures label { IfOk result (IsLabelOf names.new label.entry) }
    ensures name { IfOk result (λ d. (r : Reading) → IsNaming r.naming names.new → option_map (definition_name r) d
        ≡ label_name names.old.scope.text.now (option_map (λ l. l.now) label.entry)) }
    ensures new { (naming : Naming) → IsNaming naming names.new → MatchResult result
        (λ _. is_twice (names_content naming defined.old) (label_name names.old.scope.text.now
        (option_map (λ l. l.now) label.entry)) ≡ false)
        (IsTwice (is_twice (names_content naming defined.old) (label_name names.old.scope.text.now
        (option_map (λ l. l.now) label.entry))) state.line) }
    ensures names { IfOk result (λ _. (naming : Naming) → IsNaming naming names.new → names_content naming defined.new
        ≡ with_name (names_content naming defined.old) (label_name names.old.scope.text.now
        (option_map (λ l. l.now) label.entry))) }
{
    match label {
        None => Ok(None),
        Some(own) => {
            let definition = names.definition(own)?;
            let (_, is_new) = defined.insert_full(definition.symbol)?;
            if is_new {
                Ok(Some(definition))
            } else {
                Err(SourceFault::Line {
                    line: state.line,
                    why: Why::SymbolTwice,
                })
            }
        }
    }
}

/// Adds the entry of a label.
#[tactic(auto, using(crate::proofs::AddedEntries::one_more))]
fn push_name<'a>(
    entries: &mut EntryList<'a>,
    state: SourceState,
    label: Option<Definition<'a>>,
) -> Result<(), AllocError>
    ensures { IfOk result (λ _. (r : Reading) (scope : List ℕ) → map (entry_content r) entries.new.list.items
        ≡ add_label (map (entry_content r) entries.old.list.items) (state_content scope state)
        (option_map (definition_name r) label.entry)) }
{
    if let Some(definition) = label {
        entries.push(Entry {
            line: state.line,
            section: state.section,
            item: Item::Label(definition),
        })?;
    }
    Ok(())
}

/// Adds the entry of a line's label. The name of an `equ` is none.
fn push_label<'a>(
    entries: &mut EntryList<'a>,
    state: SourceState,
    label: Option<Definition<'a>>,
    statement: Statement,
) -> Result<(), AllocError>
    ensures { IfOk result (λ _. (r : Reading) (scope : List ℕ) → map (entry_content r) entries.new.list.items
        ≡ label_onto (map (entry_content r) entries.old.list.items) (state_content scope state)
        (option_map (definition_name r) label.entry) statement) }
{
    match statement {
        Statement::Directive(Directive::Equ) => Ok(()),
        _ => push_name(entries, state, label),
    }
}

/// A line, and what it has to know of the lines above.
#[derive(Clone, Copy)]
pub struct Line<'a> {
    /// What it has to know of them.
    pub state: SourceState,
    /// Its bytes.
    pub text: &'a [u8],
}

/// Adds the entries of one more line, and gives what the next one has to know.
#[tactic(auto, unfolding(crate::specs::Source::line_onto))]
pub fn push_line<'a>(
    alloc: Global,
    operands: &mut Operands<'a>,
    names: &mut Names<'a>,
    defined: &mut IndexSet<Symbol>,
    entries: &mut EntryList<'a>,
    line: Line<'a>,
) -> Result<SourceState, SourceFault>
    ensures grows { Grows names.old names.new }
    ensures line { (r : Reading) → IsNaming r.naming names.new → MatchResult result
        (λ s. line_onto (source_content r line.entry.state names.old defined.old entries.old.list.items)
        line.entry.text.now ≡ Ok (source_content r s names.new defined.new entries.new.list.items))
        (Tells (line_onto (source_content r line.entry.state names.old defined.old entries.old.list.items)
        line.entry.text.now)) }
{
    let state = line.state;
    let words = match tokens(alloc, line.text) {
        Ok(words) => words,
        Err(LexFault::BadToken) => {
            return Err(SourceFault::Line {
                line: state.line,
                why: Why::BadToken,
            });
        }
        Err(LexFault::NoMemory) => return Err(SourceFault::NoMemory),
    };
    let Some(head) = read_head(&words) else {
        return Err(SourceFault::Line {
            line: state.line,
            why: Why::NotInSubset,
        });
    };
    let label = match define(names, defined, state, head.label) {
        Ok(label) => label,
        Err(fault) => return Err(fault),
    };
    push_label(entries, state, label, head.statement)?;
    enter(names, head.label, label, head.statement);
    let context = Context {
        state,
        label,
        tokens: head.rest,
    };
    match push_statement(alloc, operands, names, entries, head.statement, context) {
        Ok(()) => Ok(behind(state, head.statement, head.rest)),
        Err(fault) => Err(fault),
    }
}
