//! The values of `db` and `dd`.

ghost use Rattle.std.specs.Prelude.{◌≡◌, ℕ, List, ◌<◌, ◌^◌, ◌++◌, [], Some, map, option_map, if◌then◌else◌};
ghost use Rattle.std.specs.Prelude.{MatchResult, IfSome};
ghost use Rattle.std.specs.Prelude.{IfOk, OnOk};
ghost use Rattle.ia_lex.specs.Tokens.{lexeme_of};
ghost use Rattle.ia_names.specs.Namings.{IsNaming, Grows};
ghost use Rattle.ia_source.specs.Contents.{Reading, entry_content};
ghost use Rattle.ia_source.specs.Commas.{between_commas};
ghost use Rattle.ia_source.specs.Statements.{plain_number, number_bytes, with_run, values_content, value_onto};
ghost use Rattle.ia_source.specs.Statements.{no_value};
ghost use Rattle.ia_source.specs.Statements.{values_onto, state_content, IsBad};

use crate::comma::comma_index;
use crate::fault::SourceFault;
use crate::list::EntryList;
use crate::state::SourceState;
use crate::statement::{push_some, read_value};
use ia_item::{Entry, Item};
use ia_lex::{Expression, Token};
use ia_names::Names;
use std::alloc::{AllocError, Global};

/// A value of `db` or `dd`, or more of them with commas between.
#[derive(Clone, Copy)]
pub struct ValueTokens<'a, 't> {
    /// What their line has to know of the lines above.
    pub state: SourceState,
    /// Whether they are doublewords.
    pub long: bool,
    /// Their tokens.
    pub tokens: &'t [Token<'a>],
}

/// The number that a value is, where it stands without a sign and has a place there.
fn plain_number(long: bool, tokens: &[Token]) -> Option<u32>
    ensures number { result ≡ plain_number long (map lexeme_of tokens.now) }
    ensures small { IfSome result (λ n. n < (if long then 2 ^ 32 else 256)) }
{
    match tokens {
        [Token::Number(Some(number))] => {
            let end: u64 = if long { 1 << 32 } else { 256 };
            if *number < end {
                Some(*number as u32)
            } else {
                None
            }
        }
        _ => None,
    }
}

/// Adds the bytes of a number.
fn push_number(run: &mut Vec<u8>, long: bool, number: u32) -> Result<(), AllocError>
    requires { number < (if long then 2 ^ 32 else 256) }
    ensures { OnOk result (run.new.items ≡ run.old.items ++ number_bytes long number) }
{
    if long {
        run.extend_from_slice(&number.to_le_bytes())?;
    } else {
        run.push(number as u8)?;
    }
    Ok(())
}

/// A copy that takes no more than its bytes.
fn copy(alloc: Global, bytes: &[u8]) -> Result<Vec<u8>, AllocError>
    ensures { IfOk result (λ v. v.items ≡ bytes.now) }
{
    let mut copied = Vec::with_capacity(alloc, bytes.len())?;
    copied.extend_from_slice(bytes)?;
    Ok(copied)
}

/// Adds the entry of the numbers so far, if there are any.
fn push_run<'a>(
    alloc: Global,
    entries: &mut EntryList<'a>,
    run: &mut Vec<u8>,
    state: SourceState,
) -> Result<(), AllocError>
    ensures entries { OnOk result ((r : Reading) (scope : List ℕ) → map (entry_content r) entries.new.list.items
        ≡ with_run (map (entry_content r) entries.old.list.items) (state_content scope state) run.old.items) }
    ensures run { OnOk result (run.new.items ≡ []) }
{
    if run.is_empty() {
        return Ok(());
    }
    let numbers = copy(alloc, run.as_slice())?;
    entries.push(Entry {
        line: state.line,
        section: state.section,
        item: Item::Numbers(numbers),
    })?;
    run.clear();
    Ok(())
}

/// Takes in one more value.
fn push_value<'a>(
    alloc: Global,
    terms: &mut Expression<'a>,
    names: &mut Names<'a>,
    entries: &mut EntryList<'a>,
    run: &mut Vec<u8>,
    value: ValueTokens<'a, '_>,
) -> Result<(), SourceFault>
    ensures scope { names.new.scope ≡ names.old.scope }
    ensures grows { Grows names.old names.new }
    ensures value { (r : Reading) → IsNaming r.naming names.new → MatchResult result
        (λ _. value_onto value.entry.long (state_content names.old.scope.text.now value.entry.state)
        (values_content r entries.old.list.items run.old.items) (map lexeme_of value.entry.tokens.now)
        ≡ Some (values_content r entries.new.list.items run.new.items))
        (IsBad (value_onto value.entry.long (state_content names.old.scope.text.now value.entry.state)
        (values_content r entries.old.list.items run.old.items) (map lexeme_of value.entry.tokens.now))
        value.entry.state.line) }
{
    match plain_number(value.long, value.tokens) {
        Some(number) => {
            push_number(run, value.long, number)?;
            Ok(())
        }
        None => {
            push_run(alloc, entries, run, value.state)?;
            let item = read_value(alloc, terms, names, value.long, value.tokens)?;
            push_some(entries, value.state, item)
        }
    }
}

/// Adds the values of `dd`, or of `db`.
pub fn push_values<'a>(
    alloc: Global,
    terms: &mut Expression<'a>,
    names: &mut Names<'a>,
    entries: &mut EntryList<'a>,
    values: ValueTokens<'a, '_>,
) -> Result<(), SourceFault>
    ensures scope { names.new.scope ≡ names.old.scope }
    ensures grows { Grows names.old names.new }
    ensures values { (r : Reading) → IsNaming r.naming names.new → MatchResult result
        (λ _. values_onto values.entry.long (state_content names.old.scope.text.now values.entry.state)
        (no_value (map (entry_content r) entries.old.list.items))
        (between_commas (map lexeme_of values.entry.tokens.now))
        ≡ Some (map (entry_content r) entries.new.list.items))
        (IsBad (values_onto values.entry.long (state_content names.old.scope.text.now values.entry.state)
        (no_value (map (entry_content r) entries.old.list.items))
        (between_commas (map lexeme_of values.entry.tokens.now)))
        values.entry.state.line) }
{
    let mut run = Vec::new(alloc);
    let mut place = 0;
    while place <= values.tokens.len() {
        let left = &values.tokens[place..];
        let end = comma_index(left);
        let value = ValueTokens {
            state: values.state,
            long: values.long,
            tokens: &left[..end],
        };
        match push_value(alloc, terms, names, entries, &mut run, value) {
            Ok(()) => {}
            Err(fault) => return Err(fault),
        }
        place += end + 1;
    }
    push_run(alloc, entries, &mut run, values.state)?;
    Ok(())
}
