//! The lines of a source that are left.

ghost use Rattle.std.specs.Prelude.{◌≡◌, ◌≤◌, length};

use crate::budget::Extent;
use crate::fault::SourceFault;
use crate::line::{Line, push_line};
use crate::list::EntryList;
use crate::operand::Operands;
use crate::state::{SourceState, start};
use ia_item::{Entry, Symbol};
use ia_lex::first_line;
use ia_names::Names;
use indexmap::IndexSet;
use std::alloc::Global;

/// What is left of a source, and what the lines above have made.
#[derive(Drop)]
pub struct Rest<'a> {
    /// The whole source.
    pub source: &'a [u8],
    /// Where the lines that are left begin, in bytes from the source's first.
    pub place: usize,
    /// What the next line has to know.
    pub state: SourceState,
    /// The symbols that the lines above define.
    pub defined: IndexSet<Symbol>,
    // The operands of a line, kept for their memory.
    pub(crate) operands: Operands<'a>,
    pub ghost within: { place ≤ length source.now },
}

impl<'a> Rest<'a> {
    ghost use Rattle.std.specs.Prelude.{◌<◌, [], true, false, MatchResult, IfOk, OnOk};
    ghost use Rattle.ia_item.specs.Fits.{AllFit};
    ghost use Rattle.ia_names.specs.Namings.{IsNaming, Grows};
    ghost use Rattle.ia_source.specs.declared.budget.Extent.TheVariants.{Whole};
    ghost use Rattle.ia_source.specs.Contents.{Reading};
    ghost use Rattle.ia_source.specs.Statements.{state_content, first_state};
    ghost use Rattle.ia_source.specs.Source.{Tells};
    ghost use Rattle.ia_source.specs.Rests.{entries_with};

    /// All lines of a source.
    pub fn new(alloc: Global, source: &'a [u8]) -> Rest<'a>
        ensures source { result.source.now ≡ source.now }
        ensures place { result.place ≡ 0 }
        ensures state { state_content [] result.state ≡ first_state }
        ensures defined { result.defined.keys ≡ [] }
    {
        Rest {
            source,
            place: 0,
            state: start(),
            defined: IndexSet::new(alloc),
            operands: Operands::new(),
        }
    }

    /// Whether a line is left.
    pub fn is_left(&self) -> bool
        ensures left { result ≡ true → self.now.place < length self.now.source.now }
        ensures none { result ≡ false → self.now.place ≡ length self.now.source.now }
    {
        self.place < self.source.len()
    }

    /// Adds the entries of the next line.
    fn push_next(
        &mut self,
        alloc: Global,
        names: &mut Names<'a>,
        entries: &mut EntryList<'a>,
        extent: Extent,
    ) -> Result<(), SourceFault>
        requires { self.old.place < length self.old.source.now }
        ensures source { self.new.source.now ≡ self.old.source.now }
        ensures grows { Grows names.old names.new }
        ensures read { (r : Reading) → IsNaming r.naming names.new → MatchResult result
            (λ _. entries_with r self.new names.new entries.new.list.items
            ≡ entries_with r self.old names.old entries.old.list.items)
            (Tells (entries_with r self.old names.old entries.old.list.items)) }
        ensures fit { OnOk result (AllFit entries.old.list.items → AllFit entries.new.list.items) }
        ensures onward { OnOk result (self.old.place < self.new.place) }
    {
        let (text, taken) = first_line(&self.source[self.place..]);
        extent.make_room(names, entries, self.state.equs, text)?;
        let state = self.state;
        let line = Line { state, text };
        match push_line(
            alloc,
            &mut self.operands,
            names,
            &mut self.defined,
            entries,
            line,
        ) {
            Ok(next) => self.state = next,
            Err(fault) => return Err(fault),
        }
        self.place += taken;
        Ok(())
    }

    /// The entries of the next lines: of all, or of so many that a part of the source is read, each of which can be
    /// placed.
    ///
    /// Otherwise the first line that is wrong and what is wrong with it. `NoMemory` where no memory was left, or the
    /// budget was spent.
    pub fn part(
        &mut self,
        alloc: Global,
        names: &mut Names<'a>,
        extent: Extent,
    ) -> Result<Vec<Entry<'a>>, SourceFault>
        ensures source { self.new.source.now ≡ self.old.source.now }
        ensures grows { Grows names.old names.new }
        ensures read { (r : Reading) → IsNaming r.naming names.new → MatchResult result
            (λ es. entries_with r self.new names.new es.items ≡ entries_with r self.old names.old [])
            (Tells (entries_with r self.old names.old [])) }
        ensures fit { IfOk result (λ es. AllFit es.items) }
        ensures whole { OnOk result (extent ≡ Whole → self.new.place ≡ length self.new.source.now) }
        ensures onward { OnOk result (self.old.place < length self.old.source.now → self.old.place < self.new.place) }
    {
        let mut entries = EntryList::new(alloc);
        'lines: while self.is_left() {
            match self.push_next(alloc, names, &mut entries, extent) {
                Ok(()) => {}
                Err(fault) => return Err(fault),
            }
            if extent.is_full(entries.taken) {
                return Ok(entries.list);
            }
        }
        Ok(entries.list)
    }
}
