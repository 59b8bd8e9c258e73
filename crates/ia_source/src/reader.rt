//! Sources that are read a part at a time.

ghost use Rattle.std.specs.Prelude.{IfSome};
ghost use Rattle.ia_source.specs.Source.{ReadsAs};

use crate::budget::{Budget, Extent};
use crate::fault::SourceFault;
use crate::rest::Rest;
use ia_item::{Entry, Walk};
use ia_names::Names;
use std::alloc::Global;

/// A source that is read some lines at a time, as often as wanted. Names keep their symbols from one reading to the
/// next.
#[derive(Drop)]
pub struct Reader<'a> {
    pub(crate) alloc: Global,
    /// The source.
    pub source: &'a [u8],
    /// The names of the source, as far as it was read.
    pub names: Names<'a>,
    // What a reading may take.
    pub(crate) budget: Budget,
    // The entries of a source that are one part, once they are read.
    pub(crate) whole: Option<Vec<Entry<'a>>>,
    pub ghost kept: { ∥ IfSome whole (λ es. ReadsAs source.now names es.items) ∥₁ },
}

impl<'a> Reader<'a> {
    ghost use Rattle.std.specs.Prelude.{◌≡◌, List, [], None, MatchResult};
    ghost use Rattle.ia_item.specs.declared.item.Entry.{Entry as EntryOf};
    ghost use Rattle.ia_item.specs.Fits.{AllFit};
    ghost use Rattle.ia_names.specs.Namings.{IsNaming, Grows};
    ghost use Rattle.ia_source.specs.Contents.{Reading};
    ghost use Rattle.ia_source.specs.Source.{Tells, entries_of};
    ghost use Rattle.ia_source.specs.Rests.{entries_with, LeftAs};

    /// A source, nothing of which is read yet.
    pub fn new(alloc: Global, source: &'a [u8]) -> Reader<'a>
        ensures { result.source.now ≡ source.now }
    {
        Reader {
            alloc,
            source,
            names: Names::new(alloc),
            budget: Budget::new(source),
            whole: None,
        }
    }

    /// Goes over all entries of the source in their order, a part of them at a time. Each of them can be placed: an
    /// instruction is encodable, an alignment is a power of two up to 4096, and an expression has 1 to 16 terms.
    ///
    /// Otherwise the first line that is wrong and what is wrong with it; the entries of lines before it may have been
    /// gone over. `NoMemory` where no memory was left, or the source would take more than it may.
    pub fn go_over<W: Walk<'a>>(&mut self, walk: &mut W) -> Result<(), SourceFault>
        ensures source { self.new.source.now ≡ self.old.source.now }
        ensures grows { Grows self.old.names self.new.names }
        ensures exact { MatchResult result
            (λ _. (es : List EntryOf) × ReadsAs self.old.source.now self.new.names es × AllFit es
            × W.Walked walk.old es walk.new)
            (Tells (entries_of self.old.source.now)) }
    {
        match &self.whole {
            Some(entries) => {
                walk.go_over(entries.as_slice())?;
                Ok(())
            }
            None => self.read(walk),
        }
    }

    /// Reads the source from its first line on. Its entries stay, if they are one part.
    fn read<W: Walk<'a>>(&mut self, walk: &mut W) -> Result<(), SourceFault>
        requires { self.old.whole ≡ None }
        ensures source { self.new.source.now ≡ self.old.source.now }
        ensures grows { Grows self.old.names self.new.names }
        ensures exact { MatchResult result
            (λ _. (es : List EntryOf) × ReadsAs self.old.source.now self.new.names es × AllFit es
            × W.Walked walk.old es walk.new)
            (Tells (entries_of self.old.source.now)) }
    {
        self.names.leave();
        let mut rest = Rest::new(self.alloc, self.source);
        let part = match rest.part(self.alloc, &mut self.names, Extent::Part(self.budget)) {
            Ok(part) => part,
            Err(fault) => return Err(fault),
        };
        walk.go_over(part.as_slice())?;
        if rest.is_left() {
            drop(part);
            self.read_on(&mut rest, walk)
        } else {
            self.whole = Some(part);
            Ok(())
        }
    }

    /// Reads what is left, a part at a time.
    fn read_on<W: Walk<'a>>(&mut self, rest: &mut Rest<'a>, walk: &mut W) -> Result<(), SourceFault>
        requires { self.old.whole ≡ None }
        ensures source { self.new.source.now ≡ self.old.source.now }
        ensures grows { Grows self.old.names self.new.names }
        ensures exact { MatchResult result
            (λ _. (es : List EntryOf) × LeftAs rest.old self.old.names self.new.names es × AllFit es
            × W.Walked walk.old es walk.new)
            (λ f. (r : Reading) → IsNaming r.naming self.new.names
            → Tells (entries_with r rest.old self.old.names []) f) }
    {
        'parts: while rest.is_left() {
            let part = match rest.part(self.alloc, &mut self.names, Extent::Part(self.budget)) {
                Ok(part) => part,
                Err(fault) => return Err(fault),
            };
            walk.go_over(part.as_slice())?;
        }
        self.budget = self.budget.with_equs(rest.state.equs);
        Ok(())
    }
}
