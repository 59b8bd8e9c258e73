//! Whole sources: lines from the first to the last, each with what those above it left, until one is wrong.

ghost use Rattle.std.specs.Prelude.{MatchResult, IfOk};
ghost use Rattle.ia_item.specs.Fits.{AllFit};
ghost use Rattle.ia_source.specs.Source.{entries_of, AsksFor, Tells};

use crate::budget::Extent;
use crate::fault::SourceFault;
use crate::rest::Rest;
use ia_item::Entry;
use ia_names::Names;
use std::alloc::Global;

/// The entries of a source in the order of its lines, or the first line that is wrong and what is wrong with it.
///
/// Each entry can be placed: an instruction is encodable, an alignment is a power of two up to 4096, and an expression
/// has 1 to 16 terms. `NoMemory` where no memory was left.
pub fn entries<'a>(alloc: Global, source: &'a [u8]) -> Result<Vec<Entry<'a>>, SourceFault>
    ensures exact { MatchResult result (λ es. AsksFor source.now es.items) (Tells (entries_of source.now)) }
    ensures fit { IfOk result (λ es. AllFit es.items) }
{
    let mut names = Names::new(alloc);
    match Rest::new(alloc, source).part(alloc, &mut names, Extent::Whole) {
        Ok(entries) => Ok(entries),
        Err(fault) => Err(fault),
    }
}
