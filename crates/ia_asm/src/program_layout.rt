//! Where the entries of a source go, and what they give to what takes their places.

ghost use Rattle.std.specs.Prelude.{◌≡◌, ◌≤◌, ◌^◌, MatchResult};
ghost use Rattle.ia_names.specs.Namings.{Grows};
ghost use Rattle.ia_resolve.specs.Symbols.{known};
ghost use Rattle.ia_layout.specs.Placement.{base_of, start, after, places, all_places, values};
ghost use Rattle.ia_layout.specs.Contents.{layout_state};
ghost use Rattle.ia_asm.specs.Assemblies.{fault_of};
ghost use Rattle.ia_asm.specs.Assembles.{RefusedAs};
ghost use Rattle.ia_asm.specs.ProgramLayouts.{ForEntries, OfEntries, ArePlaced, IsLaidOut, HasLaidOut};

use crate::fault::{AsmFault, at_line};
use crate::faults::FaultSearch;
use ia_layout::{FirstOrg, NoTaker, Placer, Taker, tail_base};
use ia_resolve::{PlaceFault, Table};
use ia_source::Reader;
use indexmap::IndexMap;
use std::alloc::Global;

/// Where the entries of a source go, and the values of their symbols.
#[derive(Drop)]
pub struct ProgramLayout {
    /// The address of the code.
    pub base: u32,
    /// Where the code ends.
    pub end: u128,
    /// Where the data begins.
    pub tail: u128,
    /// The values of the symbols.
    pub table: Table,
}

/// The base that the source sets, or 100h.
fn find_base<'a>(reader: &mut Reader<'a>) -> Result<u32, AsmFault>
    ensures source { reader.new.source.now ≡ reader.old.source.now }
    ensures exact { MatchResult result
        (λ base. OfEntries reader.old.source.now reader.new.names (λ es. base ≡ base_of es))
        (RefusedAs reader.old.source.now) }
{
    let mut first = FirstOrg::new();
    reader.go_over(&mut first)?;
    Ok(first.base())
}

/// Hands the place of each entry of the source on, where the code goes to the base and the data there.
fn place_all<'a, T: Taker<'a> + Drop>(
    alloc: Global,
    base: u32,
    tail: u128,
    taker: T,
    reader: &mut Reader<'a>,
) -> Result<Placer<T>, AsmFault>
    ensures source { reader.new.source.now ≡ reader.old.source.now }
    ensures grows { Grows reader.old.names reader.new.names }
    ensures exact { MatchResult result
        (λ p. ForEntries reader.old.source.now reader.new.names (λ es.
        (layout_state p.walk ≡ after (start base tail) es) × T.Taken taker (places (start base tail) es) p.taker))
        (RefusedAs reader.old.source.now) }
{
    let mut placer = Placer::new(alloc, base, tail, taker);
    reader.go_over(&mut placer)?;
    Ok(placer)
}

/// Where the code ends that begins at the base.
fn find_end<'a>(alloc: Global, base: u32, reader: &mut Reader<'a>) -> Result<u128, AsmFault>
    ensures source { reader.new.source.now ≡ reader.old.source.now }
    ensures grows { Grows reader.old.names reader.new.names }
    ensures exact { MatchResult result
        (λ end. OfEntries reader.old.source.now reader.new.names (λ es. end ≡ (after (start base 0) es).text))
        (RefusedAs reader.old.source.now) }
    ensures near { MatchResult result (λ end. end ≤ 2 ^ 123) (λ _. Unit {0}) }
{
    let placer = place_all(alloc, base, 0, NoTaker, reader)?;
    let end = placer.walk.end()?;
    Ok(end)
}

/// The values of the symbols, where the code goes to the base and the data there.
fn find_symbols<'a>(
    alloc: Global,
    base: u32,
    tail: u128,
    reader: &mut Reader<'a>,
) -> Result<Table, AsmFault>
    ensures source { reader.new.source.now ≡ reader.old.source.now }
    ensures grows { Grows reader.old.names reader.new.names }
    ensures exact { MatchResult result
        (λ table. OfEntries reader.old.source.now reader.new.names (λ es.
        known table.values.entries ≡ values (places (start base tail) es)))
        (RefusedAs reader.old.source.now) }
{
    let table = Table {
        values: IndexMap::new(alloc),
    };
    let placer = place_all(alloc, base, tail, table, reader)?;
    Ok(placer.taker)
}

/// Where the entries of the source go, and the values of their symbols.
fn find_places<'a>(alloc: Global, reader: &mut Reader<'a>) -> Result<ProgramLayout, AsmFault>
    ensures source { reader.new.source.now ≡ reader.old.source.now }
    ensures exact { MatchResult result
        (λ l. OfEntries reader.old.source.now reader.new.names (λ es. ArePlaced es l))
        (RefusedAs reader.old.source.now) }
{
    let base = find_base(reader)?;
    let end = find_end(alloc, base, reader)?;
    let tail = tail_base(end);
    let table = find_symbols(alloc, base, tail, reader)?;
    Ok(ProgramLayout {
        base,
        end,
        tail,
        table,
    })
}

/// The first line that has a fault, and its first fault, where the entries go there.
fn find_fault<'a>(
    alloc: Global,
    layout: &ProgramLayout,
    reader: &mut Reader<'a>,
) -> Result<Option<(PlaceFault, u32)>, AsmFault>
    requires { OfEntries reader.old.source.now reader.old.names (λ es. ArePlaced es layout.now) }
    ensures source { reader.new.source.now ≡ reader.old.source.now }
    ensures grows { Grows reader.old.names reader.new.names }
    ensures exact { MatchResult result
        (λ found. ForEntries reader.old.source.now reader.new.names (λ es. found ≡ fault_of es))
        (RefusedAs reader.old.source.now) }
{
    let search = FaultSearch::new(&layout.table, layout.base);
    let placer = place_all(alloc, layout.base, layout.tail, search, reader)?;
    Ok(placer.taker.found)
}

/// Where the entries of the source go, or the first line that cannot be placed.
pub fn lay_out<'a>(alloc: Global, reader: &mut Reader<'a>) -> Result<ProgramLayout, AsmFault>
    ensures source { reader.new.source.now ≡ reader.old.source.now }
    ensures exact { MatchResult result
        (λ l. IsLaidOut reader.old.source.now reader.new.names l)
        (RefusedAs reader.old.source.now) }
{
    let layout = find_places(alloc, reader)?;
    if let Some((fault, line)) = find_fault(alloc, &layout, reader)? {
        return Err(at_line(fault, line));
    }
    Ok(layout)
}

/// Hands the place of each entry of the source on, as they are laid out.
pub fn take_all<'a, T: Taker<'a> + Drop>(
    alloc: Global,
    layout: &ProgramLayout,
    taker: T,
    reader: &mut Reader<'a>,
) -> Result<T, AsmFault>
    requires { IsLaidOut reader.old.source.now reader.old.names layout.now }
    ensures { MatchResult result
        (λ t. HasLaidOut reader.old.source.now layout.now (λ es. T.Taken taker (all_places es) t))
        (RefusedAs reader.old.source.now) }
{
    let placer = place_all(alloc, layout.base, layout.tail, taker, reader)?;
    Ok(placer.taker)
}
