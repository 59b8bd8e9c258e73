//! The members of a step's object, each of which is left out where it says nothing.
//!
//! [`write_members`] writes them in one order, that of page/README.md; the first that there is opens the object, so
//! that a step with none has no object either. A load is left out where the outcome says that it was not made. The
//! registers stand before the object (`step`).

ghost use Rattle.std.specs.Prelude.{◌≡◌, ◌+◌, ◌≤◌, [], IfOk, OnOk, false, is_some, length};
ghost use Rattle.std.specs.Prelude.{nat_eq};
ghost use Rattle.std.specs.Cmp.Lexicographic.{pointwise};
ghost use Rattle.std.specs.List.{list_any};
ghost use Rattle.tm_hist.specs.Lines.{state_word};
ghost use Rattle.text_out.specs.Writing.{Wrote};
ghost use Rattle.page_steps.specs.Members.{access_member, bytes_of_width, event_member, hits_from, hits_member};
ghost use Rattle.page_steps.specs.Members.{kind_number};
ghost use Rattle.page_steps.specs.Members.{lead, load_made, member_text, members_of, members_text, named};
ghost use Rattle.page_steps.specs.Members.{pending_member, some_then, state_member, store_name, store_numbers};
ghost use Rattle.page_steps.specs.Numbers.{numbers_text};
ghost use Rattle.page_steps.specs.Stored.{stored_text};

use crate::numbers::write_numbers;
use crate::stored::write_stored;
use crate::words::write_state;
use ia_addr::Access;
use ia_exec::Store;
use ia_word::Width;
use page_text::write_comma;
use text_out::text_line::TextLine;
use text_out::{Out, WriteFault};
use tm_hist::{interference_text, push_state};
use tm_model::{CoreState, Hit, Outcome};
use tm_page::{PageDelta, StoredByte};
use tm_sets::Kind;

/// Writes the object of a step whose core did this before it; nothing, where it says nothing. On 5 `Write` a beginning
/// of it was written.
pub fn write_members<O: Out>(
    delta: &PageDelta,
    before: CoreState,
    out: &mut O,
) -> Result<(), WriteFault>
    ensures { OnOk result (Wrote (O.device out.old) (O.device out.new)
        (members_text false (members_of delta.now before))) }
{
    let some = put_state(before, delta.state, out)?;
    let some = put_lines(some, b"\"r\":", delta.reads.as_slice(), out)?;
    let some = put_lines(some, b"\"w\":", delta.writes.as_slice(), out)?;
    let some = put_load(some, load_made(delta.outcome, delta.load), out)?;
    let some = put_stored(some, delta.outcome, delta.stored.as_slice(), out)?;
    let some = put_pending(some, delta.pending, out)?;
    let some = put_hits(some, &delta.hits, out)?;
    let some = put_event(some, delta.outcome, out)?;
    put_end(some, out)
}

// Writes the end of the object, where there is one.
fn put_end<O: Out>(some: bool, out: &mut O) -> Result<(), WriteFault>
    ensures { OnOk result (Wrote (O.device out.old) (O.device out.new) (members_text some [])) }
{
    if some {
        out.put(b"}")?;
    }
    Ok(())
}

// Writes what stands before a member.
fn put_lead<O: Out>(some: bool, out: &mut O) -> Result<(), WriteFault>
    ensures { OnOk result (Wrote (O.device out.old) (O.device out.new) (lead some)) }
{
    if some {
        out.put(b",")?;
    } else {
        out.put(b",{")?;
    }
    Ok(())
}

// What the core does from here on, where that is another word.
fn put_state<O: Out>(before: CoreState, state: CoreState, out: &mut O) -> Result<bool, WriteFault>
    ensures text { OnOk result (Wrote (O.device out.old) (O.device out.new)
        (member_text false (state_member before state))) }
    ensures some { IfOk result (λ some. some ≡ some_then false (state_member before state)) }
{
    if is_same_word(before, state) {
        return Ok(false);
    }
    put_lead(false, out)?;
    out.put(b"\"q\":")?;
    write_state(state, out)?;
    Ok(true)
}

// Whether two states have one word.
fn is_same_word(before: CoreState, state: CoreState) -> bool
    ensures { result ≡ pointwise nat_eq (state_word before) (state_word state) }
{
    let mut first = TextLine::new();
    push_state(&mut first, before);
    let mut second = TextLine::new();
    push_state(&mut second, state);
    first.as_slice() == second.as_slice()
}

// Lines that joined a set, under a name.
fn put_lines<O: Out>(
    some: bool,
    name: &[u8],
    lines: &[u32],
    out: &mut O,
) -> Result<bool, WriteFault>
    requires { 1 ≤ length name.now }
    ensures text { OnOk result (Wrote (O.device out.old) (O.device out.new)
        (member_text some (named name.now numbers_text lines.now))) }
    ensures some { IfOk result (λ is. is ≡ some_then some (named name.now numbers_text lines.now)) }
{
    if lines.is_empty() {
        return Ok(some);
    }
    put_lead(some, out)?;
    out.put(name)?;
    write_numbers(lines, out)?;
    Ok(true)
}

// What a step loaded: one that stopped, began, ended, drained or was idle loaded nothing.
fn load_made(outcome: Outcome, load: Option<Access>) -> Option<Access>
    ensures { result ≡ load_made outcome load }
{
    match outcome {
        Outcome::Plain | Outcome::Loaded | Outcome::Inside => load,
        Outcome::Stopped(_)
        | Outcome::Idle
        | Outcome::Begun
        | Outcome::Committed
        | Outcome::Aborted(_)
        | Outcome::AbortedBy(_, _)
        | Outcome::Drained => None,
    }
}

fn put_load<O: Out>(some: bool, load: Option<Access>, out: &mut O) -> Result<bool, WriteFault>
    ensures text { OnOk result (Wrote (O.device out.old) (O.device out.new) (member_text some (access_member load))) }
    ensures some { IfOk result (λ is. is ≡ some_then some (access_member load)) }
{
    let Some(access) = load else {
        return Ok(some);
    };
    put_lead(some, out)?;
    out.put(b"\"l\":")?;
    write_numbers(&[access.addr, bytes_of_width(access.width)], out)?;
    Ok(true)
}

fn bytes_of_width(width: Width) -> u32
    ensures { result ≡ bytes_of_width width }
{
    match width {
        Width::B => 1,
        Width::D => 4,
    }
}

// The bytes that were stored: of a step inside, privately, else to memory.
fn put_stored<O: Out>(
    some: bool,
    outcome: Outcome,
    bytes: &[StoredByte],
    out: &mut O,
) -> Result<bool, WriteFault>
    ensures text { OnOk result (Wrote (O.device out.old) (O.device out.new)
        (member_text some (named (store_name outcome) stored_text bytes.now))) }
    ensures some { IfOk result (λ is. is ≡ some_then some (named (store_name outcome) stored_text bytes.now)) }
{
    if bytes.is_empty() {
        return Ok(some);
    }
    put_lead(some, out)?;
    out.put(store_name(outcome))?;
    write_stored(bytes, out)?;
    Ok(true)
}

fn store_name(outcome: Outcome) -> &'static [u8]
    ensures { result.now ≡ store_name outcome }
{
    match outcome {
        Outcome::Inside => b"\"t\":",
        Outcome::Plain
        | Outcome::Loaded
        | Outcome::Stopped(_)
        | Outcome::Idle
        | Outcome::Begun
        | Outcome::Committed
        | Outcome::Aborted(_)
        | Outcome::AbortedBy(_, _)
        | Outcome::Drained => b"\"m\":",
    }
}

// The store that is pending now.
fn put_pending<O: Out>(some: bool, store: Option<Store>, out: &mut O) -> Result<bool, WriteFault>
    ensures text { OnOk result (Wrote (O.device out.old) (O.device out.new) (member_text some (pending_member store))) }
    ensures some { IfOk result (λ is. is ≡ some_then some (pending_member store)) }
{
    let Some(store) = store else {
        return Ok(some);
    };
    put_lead(some, out)?;
    out.put(b"\"s\":")?;
    write_numbers(&store_numbers(store), out)?;
    Ok(true)
}

/// The numbers of a store that is pending: its address, how many bytes, and what is stored.
pub fn store_numbers(store: Store) -> [u32; 3]
    ensures { result ≡ store_numbers store }
{
    [store.addr, bytes_of_width(store.width), store.value]
}

// Whom the step condemned.
fn put_hits<O: Out>(some: bool, hits: &[Option<Hit>; 64], out: &mut O) -> Result<bool, WriteFault>
    ensures text { OnOk result (Wrote (O.device out.old) (O.device out.new) (member_text some (hits_member hits.now))) }
    ensures some { IfOk result (λ is. is ≡ some_then some (hits_member hits.now)) }
{
    if !has_hit(hits) {
        return Ok(some);
    }
    put_lead(some, out)?;
    out.put(b"\"d\":[")?;
    put_hits_from(false, 0, hits, out)?;
    out.put(b"]")?;
    Ok(true)
}

fn has_hit(hits: &[Option<Hit>]) -> bool
    ensures { result ≡ list_any is_some hits.now }
{
    hits.iter().any(|hit| hit.is_some())
}

// Writes the hits on the cores from this number on, behind commas where there was another.
fn put_hits_from<O: Out>(
    some: bool,
    core: u32,
    hits: &[Option<Hit>],
    out: &mut O,
) -> Result<(), WriteFault>
    requires { core + length hits.now ≤ 64 }
    ensures { OnOk result (Wrote (O.device out.old) (O.device out.new) (hits_from some core hits.now)) }
{
    let Some((first, rest)) = hits.split_first() else {
        return Ok(());
    };
    let Some(hit) = first else {
        return put_hits_from(some, core + 1, rest, out);
    };
    write_comma(some, out)?;
    write_numbers(&[core, hit.line, kind_number(hit.kind)], out)?;
    put_hits_from(true, core + 1, rest, out)
}

fn kind_number(kind: Kind) -> u32
    ensures { result ≡ kind_number kind }
{
    match kind {
        Kind::Read => 0,
        Kind::Write => 1,
    }
}

// What aborted from outside of the program.
fn put_event<O: Out>(some: bool, outcome: Outcome, out: &mut O) -> Result<bool, WriteFault>
    ensures text { OnOk result (Wrote (O.device out.old) (O.device out.new) (member_text some (event_member outcome))) }
    ensures some { IfOk result (λ is. is ≡ some_then some (event_member outcome)) }
{
    let Outcome::AbortedBy(interference, _status) = outcome else {
        return Ok(some);
    };
    put_lead(some, out)?;
    out.put(b"\"e\":\"")?;
    out.put(interference_text(interference))?;
    out.put(b"\"")?;
    Ok(true)
}
