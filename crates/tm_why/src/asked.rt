//! What a machine says of a core's step before it is made: whom it hits, on which line, why it is an abort, if it is
//! one, and which bytes it reaches.
//!
//! The step is planned once, and the cores are gone through only where it may hit one, and again for a drain where a
//! store of its core is pending. [`Asked::of`] makes a row of hits of each and [`Asked::anew`] fills those that are
//! there, for who asks before every step. That an event comes in place of the step is not known yet: `row` takes those
//! of the step, those of the drain, or none, by the outcome. Where no store may be pending, no drain is asked of.

ghost use Rattle.std.specs.Prelude.{◌≡◌, ℕ, ◌↔◌, ◌<◌, ◌≤◌, IfOk, IsOk, None, OnErr, OnOk, length, slice_index_or};
ghost use Rattle.tm_core.specs.Previewed.{IsPreview};
ghost use Rattle.tm_core.specs.Theorem.{view_at};
ghost use Rattle.tm_why.specs.Hits.{AreDrainHits, AreHits, HasNoHits};
ghost use Rattle.tm_why.specs.Said.{IsPendsSaid, is_pending};

use tm_core::{Buffering, Machine, NoSuchCore, Preview};
use tm_model::{AbortReason, Hit, Reach};

/// The most cores of a machine.
pub const MOST_CORES: usize = 64;

/// No bytes.
const NOTHING: Reach = Reach {
    load: None,
    store: None,
};

/// What a machine says of the next step of a core, before the step is made.
#[derive(Clone, Copy, Debug)]
pub struct Asked {
    /// The core, 0 to 63.
    pub core: u8,
    /// The address of its next instruction.
    pub eip: u32,
    /// For each core, the hit by which the step condemns the core's open transaction.
    pub hits: [Option<Hit>; MOST_CORES],
    /// Each core that the step hits has a number below this, at most 64.
    pub below: u8,
    /// For each core, the hit by which the oldest pending store of this one condemns the core's open transaction, if it
    /// reaches memory in the step's place.
    pub drain_hits: [Option<Hit>; MOST_CORES],
    /// Each core that the drain hits has a number below this, at most 64.
    pub drain_below: u8,
    /// Whether the step's own store is pending behind it, and not in memory yet.
    pub pends: bool,
    /// Why the step is an abort, where it is one.
    pub reason: Option<AbortReason>,
    /// Which bytes the step loads and stores.
    pub reach: Reach,
    pub ghost few: { core < 64 },
    pub ghost most: { below ≤ 64 },
    pub ghost none: { (k : ℕ) → below ≤ k → slice_index_or hits k None ≡ None },
    pub ghost drain_most: { drain_below ≤ 64 },
    pub ghost drain_none: { (k : ℕ) → drain_below ≤ k → slice_index_or drain_hits k None ≡ None },
}

impl Asked {
    ghost use Rattle.tm_why.specs.Asked.{IsAsked};

    /// Of no machine yet: core 0 at address 0, which hits nobody and is no abort. It is there to be asked anew:
    /// [`Asked::anew`].
    pub fn nothing() -> Asked {
        Asked {
            core: 0,
            eip: 0,
            hits: [None; MOST_CORES],
            below: 0,
            drain_hits: [None; MOST_CORES],
            drain_below: 0,
            pends: false,
            reason: None,
            reach: NOTHING,
        }
    }

    /// What the machine says of this core's next step. `NoSuchCore` (42). Takes no memory.
    pub fn of(machine: &Machine, core: u8) -> Result<Asked, NoSuchCore>
        ensures exists { IsOk result ↔ (core < length machine.now.views) }
        ensures asked { IfOk result (IsAsked machine.now core) }
    {
        if core >= machine.cores() {
            return Err(NoSuchCore);
        }
        let preview = machine.preview(core)?;
        let mut hits = [None; MOST_CORES];
        let below = hits_of(machine, &preview, &mut hits);
        let mut drain_hits = [None; MOST_CORES];
        let stores = stores_of(machine, core, &mut drain_hits, 0);
        Ok(Asked {
            core,
            eip: preview.eip,
            hits,
            below,
            drain_hits,
            drain_below: stores.drain_below,
            pends: stores.pends,
            reason: preview.reason,
            reach: preview.reach,
        })
    }
}

impl Asked {
    ghost use Rattle.tm_why.specs.Asked.{IsAsked};

    /// Becomes what the machine says of this core's next step: [`Asked::of`] in place, which for a step that hits
    /// nobody, behind one that hits nobody, goes over no hits. `NoSuchCore` (42), and nothing is changed. Takes no
    /// memory.
    pub fn anew(&mut self, machine: &Machine, core: u8) -> Result<(), NoSuchCore>
        ensures exists { IsOk result ↔ (core < length machine.now.views) }
        ensures asked { OnOk result (IsAsked machine.now core self.new) }
        ensures err { OnErr result (self.new ≡ self.old) }
    {
        if core >= machine.cores() {
            return Err(NoSuchCore);
        }
        let preview = machine.preview(core)?;
        // Before `below` changes, which says how far the row is filled.
        clear(&mut self.hits, self.below);
        self.below = hits_of(machine, &preview, &mut self.hits);
        let stores = stores_of(machine, core, &mut self.drain_hits, self.drain_below);
        self.drain_below = stores.drain_below;
        self.pends = stores.pends;
        self.core = core;
        self.eip = preview.eip;
        self.reason = preview.reason;
        self.reach = preview.reach;
        Ok(())
    }
}

// Takes the hits out of a row that has them below this number alone.
fn clear(hits: &mut [Option<Hit>; MOST_CORES], below: u8)
    requires most { below ≤ 64 }
    requires none { (k : ℕ) → below ≤ k → slice_index_or hits.old k None ≡ None }
    ensures { HasNoHits hits.new }
{
    for core in 0..below as usize {
        hits[core] = None;
    }
}

// As [`clear`], of which a row that has none asks nothing but a test.
#[inline(always)]
fn clear_if_any(hits: &mut [Option<Hit>; MOST_CORES], below: u8)
    requires most { below ≤ 64 }
    requires none { (k : ℕ) → below ≤ k → slice_index_or hits.old k None ≡ None }
    ensures { HasNoHits hits.new }
{
    if below != 0 {
        clear(hits, below);
    }
}

// Puts the step's hits, by the numbers of the cores, into a row that has none, and says below which number they are.
fn hits_of(machine: &Machine, preview: &Preview, hits: &mut [Option<Hit>; MOST_CORES]) -> u8
    requires preview { IsPreview machine.now preview.now }
    requires empty { HasNoHits hits.old }
    ensures { AreHits machine.now preview.now.core hits.new result }
{
    if machine.may_hit(preview) {
        put_hits(machine, preview, hits)
    } else {
        0
    }
}

// As [`hits_of`], of a step that may hit a core: each core is asked for.
fn put_hits(machine: &Machine, preview: &Preview, hits: &mut [Option<Hit>; MOST_CORES]) -> u8
    requires preview { IsPreview machine.now preview.now }
    requires empty { HasNoHits hits.old }
    ensures { AreHits machine.now preview.now.core hits.new result }
{
    let mut below = 0;
    for victim in 0..machine.cores() {
        let hit = machine.hit_by(preview, victim).unwrap();
        hits[victim as usize] = hit;
        if hit.is_some() {
            below = victim + 1;
        }
    }
    below
}

// What is said of the stores of a core: below which number each core is that a drain hits, and whether the store of the
// core's next step, under no event, is pending behind it.
#[derive(Clone, Copy)]
struct SaidOfStores {
    drain_below: u8,
    pends: bool,
}

// Puts a drain's hits in the place of those that a row has below this number. Where no store may be pending, one test
// of the machine and one of the row are all that is done.
#[inline(always)]
fn stores_of(
    machine: &Machine,
    core: u8,
    hits: &mut [Option<Hit>; MOST_CORES],
    below: u8,
) -> SaidOfStores
    requires exists { core < length machine.now.views }
    requires most { below ≤ 64 }
    requires none { (k : ℕ) → below ≤ k → slice_index_or hits.old k None ≡ None }
    ensures hits { AreDrainHits machine.now core hits.new result.drain_below }
    ensures pends { IsPendsSaid machine.now core result.pends }
{
    if machine.stores() == 0 {
        no_stores_of(machine, core, hits, below)
    } else {
        pending_stores_of(machine, core, hits, below)
    }
}

// As [`stores_of`], where none may be pending.
#[inline(always)]
fn no_stores_of(
    machine: &Machine,
    core: u8,
    hits: &mut [Option<Hit>; MOST_CORES],
    below: u8,
) -> SaidOfStores
    requires direct { machine.now.store_buffer ≡ 0 }
    requires exists { core < length machine.now.views }
    requires most { below ≤ 64 }
    requires none { (k : ℕ) → below ≤ k → slice_index_or hits.old k None ≡ None }
    ensures hits { AreDrainHits machine.now core hits.new result.drain_below }
    ensures pends { IsPendsSaid machine.now core result.pends }
{
    // This call does nothing: its contract says that none is pending.
    machine.nothing_pending();
    clear_if_any(hits, below);
    SaidOfStores {
        drain_below: 0,
        pends: false,
    }
}

// As [`stores_of`], where some may be.
#[inline(never)]
fn pending_stores_of(
    machine: &Machine,
    core: u8,
    hits: &mut [Option<Hit>; MOST_CORES],
    below: u8,
) -> SaidOfStores
    requires exists { core < length machine.now.views }
    requires most { below ≤ 64 }
    requires none { (k : ℕ) → below ≤ k → slice_index_or hits.old k None ≡ None }
    ensures hits { AreDrainHits machine.now core hits.new result.drain_below }
    ensures pends { IsPendsSaid machine.now core result.pends }
{
    clear(hits, below);
    SaidOfStores {
        drain_below: pending_hits_of(machine, core, hits),
        pends: pends_of(machine, core),
    }
}

// Where no store of the core is pending, there is none to ask of.
fn pending_hits_of(machine: &Machine, core: u8, hits: &mut [Option<Hit>; MOST_CORES]) -> u8
    requires exists { core < length machine.now.views }
    requires empty { HasNoHits hits.old }
    ensures { AreDrainHits machine.now core hits.new result }
{
    if machine.pending(core).unwrap().is_empty() {
        0
    } else {
        put_drain_hits(machine, core, hits)
    }
}

// As [`pending_hits_of`], where a store is pending: each core is asked for.
fn put_drain_hits(machine: &Machine, core: u8, hits: &mut [Option<Hit>; MOST_CORES]) -> u8
    requires exists { core < length machine.now.views }
    requires empty { HasNoHits hits.old }
    ensures { AreDrainHits machine.now core hits.new result }
{
    let mut end = 0;
    for victim in 0..machine.cores() {
        let hit = machine.hit_by_drain(core, victim).unwrap();
        hits[victim as usize] = hit;
        if hit.is_some() {
            end = victim + 1;
        }
    }
    end
}

// Whether the core's step, which is next under no event, leaves its store pending.
fn pends_of(machine: &Machine, core: u8) -> bool
    requires exists { core < length machine.now.views }
    ensures { IsPendsSaid machine.now core result }
{
    match machine.ahead(core) {
        Ok(ahead) => is_pending(ahead),
        Err(_) => unreachable!(),
    }
}

// Whether a step that does this with the stores of its core leaves its own one pending.
fn is_pending(ahead: Buffering) -> bool
    ensures { result ≡ is_pending ahead }
{
    match ahead {
        Buffering::Pends => true,
        Buffering::Waits(_) | Buffering::Goes => false,
    }
}
