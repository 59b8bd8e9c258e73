//! The bytes of open transactions.
//!
//! [`OpenBytes::is_apart`] is asked before a step, of whom it hits, and [`OpenBytes::note`] takes the step behind it: a
//! step that ends a transaction lets its bytes go, and the drain of an older store keeps them. Each core has bytes of
//! its own.

ghost use Rattle.std.specs.Prelude.{◌≡◌, ◌+◌, ◌<◌, ◌≤◌, ◌||◌, ◌∷◌, [], ℕ, List, OnErr, OnOk, nat_eq, IsTrue, ◌↔◌};
ghost use Rattle.indexmap.specs.IndexSet.{contains, spare};
ghost use Rattle.tm_model.specs.Access.{loaded_addresses};
ghost use Rattle.tm_stats.specs.Counts.{is_committed, is_drained};
ghost use Rattle.tm_stats.specs.OpenBytes.{is_among, is_inside};

use ia_addr::Access;
use ia_word::Width;
use indexmap::IndexSet;
use std::alloc::{AllocError, Global};
use tm_model::{Outcome, Reach};

/// A step of a core, with the bytes that it reached.
#[derive(Clone, Copy)]
pub struct ByteStep {
    /// What the step was.
    pub outcome: Outcome,
    /// The bytes that it loaded and stored.
    pub reach: Reach,
}

/// The addresses of the bytes that the open transaction of a core has loaded and stored: none where it has none open.
#[derive(Drop)]
pub struct OpenBytes {
    /// Those that it has loaded.
    pub loaded: IndexSet<u64>,
    /// Those that it has stored.
    pub stored: IndexSet<u64>,
}

impl OpenBytes {
    ghost use Rattle.tm_stats.specs.OpenBytes.{AreOpenBytes, IsApart, hits_byte};
    ghost use Rattle.tm_stats.specs.declared.open_bytes.ByteStep.{ByteStep};

    /// Those of no step.
    pub fn new(alloc: Global) -> OpenBytes
        ensures { AreOpenBytes result [] }
    {
        OpenBytes {
            loaded: IndexSet::new(alloc),
            stored: IndexSet::new(alloc),
        }
    }

    /// Tells one more step of the core. Where there is no memory the bytes stay as they were.
    pub fn note(&mut self, step: ByteStep) -> Result<(), AllocError>
        ensures ok { OnOk result ((steps : List ByteStep) → AreOpenBytes self.old steps
            → AreOpenBytes self.new (step ∷ steps)) }
        ensures err { OnErr result ((steps : List ByteStep) → AreOpenBytes self.old steps
            → AreOpenBytes self.new steps) }
    {
        if is_drained(step.outcome) {
            return Ok(());
        }
        if !is_inside(step.outcome) {
            self.loaded.clear();
            self.stored.clear();
            return Ok(());
        }
        self.loaded.reserve(4)?;
        self.stored.reserve(4)?;
        add_bytes(&mut self.loaded, step.reach.load);
        add_bytes(&mut self.stored, step.reach.store);
        Ok(())
    }

    /// Whether the next step of the core hits the open transaction of another on this line only because conflicts go by
    /// the line: on no byte of it do they meet.
    pub fn is_apart(&self, step: ByteStep, victim: &OpenBytes, line: u32) -> bool
        ensures { (earlier other : List ByteStep) → AreOpenBytes self.now earlier → AreOpenBytes victim.now other →
            (IsTrue result ↔ IsApart step earlier other line) }
    {
        let first = u64::from(line) * 64;
        for place in 0..64 {
            if self.hits_byte(step, victim, first + place) {
                return false;
            }
        }
        true
    }

    // Whether the next step of the core meets another's transaction on this byte.
    fn hits_byte(&self, step: ByteStep, victim: &OpenBytes, byte: u64) -> bool
        ensures { (earlier other : List ByteStep) → AreOpenBytes self.now earlier → AreOpenBytes victim.now other →
            result ≡ hits_byte step earlier other byte }
    {
        let shows_stored = if is_committed(step.outcome) {
            self.stored.contains(&byte)
        } else {
            !is_inside(step.outcome) && is_among(step.reach.store, byte)
        };
        let victim_stored = victim.stored.contains(&byte);
        (shows_stored && (victim.loaded.contains(&byte) || victim_stored))
            || (is_among(step.reach.load, byte) && victim_stored)
    }
}

// Whether a step was one of a transaction that goes on.
fn is_inside(outcome: Outcome) -> bool
    ensures { result ≡ is_inside outcome }
{
    matches!(outcome, Outcome::Inside)
}

/// Whether a step was the drain of a store that was pending.
pub fn is_drained(outcome: Outcome) -> bool
    ensures { result ≡ is_drained outcome }
{
    matches!(outcome, Outcome::Drained)
}

// Whether a step was a commit.
fn is_committed(outcome: Outcome) -> bool
    ensures { result ≡ is_committed outcome }
{
    matches!(outcome, Outcome::Committed)
}

// Whether a byte is one of an access.
fn is_among(access: Option<Access>, byte: u64) -> bool
    ensures { result ≡ is_among (loaded_addresses access) byte }
{
    let Some(access) = access else {
        return false;
    };
    let first = u64::from(access.addr);
    let second = first + 1;
    let third = second + 1;
    match access.width {
        Width::B => first == byte,
        Width::D => first == byte || second == byte || third == byte || third + 1 == byte,
    }
}

// Adds the bytes of an access, for which there is room.
fn add_bytes(bytes: &mut IndexSet<u64>, access: Option<Access>)
    requires { 4 ≤ spare bytes.old }
    ensures { (q : ℕ) → contains nat_eq bytes.new q
        ≡ (is_among (loaded_addresses access) q || contains nat_eq bytes.old q) }
{
    let Some(access) = access else {
        return;
    };
    let first = u64::from(access.addr);
    let second = first + 1;
    let third = second + 1;
    add(bytes, first);
    match access.width {
        Width::B => {}
        Width::D => {
            add(bytes, second);
            add(bytes, third);
            add(bytes, third + 1);
        }
    }
}

// Adds a byte, for which there is room.
fn add(bytes: &mut IndexSet<u64>, byte: u64)
    requires { 0 < spare bytes.old }
    ensures has { (q : ℕ) → contains nat_eq bytes.new q ≡ (nat_eq byte q || contains nat_eq bytes.old q) }
    ensures room { spare bytes.old ≤ spare bytes.new + 1 }
{
    match bytes.insert(byte) {
        Ok(_) => {}
        Err(_) => unreachable!(),
    }
}
