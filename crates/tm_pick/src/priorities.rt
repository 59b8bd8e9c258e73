//! Random priorities (PCT): an order of the cores, of which the first that has not stopped steps.
//!
//! The order is drawn first and then the steps at which a core falls behind, all of it in [`Priorities::new`];
//! [`Priorities::next`] draws nothing. A fall comes before the step is picked, and moves the core of the step
//! before. Whether that is at a PAUSE is told by the caller (`waiting`).

ghost use Rattle.std.specs.List.{range_with_len};
ghost use Rattle.std.specs.Prelude.{◌≡◌, ◌≤◌, ◌<◌, ℕ, Contains, IsPermutation, false, length};
ghost use Rattle.rand.specs.Shuffle.{shuffled};
ghost use Rattle.tm_pick.specs.Begun.{ArePriorities, falls_drawn};
ghost use Rattle.tm_pick.specs.Chances.{words_of};

use crate::chance::Chance;
use crate::going::{Going, index_of};
use crate::tail::most_in_a_row;
use arrayvec::ArrayVec;

/// The most steps at which a core falls behind.
const MOST_FALLS: usize = 3;

/// Probabilistic concurrency testing, after Burckhardt, Kothari, Musuvathi and Nagarakatte (ASPLOS 2010): each core has
/// a priority by chance, and the step is that of the highest one. At some steps by chance, 1 to 3 of them, the core
/// that ran falls behind all others; it falls too where it is at a PAUSE, and after so many steps in a row as no core
/// makes that does not wait, or a core that waits for another one would never let go.
#[derive(Drop)]
pub struct Priorities {
    // The highest first.
    order: ArrayVec<u8, 64>,
    falls: ArrayVec<u32, MOST_FALLS>,
    // The most steps of a core in a row.
    most: u32,
    made: u32,
    last: u8,
    in_a_row: u32,
}

impl Priorities {
    /// Priorities of these cores, in a run that takes about so many steps.
    pub fn new(mut chance: Chance, going: &Going, length: u32) -> Priorities
        ensures { (cores : ℕ) → going.now ≡ range_with_len 0 cores →
            ArePriorities cores length (words_of chance) result }
    {
        let order = shuffled(&mut chance, going);
        let falls = falls_drawn(&mut chance, length.max(1));
        Priorities {
            order,
            falls,
            most: most_in_a_row(length),
            made: 0,
            last: u8::MAX,
            in_a_row: 0,
        }
    }

    /// The core of the next step. It is told whether the core of the step before is at a PAUSE.
    pub fn next(&mut self, going: &Going, waits: bool) -> u8
        requires { 0 < length going.now }
        ensures core { Contains going.now result }
        ensures same { self.new.most ≡ self.old.most }
        ensures in_order { waits ≡ false → self.old.in_a_row < self.old.most →
            (Contains self.old.falls.items self.old.made → ⊥) → self.new.order.items ≡ self.old.order.items }
    {
        if waits || self.in_a_row >= self.most || self.falls.as_slice().contains(&self.made) {
            self.fall();
        }
        let core = going.from(self.highest(going));
        self.made = self.made.saturating_add(1);
        self.in_a_row = if core == self.last {
            self.in_a_row.saturating_add(1)
        } else {
            1
        };
        self.last = core;
        core
    }

    // The core of the highest priority that has not stopped.
    fn highest(&self, going: &Going) -> u8 {
        for core in self.order.as_slice() {
            if going.contains(*core) {
                return *core;
            }
        }
        0
    }

    // The core of the step before falls behind all others.
    fn fall(&mut self)
        ensures { self.new.most ≡ self.old.most }
    {
        self.in_a_row = 0;
        if let Some(index) = index_of(self.order.as_slice(), self.last) {
            let core = self.order.remove(index);
            let _ = self.order.try_push(core);
        }
    }
}

// The steps at which a core falls, 1 to 3 of them, each from 1 to a length.
#[tactic(auto, using(crate::proofs::Falls::falls_more))]
fn falls_drawn(chance: &mut Chance, length: u32) -> ArrayVec<u32, MOST_FALLS>
    requires { 0 < length }
    ensures { (result.items, words_of chance.new) ≡ falls_drawn length (words_of chance.old) }
{
    let count = 1 + chance.below(MOST_FALLS as u32);
    let mut falls = ArrayVec::new();
    'falls: for made in 0..count {
        falls.push(1 + chance.below(length));
    }
    falls
}

/// The cores in an order by chance.
pub fn shuffled(chance: &mut Chance, going: &Going) -> ArrayVec<u8, 64>
    ensures same { IsPermutation going.now result.items }
    ensures drawn { (result.items, words_of chance.new) ≡ shuffled going.now 0 (words_of chance.old) }
{
    let mut order = ArrayVec::new();
    // There is room for all.
    let _ = order.try_extend_from_slice(going.as_slice());
    chance.shuffle(order.as_mut_slice());
    order
}
