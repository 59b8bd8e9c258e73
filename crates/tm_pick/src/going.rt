//! The cores that have not stopped, in the order of their numbers.
//!
//! No machine is looked at here: who makes the steps takes a core out with [`Going::remove`] when it has stopped. A
//! core is asked for only while one is left. What picks may hold cores that have stopped since, and asks
//! [`Going::contains`].

ghost use Rattle.std.specs.Prelude.{◌≡◌, ◌≢◌, ◌↔◌, ◌<◌, ◌≤◌, All, AllPairs, Contains, IfNone, IfSome, IsTrue, ℕ, List};
ghost use Rattle.std.specs.Prelude.{length, slice_index};
ghost use Rattle.std.specs.List.{range_with_len};
ghost use Rattle.tm_pick.specs.Turns.{IsInTurn, IsNextFrom};

use arrayvec::ArrayVec;
use std::marker::Model;

/// The numbers of the cores that have not stopped, at most 64.
#[derive(Drop)]
pub struct Going {
    // In their order.
    cores: ArrayVec<u8, 64>,
}

impl Model for Going {
    ghost use Rattle.std.specs.Prelude.{◌<◌, AllPairs, ℕ, List};

    ghost Value = { List ℕ };

    ghost view = { λ going. going.cores.items };

    ghost invariant = { λ going. AllPairs (λ core other. core < other) going.cores.items };
}

impl Going {
    /// The cores below a number.
    pub fn all(count: u8) -> Going
        requires { count ≤ 64 }
        ensures count { length result ≡ count }
        ensures below { All (λ core. core < count) result }
        ensures each { (core : ℕ) → core < count → Contains result core }
        ensures whole { result ≡ range_with_len 0 count }
    {
        let mut cores = ArrayVec::new();
        for core in 0..count {
            cores.push(core);
        }
        Going { cores }
    }

    /// The cores, in the order of their numbers.
    pub fn as_slice(&self) -> &[u8]
        ensures value { result.now ≡ self.now }
        ensures most { length result.now ≤ 64 }
    {
        self.cores.as_slice()
    }

    /// How many cores there are.
    pub fn len(&self) -> usize
        ensures len { result ≡ length self.now }
        ensures most { result ≤ 64 }
    {
        self.cores.as_slice().len()
    }

    /// Whether all cores have stopped.
    pub fn is_empty(&self) -> bool
        ensures { IsTrue result ↔ (length self.now ≡ 0) }
    {
        self.len() == 0
    }

    /// Whether a core has not stopped.
    pub fn contains(&self, core: u8) -> bool
        ensures { IsTrue result ↔ Contains self.now core }
    {
        self.cores.as_slice().contains(&core)
    }

    /// The core with this index, counted from 0 in the order of their numbers.
    pub fn at(&self, index: usize) -> u8
        requires { index < length self.now }
        ensures among { Contains self.now result }
        ensures value { result ≡ slice_index self.now index }
    {
        self.cores.as_slice()[index]
    }

    /// This core, or the next one behind it round by round that has not stopped.
    pub fn from(&self, core: u8) -> u8
        requires { 0 < length self.now }
        ensures among { Contains self.now result }
        ensures next { IsNextFrom core self.now result }
    {
        self.next_from(u32::from(core))
    }

    /// The core whose turn it is behind the one that stepped last, round by round, or at first where none has stepped.
    pub fn in_turn(&self, last: Option<u8>) -> u8
        requires { 0 < length self.now }
        ensures { IsInTurn last self.now result }
    {
        match last {
            Some(core) => self.next_from(u32::from(core) + 1),
            None => self.next_from(0),
        }
    }

    // The first core from a number on, and the first of all where there is none.
    fn next_from(&self, number: u32) -> u8
        requires { 0 < length self.now }
        ensures among { Contains self.now result }
        ensures next { IsNextFrom number self.now result }
    {
        let cores = self.cores.as_slice();
        match index_from(cores, number) {
            Some(index) => cores[index],
            None => cores[0],
        }
    }

    /// Takes out a core that has stopped.
    pub fn remove(&mut self, core: u8)
        ensures below { (count : ℕ) → All (λ core. core < count) self.old → All (λ core. core < count) self.new }
        ensures others { (other : ℕ) → Contains self.new other ↔ (Contains self.old other × (other ≢ core)) }
    {
        if let Some(index) = index_of(self.cores.as_slice(), core) {
            let _ = self.cores.remove(index);
        }
    }
}

// Where the first core from a number on stands in a list.
fn index_from(cores: &[u8], number: u32) -> Option<usize>
    ensures within { IfSome result (λ index. index < length cores.now) }
    ensures found { IfSome result (λ index. number ≤ slice_index cores.now index) }
    ensures before { IfSome result (λ index. (k : ℕ) → k < index → slice_index cores.now k < number) }
    ensures none { IfNone result ((k : ℕ) → k < length cores.now → slice_index cores.now k < number) }
{
    for index in 0..cores.len() {
        if u32::from(cores[index]) >= number {
            return Some(index);
        }
    }
    None
}

/// Where a core stands in a list.
pub fn index_of(cores: &[u8], core: u8) -> Option<usize>
    ensures within { IfSome result (λ index. index < length cores.now) }
    ensures there { IfSome result (λ index. slice_index cores.now index ≡ core) }
    ensures none { IfNone result ((k : ℕ) → k < length cores.now → slice_index cores.now k ≢ core) }
{
    for index in 0..cores.len() {
        if cores[index] == core {
            return Some(index);
        }
    }
    None
}
