//! Which cores are drawn, a row each, in the order in which they are asked for: at most 64.

ghost use Rattle.std.specs.Prelude.{◌≤◌};

use arrayvec::ArrayVec;

/// The most cores of a machine, and so of rows.
pub const MOST_CORES: usize = 64;

/// The cores that are drawn, a row each, from above; at most 64.
#[derive(Drop)]
pub struct Rows {
    cores: ArrayVec<u8, MOST_CORES>,
}

impl Rows {
    /// No cores.
    pub fn new() -> Rows {
        Rows {
            cores: ArrayVec::new(),
        }
    }

    /// The cores below a number, of which the first 64 are drawn.
    pub fn all(count: u8) -> Rows {
        let mut rows = Rows::new();
        for core in 0..count {
            let _ = rows.add(core);
        }
        rows
    }

    /// Adds a row below the others. Answers whether it did: not where the core is drawn, and not beside 64 others.
    pub fn add(&mut self, core: u8) -> bool {
        self.row_of(core).is_none() && self.cores.try_push(core).is_ok()
    }

    /// The core of a row, counted from 0.
    pub fn core(&self, row: u8) -> Option<u8> {
        self.cores.as_slice().get(usize::from(row)).copied()
    }

    /// How many rows there are.
    pub fn count(&self) -> u8
        ensures { result ≤ 64 }
    {
        self.cores.as_slice().len() as u8
    }

    /// The row of a core, counted from 0.
    pub fn row_of(&self, core: u8) -> Option<u8> {
        for row in 0..self.count() {
            if self.core(row) == Some(core) {
                return Some(row);
            }
        }
        None
    }
}
