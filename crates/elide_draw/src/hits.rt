//! Whom a step hits, asked before it is made: rows that are filled in place, since they are long.
//!
//! [`Hits::ask`] is told the preview of the step, and [`Hits::ask_drain`] of which core a store may reach memory in its
//! place; each where the picture shows lines. [`Hits::none`] leaves a row as one that was not asked for.

ghost use Rattle.tm_core.specs.Previewed.{IsPreview};

use tm_core::{Machine, Preview};
use tm_model::Hit;

/// The most cores of a machine.
const CORES: usize = 64;

/// How a step hits each core, where that was asked for and it may hit one.
#[derive(Drop)]
pub struct Hits {
    row: [Option<Hit>; CORES],
    // Whether the row is that of the step.
    is_asked: bool,
}

impl Hits {
    /// Of no step yet.
    pub fn new() -> Hits {
        Hits {
            row: [None; CORES],
            is_asked: false,
        }
    }

    /// Of a step that is not asked for.
    pub fn none(&mut self) {
        self.is_asked = false;
    }

    /// Asks how the previewed step hits each core; where it hits nobody, nothing is filled.
    pub fn ask(&mut self, machine: &Machine, preview: &Preview)
        requires { IsPreview machine.now preview.now }
    {
        self.is_asked = machine.may_hit(preview);
        if self.is_asked {
            fill(&mut self.row, machine, preview);
        }
    }

    /// Asks how the oldest pending store of a core hits each core, if it reaches memory now; where none is pending,
    /// nothing is filled. Where none may be, this is not asked for.
    pub fn ask_drain(&mut self, machine: &Machine, core: u8) {
        self.is_asked = !machine.pending(core).unwrap_or(&[]).is_empty();
        if self.is_asked {
            fill_drain(&mut self.row, machine, core);
        }
    }

    /// Whether the step may hit a core, as far as that was asked for.
    pub fn are_some(&self) -> bool {
        self.is_asked
    }

    /// How the step hits a core, where that was asked for.
    pub fn on(&self, victim: u8) -> Option<Hit> {
        if self.is_asked && victim < 64 {
            self.row[usize::from(victim)]
        } else {
            None
        }
    }
}

// How the previewed step hits each core.
fn fill(row: &mut [Option<Hit>; CORES], machine: &Machine, preview: &Preview)
    requires { IsPreview machine.now preview.now }
{
    for victim in 0..machine.cores() {
        row[usize::from(victim)] = machine.hit_by(preview, victim).unwrap();
    }
}

// How the drain of a core hits each core.
fn fill_drain(row: &mut [Option<Hit>; CORES], machine: &Machine, core: u8) {
    for victim in 0..machine.cores() {
        row[usize::from(victim)] = machine.hit_by_drain(core, victim).unwrap_or(None);
    }
}
