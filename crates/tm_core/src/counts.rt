//! How large the sets of a core are: [`Machine::counts`].
//!
//! It looks at the sets as they are, and plans no step. Their lines are told by [`Machine::sets`].

ghost use Rattle.std.specs.Prelude.{◌≡◌, ◌<◌, length, IfOk, IsOk, ◌↔◌};
ghost use Rattle.std.specs.FinSet as set;
ghost use Rattle.tm_core.specs.Theorem.{view_at};

use crate::fault::NoSuchCore;
use crate::machine::Machine;
use crate::unbuffered::Unbuffered;
use tm_model::Counts;
use tm_sets::{Kind, Sets};

impl<S: Sets> Machine<S> {
    /// How many lines the read set and the write set of a core have: none where it is condemned or outside a
    /// transaction. `NoSuchCore` (42). Takes no memory, and no time for each line.
    pub fn counts(&self, core: u8) -> Result<Counts, NoSuchCore>
        ensures exists { IsOk result ↔ (core < length self.now.views) }
        ensures reads { IfOk result (λ counts. counts.reads ≡ set.len (view_at self.now core).reads) }
        ensures writes { IfOk result (λ counts. counts.writes ≡ set.len (view_at self.now core).writes) }
    {
        self.unbuffered.counts(core)
    }
}

impl<S: Sets> Unbuffered<S> {
    /// [`Machine::counts`] of a machine without store buffers.
    pub(crate) fn counts(&self, core: u8) -> Result<Counts, NoSuchCore>
        ensures exists { IsOk result ↔ (core < length self.now.views) }
        ensures reads { IfOk result (λ counts. counts.reads ≡ set.len (view_at self.now core).reads) }
        ensures writes { IfOk result (λ counts. counts.writes ≡ set.len (view_at self.now core).writes) }
    {
        if core >= self.cores() {
            return Err(NoSuchCore);
        }
        Ok(Counts {
            reads: self.sets.count(core, Kind::Read),
            writes: self.sets.count(core, Kind::Write),
        })
    }
}
