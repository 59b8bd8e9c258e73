//! Whether two machines show a core alike: [`Machine::is_core_alike`], and [`Machine::is_pending_alike`].
//!
//! What the core is doing and its registers before a transaction are compared first; of the rest only what that
//! makes it show: the kept value between two steps, and in a transaction the registers now, the bytes and the
//! lines. Memory and the other cores are not compared here, and the stores that are pending by a call of their own.

ghost use Rattle.std.specs.Prelude.{◌≡◌, ◌↔◌, ◌<◌, IsTrue, length};
ghost use Rattle.tm_model.specs.Setting.{Setting};
ghost use Rattle.tm_sets.specs.declared.interface.Kind.{Kind};
ghost use Rattle.tm_core.specs.Representation.{Sane, cpu_view};
ghost use Rattle.tm_core.specs.Theorem.{pending_at, view_at};

use crate::cpu::Cpu;
use crate::machine::Machine;
use crate::unbuffered::Unbuffered;
use ia_exec::Store;
use tm_model::CoreState;
use tm_sets::Sets;

// Whether a core's open transaction has the same registers, bytes and lines.
fn is_body_alike<S: Sets>(cpu: &Cpu, sets: &S, twin: &Cpu, twin_sets: &S, core: u8) -> bool
    requires here { core < (S.content sets.now).fixed.cores }
    requires there { core < (S.content twin_sets.now).fixed.cores }
    ensures { IsTrue result ↔ ((cpu.now.regs ≡ twin.now.regs) × (cpu.now.buffer.bytes ≡ twin.now.buffer.bytes)
        × ((kind : Kind) → (S.content sets.now).lines core kind ≡ (S.content twin_sets.now).lines core kind)) }
{
    cpu.regs == twin.regs && cpu.buffer.is_same(&twin.buffer) && sets.is_same(twin_sets, core)
}

// Whether a core is shown alike by its parts and by those of another machine.
fn is_alike<S: Sets>(cpu: &Cpu, sets: &S, twin: &Cpu, twin_sets: &S, core: u8) -> bool
    requires here { core < (S.content sets.now).fixed.cores }
    requires there { core < (S.content twin_sets.now).fixed.cores }
    ensures { (first second : Setting) →
        Sane first (cpu_view (S.content sets.now) core cpu.now) cpu.now.state →
        Sane second (cpu_view (S.content twin_sets.now) core twin.now) twin.now.state →
        (IsTrue result ↔ (cpu_view (S.content sets.now) core cpu.now
        ≡ cpu_view (S.content twin_sets.now) core twin.now)) }
{
    if cpu.state != twin.state || cpu.base != twin.base {
        return false;
    }
    // Where a core does not show `regs` or `kept`, they may differ.
    match cpu.state {
        CoreState::Running | CoreState::Condemned(_) | CoreState::Stopped(_) => true,
        CoreState::Mid => cpu.kept == twin.kept,
        CoreState::Open(_) => is_body_alike(cpu, sets, twin, twin_sets, core),
    }
}

impl<S: Sets> Machine<S> {
    /// Whether another machine shows a core as this one does: what it is doing, its registers before its transaction
    /// and now, the value between the two steps of an instruction, and the bytes and the lines of its transaction.
    /// Its stores that are pending are not compared. Takes no memory; the time is that of the transaction's lines.
    pub fn is_core_alike(&self, other: &Machine<S>, core: u8) -> bool
        requires here { core < length self.now.views }
        requires there { core < length other.now.views }
        ensures { IsTrue result ↔ (view_at self.now core ≡ view_at other.now core) }
    {
        self.unbuffered.is_core_alike(&other.unbuffered, core)
    }

    /// Whether the same stores of a core are pending in another machine, in the same order. Of a core that there is not
    /// none are pending. Takes no memory.
    pub fn is_pending_alike(&self, other: &Machine<S>, core: u8) -> bool
        ensures { IsTrue result ↔ (pending_at self.now core ≡ pending_at other.now core) }
    {
        are_same(self.pending_of(core), other.pending_of(core))
    }
}

// Whether these are the same stores, in the same order.
fn are_same(these: &[Store], those: &[Store]) -> bool
    ensures { IsTrue result ↔ (these.now ≡ those.now) }
{
    if these.len() != those.len() {
        return false;
    }
    for index in 0..these.len() {
        if these[index] != those[index] {
            return false;
        }
    }
    true
}

impl<S: Sets> Unbuffered<S> {
    /// [`Machine::is_core_alike`] of machines without store buffers.
    pub(crate) fn is_core_alike(&self, other: &Unbuffered<S>, core: u8) -> bool
        requires here { core < length self.now.views }
        requires there { core < length other.now.views }
        ensures { IsTrue result ↔ (view_at self.now core ≡ view_at other.now core) }
    {
        let index = usize::from(core);
        let (cpus, twins) = (self.cpus.as_slice(), other.cpus.as_slice());
        is_alike(&cpus[index], &self.sets, &twins[index], &other.sets, core)
    }
}
