//! A machine that becomes as another one of the same program is.
//!
//! A core's transaction comes with its lines and bytes. Its lines get slots of this machine's sets, so that the two may
//! have written the same lines in another order.

ghost use Rattle.std.specs.Prelude.{◌≡◌, ◌+◌, ◌<◌, ◌≤◌, ℕ, IsTrue, Some, false, length, map, slice_index, take};
ghost use Rattle.tm_buffer.specs.Buffer.{IsPartOf};
ghost use Rattle.tm_model.specs.Conflicts.{Doomed};
ghost use Rattle.tm_model.specs.State.{State};
ghost use Rattle.tm_core.specs.Copying.{IsWritten};
ghost use Rattle.tm_core.specs.Reopening.{IsSameElsewhere};
ghost use Rattle.tm_core.specs.Representation.{Elsewhere, IsHeld, cpu_at, cpu_view, cpu_views, kept_at, kept_of};
ghost use Rattle.tm_core.specs.Theorem.{SameMachine, StandsFor};
ghost use Rattle.tm_core.specs.Types.{Write};

use crate::cpu::Cpu;
use crate::machine::Machine;
use crate::reopen_lines::reopen_each;
use crate::store_rows::copy_rows;
use crate::unbuffered::Unbuffered;
use tm_buffer::Buffer;
use tm_sets::Sets;

// Takes over the line at a place of another buffer, with the slot that the sets tell of it.
fn copy_line<S: Sets>(buffer: &mut Buffer, twin: &Buffer, sets: &S, core: u8, place: u32)
    requires core { core < (S.content sets.now).fixed.cores }
    requires room { buffer.old.room ≡ (S.content sets.now).fixed.room Write }
    requires place { place < length twin.now.order }
    requires line { IsWritten (S.content sets.now) core (slice_index twin.now.order place) }
    requires order { buffer.old.order ≡ take place twin.now.order }
    requires part { IsPartOf buffer.old twin.now }
    requires slots { map ((S.content sets.now).slots core) buffer.old.order ≡ map Some buffer.old.slots }
    ensures order { buffer.new.order ≡ take (place + 1) twin.now.order }
    ensures part { IsPartOf buffer.new twin.now }
    ensures slots { map ((S.content sets.now).slots core) buffer.new.order ≡ map Some buffer.new.slots }
    ensures room { buffer.new.room ≡ buffer.old.room }
{
    let Some(slot) = sets.slot(core, twin.line_at(place)) else {
        unreachable!();
    };
    buffer.copy_next(twin, slot);
}

// The bytes of another buffer, whose lines the core has written.
fn copy_buffer<S: Sets>(buffer: &mut Buffer, twin: &Buffer, sets: &S, core: u8)
    requires core { core < (S.content sets.now).fixed.cores }
    requires room { buffer.old.room ≡ (S.content sets.now).fixed.room Write }
    requires lines { (place : ℕ) → place < length twin.now.order →
        IsWritten (S.content sets.now) core (slice_index twin.now.order place) }
    ensures bytes { buffer.new.bytes ≡ twin.now.bytes }
    ensures order { buffer.new.order ≡ twin.now.order }
    ensures slots { map ((S.content sets.now).slots core) buffer.new.order ≡ map Some buffer.new.slots }
    ensures room { buffer.new.room ≡ buffer.old.room }
{
    buffer.clear();
    for place in 0..twin.lines() {
        copy_line(buffer, twin, sets, core, place);
    }
}

// Of a core what another one is.
fn copy_core<S: Sets>(cpu: &mut Cpu, sets: &mut S, twin: &Cpu, twin_sets: &S, core: u8)
    requires core { core < (S.content sets.old).fixed.cores }
    requires alike { (S.content twin_sets.now).fixed ≡ (S.content sets.old).fixed }
    requires room { cpu.old.buffer.room ≡ (S.content sets.old).fixed.room Write }
    requires lines { (place : ℕ) → place < length twin.now.buffer.order →
        IsWritten (S.content twin_sets.now) core (slice_index twin.now.buffer.order place) }
    requires held { IsHeld ((S.content twin_sets.now).fixed.room Write)
        (kept_of (S.content twin_sets.now) core twin.now) }
    ensures view { cpu_view (S.content sets.new) core cpu.new ≡ cpu_view (S.content twin_sets.now) core twin.now }
    ensures held { IsHeld ((S.content sets.new).fixed.room Write) (kept_of (S.content sets.new) core cpu.new) }
    ensures elsewhere { Elsewhere (S.content sets.old) (S.content sets.new) core }
{
    // The sets first: they tell the slots that the buffer's lines get.
    sets.copy_core(twin_sets, core);
    copy_buffer(&mut cpu.buffer, &twin.buffer, sets, core);
    cpu.base = twin.base;
    cpu.regs = twin.regs;
    cpu.state = twin.state;
    cpu.kept = twin.kept;
}

// Of each core what another machine's is.
fn copy_cores<S: Sets>(cpus: &mut [Cpu], sets: &mut S, twins: &[Cpu], twin_sets: &S)
    requires cores { length cpus.old ≡ length twins.now }
    requires few { length cpus.old ≤ 64 }
    requires known { length cpus.old ≤ (S.content sets.old).fixed.cores }
    requires alike { (S.content twin_sets.now).fixed ≡ (S.content sets.old).fixed }
    requires rooms { (i : ℕ) → i < length cpus.old →
        (cpu_at cpus.old i).buffer.room ≡ (S.content sets.old).fixed.room Write }
    requires lines { (i place : ℕ) → i < length twins.now → place < length (cpu_at twins.now i).buffer.order →
        IsWritten (S.content twin_sets.now) i (slice_index (cpu_at twins.now i).buffer.order place) }
    requires held { (i : ℕ) → i < length twins.now →
        IsHeld ((S.content twin_sets.now).fixed.room Write) (kept_at (S.content twin_sets.now) twins.now i) }
    ensures views { (i : ℕ) → i < length cpus.old →
        cpu_views (S.content sets.new) cpus.new i ≡ cpu_views (S.content twin_sets.now) twins.now i }
    ensures held { (i : ℕ) → i < length cpus.old →
        IsHeld ((S.content sets.new).fixed.room Write) (kept_at (S.content sets.new) cpus.new i) }
    ensures fixed { (S.content sets.new).fixed ≡ (S.content sets.old).fixed }
{
    for core in 0..cpus.len() {
        copy_core(&mut cpus[core], sets, &twins[core], twin_sets, core as u8);
    }
}

impl<S: Sets> Machine<S> {
    /// Becomes as another machine of the same program is: its memory, where the two may differ on some lines of 64
    /// bytes, and its cores with their transactions and their stores that are pending. False, and nothing changed,
    /// where the two were made over sets of other sizes. Takes no memory; the time is that of these lines and of the
    /// lines of the cores' sets, whatever the size of memory.
    pub fn copy_lines(&mut self, other: &Machine<S>, lines: &[u32]) -> bool
        requires same { SameMachine self.old other.now }
        requires elsewhere { IsSameElsewhere lines.now self.old.memory other.now.memory }
        ensures same { SameMachine self.old self.new }
        ensures memory { IsTrue result → self.new.memory ≡ other.now.memory }
        ensures views { IsTrue result → self.new.views ≡ other.now.views }
        ensures pending { IsTrue result → self.new.pending ≡ other.now.pending }
        ensures stands { IsTrue result → (state : State) (doomed : Doomed) → StandsFor other.now state doomed →
            StandsFor self.new state doomed }
        ensures none { result ≡ false → self.new ≡ self.old }
    {
        if !self.unbuffered.copy_lines(&other.unbuffered, lines) {
            return false;
        }
        self.unbuffered.nothing_pending();
        copy_rows(&mut self.pending, other.pending.as_slice());
        true
    }
}

impl<S: Sets> Unbuffered<S> {
    /// [`Machine::copy_lines`] of a machine without store buffers.
    pub(crate) fn copy_lines(&mut self, other: &Unbuffered<S>, lines: &[u32]) -> bool
        requires same { SameMachine self.old other.now }
        requires elsewhere { IsSameElsewhere lines.now self.old.memory other.now.memory }
        ensures same { SameMachine self.old self.new }
        ensures memory { IsTrue result → self.new.memory ≡ other.now.memory }
        ensures views { IsTrue result → self.new.views ≡ other.now.views }
        ensures pending { IsTrue result → self.new.pending ≡ other.now.pending }
        ensures stands { IsTrue result → (state : State) (doomed : Doomed) → StandsFor other.now state doomed →
            StandsFor self.new state doomed }
        ensures none { result ≡ false → self.new ≡ self.old }
    {
        if !self.sets.is_like(&other.sets) {
            return false;
        }
        reopen_each(&mut self.memory, &other.memory, lines);
        copy_cores(&mut self.cpus, &mut self.sets, &other.cpus, &other.sets);
        self.busy = other.busy;
        true
    }
}
