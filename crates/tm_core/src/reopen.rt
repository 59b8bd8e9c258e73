//! A machine that is taken back before its first step, in place of a new one: [`Machine::reopen`].
//!
//! All of memory is written, then each core, whose lines are given up; the code, its rows and the limits stay, and
//! no memory is asked for. That the program is the machine's own is for the caller to see to. Where the changed
//! lines are known, `reopen_lines` takes less time.

ghost use Rattle.std.specs.Prelude.{◌≡◌, ◌<◌, ◌≤◌, ℕ, None, length};
ghost use Rattle.std.specs.FinSet as set;
ghost use Rattle.ia_image.specs.Program.{opening_memory as memory_of};
ghost use Rattle.tm_model.specs.State.{opening_state};
ghost use Rattle.tm_sets.specs.declared.interface.Kind as AnyKind;
ghost use Rattle.tm_core.specs.Machine.{IsStart};
ghost use Rattle.tm_core.specs.Representation.{cpu_at};
ghost use Rattle.tm_core.specs.Theorem.{SameMachine, StandsFor};

use crate::cpu::Cpu;
use crate::machine::Machine;
use crate::start::start_regs;
use crate::store_rows::empty_rows;
use crate::unbuffered::Unbuffered;
use ia_image::Program;
use tm_model::CoreState;
use tm_sets::Sets;

// Memory before the first step: the image at its base, and zeros.
fn reopen_memory(memory: &mut [u8], program: &Program)
    requires { length memory.old ≡ program.now.mem_size }
    ensures { memory.new ≡ memory_of program.now }
{
    let image = program.bytes();
    let (front, rest) = memory.split_at_mut(program.base() as usize);
    let (middle, back) = rest.split_at_mut(image.len());
    front.fill(0);
    middle.copy_from_slice(image);
    back.fill(0);
}

// A core before its first step, with as much room in its buffer as it had.
fn reopen_cpu(cpu: &mut Cpu, program: &Program, core: u8)
    requires { core < length program.now.entries }
    ensures { IsStart program.now cpu.old.buffer.room core cpu.new }
{
    let regs = start_regs(program, core);
    cpu.base = regs;
    cpu.regs = regs;
    cpu.state = CoreState::Running;
    cpu.kept = 0;
    cpu.buffer.clear();
}

/// All cores before their first steps, with no line in their sets.
pub fn reopen_cpus<S: Sets>(cpus: &mut [Cpu], sets: &mut S, program: &Program)
    requires cores { length cpus.old ≡ length program.now.entries }
    requires known { length cpus.old ≤ (S.content sets.old).fixed.cores }
    ensures starts { (i : ℕ) → i < length cpus.old →
        IsStart program.now (cpu_at cpus.old i).buffer.room i (cpu_at cpus.new i) }
    ensures empty { (i : ℕ) (kind : AnyKind.Kind) → i < length cpus.old →
        (S.content sets.new).lines i kind ≡ set.empty }
    ensures fixed { (S.content sets.new).fixed ≡ (S.content sets.old).fixed }
{
    for core in 0..program.cores() {
        reopen_cpu(&mut cpus[usize::from(core)], program, core);
        sets.clear(core);
    }
}

impl<S: Sets> Machine<S> {
    /// Takes the machine back before its first step: memory as the program's image makes it, and each core at its
    /// entry, in no transaction. The code and the limits stay as they are, so that a machine that was opened with this
    /// program is then as [`Machine::new`] left it. Asked for a program with as many cores and bytes of memory as the
    /// machine has. Takes no memory, and looks at no line of the sets that no core has.
    pub fn reopen(&mut self, program: &Program)
        requires cores { length self.old.views ≡ length program.now.entries }
        requires size { length self.old.memory ≡ program.now.mem_size }
        ensures opening { StandsFor self.new (opening_state program.now) (λ _. None) }
        ensures same { SameMachine self.old self.new }
    {
        self.unbuffered.reopen(program);
        empty_rows(&mut self.pending);
        self.unbuffered.nothing_pending();
    }
}

impl<S: Sets> Unbuffered<S> {
    /// [`Machine::reopen`] of a machine without store buffers.
    pub(crate) fn reopen(&mut self, program: &Program)
        requires cores { length self.old.views ≡ length program.now.entries }
        requires size { length self.old.memory ≡ program.now.mem_size }
        ensures opening { StandsFor self.new (opening_state program.now) (λ _. None) }
        ensures same { SameMachine self.old self.new }
    {
        reopen_memory(&mut self.memory, program);
        reopen_cpus(&mut self.cpus, &mut self.sets, program);
        self.busy = false;
    }
}
