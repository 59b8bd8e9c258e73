//! A machine that is taken back before its first step by the lines of memory that may have changed.
//!
//! [`Machine::reopen_lines`] writes these lines from an opening memory that the caller keeps, and the cores as
//! `reopen` does. Which lines have changed is not found out here: a line that is not listed stays as it is.

ghost use Rattle.std.specs.Prelude.{◌≡◌, ◌/◌, ◌<◌, ◌≤◌, ℕ, None, length, slice_index};
ghost use Rattle.ia_image.specs.Program.{opening_memory as memory_of};
ghost use Rattle.tm_model.specs.State.{opening_state};
ghost use Rattle.tm_core.specs.Reopening.{IsSameElsewhere};
ghost use Rattle.tm_core.specs.Theorem.{SameMachine, StandsFor};

use crate::machine::Machine;
use crate::reopen::reopen_cpus;
use crate::store_rows::empty_rows;
use crate::unbuffered::Unbuffered;
use ia_image::Program;
use tm_sets::Sets;

// Where a line of 64 bytes ends in memory of this size.
fn end_of(line: u32, size: usize) -> usize
    ensures within { result ≤ size }
    ensures all { (address : ℕ) → address / 64 ≡ line → address < size → address < result }
{
    let end = line as usize * 64 + 64;
    if end < size { end } else { size }
}

// Writes a line as it was.
fn reopen_line(memory: &mut [u8], opening: &[u8], line: u32)
    requires { length memory.old ≡ length opening.now }
    ensures count { length memory.new ≡ length memory.old }
    ensures here { (address : ℕ) → address / 64 ≡ line →
        slice_index memory.new address ≡ slice_index opening.now address }
    ensures kept { (address : ℕ) → slice_index memory.old address ≡ slice_index opening.now address →
        slice_index memory.new address ≡ slice_index opening.now address }
{
    let start = line as usize * 64;
    let end = end_of(line, memory.len());
    for at in start..end {
        memory[at] = opening[at];
    }
}

/// Writes these lines as they were.
pub fn reopen_each(memory: &mut [u8], opening: &[u8], lines: &[u32])
    requires { IsSameElsewhere lines.now memory.old opening.now }
    ensures { memory.new ≡ opening.now }
{
    for line in lines {
        reopen_line(memory, opening, *line);
    }
}

impl<S: Sets> Machine<S> {
    /// The same as [`Machine::reopen`] where memory is as the program's image makes it but on some lines of 64 bytes:
    /// it takes time for these lines, and for the lines of the cores' sets, whatever the size of memory. Asked with
    /// memory as the image makes it (see [`opening_memory`](crate::opening_memory)).
    pub fn reopen_lines(&mut self, program: &Program, opening: &[u8], lines: &[u32])
        requires cores { length self.old.views ≡ length program.now.entries }
        requires opening { opening.now ≡ memory_of program.now }
        requires elsewhere { IsSameElsewhere lines.now self.old.memory opening.now }
        ensures opening { StandsFor self.new (opening_state program.now) (λ _. None) }
        ensures same { SameMachine self.old self.new }
    {
        self.unbuffered.reopen_lines(program, opening, lines);
        empty_rows(&mut self.pending);
        self.unbuffered.nothing_pending();
    }
}

impl<S: Sets> Unbuffered<S> {
    /// [`Machine::reopen_lines`] of a machine without store buffers.
    pub(crate) fn reopen_lines(&mut self, program: &Program, opening: &[u8], lines: &[u32])
        requires cores { length self.old.views ≡ length program.now.entries }
        requires opening { opening.now ≡ memory_of program.now }
        requires elsewhere { IsSameElsewhere lines.now self.old.memory opening.now }
        ensures opening { StandsFor self.new (opening_state program.now) (λ _. None) }
        ensures same { SameMachine self.old self.new }
    {
        reopen_each(&mut self.memory, opening, lines);
        reopen_cpus(&mut self.cpus, &mut self.sets, program);
        self.busy = false;
    }
}
