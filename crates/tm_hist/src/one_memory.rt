//! The run of a history on one flat memory, without buffers, sets or marks: [`serial`].
//!
//! Memory and the cores are made first, as before the first step; then each pair is a step of its core (`step`),
//! and the first that is none ends the run with its index. No board is asked: whatever list comes in, it is a run
//! or it is refused. No store is pending here, and a drain is refused: with store buffers the run is that of
//! `store_buffers`.

ghost use Rattle.std.specs.Prelude.{◌≡◌, ◌⊎◌, ◌-◌, ◌≤◌, ◌<◌, [], ◌∷◌, ◌++◌, length, map, Some, IfOk, OnOk};
ghost use Rattle.std.specs.Prelude.{IfErr};
ghost use Rattle.std.specs.List.{AllByRecursion, range_with_len};
ghost use Rattle.ia_image.specs.Program.{opening_memory};
ghost use Rattle.tm_hist.specs.History.{pair_of, pairs_of};
ghost use Rattle.tm_hist.specs.Replay.{IsRefused, IsReplay};
ghost use Rattle.tm_hist.specs.Serial.{ListStuck, core_of, first_core, flat_setting, list_run, steps_of};

use crate::history::{History, Steps};
use crate::pair::Pair;
use crate::replay::{Serial, SerialFault};
use crate::serial_core::SerialCore;
use crate::step::step;
use ia_image::Program;
use std::alloc::Global;
use tm_core::start_regs;
use tm_model::Outcome;
use tm_quick::Listing;
use tm_rule::Code;

// Runs the steps of a board; where that fails, the index of the first at which they are no run.
fn run_made(
    listing: &Listing<'_>,
    size: u32,
    memory: &mut [u8],
    cores: &mut [SerialCore],
    pairs: &[Pair],
) -> Result<(), usize>
    requires size { length memory.old ≡ size }
    requires closed { AllByRecursion (λ c. steps_of c ≤ 0) cores.old }
    ensures ok { OnOk result (list_run (flat_setting listing.now.code size) memory.old (map core_of cores.old)
        (map pair_of pairs.now) ≡ Some (memory.new, map core_of cores.new)) }
    ensures err { IfErr result (λ i. ListStuck (flat_setting listing.now.code size) memory.old (map core_of cores.old)
        (map pair_of pairs.now) i) }
{
    'pairs: for index in 0..pairs.len() {
        if !step(listing, size, memory, cores, &pairs[index]) {
            return Err(index);
        }
    }
    Ok(())
}

// [`run_made`] of steps that were given, each packed when its turn comes.
fn run_given(
    listing: &Listing<'_>,
    size: u32,
    memory: &mut [u8],
    cores: &mut [SerialCore],
    pairs: &[(u8, Outcome)],
) -> Result<(), usize>
    requires size { length memory.old ≡ size }
    requires closed { AllByRecursion (λ c. steps_of c ≤ 0) cores.old }
    ensures ok { OnOk result (list_run (flat_setting listing.now.code size) memory.old (map core_of cores.old)
        pairs.now ≡ Some (memory.new, map core_of cores.new)) }
    ensures err { IfErr result (λ i. ListStuck (flat_setting listing.now.code size) memory.old (map core_of cores.old)
        pairs.now i) }
{
    'pairs: for index in 0..pairs.len() {
        let (core, outcome) = pairs[index];
        if !step(listing, size, memory, cores, &Pair::new(core, outcome)) {
            return Err(index);
        }
    }
    Ok(())
}

// Runs a history; where that fails, the index of the first pair at which it is no run.
fn run_history(
    listing: &Listing<'_>,
    size: u32,
    memory: &mut [u8],
    cores: &mut [SerialCore],
    history: History<'_>,
) -> Result<(), usize>
    requires size { length memory.old ≡ size }
    requires closed { AllByRecursion (λ c. steps_of c ≤ 0) cores.old }
    ensures ok { OnOk result (list_run (flat_setting listing.now.code size) memory.old (map core_of cores.old)
        (pairs_of history.entry) ≡ Some (memory.new, map core_of cores.new)) }
    ensures err { IfErr result (λ i. ListStuck (flat_setting listing.now.code size) memory.old (map core_of cores.old)
        (pairs_of history.entry) i) }
{
    match history.steps() {
        Steps::Given(pairs) => run_given(listing, size, memory, cores, pairs),
        Steps::Made(pairs) => run_made(listing, size, memory, cores, pairs),
    }
}

/// The cores before the first step.
pub fn first_cores(alloc: Global, program: &Program) -> Result<Vec<SerialCore>, SerialFault>
    ensures ok { IfOk result (λ cores. cores.items ≡ map (first_core program.now)
        (range_with_len 0 (length program.now.entries))) }
    ensures err { IfErr result (λ fault. fault ≡ SerialFault.NoMemory) }
{
    let mut cores = Vec::with_capacity(alloc, 16)?;
    'cores: for core in 0..program.cores() {
        cores.push(SerialCore::Closed(start_regs(program, core)))?;
    }
    Ok(cores)
}

/// Runs a history of a program on one flat memory: each transaction that commits runs as a whole at its commit.
///
/// [`SerialFault::NotARun`] names the first pair at which the history is no run of the program;
/// [`SerialFault::NoMemory`], where memory or the list of cores found no memory.
pub fn serial(alloc: Global, program: &Program, history: History<'_>) -> Result<Serial, SerialFault>
    ensures ok { IfOk result (λ s. IsReplay program.now 0 (pairs_of history.entry) s) }
    ensures err { IfErr result (λ fault. (fault ≡ SerialFault.NoMemory)
        ⊎ IsRefused program.now 0 (pairs_of history.entry) fault) }
{
    let code = Code {
        bytes: program.code(),
        base: program.base(),
        rows: program.rows(),
    };
    let listing = Listing {
        code,
        lines: program.lines(),
    };
    let mut memory = tm_core::opening_memory(alloc, program)?;
    let mut cores = first_cores(alloc, program)?;
    match run_history(
        &listing,
        program.mem_size(),
        &mut memory,
        &mut cores,
        history,
    ) {
        Ok(()) => Ok(Serial {
            memory,
            cores,
            pending: Vec::new(alloc),
        }),
        Err(index) => Err(SerialFault::NotARun(index)),
    }
}
