//! The run of a history on one flat memory with store buffers: [`serial_with`].
//!
//! Where no store may be pending it is [`serial`], whose walk knows no queues. Else memory and the cores are made
//! first, as there, and of each core a queue with room for as many stores as may be pending; then each pair is a step
//! of its core (`queued`), and the first that is none ends the run with its index. No board is asked: whatever list
//! comes in, it is a run or it is refused.

ghost use Rattle.std.specs.Prelude.{◌≡◌, ◌⊎◌, ◌<◌, ◌≤◌, ◌^◌, length, Some, IfOk, OnOk, IfErr};
ghost use Rattle.std.specs.List.{AllByRecursion};
ghost use Rattle.tm_hist.specs.History.{pairs_of};
ghost use Rattle.tm_hist.specs.Queues.{AreNew, IsQueue, QueueStuck, queue_run, queue_setting, queued_in};
ghost use Rattle.tm_hist.specs.Replay.{IsRefused, IsReplay};
ghost use Rattle.tm_hist.specs.Serial.{steps_of};

use crate::history::History;
use crate::one_memory::{first_cores, serial};
use crate::queued::step_queued;
use crate::replay::{Serial, SerialFault};
use crate::serial_core::SerialCore;
use ia_exec::Store;
use ia_image::Program;
use std::alloc::Global;
use tm_quick::Listing;
use tm_rule::Code;

// Runs a history; where that fails, the index of the first pair at which it is no run.
fn run_queued(
    listing: &Listing<'_>,
    size: u32,
    stores: u32,
    memory: &mut [u8],
    queues: &mut [Vec<Store>],
    cores: &mut [SerialCore],
    history: History<'_>,
) -> Result<(), usize>
    requires size { length memory.old ≡ size }
    requires closed { AllByRecursion (λ c. steps_of c ≤ 0) cores.old }
    requires some { 0 < stores }
    requires count { length queues.old ≡ length cores.old }
    requires queues { AllByRecursion (IsQueue size stores) queues.old }
    ensures ok { OnOk result (queue_run (queue_setting listing.now.code size stores)
        (queued_in memory.old queues.old cores.old) (pairs_of history.entry)
        ≡ Some (queued_in memory.new queues.new cores.new)) }
    ensures err { IfErr result (λ i. QueueStuck (queue_setting listing.now.code size stores)
        (queued_in memory.old queues.old cores.old) (pairs_of history.entry) i) }
{
    'pairs: for index in 0..history.len() {
        let (core, outcome) = history.get(index).unwrap();
        if !step_queued(listing, size, stores, memory, queues, cores, core, outcome) {
            return Err(index);
        }
    }
    Ok(())
}

// A queue of each core, with room for so many stores.
fn first_queues(alloc: Global, cores: u8, stores: u32) -> Result<Vec<Vec<Store>>, SerialFault>
    ensures ok { IfOk result (λ queues. AreNew stores cores queues.items) }
    ensures err { IfErr result (λ fault. fault ≡ SerialFault.NoMemory) }
{
    let mut queues = Vec::with_capacity(alloc, usize::from(cores))?;
    for _ in 0..cores {
        let queue = Vec::with_capacity(alloc, stores as usize)?;
        queues.push(queue)?;
    }
    Ok(queues)
}

/// Runs a history of a program on one flat memory, with at most so many stores of a core pending: each transaction that
/// commits runs as a whole at its commit, with none pending, and each store outside of transactions reaches memory at
/// its drain.
///
/// [`SerialFault::NotARun`] names the first pair at which the history is no run of the program;
/// [`SerialFault::NoMemory`], where memory, the list of cores or their queues found no memory.
pub fn serial_with(
    alloc: Global,
    program: &Program,
    stores: u32,
    history: History<'_>,
) -> Result<Serial, SerialFault>
    ensures ok { IfOk result (λ s. IsReplay program.now stores (pairs_of history.entry) s) }
    ensures err { IfErr result (λ fault. (fault ≡ SerialFault.NoMemory)
        ⊎ IsRefused program.now stores (pairs_of history.entry) fault) }
{
    if stores == 0 {
        return serial(alloc, program, history);
    }
    let code = Code {
        bytes: program.code(),
        base: program.base(),
        rows: program.rows(),
    };
    let listing = Listing {
        code,
        lines: program.lines(),
    };
    let mut memory = tm_core::opening_memory(alloc, program)?;
    let mut cores = first_cores(alloc, program)?;
    let mut pending = first_queues(alloc, program.cores(), stores)?;
    match run_queued(
        &listing,
        program.mem_size(),
        stores,
        &mut memory,
        &mut pending,
        &mut cores,
        history,
    ) {
        Ok(()) => Ok(Serial {
            memory,
            cores,
            pending,
        }),
        Err(index) => Err(SerialFault::NotARun(index)),
    }
}
