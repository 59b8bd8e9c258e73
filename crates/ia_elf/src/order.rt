//! The tests of a file, in the order in which their faults are told.

ghost use Rattle.std.specs.Prelude.{◌≡◌, ◌<◌, ◌≤◌, IfErr, IfOk, OnOk};
ghost use Rattle.ia_elf.specs.Faults.{IsFirstFault, IsFreeBefore};
ghost use Rattle.ia_elf.specs.Loaded.{IsCodeEnd, IsMemoryEnd};
ghost use Rattle.ia_elf.specs.Tables.{AreTables};

use crate::fault::ElfFault;
use crate::layout::{code_end, is_code_in_front, is_executable, is_low, memory_end_in_order};
use crate::tables::Tables;
use crate::whole::{is_for_this_machine, whole_tables};

/// What the tests of a file find out.
#[derive(Clone, Copy)]
pub(crate) struct Tested<'a> {
    pub(crate) tables: Tables<'a>,
    /// The address behind the last byte of code.
    pub(crate) code_end: u64,
    /// The first address above all segments.
    pub(crate) end: u64,
}

/// Tests a file, up to what wants memory.
#[tactic(auto, using(crate::proofs::Ends::low_ends, crate::proofs::FaultOrder::fault_order))]
pub(crate) fn test(file: &[u8]) -> Result<Tested<'_>, ElfFault>
    ensures passed { OnOk result (IsFreeBefore file.now ElfFault.NoMemory) }
    ensures tables { IfOk result (λ t. AreTables file.now t.tables.symbols.now t.tables.strings.now) }
    ensures code_end { IfOk result (λ t. IsCodeEnd file.now t.code_end) }
    ensures end { IfOk result (λ t. IsMemoryEnd file.now t.end) }
    ensures low { IfOk result (λ t. (t.code_end ≤ 268435456) × (t.end ≤ 268435456)) }
    ensures fault { IfErr result (λ f. IsFirstFault file.now f) }
{
    if !is_for_this_machine(file) {
        return Err(ElfFault::NotForThisMachine);
    }
    let Some(tables) = whole_tables(file) else {
        return Err(ElfFault::Damaged);
    };
    if !is_executable(file) {
        return Err(ElfFault::NotAnExecutable);
    }
    let Some(code_end) = code_end(file) else {
        return Err(ElfFault::NothingToLoad);
    };
    if !is_low(file) {
        return Err(ElfFault::TooHigh);
    }
    let Some(end) = memory_end_in_order(file) else {
        return Err(ElfFault::Overlap);
    };
    if !is_code_in_front(file, code_end) {
        return Err(ElfFault::CodeNotInFront);
    }
    Ok(Tested {
        tables,
        code_end,
        end,
    })
}
