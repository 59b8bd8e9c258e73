//! The fault that a search is refused with: [`fault_of`] gives those of `tm_hunt` a number.
//!
//! A board that is not made keeps its own; want of memory, wherever it came, is told as that of a run.

ghost use Rattle.elide_setup.specs.declared.fault.Refusal.TheVariants as refusal;
ghost use Rattle.elide_hunt.specs.Refused.{IsHuntFault};

use elide_setup::Fault;
use tm_core::RunFault;
use tm_hunt::HuntFault;

/// The fault that is told.
pub fn fault_of(fault: HuntFault) -> Fault
    ensures { IsHuntFault fault (refusal.Fault result) }
{
    match fault {
        HuntFault::Board(fault) => Fault::Board(fault),
        HuntFault::NoMemory => Fault::Run(RunFault::NoMemory),
    }
}
