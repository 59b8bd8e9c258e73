//! What interrupts a session, as a command answers it.
//!
//! An [`Interruption`] has no board, as commands work on a state that is lent to them: `session` makes a fault of
//! it, with the board. A command that is refused interrupts nothing: the refusal is its answer.

ghost use Rattle.std.specs.Prelude.{◌≡◌, Err};
ghost use Rattle.tm_debug.specs.Session.{answer_result};
ghost use Rattle.tm_debug.specs.declared.interruption.Interruption.TheVariants.{NoMemory};

use std::alloc::AllocError;
use text_out::WriteFault;

/// What ends a session before its input does: [`SessionFault`](crate::SessionFault) without the board.
#[derive(Clone, Copy, PartialEq, Eq, Debug)]
pub enum Interruption {
    /// The device that commands come from failed.
    Read,
    /// The device that answers go to failed.
    Write,
    /// There was no memory for an answer.
    NoMemory,
}

impl From<AllocError> for Interruption {
    ghost from_gives = { λ _ interruption. interruption ≡ NoMemory };

    fn from(_refused: AllocError) -> Interruption {
        Interruption::NoMemory
    }
}

/// The result of writing an answer, with a fault in writing as what interrupts the session.
pub fn answer_result(written: Result<(), WriteFault>) -> Result<(), Interruption>
    ensures same { result ≡ answer_result written }
    ensures not_memory { result ≡ Err Interruption.NoMemory → ⊥ }
{
    match written {
        Ok(()) => Ok(()),
        Err(WriteFault::Write) => Err(Interruption::Write),
    }
}
