//! The fault of a division, which DIV and IDIV share: a divisor of 0, or a quotient that does not fit a doubleword.
//! What the processor makes of it is `ia_exec`'s.

ghost use Rattle.std.specs.Prelude.{◌≡◌};

use thiserror::Error;

/// The divisor is 0, or the quotient does not fit a doubleword (SDM volume 3, "Interrupt 0: Divide Error Exception
/// (#DE)").
#[derive(Clone, Copy, PartialEq, Eq, Debug, Error)]
#[error("Divide")]
pub struct Divide;

impl Divide {
    /// The number of the fault: 4.
    pub fn code(self) -> u8
        ensures { result ≡ 4 }
    {
        4
    }
}
