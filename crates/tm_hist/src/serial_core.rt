//! A core in a serial run, as far as its next step depends on it.
//!
//! In a transaction just the registers before the XBEGIN and the number of steps since are kept: the body is run at
//! its commit (`flat`). A condemned core is not known as such: its next outcome is an abort, which any open core
//! may have.

ghost use Rattle.std.specs.Prelude.{◌≡◌};
ghost use Rattle.tm_hist.specs.Serial.{base_of, core_of, stop_of};

use ia_regs::Regs;
use tm_rule::Stop;

/// A core between two steps.
#[derive(Clone, Copy, Debug)]
pub enum SerialCore {
    /// It is in no transaction.
    Closed(Regs),
    /// It is between the two steps of an instruction, which has loaded this value.
    Midway(Regs, u32),
    /// It has stopped.
    Halted(Regs, Stop),
    /// It is in a transaction: its registers before the XBEGIN, and how many steps it made since then, that one
    /// included.
    Opened(Regs, u64),
}

impl SerialCore {
    /// The registers, those before the XBEGIN of an open transaction.
    pub fn base(&self) -> Regs
        ensures { result ≡ base_of (core_of self.now) }
    {
        match self {
            SerialCore::Closed(regs)
            | SerialCore::Midway(regs, _)
            | SerialCore::Halted(regs, _)
            | SerialCore::Opened(regs, _) => *regs,
        }
    }

    /// Why the core stopped.
    pub fn stop(&self) -> Option<Stop>
        ensures { result ≡ stop_of (core_of self.now) }
    {
        match self {
            SerialCore::Halted(_, stop) => Some(*stop),
            SerialCore::Closed(_) | SerialCore::Midway(_, _) | SerialCore::Opened(_, _) => None,
        }
    }
}
