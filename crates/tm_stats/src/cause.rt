//! Why transactions abort, as it is counted.
//!
//! An [`AbortCause`] comes with each step that is told, from whom knows the machine. Here are the names of causes; only
//! that of an abort from outside of the program is made out, by its outcome.

ghost use Rattle.std.specs.Prelude.{◌≡◌};
ghost use Rattle.tm_stats.specs.Causes.{cause_from_outside};

use std::fmt;
use std::fmt::{Display, Formatter, Write};
use tm_model::Interference;

/// Why a transaction aborts, as statistics tell causes apart (docs/FORMATS.md, "Statistics").
#[derive(Clone, Copy, PartialEq, Eq, PartialOrd, Ord, Hash)]
pub enum AbortCause {
    /// A step of another core hit it.
    Conflict,
    /// A line that it loads from has no room.
    ReadCapacity,
    /// A line that it stores to has no room.
    WriteCapacity,
    /// XBEGIN at the greatest depth.
    Nest,
    /// XABORT, with its argument.
    Explicit(u8),
    /// INT3.
    Breakpoint,
    /// #DE.
    Divide,
    /// #UD.
    Undefined,
    /// #GP.
    Protection,
    /// HLT.
    Halt,
    /// A byte at or above the memory size.
    Range,
    /// A byte that is stored lies in the code.
    CodeStore,
    /// EIP outside the code.
    Fetch,
    /// No instruction of the subset.
    NotInSubset,
    /// An instruction that no transaction may run.
    NotAllowed,
    /// An interrupt from outside of the program.
    Interrupt,
    /// An eviction from outside of the program.
    Eviction,
    /// An access by what is no core of the machine.
    Snoop,
}

impl AbortCause {
    /// The cause of an abort from outside of the program.
    pub fn from_outside(interference: Interference) -> AbortCause
        ensures { result ≡ cause_from_outside interference }
    {
        match interference {
            Interference::Interrupt => AbortCause::Interrupt,
            Interference::Eviction => AbortCause::Eviction,
            Interference::Snoop => AbortCause::Snoop,
        }
    }
}

impl Display for AbortCause {
    fn fmt<W: Write>(&self, f: &mut Formatter<W>) -> fmt::Result {
        let name = match self {
            AbortCause::Explicit(argument) => return write!(f, "xabort:{argument:02x}"),
            AbortCause::Conflict => "conflict",
            AbortCause::ReadCapacity => "read-capacity",
            AbortCause::WriteCapacity => "write-capacity",
            AbortCause::Nest => "nest",
            AbortCause::Breakpoint => "INT3",
            AbortCause::Divide => "#DE",
            AbortCause::Undefined => "#UD",
            AbortCause::Protection => "#GP",
            AbortCause::Halt => "HLT",
            AbortCause::Range => "range",
            AbortCause::CodeStore => "code-store",
            AbortCause::Fetch => "fetch",
            AbortCause::NotInSubset => "not-in-subset",
            AbortCause::NotAllowed => "not-allowed",
            AbortCause::Interrupt => "interrupt",
            AbortCause::Eviction => "eviction",
            AbortCause::Snoop => "snoop",
        };
        f.write_str(name)
    }
}
