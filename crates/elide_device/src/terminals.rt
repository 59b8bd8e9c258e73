//! Which of the program's streams are a terminal's.
//!
//! `elide` asks the system once, before the command, and hands [`Terminals`] down: no crate between asks again, so that
//! a test says them as it likes. Colors have further conditions, which stand in `elide_command`.

/// Which of the program's streams a person reads and types at. Over files, pipes and memory none is, and then what is
/// written is exactly what docs/FORMATS.md states; on a terminal more may stand beside it.
#[derive(Clone, Copy, PartialEq, Eq, Debug)]
pub struct Terminals {
    /// Whether standard input is.
    pub input: bool,
    /// Whether standard output is.
    pub output: bool,
    /// Whether standard error is.
    pub errors: bool,
}

impl Terminals {
    /// None is.
    pub const NONE: Terminals = Terminals {
        input: false,
        output: false,
        errors: false,
    };

    /// All are.
    pub const ALL: Terminals = Terminals {
        input: true,
        output: true,
        errors: true,
    };
}
