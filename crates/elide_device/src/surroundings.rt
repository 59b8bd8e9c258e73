//! What stands around a command, as `elide` finds it once and hands it in; nothing is asked of the system here.
//!
//! An option that says `always` or `never` decides alone. Else a terminal does: for colours the device's own, unless no
//! colours are asked for; for words standard error's, and for names in reasons standard output's. ELIDE_WORDS stands
//! for both of these.

ghost use Rattle.std.specs.Prelude.{◌≡◌};
ghost use Rattle.elide_color.specs.Colors.{is_painted};
ghost use Rattle.elide_device.specs.Telling.{are_told};

use crate::terminals::Terminals;
use elide_color::{Colors, When};

/// What stands around a command: its devices, and what its user asks of all programs.
#[derive(Clone, Copy, PartialEq, Eq)]
pub struct Surroundings {
    /// Which of the devices are a terminal's.
    pub terminals: Terminals,
    /// Whether no colours are asked for: NO_COLOR is set, and not empty (no-color.org).
    pub is_plain: bool,
    /// Whether it is told beside each fault where it stands and what is meant: ELIDE_WORDS is `always`.
    pub tells_words: bool,
}

impl Surroundings {
    /// Files, pipes or memory.
    pub const NONE: Surroundings = Surroundings {
        terminals: Terminals::NONE,
        is_plain: false,
        tells_words: false,
    };

    /// Which devices text is painted on.
    pub fn colors(self, when: When) -> Colors
        ensures output { result.output ≡ is_painted when self.terminals.output self.is_plain }
        ensures errors { result.errors ≡ is_painted when self.terminals.errors self.is_plain }
    {
        Colors {
            output: when.is_painted(self.terminals.output, self.is_plain),
            errors: when.is_painted(self.terminals.errors, self.is_plain),
        }
    }

    /// Whether it is told beside a fault where it stands and what is meant. `--words` has the values of `--color`, and
    /// where it is not given, ELIDE_WORDS may ask for `always`.
    pub fn words(self, when: When) -> bool
        ensures { result ≡ are_told when self.terminals.errors self.tells_words }
    {
        match when {
            When::Auto => self.terminals.errors || self.tells_words,
            When::Always => true,
            When::Never => false,
        }
    }

    /// Whether the reason of a stop where the subset ends, which stands on standard output, goes on with what stands
    /// there.
    pub fn names(self, when: When) -> bool
        ensures { result ≡ are_told when self.terminals.output self.tells_words }
    {
        match when {
            When::Auto => self.terminals.output || self.tells_words,
            When::Always => true,
            When::Never => false,
        }
    }
}
