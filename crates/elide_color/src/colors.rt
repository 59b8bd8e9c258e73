//! Whether text is painted, decided once for each device before anything is written: by `--color`, by whether it is a
//! terminal, and by what the environment asks.

ghost use Rattle.std.specs.Prelude.{◌≡◌};
ghost use Rattle.std.specs.Option.{option_copied};
ghost use Rattle.elide_color.specs.Colors.{Says, is_painted};

/// When text is painted: the value of `--color`.
#[derive(Clone, Copy, PartialEq, Eq)]
pub enum When {
    /// On a terminal, unless NO_COLOR is set.
    Auto,
    /// Everywhere.
    Always,
    /// Nowhere.
    Never,
}

impl When {
    /// Reads the value of the option, of which nothing is `auto`. None where it is another word.
    pub fn read(value: Option<&str>) -> Option<When>
        ensures { Says (option_copied value.entry) result }
    {
        match value {
            None => Some(When::Auto),
            Some("auto") => Some(When::Auto),
            Some("always") => Some(When::Always),
            Some("never") => Some(When::Never),
            Some(_) => None,
        }
    }

    /// Whether text on a device is painted, by whether that is a terminal's, and whether no colours are asked for by
    /// NO_COLOR.
    pub fn is_painted(self, is_terminal: bool, is_plain: bool) -> bool
        ensures { result ≡ is_painted self is_terminal is_plain }
    {
        match self {
            When::Auto => is_terminal && !is_plain,
            When::Always => true,
            When::Never => false,
        }
    }
}

/// Which devices text is painted on.
#[derive(Clone, Copy, PartialEq, Eq)]
pub struct Colors {
    /// Standard output.
    pub output: bool,
    /// Standard error.
    pub errors: bool,
}

impl Colors {
    /// None of them.
    pub const NONE: Colors = Colors {
        output: false,
        errors: false,
    };
}
