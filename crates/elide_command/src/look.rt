//! How what a command writes looks: by `--color`, by `--words`, and by what stands around it.
//!
//! [`Look::new`] refuses nothing: a value that says nothing counts as left out, so that the refusal for it has a look,
//! too. `--color` is told before `--words`. The refusal is made in `dispatch`, and painting is `elide_color`'s.

use elide_args::CommandLine;
use elide_color::{Colors, Painting, When};
use elide_device::{Surroundings, Terminals};

/// How what a command writes looks.
#[derive(Clone, Copy)]
pub struct Look {
    /// Which devices are a terminal's.
    pub terminals: Terminals,
    /// Which of them are painted on.
    pub colors: Colors,
    /// Whether it is told beside a fault where it stands and what is meant.
    pub tells_words: bool,
    /// Whether a reason goes on with what stands where the subset ends.
    pub names_stops: bool,
    /// `--color` or `--words`, where its value says nothing. Then it counts as left out.
    pub misused: Option<&'static str>,
}

impl Look {
    /// That of a command line.
    pub fn new(line: &CommandLine<'_>, surroundings: Surroundings) -> Look {
        let (paints, tells) = (When::read(line.color), When::read(line.words));
        let misused = match (paints, tells) {
            (None, _) => Some("--color"),
            (_, None) => Some("--words"),
            _ => None,
        };
        Look {
            terminals: surroundings.terminals,
            colors: surroundings.colors(paints.unwrap_or(When::Auto)),
            tells_words: surroundings.words(tells.unwrap_or(When::Auto)),
            names_stops: surroundings.names(tells.unwrap_or(When::Auto)),
            misused,
        }
    }

    /// How warnings are painted.
    pub fn warnings(self) -> Painting {
        if self.colors.errors {
            Painting::Warning
        } else {
            Painting::Plain
        }
    }

    /// How a listing is painted.
    pub fn listing(self) -> Painting {
        if self.colors.output {
            Painting::Listing
        } else {
            Painting::Plain
        }
    }

    /// How what `asm` prints is painted: its listing is, and image text is not.
    pub fn assembly(self, lists: bool) -> Painting {
        if lists {
            self.listing()
        } else {
            Painting::Plain
        }
    }
}
