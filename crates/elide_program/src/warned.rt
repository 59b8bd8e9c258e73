//! The warnings of a program, told where its file is read: before any fault of its text, and once.
//!
//! [`WarnedPaths`] stands between a command and its files, and hands all calls on; it is shown the text of the program
//! by who reads it ([`read_file`](crate::read_file)). Image text and executables have no warnings. They are found by
//! `ia_source`, and no command waits for them or knows of them.

ghost use Rattle.std.specs.Prelude.{[]};
ghost use Rattle.elide_program.specs.ProgramFile.{IsSource};
ghost use Rattle.ia_source.specs.Warnings.{warnings};
ghost use Rattle.text_out.specs.Writing.{Writes};

use crate::form::Form;
use crate::paths::{Paths, ReadFault, Text};
use elide_color::{PaintedWords, Painting};
use ia_source::warn;
use text_out::{Failed, Out};

/// The files of a command, and the device that the warnings of its program are told on.
#[derive(Drop)]
pub struct WarnedPaths<'a, P, E> {
    paths: &'a mut P,
    err: &'a mut E,
    // How they are painted.
    painting: Painting,
}

impl<'a, P: Paths, E: Out> WarnedPaths<'a, P, E> {
    /// These files, and warnings on this device, painted so.
    pub fn new(paths: &'a mut P, err: &'a mut E, painting: Painting) -> WarnedPaths<'a, P, E> {
        WarnedPaths {
            paths,
            err,
            painting,
        }
    }
}

impl<P: Paths, E: Out> Paths for WarnedPaths<'_, P, E> {
    ghost content = { λ w. P.content w.paths.now };

    ghost are_one = { λ w. P.are_one w.paths.now };

    fn read(&mut self, path: &str, most: usize) -> Result<Vec<u8>, ReadFault> {
        self.paths.read(path, most)
    }

    fn write<T: Text>(&mut self, path: &str, text: &mut T) -> Result<(), Failed> {
        self.paths.write(path, text)
    }

    fn warn_of(&mut self, text: &[u8]) {
        // A warning that is not written whole has no further place to be told.
        let _ = warn_painted(text, self.painting, &mut *self.err);
    }

    fn is_same_file(&mut self, path: &str, other: &str) -> bool {
        self.paths.is_same_file(path, other)
    }
}

// Tells the warnings of a program's text, painted so.
fn warn_painted<E: Out>(text: &[u8], painting: Painting, err: &mut E) -> Result<(), Failed> {
    let mut err = PaintedWords::new(err, painting);
    warn_of(text, &mut err)
}

// Tells the warnings of a program's text (docs/FORMATS.md, "Warnings"). Image text and executables have none.
fn warn_of<E: Out>(text: &[u8], err: &mut E) -> Result<(), Failed>
    ensures source { IsSource text.now → Writes (E.device err.old) (E.device err.new) (warnings text.now) result }
    ensures other { ¬ IsSource text.now → Writes (E.device err.old) (E.device err.new) [] result }
{
    match Form::of(text) {
        Form::Source => warn(text, err),
        Form::Executable | Form::Image => Ok(()),
    }
}
