//! What a command reads from and writes to.
//!
//! [`Streams`] is put together by who has the files and the devices, and lent from there on. Which of the devices are a
//! terminal's is said beside it, by `Surroundings` of `elide_device`.

ghost use Rattle.std.specs.Prelude.{◌≡◌};

/// The files of a command, and its devices.
#[derive(Drop)]
pub struct Streams<'a, P, I, O, E, G> {
    /// Its files.
    pub paths: &'a mut P,
    /// The input of a session.
    pub input: &'a mut I,
    /// Where it writes what it was asked for.
    pub out: &'a mut O,
    /// Where it tells warnings and faults.
    pub err: &'a mut E,
    /// Where long work tells how far it is.
    pub progress: &'a mut G,
}

impl<'a, P, I, O, E, G> Streams<'a, P, I, O, E, G> {
    /// These files and devices.
    pub fn new(
        paths: &'a mut P,
        input: &'a mut I,
        out: &'a mut O,
        err: &'a mut E,
        progress: &'a mut G,
    ) -> Streams<'a, P, I, O, E, G>
        ensures paths { result.paths ≡ paths.entry }
        ensures input { result.input ≡ input.entry }
        ensures out { result.out ≡ out.entry }
        ensures err { result.err ≡ err.entry }
        ensures progress { result.progress ≡ progress.entry }
    {
        Streams {
            paths,
            input,
            out,
            err,
            progress,
        }
    }
}
