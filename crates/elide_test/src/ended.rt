//! What a command came to, as `elide_trial` hands it in and `verdict` judges it: all of its output, whether it was
//! refused or not.

ghost use Rattle.std.specs.Prelude.{◌≤◌};

/// How a command ended, and what it printed.
#[derive(Drop)]
pub struct Ended {
    /// The exit status, 0 to 3.
    pub status: u8,
    /// What it printed on standard output.
    pub output: Vec<u8>,
    /// What it printed on standard error.
    pub errors: Vec<u8>,
    pub ghost most: { status ≤ 3 },
}
