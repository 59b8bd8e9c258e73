//! How a command ended, with the device that it wrote to, before it is known whether that took all.
//!
//! A call gives a [`CommandEnd`], and `carrier` asks its device and makes what `elide_test` judges.

ghost use Rattle.std.specs.Prelude.{◌≤◌};

use text_out::ToVec;

/// How a command ended, and the device that it wrote to.
#[derive(Drop)]
pub struct CommandEnd {
    /// The exit status, 0 to 3.
    pub status: u8,
    /// The device of its standard output.
    pub out: ToVec,
    /// What it wrote on standard error, as far as memory took it.
    pub errors: Vec<u8>,
    pub ghost most: { status ≤ 3 },
}
