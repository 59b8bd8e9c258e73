//! How many stores of a core may be pending, and the law that a machine with room for no store has none that is
//! pending.
//!
//! [`Machine::nothing_pending`] does nothing: its contract is the law, for whoever asks of two machines whether they
//! are alike, or of the bytes that a core sees.

ghost use Rattle.std.specs.Prelude.{◌≡◌, []};

use crate::machine::Machine;
use tm_sets::Sets;

impl<S: Sets> Machine<S> {
    /// How many stores of a core may be pending, 0 to 64: with 0 what a step stores is in memory at once.
    #[inline(always)]
    pub fn stores(&self) -> u8
        ensures { result ≡ self.now.store_buffer }
    {
        self.most
    }

    /// The law that no store of a core is pending where there is room for none: what a step stores is in memory at
    /// once.
    pub fn nothing_pending(&self)
        requires { self.now.store_buffer ≡ 0 }
        ensures most { self.now.store_buffer ≡ 0 }
        ensures none { self.now.pending ≡ [] }
    {
        let _most = self.most;
    }
}
