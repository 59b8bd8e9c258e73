//! A device that is lent to a call that takes one by value, by one who goes on with it afterwards.
//!
//! [`Lent`] keeps no byte and counts no failure of its own: both are those of the device behind it, at once. Where
//! bytes are to be held back, it is put below a [`Gathered`](crate::Gathered), whose `finish` then comes before the
//! lender's next write.

ghost use Rattle.std.specs.Prelude.{◌≡◌};

use text_out::{Failed, Out};

/// A device that is lent to what takes one by value.
#[derive(Drop)]
pub struct Lent<'a, O> {
    out: &'a mut O,
}

impl<'a, O: Out> Lent<'a, O> {
    /// Lends this device.
    pub fn new(out: &'a mut O) -> Lent<'a, O>
        ensures { result.out ≡ out.entry }
    {
        Lent { out }
    }
}

impl<O: Out> Out for Lent<'_, O> {
    ghost device = { λ l. O.device l.out.now };

    fn put(&mut self, bytes: &[u8]) -> Result<(), Failed> {
        self.out.put(bytes)
    }

    fn failures(&self) -> u64 {
        self.out.failures()
    }
}
