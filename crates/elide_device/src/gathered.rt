//! Text that is gathered in a row of fixed room before it is handed on, so that a line costs no system call, and
//! printing no memory.
//!
//! Bytes leave in the order in which they came: the row is handed on before a text that it has no room for, and a text
//! that is longer than all of it passes it by. Nothing is handed on where a value is dropped: who prints calls
//! [`Gathered::finish`] last, and knows only by its answer that all was written.

ghost use Rattle.std.specs.Prelude.{◌≡◌, ◌≢◌, ◌⊎◌, [], IfOk, OnErr, OnOk};
ghost use Rattle.text_out.specs.Writing.{Stopped, Writes};
ghost use Rattle.elide_device.specs.Gathering.{told};

use arrayvec::ArrayVec;
use std::snapshot::Snapshot;
use text_out::{Failed, Out};

/// How many bytes are gathered before they are handed on.
const ROOM: usize = 16384;

/// A device that gathers text for another one. It hands the text on where its room is full, and at
/// [`Gathered::finish`]; once the other device fails, each further call is a failure of this one. Takes no memory.
#[derive(Drop)]
pub struct Gathered<O> {
    out: O,
    row: ArrayVec<u8, ROOM>,
    // How often this device failed. At 0 the other one holds what was handed on, and the row stands behind it.
    failures: u64,
    // The other device before the row was last handed on, which clauses alone see: the row stands behind what it held.
    before: Snapshot<O>,
}

impl<O: Out + Drop> Gathered<O> {
    ghost use Rattle.std.specs.Io.KnownBytes.{Keeps};

    /// Gathers for this device.
    pub fn new(out: O) -> Gathered<O>
        ensures none { (⟦<Gathered<O> as Out>⟧.device result).failures ≡ 0 }
        ensures kept { Keeps (O.device out).contents (⟦<Gathered<O> as Out>⟧.device result).contents }
    {
        let before = Snapshot::of(&out);
        Gathered {
            out,
            row: ArrayVec::new(),
            failures: 0,
            before,
        }
    }

    /// Hands on what was gathered, and gives the other device back, which holds all that this one did. A failure only
    /// where one of the two has failed.
    pub fn finish(self) -> Result<O, Failed>
        ensures ok { OnOk result ((⟦<Gathered<O> as Out>⟧.device self).failures ≡ 0) }
        ensures kept { IfOk result
            (λ out. Keeps (⟦<Gathered<O> as Out>⟧.device self).contents (O.device out).contents) }
        ensures err { OnErr result (((⟦<Gathered<O> as Out>⟧.device self).failures ≢ 0)
            ⊎ ((last : O) × Stopped (O.device self.out) (O.device last) self.row.items)) }
    {
        let mut gathered = self;
        if gathered.failures != 0 {
            return Err(Failed);
        }
        gathered.hand_on()?;
        let Gathered { out, .. } = gathered;
        Ok(out)
    }
}

impl<O: Out> Gathered<O> {
    // Hands the row on, which is empty then. Where the other device fails it is kept.
    fn hand_on(&mut self) -> Result<(), Failed>
        requires { self.old.failures ≡ 0 }
        ensures handed { Writes (O.device self.old.out) (O.device self.new.out) self.old.row.items result }
        ensures ok { OnOk result ((self.new.row.items ≡ []) × (self.new.failures ≡ 0)) }
        ensures err { OnErr result ((self.new.row.items ≡ self.old.row.items) × (self.new.failures ≡ 1)
            × (O.device self.new.before.value ≡ O.device self.old.out)) }
    {
        self.before = Snapshot::of(&self.out);
        match self.out.put(self.row.as_slice()) {
            Ok(()) => {
                self.row.clear();
                Ok(())
            }
            Err(_) => {
                self.failures = 1;
                Err(Failed)
            }
        }
    }

    // Hands on bytes that the row has no room for, and which is empty.
    fn pass(&mut self, bytes: &[u8]) -> Result<(), Failed>
        requires { self.old.failures ≡ 0 }
        ensures handed { Writes (O.device self.old.out) (O.device self.new.out) bytes.now result }
        ensures row { self.new.row.items ≡ self.old.row.items }
        ensures ok { OnOk result (self.new.failures ≡ 0) }
        ensures err { OnErr result ((self.new.failures ≡ 1)
            × (O.device self.new.before.value ≡ O.device self.old.out)) }
    {
        self.before = Snapshot::of(&self.out);
        match self.out.put(bytes) {
            Ok(()) => Ok(()),
            Err(_) => {
                self.failures = 1;
                Err(Failed)
            }
        }
    }
}

impl<O: Out> Out for Gathered<O> {
    // What was handed on, and the row behind it.
    ghost device = { λ g. record {
      contents = told (O.device g.out).contents (O.device g.before.value).contents g.failures g.row.items;
      failures = g.failures;
    } };

    fn put(&mut self, bytes: &[u8]) -> Result<(), Failed> {
        if self.failures != 0 {
            self.failures = self.failures.saturating_add(1);
            return Err(Failed);
        }
        if bytes.len() > self.row.remaining_capacity() {
            self.hand_on()?;
        }
        match self.row.try_extend_from_slice(bytes) {
            Ok(()) => Ok(()),
            Err(_) => self.pass(bytes),
        }
    }

    fn failures(&self) -> u64 {
        self.failures
    }
}
