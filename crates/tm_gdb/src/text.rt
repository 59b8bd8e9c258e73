//! The text of an answer to `monitor`: a device in memory of fixed room.
//!
//! A text that would not fit is a failure, by which its writer ends; what was put before stands. [`Text::push`]
//! makes hex of it for the packet, and `OK` of an empty text, since an empty packet says that the command is not
//! known.

ghost use Rattle.std.specs.Prelude.{◌≡◌, [], None};

use arrayvec::ArrayVec;
use gdb_packet::Bytes;
use text_out::page::{push, push_bytes};
use text_out::{Failed, Out};

/// A text of at most 8000 bytes, as many as a packet has room for. What would not fit is a failure and is left out.
#[derive(Drop)]
pub struct Text {
    row: ArrayVec<u8, 8000>,
    failures: u64,
}

impl Text {
    /// An empty text.
    pub fn new() -> Text {
        Text {
            row: ArrayVec::new(),
            failures: 0,
        }
    }

    /// Adds the text to a packet, two hex digits a byte, or `OK` where it is empty.
    pub fn push(&self, packet: &mut Bytes)
        requires { packet.old.items ≡ [] }
    {
        let text = self.row.as_slice();
        if text.is_empty() {
            push(packet, b"OK");
            return;
        }
        'bytes: for index in 0..text.len() {
            push_bytes(packet, &[text[index]]);
        }
    }
}

impl Out for Text {
    ghost device = { λ text. record { contents = None; failures = text.failures } };

    fn put(&mut self, bytes: &[u8]) -> Result<(), Failed> {
        if self.row.try_extend_from_slice(bytes).is_err() {
            self.failures = self.failures.saturating_add(1);
            return Err(Failed);
        }
        Ok(())
    }

    fn failures(&self) -> u64 {
        self.failures
    }
}
