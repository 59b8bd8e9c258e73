//! A reader of packets, which hears a byte at a time: what stands outside of packets, the text, and the two digits of
//! its checksum. It tells a packet, an acknowledgement or an interrupt as soon as it is whole.

ghost use Rattle.std.specs.Prelude.{◌≡◌, ◌≢◌, ◌∷◌, ◌++◌, [], ℕ, List};

use crate::framing::checksum_digits;
use crate::heard::{Bytes, Heard};
use crate::unescape::unescape;

/// Where the next byte stands.
#[derive(Clone, Copy, PartialEq, Eq, Debug)]
pub enum Place {
    /// Outside of packets.
    Outside,
    /// In the text of a packet.
    Text,
    /// Behind the `#`.
    Checksum,
    /// Behind this first digit of the checksum.
    LastDigit(u8),
}

/// A reader of packets, which takes a byte at a time.
#[derive(Debug, Drop)]
pub struct Reader {
    place: Place,
    // The text of a packet that has begun, and whether more bytes of it were heard than have room.
    text: Bytes,
    long: bool,
}

impl Reader {
    ghost use Rattle.gdb_packet.specs.Reading.{HasText, Hears, IsBehind};

    /// A reader that has heard nothing.
    pub fn new() -> Reader
        ensures { IsBehind [] result }
    {
        Reader {
            place: Place::Outside,
            text: Bytes::new(),
            long: false,
        }
    }

    /// Hears the next byte, and tells what the bytes are that were heard since it last told something.
    pub fn hear(&mut self, byte: u8) -> Heard
        ensures { (since : List ℕ) → IsBehind since self.old → Hears (since ++ byte ∷ []) result self.new }
    {
        match self.place {
            Place::Outside => self.begin(byte),
            Place::Text => self.add(byte),
            Place::Checksum => self.begin_checksum(byte),
            Place::LastDigit(first) => self.end(first, byte),
        }
    }

    // Hears a byte outside of packets.
    fn begin(&mut self, byte: u8) -> Heard
        requires { self.old.place ≡ Place.Outside }
        ensures { Hears (byte ∷ []) result self.new }
    {
        match byte {
            b'$' => {
                self.text.clear();
                self.long = false;
                self.place = Place::Text;
                Heard::Nothing
            }
            b'+' => Heard::Received,
            b'-' => Heard::Resend,
            0x03 => Heard::Interrupt,
            _ => Heard::Stray(byte),
        }
    }

    // Hears a byte in the text of a packet.
    fn add(&mut self, byte: u8) -> Heard
        requires { self.old.place ≡ Place.Text }
        ensures { (since : List ℕ) → HasText self.old.long self.old.text.items [] since
            → Hears (since ++ byte ∷ []) result self.new }
    {
        if byte == b'#' {
            self.place = Place::Checksum;
            Heard::Nothing
        } else {
            self.keep(byte);
            Heard::Nothing
        }
    }

    // Keeps a byte of a text, if there is room.
    fn keep(&mut self, byte: u8)
        requires { byte ≢ 35 }
        ensures place { self.new.place ≡ self.old.place }
        ensures text { (since : List ℕ) → HasText self.old.long self.old.text.items [] since
            → HasText self.new.long self.new.text.items [] (since ++ byte ∷ []) }
    {
        if self.text.is_full() {
            self.long = true;
        } else {
            self.text.push(byte);
        }
    }

    // Hears the first digit of a checksum.
    fn begin_checksum(&mut self, first: u8) -> Heard
        ensures { (since : List ℕ) → HasText self.old.long self.old.text.items (35 ∷ []) since
            → Hears (since ++ first ∷ []) result self.new }
    {
        self.place = Place::LastDigit(first);
        Heard::Nothing
    }

    // Hears the last digit of a checksum.
    fn end(&mut self, first: u8, last: u8) -> Heard
        ensures { (since : List ℕ) → HasText self.old.long self.old.text.items (35 ∷ first ∷ []) since
            → Hears (since ++ last ∷ []) result self.new }
    {
        self.place = Place::Outside;
        if self.long {
            return Heard::TooLong;
        }
        if [first, last] != checksum_digits(self.text.as_slice()) {
            return Heard::Damaged;
        }
        match unescape(self.text.as_slice()) {
            Some(bytes) => Heard::Packet(bytes),
            None => Heard::Damaged,
        }
    }
}
