//! What a reader of packets tells.

use arrayvec::ArrayVec;

/// The bytes that a packet tells: at most 16384.
pub type Bytes = ArrayVec<u8, 16384>;

/// What the bytes up to the last one that was heard are.
#[derive(Clone, Debug, Drop)]
pub enum Heard {
    /// No whole yet: a packet has begun, and more of it is to come.
    Nothing,
    /// A packet, which tells these bytes.
    Packet(Bytes),
    /// A packet with another checksum than its own, or whose text has a bare `$` or ends within an escape.
    Damaged,
    /// A packet whose text has more than 16384 bytes.
    TooLong,
    /// The byte 0x03 outside of packets: the program is to stop.
    Interrupt,
    /// A `+`: the last packet was received.
    Received,
    /// A `-`: the last packet is to be sent once more.
    Resend,
    /// Another byte outside of packets.
    Stray(u8),
}
