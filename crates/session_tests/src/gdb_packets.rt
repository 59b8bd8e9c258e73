//! Packets of real sessions, and escapes whose checksums were added up by hand.

use gdb_packet::{Heard, Reader, write_packet};
use std::test::Fail;
use text_out::ToVec;

#[test]
fn packets_are_written(rt: HostRuntime) -> Result<(), Fail> {
    let cases: [(&[u8], &[u8]); 8] = [
        (b"g", b"$g#67"),
        (b"OK", b"$OK#9a"),
        (b"", b"$#00"),
        (b"qSupported", b"$qSupported#37"),
        (b"}a", b"$}]a#3b"),
        (b"*", b"$}\x0a#87"),
        (b"#", b"$}\x03#80"),
        (b"$", b"$}\x04#81"),
    ];
    let mut out = ToVec::new(Vec::new(rt.alloc()));
    for (packet, text) in cases {
        assert!(rt; packet.len() <= 16384);
        out.bytes.clear();
        write_packet(packet, &mut out)?;
        assert_eq!(rt; out.bytes.as_slice(), text);
    }
    Ok(())
}

// What is told last of these bytes.
fn last_heard(reader: &mut Reader, bytes: &[u8]) -> Heard {
    let mut heard = Heard::Nothing;
    for index in 0..bytes.len() {
        heard = reader.hear(bytes[index]);
    }
    heard
}

// Whether this is heard, with these bytes where some come with it.
fn is_heard(heard: &Heard, word: &str, bytes: &[u8]) -> bool {
    match heard {
        Heard::Packet(packet) => word == "packet" && packet.as_slice() == bytes,
        Heard::Stray(byte) => word == "stray" && [*byte].as_slice() == bytes,
        Heard::Damaged => word == "damaged",
        Heard::TooLong => word == "too long",
        Heard::Resend => word == "resend",
        Heard::Nothing => word == "nothing",
        Heard::Interrupt => word == "interrupt",
        Heard::Received => word == "received",
    }
}

// One reader hears all of these, one behind the other.
#[test]
fn packets_are_read(rt: HostRuntime) {
    let cases: [(&[u8], &str, &[u8]); 15] = [
        (b"$g#67", "packet", b"g"),
        (b"+$qSupported#37", "packet", b"qSupported"),
        (b"$#00", "packet", b""),
        (b"$}]a#3b", "packet", b"}a"),
        (b"$}\x03}\x04#01", "packet", b"#$"),
        (b"$g#68", "damaged", b""),
        (b"$g}#e4", "damaged", b""),
        (b"$g$g#f2", "damaged", b""),
        (b"$g#67", "packet", b"g"),
        (b"+", "received", b""),
        (b"-", "resend", b""),
        (b"\x03", "interrupt", b""),
        (b"x", "stray", b"x"),
        (b"$", "nothing", b""),
        (b"\x03", "nothing", b""),
    ];
    let mut reader = Reader::new();
    for (sent, word, bytes) in cases {
        let heard = last_heard(&mut reader, sent);
        assert!(rt; is_heard(&heard, word, bytes), "{word}: {sent:?}");
    }
    let mut reader = Reader::new();
    let _ = reader.hear(b'$');
    for _ in 0..16385_u32 {
        let _ = reader.hear(b'a');
    }
    let heard = last_heard(&mut reader, b"#00");
    assert!(rt; is_heard(&heard, "too long", b""));
    let heard = last_heard(&mut reader, b"$g#67");
    assert!(rt; is_heard(&heard, "packet", b"g"));
}
