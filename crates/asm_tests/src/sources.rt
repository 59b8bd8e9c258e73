//! How many entries sources have, which no command tells.

use crate::programs::{ELIDED, WORKED};
use ia_source::entries;

#[test]
fn entries_are_counted(rt: HostRuntime) {
    let cases: [(&[u8], usize); 11] = [
        (WORKED, 9),
        (ELIDED, 27),
        (b"", 0),
        (b"a:\r\n  b ; a comment\n.c: nop", 4),
        (b"BITS 32\nglobal start\nsection .data\nsection .text\n", 0),
        (b"org 100h\nstart: resb 2 + 3\nalign 4096\n", 4),
        (b"db 'ab', 'c', '', 1 - x\ndd -1, y\n", 6),
        (b"db 1, 2, 'a', 255, 256 - 1, -1, 0\n", 6),
        (b"dd 1, 0ffffffffh, y\ndd 2\n", 3),
        (b"x equ 5\ny: equ x + 1\n.z equ 1\n", 3),
        (b"s:\n.a:\ne equ 1\n.b:\nt:\n.a:\ns.c:\n", 7),
    ];
    for (source, count) in cases {
        match entries(rt.alloc(), source) {
            Ok(found) => assert_eq!(rt; found.as_slice().len(), count),
            Err(fault) => assert!(rt; false, "{fault:?}"),
        }
    }
}
