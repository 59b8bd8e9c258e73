//! A line of a listing, and devices that fail.

use ia_text::{disassemble, write_line};
use std::io::{self, ErrorKind, Write};
use std::test::Fail;
use text_out::{Out, ToVec, ToWriter, WriteFault};

const PROGRAM: &[u8] =
    b"\xc7\xf8\x0f\x00\x00\x00\xa1\x00\x10\x00\x00\x40\xa3\x00\x10\x00\x00\x0f\x01\xd5\xf4\xf4";

const LISTING: &[u8] = b"\
00000100  c7f80f000000              xbegin 0x115\n\
00000106  a100100000                mov eax, dword [0x1000]\n\
0000010b  40                        inc eax\n\
0000010c  a300100000                mov dword [0x1000], eax\n\
00000111  0f01d5                    xend\n\
00000114  f4                        hlt\n\
00000115  f4                        hlt\n";

#[test]
fn a_line(rt: HostRuntime) -> Result<(), Fail> {
    let mut out = ToVec::new(Vec::new(rt.alloc()));
    assert_eq!(rt; write_line(b"", 0, &mut out)?, 0);
    assert_eq!(rt;
        write_line(
            b"\xf0\x81\x84\x8b\xf0\xde\xbc\x9a\x78\x56\x34\x12\xf4",
            0,
            &mut out
        )?,
        12
    );
    assert_eq!(rt; write_line(b"\xf0", 0xc, &mut out)?, 1);
    let lines: &[u8] = b"\
00000000  f081848bf0debc9a78563412  lock add dword [ebx+ecx*4+0x9abcdef0], 0x12345678\n\
0000000c  f0                        db 0xf0\n";
    assert_eq!(rt; out.bytes.as_slice(), lines);
    Ok(())
}

/// Takes at most so many bytes at a write, and so many writes; then it takes nothing, or fails.
#[derive(Drop)]
struct Narrow {
    taken: Vec<u8>,
    most: usize,
    left: u32,
    fails: bool,
}

impl Write for Narrow {
    fn write(&mut self, buf: &[u8]) -> io::Result<usize> {
        if self.left == 0 {
            return if self.fails {
                Err(io::Error::from(ErrorKind::BrokenPipe))
            } else {
                Ok(0)
            };
        }
        self.left -= 1;
        let count = buf.len().min(self.most);
        self.taken.extend_from_slice(&buf[..count])?;
        Ok(count)
    }

    fn flush(&mut self) -> io::Result<()> {
        Ok(())
    }
}

#[test]
fn a_byte_at_a_time(rt: HostRuntime) -> Result<(), Fail> {
    let mut out = ToWriter::new(Narrow {
        taken: Vec::new(rt.alloc()),
        most: 1,
        left: 10_000,
        fails: true,
    });
    disassemble(PROGRAM, 0x100, &mut out)?;
    assert_eq!(rt; out.writer.taken.as_slice(), LISTING);
    assert_eq!(rt; out.failures(), 0);
    Ok(())
}

#[test]
fn fails_in_turn(rt: HostRuntime) -> Result<(), Fail> {
    let code = [0x90; 400];
    let mut whole = ToVec::new(Vec::new(rt.alloc()));
    disassemble(&code, 0, &mut whole)?;
    assert_eq!(rt; whole.bytes.len(), 400 * 40);
    for left in 0..6 {
        for fails in [true, false] {
            let mut out = ToWriter::new(Narrow {
                taken: Vec::new(rt.alloc()),
                most: 100_000,
                left,
                fails,
            });
            let result = disassemble(&code, 0, &mut out);
            let taken = out.writer.taken.as_slice();
            if left < 5 {
                assert_eq!(rt; result, Err(WriteFault::Write));
                assert_eq!(rt; out.failures(), 1);
                assert!(rt; taken.len() < whole.bytes.len());
            } else {
                assert_eq!(rt; result, Ok(()));
                assert_eq!(rt; out.failures(), 0);
                assert_eq!(rt; taken.len(), whole.bytes.len());
            }
            assert!(rt; whole.bytes.as_slice().starts_with(taken));
        }
    }
    Ok(())
}

#[test]
fn the_count_stays_at_its_greatest_number(rt: HostRuntime) {
    let mut out = ToWriter::new(Narrow {
        taken: Vec::new(rt.alloc()),
        most: 1,
        left: 0,
        fails: true,
    });
    out.failures = u64::MAX;
    let result = write_line(b"\xf4", 0, &mut out);
    assert_eq!(rt; result, Err(WriteFault::Write));
    assert_eq!(rt; WriteFault::Write.code(), 5);
    assert_eq!(rt; out.failures(), u64::MAX);
}
