//! A program that was loaded, and image text by example.

use ia_flat::Flat;
use ia_image::{ImageFault, LoadFault, load, read_image, write_image};
use std::test::Fail;
use text_out::{Out, ToVec};

#[test]
fn a_program(rt: HostRuntime) -> Result<(), Fail> {
    let program = load(rt.alloc(), b"\xf4\xf4\x07", 256, 2, 12_288, &[256, 257])?;
    let copy = program.copy(rt.alloc())?;
    assert_eq!(rt; copy.cores(), 2);
    assert_eq!(rt; copy.entry(0), Some(256));
    assert_eq!(rt; copy.entry(1), Some(257));
    assert_eq!(rt; copy.entry(2), None);
    assert_eq!(rt; copy.mem_size(), 12_288);
    assert_eq!(rt; copy.base(), 256);
    assert_eq!(rt; copy.bytes(), b"\xf4\xf4\x07".as_slice());
    assert_eq!(rt; copy.code(), b"\xf4\xf4".as_slice());
    let outside = load(rt.alloc(), b"\xf4\xf4\x07", 256, 2, 12_288, &[256, 258]);
    assert_eq!(rt; outside.err().map(LoadFault::code), Some(24));
    Ok(())
}

/// INC EAX; DEC ECX; PUSH EDX; JNZ; XEND; NOP; and then LOCK INC dword [1000h], ADD AL, CL, HLT, which are no usual
/// ones, and a byte that begins nothing.
const CODE: [u8; 20] = [
    0x40, 0x49, 0x52, 0x75, 0xfb, 0x0f, 0x01, 0xd5, 0x90, 0xf0, 0xff, 0x05, 0, 0x10, 0, 0, 0x00,
    0xc8, 0xf4, 0x0f,
];

// What the rows of this program are called here.
fn name_of(row: Flat) -> &'static str {
    match row {
        Flat::Inc(0) => "inc eax",
        Flat::Dec(1) => "dec ecx",
        Flat::Push(2) => "push edx",
        Flat::End => "xend",
        Flat::Nothing => "nothing",
        Flat::Other => "no row",
        _ => "another row",
    }
}

#[test]
fn rows_and_lines(rt: HostRuntime) -> Result<(), Fail> {
    let program = load(rt.alloc(), &CODE, 256, 20, 12_288, &[256])?;
    assert_eq!(rt; program.rows().len(), 20);
    assert_eq!(rt; program.lines().len(), 20);
    let cases = [
        (0, "inc eax", 1),
        (1, "dec ecx", 1),
        (2, "push edx", 1),
        (5, "xend", 3),
        (8, "nothing", 1),
        (9, "no row", 7),
        (16, "no row", 2),
        (18, "no row", 1),
        (19, "no row", 0),
    ];
    for (offset, row, len) in cases {
        let line = program.lines().get(offset).copied();
        assert_eq!(rt; line.map(|line| name_of(line.row)), Some(row));
        assert_eq!(rt; line.map(|line| line.len), Some(len));
        let length = program.insn_at(offset as u32).map_or(0, |(_, len)| len);
        assert_eq!(rt; length, len);
    }
    Ok(())
}

#[test]
fn texts(rt: HostRuntime) -> Result<(), Fail> {
    let cases: [(&[u8], &[u8]); 6] = [
        (b"image 1 100 e\nf4\n", b"\xf4"),
        (b"image 1 00000100 0000000E", b""),
        (b"image 1 100 e\r\n\r\n\nF4f5\r\naB\n\n", b"\xf4\xf5\xab"),
        (
            b"image 1 100 e\n0123456789abcdef",
            b"\x01\x23\x45\x67\x89\xab\xcd\xef",
        ),
        (
            b"image 1 100 e\n00\n0102\n030405",
            b"\x00\x01\x02\x03\x04\x05",
        ),
        (b"image 1 100 e\n", b""),
    ];
    for (text, bytes) in cases {
        let image = read_image(rt.alloc(), text)?;
        assert_eq!(rt; image.bytes.as_slice(), bytes);
        assert_eq!(rt; image.base, 256);
        assert_eq!(rt; image.code_len, 14);
    }
    Ok(())
}

#[test]
fn broken_texts(rt: HostRuntime) {
    let cases: [(&[u8], usize); 16] = [
        (b"", 1),
        (b"\nimage 1 100 e\n", 1),
        (b"image 2 100 e\n", 1),
        (b"image 1 100\n", 1),
        (b"image 1  100 e\n", 1),
        (b"image 1 100 e \n", 1),
        (b"image 1 123456789 e\n", 1),
        (b"image 1 100 0x1\n", 1),
        (b"Image 1 100 e\n", 1),
        (b"image 1 100 e\r", 1),
        (b"image 1 100 e\r\r\n", 1),
        (b"image 1 100 e\nf4\nf\n", 3),
        (b"image 1 100 e\n\nf4\n \n", 4),
        (b"image 1 100 e\nfg\n0\n", 2),
        (b"image 1 100 e\nf4 f4\n", 2),
        (b"image 1 100 e\nf4\r", 2),
    ];
    for (text, line) in cases {
        let fault = read_image(rt.alloc(), text).err();
        assert_eq!(rt; fault, Some(ImageFault::BadImageText(line)));
    }
    assert_eq!(rt; ImageFault::BadImageText(3).code(), 27);
    assert_eq!(rt; ImageFault::BadImageText(3).line(), Some(3));
}

#[test]
fn written(rt: HostRuntime) -> Result<(), Fail> {
    let mut bytes = [0xa5; 34];
    bytes[0] = 0x0f;
    let mut out = ToVec::new(Vec::new(rt.alloc()));
    write_image(&bytes, 0x100, 0xABC, &mut out)?;
    let text: &[u8] = b"\
image 1 100 abc\n\
0fa5a5a5a5a5a5a5a5a5a5a5a5a5a5a5a5a5a5a5a5a5a5a5a5a5a5a5a5a5a5a5\n\
a5a5\n";
    assert_eq!(rt; out.bytes.as_slice(), text);
    assert_eq!(rt; out.failures(), 0);
    let mut none = ToVec::new(Vec::new(rt.alloc()));
    write_image(b"", 0, u32::MAX, &mut none)?;
    assert_eq!(rt; none.bytes.as_slice(), b"image 1 0 ffffffff\n".as_slice());
    Ok(())
}
