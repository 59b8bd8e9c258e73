//! Values from the tables of SDM volume 2A, "32-Bit Addressing Forms with the ModR/M Byte" and "with the SIB Byte".

use ia_insn::{DecodeFault, Insn, Mem, Op, Operand, is_encodable};
use ia_modrm::{
    Bytes, ModRm, byte, long, memory, operand, put_long, put_operand, signed_byte, word,
};
use std::process::Abort;

#[test]
fn numbers(rt: HostRuntime) {
    let bytes: &[u8] = &[0xfe, 0xff, 0x01, 0x80, 0x90];
    assert_eq!(rt; byte(bytes), Ok((0xfe, &bytes[1..])));
    assert_eq!(rt; signed_byte(bytes), Ok((0xffff_fffe, &bytes[1..])));
    assert_eq!(rt; word(bytes), Ok((0xfffe, &bytes[2..])));
    assert_eq!(rt; long(bytes), Ok((0x8001_fffe, &bytes[4..])));
    assert_eq!(rt; byte(&[]), Err(DecodeFault::Short));
    assert_eq!(rt; signed_byte(&[]), Err(DecodeFault::Short));
    assert_eq!(rt; word(&[1]), Err(DecodeFault::Short));
    assert_eq!(rt; long(&[1, 2, 3]), Err(DecodeFault::Short));
}

/// A ModRM byte, its reg field, whether the displacement is held at 32 bits, what stands behind the byte, and the
/// operand.
type OperandRow = (u8, u8, bool, &'static [u8], Operand);

macro_rules! mem {
    ($base:expr, $index:expr, $scale:expr, $disp:expr) => {
        Operand::Mem(Mem {
            base: $base,
            index: $index,
            scale: $scale,
            disp: $disp,
        })
    };
}

const ROWS: [OperandRow; 16] = [
    (0xc0, 0, false, &[], Operand::Reg(0)),
    (0xfa, 7, false, &[], Operand::Reg(2)),
    (0x03, 0, false, &[], mem!(Some(3), None, 1, 0)),
    (0x4f, 1, false, &[0x80], mem!(Some(7), None, 1, 0xffff_ff80)),
    (
        0x96,
        2,
        false,
        &[0x80, 0, 0, 0],
        mem!(Some(6), None, 1, 0x80),
    ),
    (0x5d, 3, false, &[0], mem!(Some(5), None, 1, 0)),
    (
        0x25,
        4,
        false,
        &[4, 3, 2, 1],
        mem!(None, None, 1, 0x0102_0304),
    ),
    (0x2c, 5, false, &[0x24], mem!(Some(4), None, 1, 0)),
    (0x74, 6, false, &[0x24, 0x7f], mem!(Some(4), None, 1, 0x7f)),
    (
        0x3c,
        7,
        false,
        &[0x8d, 1, 0, 0, 0],
        mem!(None, Some(1), 4, 1),
    ),
    (0x04, 0, false, &[0x88], mem!(Some(0), Some(1), 4, 0)),
    (0x44, 0, false, &[0xed, 0], mem!(Some(5), Some(5), 8, 0)),
    (
        0x84,
        0,
        false,
        &[0x55, 0, 1, 0, 0],
        mem!(Some(5), Some(2), 2, 0x100),
    ),
    (0x83, 0, true, &[0, 0, 0, 0], mem!(Some(3), None, 1, 0)),
    (
        0x84,
        0,
        true,
        &[0x24, 1, 0, 0, 0],
        mem!(Some(4), None, 1, 1),
    ),
    (0x25, 4, true, &[1, 0, 0, 0], mem!(None, None, 1, 1)),
];

fn reads(rt: &impl Abort, head: ModRm, rest: &[u8], want: Operand) {
    let answer = operand(head, rest);
    assert!(rt; answer.is_ok(), "{rest:?}");
    if let Ok((found, behind)) = answer {
        assert_eq!(rt; found, want);
        assert!(rt; behind.is_empty());
    }
    if let Operand::Mem(place) = want {
        let answer = memory(head.mode, head.rm, rest);
        assert!(rt; answer.is_ok(), "{rest:?}");
        if let Ok((found, behind)) = answer {
            assert_eq!(rt; found, place);
            assert!(rt; behind.is_empty());
        }
    }
}

#[test]
fn operands_read(rt: HostRuntime) {
    for (first, reg, _wide, rest, want) in ROWS {
        let head = ModRm::from_byte(first);
        assert_eq!(rt; head.reg, reg);
        reads(&rt, head, rest, want);
    }
}

#[test]
fn operands_written(rt: HostRuntime) {
    for (first, reg, wide, rest, operand) in ROWS {
        let pop = Insn {
            lock: false,
            op: Op::Pop(operand),
        };
        assert!(rt; reg < 8);
        assert!(rt; is_encodable(&pop));
        let mut out = Bytes::new();
        put_operand(&mut out, wide, reg, &operand);
        let written = out.as_slice();
        assert_eq!(rt; written.first(), Some(&first));
        assert_eq!(rt; written.get(1..), Some(rest));
    }
}

#[test]
fn a_number_written(rt: HostRuntime) {
    let mut out = Bytes::new();
    put_long(&mut out, 0x1234_5678);
    assert_eq!(rt; out.as_slice(), [0x78, 0x56, 0x34, 0x12].as_slice());
}
