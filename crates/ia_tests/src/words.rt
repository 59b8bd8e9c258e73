//! Words, bytes, lines and the numbers of conditions, worked out by hand.

use ia_word::{Condition, Width, from_le, le_bytes, line_of, lines_of, parity_even, sign_extend};

#[test]
fn bytes_of_a_doubleword(rt: HostRuntime) {
    assert_eq!(rt; sign_extend(0x7f), 0x7f);
    assert_eq!(rt; sign_extend(0x80), 0xffff_ff80);
    assert!(rt; parity_even(0));
    assert!(rt; parity_even(0x81));
    assert!(rt; !parity_even(0x80));
    assert_eq!(rt; le_bytes(0x1234_5678), [0x78, 0x56, 0x34, 0x12]);
    assert_eq!(rt; from_le([0x78, 0x56, 0x34, 0x12]), 0x1234_5678);
}

#[test]
fn lines_of_an_access(rt: HostRuntime) {
    assert_eq!(rt; line_of(0x103f), 0x40);
    assert_eq!(rt; lines_of(0x103c, Width::D).as_slice(), [0x40].as_slice());
    assert_eq!(rt;
        lines_of(0x103d, Width::D).as_slice(),
        [0x40, 0x41].as_slice()
    );
    assert_eq!(rt; lines_of(0x103f, Width::B).as_slice(), [0x40].as_slice());
    assert_eq!(rt;
        lines_of(0xffff_fffc, Width::D).as_slice(),
        [0x3ff_ffff].as_slice()
    );
    assert_eq!(rt; (Width::B.bytes(), Width::D.bytes()), (1, 4));
    assert_eq!(rt;
        (Width::B.range(), Width::D.range()),
        (0x100, 0x1_0000_0000)
    );
}

#[test]
fn conditions_by_number(rt: HostRuntime) {
    assert_eq!(rt; Condition::of(2), Condition::Below);
    assert_eq!(rt; Condition::of(15), Condition::Greater);
    for number in 0u8..16 {
        assert_eq!(rt; Condition::of(number).number(), number);
    }
}
