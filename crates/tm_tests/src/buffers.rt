//! Each call of the buffer once, on addresses and values worked out by hand.

use ia_word::Width;
use tm_buffer::{Buffer, Full};

/// Lines 40h and 41h meet at 1040h.
#[test]
fn a_doubleword_over_a_line_end(rt: HostRuntime) {
    let mut buffer = Buffer::with_lines(rt.alloc(), 4).expect(&rt, "memory");
    assert!(rt; buffer.put(0x103e, Width::D, 0x1122_3344).is_ok());
    assert_eq!(rt; buffer.lines(), 2);
    assert_eq!(rt; buffer.line_at(0), 0x40);
    assert_eq!(rt; buffer.line_at(1), 0x41);
    assert_eq!(rt; buffer.overlay(0x103e, Width::D, 0), 0x1122_3344);
    assert_eq!(rt; buffer.overlay(0x103f, Width::D, 0xaabb_ccdd), 0xaa11_2233);
    assert_eq!(rt; buffer.overlay(0x1041, Width::B, 0), 0x11);
    assert_eq!(rt; buffer.overlay(0x1042, Width::B, 0x99), 0x99);
}

#[test]
fn one_byte_within_a_load(rt: HostRuntime) {
    let mut buffer = Buffer::with_lines(rt.alloc(), 1).expect(&rt, "memory");
    assert!(rt; buffer.put(0x1001, Width::B, 0x55).is_ok());
    assert_eq!(rt; buffer.overlay(0x1000, Width::D, 0), 0x0000_5500);
    assert_eq!(rt; buffer.overlay(0x1000, Width::D, 0x1234_5678), 0x1234_5578);
    assert_eq!(rt; buffer.overlay(0x0fff, Width::D, 0x1234_5678), 0x1255_5678);
}

#[test]
fn room_is_counted_in_lines(rt: HostRuntime) {
    let mut buffer = Buffer::with_lines(rt.alloc(), 1).expect(&rt, "memory");
    for address in 0x1000..0x1040 {
        assert!(rt; buffer.put(address, Width::B, 7).is_ok(), "at {address:x}");
    }
    assert_eq!(rt; buffer.put(0x1040, Width::B, 1), Err(Full));
    assert_eq!(rt; buffer.put(0x103e, Width::D, 1), Err(Full));
    assert_eq!(rt; buffer.overlay(0x103e, Width::D, 0), 0x0000_0707);
    assert_eq!(rt; Full.code(), 30);
    buffer.clear();
    assert_eq!(rt; buffer.lines(), 0);
    assert!(rt; buffer.put(0x1040, Width::B, 1).is_ok());
    assert_eq!(rt; buffer.overlay(0x103e, Width::D, 0), 0x0001_0000);
}

#[test]
fn exactly_the_stored_bytes_are_written(rt: HostRuntime) {
    let mut buffer = Buffer::with_lines(rt.alloc(), 3).expect(&rt, "memory");
    let mut memory = [0xee; 256];
    assert!(rt; buffer.put(0x3e, Width::D, 0x1122_3344).is_ok());
    assert!(rt; buffer.put(0xff, Width::B, 0).is_ok());
    assert!(rt; buffer.put(0x3f, Width::B, 0xab).is_ok());
    buffer.drain_into(&mut memory);
    for (address, byte) in memory.iter().enumerate() {
        let want = match address {
            0x3e => 0x44,
            0x3f => 0xab,
            0x40 => 0x22,
            0x41 => 0x11,
            0xff => 0x00,
            _ => 0xee,
        };
        assert_eq!(rt; *byte, want, "at {address:x}");
    }
    assert_eq!(rt; buffer.lines(), 0);
    assert_eq!(rt; buffer.overlay(0x3e, Width::D, 5), 5);
}

/// Slots in any order, and again after `clear`.
#[test]
fn a_doubleword_over_a_line_end_by_slots(rt: HostRuntime) {
    let mut buffer = Buffer::with_lines(rt.alloc(), 4).expect(&rt, "memory");
    buffer.put_at(0x103e, Width::D, 0x1122_3344, [Some(3), Some(1)]);
    assert_eq!(rt; buffer.lines(), 2);
    assert_eq!(rt; buffer.overlay(0x103e, Width::D, 0), 0x1122_3344);
    assert_eq!(rt;
        buffer.overlay_at(0x103e, Width::D, 0, [Some(3), Some(1)]),
        0x1122_3344
    );
    assert_eq!(rt;
        buffer.overlay_at(0x1040, Width::D, 0xaabb_ccdd, [Some(1), None]),
        0xaabb_1122
    );
    assert_eq!(rt;
        buffer.overlay_at(0x1041, Width::B, 0, [Some(1), None]),
        0x11
    );
    assert_eq!(rt;
        buffer.overlay_at(0x107e, Width::D, 0x99, [Some(1), None]),
        0x99
    );
    buffer.clear();
    buffer.put_at(0x2000, Width::B, 5, [Some(1), None]);
    assert_eq!(rt; buffer.overlay_at(0x2000, Width::D, 0, [Some(1), None]), 5);
    assert_eq!(rt; buffer.line_at(0), 0x80);
}

#[test]
fn a_line_filled_by_slots(rt: HostRuntime) {
    let mut buffer = Buffer::with_lines(rt.alloc(), 1).expect(&rt, "memory");
    buffer.put_at(0x1000, Width::D, 0x0403_0201, [Some(0), None]);
    buffer.put_at(0x1002, Width::D, 0x0807_0605, [Some(0), None]);
    assert_eq!(rt;
        buffer.overlay_at(0x1000, Width::D, 0, [Some(0), None]),
        0x0605_0201
    );
    assert_eq!(rt;
        buffer.overlay_at(0x1003, Width::D, 0xeeee_eeee, [Some(0), None]),
        0xee08_0706
    );
    assert_eq!(rt; buffer.lines(), 1);
}

/// Neither the order of the stores nor the room counts, nor what was forgotten.
#[test]
fn the_same_bytes_in_another_order(rt: HostRuntime) {
    let mut one = Buffer::with_lines(rt.alloc(), 4).expect(&rt, "memory");
    let mut other = Buffer::with_lines(rt.alloc(), 3).expect(&rt, "memory");
    assert!(rt; one.is_same(&other));
    assert!(rt; other.put(0x2000, Width::D, 0x9999_9999).is_ok());
    other.clear();
    assert!(rt; one.put(0x1000, Width::D, 0x1122_3344).is_ok());
    assert!(rt; one.put(0x2001, Width::B, 0x55).is_ok());
    assert!(rt; other.put(0x2001, Width::B, 0x55).is_ok());
    assert!(rt; !one.is_same(&other) && !other.is_same(&one), "a line more");
    assert!(rt; other.put(0x1000, Width::D, 0x1122_3344).is_ok());
    assert!(rt; one.is_same(&other) && other.is_same(&one), "two orders");
    assert!(rt; other.put(0x1002, Width::B, 0x23).is_ok());
    assert!(rt;
        !one.is_same(&other) && !other.is_same(&one),
        "another byte"
    );
    assert!(rt; other.put(0x1002, Width::B, 0x22).is_ok());
    assert!(rt;
        one.is_same(&other) && other.is_same(&one),
        "the first byte again"
    );
    assert!(rt; other.put(0x1004, Width::B, 0).is_ok());
    assert!(rt; !one.is_same(&other) && !other.is_same(&one), "a byte more");
}
