//! The program of most tests here: a transaction that adds one to a number in memory.

use tm_core::Limits;

/// Room for more lines than it uses.
pub const LIMITS: Limits = Limits {
    read_lines: 512,
    write_lines: 512,
    stores: 0,
};

/// XBEGIN at 100h with fallback 115h, a load of [1000h], INC EAX, a store to [1000h], XEND at 111h, and two HLT.
pub const INCREMENT: [u8; 22] = [
    0xc7, 0xf8, 0x0f, 0, 0, 0, 0xa1, 0, 0x10, 0, 0, 0x40, 0xa3, 0, 0x10, 0, 0, 0x0f, 0x01, 0xd5,
    0xf4, 0xf4,
];
