//! Bytes and instructions: read, printed and written again, and the faults of bytes that are none.

mod short;
mod table;

ghost use Rattle.std.specs.Prelude.{IsTrue};
ghost use Rattle.ia_insn.specs.Encoding.{is_encodable};

use crate::rows::is_printed;
use ia_decode::decode;
use ia_encode::{encode, encode_with};
use ia_insn::{DecodeFault, Insn};
use std::alloc::Global;
use std::process::Abort;
use table::{ASSEMBLED, BY_HAND, LOCK_NOT_ALLOWED, NOT_IN_SUBSET, SHORT};

type Answer = Result<(Insn, u8), DecodeFault>;

/// Whether an instruction is written as these bytes by each call that the marks name.
fn is_written(insn: &Insn, marks: &str, bytes: &[u8]) -> bool
    requires { IsTrue (is_encodable insn.now) }
{
    (!marks.contains('e') || encode(insn).as_slice() == bytes)
        && (!marks.contains('n') || encode_with(insn, true, false).as_slice() == bytes)
        && (!marks.contains('p') || encode_with(insn, false, true).as_slice() == bytes)
        && (!marks.contains('b') || encode_with(insn, true, true).as_slice() == bytes)
}

/// Whether bytes are, all of them, the instruction of this text, and are written again where the marks say so.
fn agrees(alloc: Global, marks: &str, bytes: &[u8], text: &str) -> bool {
    match decode(bytes) {
        Err(_) => false,
        Ok((insn, length)) => {
            usize::from(length) == bytes.len()
                && is_printed(alloc, &insn, text)
                && is_written(&insn, marks, bytes)
        }
    }
}

/// Whether a row of a table agrees: marks, bytes in hex and a text.
fn row_agrees(alloc: Global, row: &str) -> bool {
    let Some((marks, rest)) = row.split_once(' ') else {
        return false;
    };
    let Some((digits, text)) = rest.split_once(' ') else {
        return false;
    };
    match hex::decode(alloc, digits) {
        Err(_) => false,
        Ok(bytes) => agrees(alloc, marks, bytes.as_slice(), text),
    }
}

#[test]
fn assembled(rt: HostRuntime) {
    for row in ASSEMBLED.lines() {
        assert!(rt; row_agrees(rt.alloc(), row), "{row}");
    }
}

#[test]
fn by_hand(rt: HostRuntime) {
    for row in BY_HAND.lines() {
        assert!(rt; row_agrees(rt.alloc(), row), "{row}");
    }
}

/// Whether bytes in hex are refused with this fault.
fn is_refused(alloc: Global, digits: &str, fault: DecodeFault) -> bool {
    match hex::decode(alloc, digits) {
        Err(_) => false,
        Ok(bytes) => decode(bytes.as_slice()).err() == Some(fault),
    }
}

fn refuses(rt: &impl Abort, alloc: Global, fault: DecodeFault, rows: &str) {
    for digits in rows.lines() {
        assert!(rt; is_refused(alloc, digits, fault), "{digits}");
    }
}

#[test]
fn faults(rt: HostRuntime) {
    refuses(&rt, rt.alloc(), DecodeFault::Short, SHORT);
    refuses(&rt, rt.alloc(), DecodeFault::NotInSubset, NOT_IN_SUBSET);
    refuses(
        &rt,
        rt.alloc(),
        DecodeFault::LockNotAllowed,
        LOCK_NOT_ALLOWED,
    );
}

/// How often each answer came.
#[derive(Clone, Copy, Debug, PartialEq, Eq)]
struct Tally {
    found: u16,
    short: u16,
    not_in_subset: u16,
    lock_not_allowed: u16,
}

const EMPTY: Tally = Tally {
    found: 0,
    short: 0,
    not_in_subset: 0,
    lock_not_allowed: 0,
};

impl Tally {
    fn with(self, answer: Answer) -> Tally {
        match answer {
            Ok(_) => Tally {
                found: self.found.wrapping_add(1),
                ..self
            },
            Err(DecodeFault::Short) => Tally {
                short: self.short.wrapping_add(1),
                ..self
            },
            Err(DecodeFault::NotInSubset) => Tally {
                not_in_subset: self.not_in_subset.wrapping_add(1),
                ..self
            },
            Err(DecodeFault::LockNotAllowed) => Tally {
                lock_not_allowed: self.lock_not_allowed.wrapping_add(1),
                ..self
            },
        }
    }
}

/// The answers for each of the 256 bytes, alone and with zeros behind it.
fn first() -> (Tally, Tally) {
    let mut alone = EMPTY;
    let mut filled = EMPTY;
    for byte in 0..=255 {
        alone = alone.with(decode(&[byte]));
        filled = filled.with(decode(&[byte, 0, 0, 0, 0, 0, 0, 0, 0, 0, 0]));
    }
    (alone, filled)
}

/// The answers for each of the 256 bytes behind another one.
fn behind(front: u8) -> (Tally, Tally) {
    let mut alone = EMPTY;
    let mut filled = EMPTY;
    for byte in 0..=255 {
        alone = alone.with(decode(&[front, byte]));
        filled = filled.with(decode(&[front, byte, 0, 0, 0, 0, 0, 0, 0, 0, 0, 0]));
    }
    (alone, filled)
}

/// The counts were made from the opcode list: 167 first bytes begin an instruction, 49 of them alone are one, and 0F,
/// F0 and F3 begin others.
#[test]
fn first_bytes(rt: HostRuntime) {
    let alone = Tally {
        found: 49,
        short: 121,
        not_in_subset: 86,
        lock_not_allowed: 0,
    };
    let filled = Tally {
        found: 168,
        short: 0,
        not_in_subset: 88,
        lock_not_allowed: 0,
    };
    assert_eq!(rt; first(), (alone, filled));
    let locked = Tally {
        found: 21,
        short: 0,
        not_in_subset: 89,
        lock_not_allowed: 146,
    };
    assert_eq!(rt; behind(0xf0).1, locked);
}

/// 59 bytes behind 0F begin an instruction, and UD2 and CPUID are two of them.
#[test]
fn bytes_behind_0f(rt: HostRuntime) {
    let alone = Tally {
        found: 2,
        short: 57,
        not_in_subset: 197,
        lock_not_allowed: 0,
    };
    let filled = Tally {
        found: 56,
        short: 0,
        not_in_subset: 200,
        lock_not_allowed: 0,
    };
    assert_eq!(rt; behind(0x0f), (alone, filled));
}
