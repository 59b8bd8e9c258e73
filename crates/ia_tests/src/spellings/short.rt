//! Every string of at most two bytes, and the fronts of spellings.

use super::table::ASSEMBLED;
use ia_decode::decode;
use ia_encode::encode;
use ia_insn::DecodeFault;
use std::alloc::Global;
use std::process::Abort;

/// Whether bytes give no instruction, or one whose spelling reads back as it, however long the bytes are.
fn reads_back(bytes: &[u8]) -> bool {
    match decode(bytes) {
        Err(_) => true,
        Ok((insn, length)) => {
            let spelling = encode(&insn);
            usize::from(length) <= bytes.len()
                && decode(spelling.as_slice()) == Ok((insn, spelling.as_slice().len() as u8))
        }
    }
}

#[test]
fn at_most_two_bytes(rt: HostRuntime) {
    assert!(rt; reads_back(b""));
    for first in 0..=255 {
        assert!(rt; reads_back(&[first]), "{first:x}");
        for second in 0..=255 {
            assert!(rt; reads_back(&[first, second]), "{first:x} {second:x}");
        }
    }
}

/// Whether each front of a row's bytes that is not all of them is too short.
fn fronts_are_short(alloc: Global, row: &str) -> bool {
    let Some((_, rest)) = row.split_once(' ') else {
        return false;
    };
    let Some((digits, _)) = rest.split_once(' ') else {
        return false;
    };
    let Ok(bytes) = hex::decode(alloc, digits) else {
        return false;
    };
    for count in 0..bytes.as_slice().len() {
        if decode(&bytes.as_slice()[..count]) != Err(DecodeFault::Short) {
            return false;
        }
    }
    true
}

#[test]
fn fronts(rt: HostRuntime) {
    for row in ASSEMBLED.lines() {
        assert!(rt; fronts_are_short(rt.alloc(), row), "{row}");
    }
}
