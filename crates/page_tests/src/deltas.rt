//! The steps of a small run as deltas, and their lines.

use ia_image::load;
use page_steps::{
    kind_letter, register_values, store_numbers, write_numbers, write_state, write_step,
    write_stored,
};
use std::alloc::Global;
use std::test::Fail;
use text_out::ToVec;
use tm_core::{Limits, Machine};
use tm_model::{CoreState, Outcome};
use tm_page::{Before, StoredByte, delta_of};

// XBEGIN at 100h with fallback 115h, a load of [1000h], INC EAX, a store to [1000h], XEND at 111h, and two HLT.
const INCREMENT: [u8; 22] = [
    0xc7, 0xf8, 0x0f, 0, 0, 0, 0xa1, 0, 0x10, 0, 0, 0x40, 0xa3, 0, 0x10, 0, 0, 0x0f, 0x01, 0xd5,
    0xf4, 0xf4,
];

// The same, and behind it at 116h a store of 5 to [1000h] and HLT.
const STORE: [u8; 33] = [
    0xc7, 0xf8, 0x0f, 0, 0, 0, 0xa1, 0, 0x10, 0, 0, 0x40, 0xa3, 0, 0x10, 0, 0, 0x0f, 0x01, 0xd5,
    0xf4, 0xf4, 0xc7, 0x05, 0, 0x10, 0, 0, 5, 0, 0, 0, 0xf4,
];

// The addresses that core 0 keeps before its XEND.
const KEPT: [u64; 4] = [0x1000, 0x1001, 0x1002, 0x1003];

// The lines of the steps of two cores, each in a transaction, of which the first to commit dooms the other.
const LINES: &[u8] = b"[0,\"b\",[8,262],{\"q\":\"tx1\"}]\n\
[0,\"i\",[8,267],{\"r\":[64],\"l\":[4096,4]}]\n\
[1,\"b\",[8,262],{\"q\":\"tx1\"}]\n\
[1,\"i\",[0,0,8,267],{\"r\":[64],\"l\":[4096,4]}]\n\
[0,\"i\",[0,1,8,268]]\n\
[0,\"i\",[8,273],{\"w\":[64],\"t\":[4096,\"01000000\"]}]\n\
[0,\"c\",[8,276],{\"q\":\"run\",\"m\":[4096,\"01000000\"],\"d\":[[1,64,1]]}]\n\
[1,\"a\",[0,6,8,277],{\"q\":\"run\"}]\n";

// The lines of the steps of a core whose store is pending, and in memory only by the drain that its HLT waits for, by
// which it dooms the transaction of the other.
const DRAINED: &[u8] = b"[1,\"b\",[8,262],{\"q\":\"tx1\"}]\n\
[1,\"i\",[0,0,8,267],{\"r\":[64],\"l\":[4096,4]}]\n\
[0,\"p\",[8,288],{\"s\":[4096,4,5]}]\n\
[0,\"d\",[],{\"m\":[4096,\"05000000\"],\"d\":[[1,64,1]]}]\n\
[1,\"a\",[0,6,8,277],{\"q\":\"run\"}]\n";

// Makes a step, and writes its line.
fn tell(alloc: Global, machine: &mut Machine, core: u8, out: &mut ToVec) -> Result<Outcome, Fail> {
    let state = machine.state(core)?;
    let before = Before::of(alloc, machine, core)?;
    let outcome = machine.step(core)?;
    let delta = delta_of(alloc, &before, outcome, &KEPT, machine)?;
    write_step(&delta, state, out)?;
    Ok(outcome)
}

#[test]
fn a_conflict(rt: HostRuntime) -> Result<(), Fail> {
    let alloc = rt.alloc();
    let limits = Limits {
        read_lines: 512,
        write_lines: 512,
        stores: 0,
    };
    let program = load(alloc, &INCREMENT, 0x100, 22, 65536, &[0x100, 0x100])?;
    let mut machine = Machine::new(alloc, &program, limits)?;
    let mut out = ToVec::new(Vec::new(alloc));
    for core in [0, 0, 1, 1, 0, 0, 0, 1] {
        let _outcome = tell(alloc, &mut machine, core, &mut out)?;
        out.bytes.extend_from_slice(b"\n")?;
    }
    assert_eq!(rt; out.bytes.as_slice(), LINES);
    Ok(())
}

#[test]
fn a_store_that_is_pending(rt: HostRuntime) -> Result<(), Fail> {
    let alloc = rt.alloc();
    let limits = Limits {
        read_lines: 512,
        write_lines: 512,
        stores: 1,
    };
    let program = load(alloc, &STORE, 0x100, 33, 65536, &[0x116, 0x100])?;
    let mut machine = Machine::new(alloc, &program, limits)?;
    let mut out = ToVec::new(Vec::new(alloc));
    for core in [1, 1, 0, 0, 1] {
        let _outcome = tell(alloc, &mut machine, core, &mut out)?;
        out.bytes.extend_from_slice(b"\n")?;
    }
    assert_eq!(rt; out.bytes.as_slice(), DRAINED);
    Ok(())
}

#[test]
fn a_store_in_numbers(rt: HostRuntime) -> Result<(), Fail> {
    let alloc = rt.alloc();
    let limits = Limits {
        read_lines: 512,
        write_lines: 512,
        stores: 1,
    };
    let program = load(alloc, &STORE, 0x100, 33, 65536, &[0x116])?;
    let mut machine = Machine::new(alloc, &program, limits)?;
    let _outcome = machine.step(0)?;
    let stores = machine.pending(0)?;
    assert_eq!(rt; stores.len(), 1);
    assert_eq!(rt; store_numbers(stores[0]), [0x1000, 4, 5]);
    Ok(())
}

#[test]
fn other_parts(rt: HostRuntime) -> Result<(), Fail> {
    let alloc = rt.alloc();
    let limits = Limits {
        read_lines: 512,
        write_lines: 512,
        stores: 0,
    };
    let program = load(alloc, &INCREMENT, 0x100, 22, 65536, &[0x100])?;
    let machine = Machine::new(alloc, &program, limits)?;
    let regs = machine.regs(0)?;
    let mut out = ToVec::new(Vec::new(alloc));
    write_numbers(register_values(&regs).as_slice(), &mut out)?;
    write_state(CoreState::Open(2), &mut out)?;
    let bytes = [
        StoredByte {
            address: 5,
            byte: 255,
        },
        StoredByte {
            address: 6,
            byte: 0,
        },
        StoredByte {
            address: 8,
            byte: 1,
        },
    ];
    write_stored(&bytes, &mut out)?;
    let text = out.bytes.as_slice();
    assert_eq!(rt;
        text,
        b"[0,1,0,0,65536,0,0,0,256,0]\"tx2\"[5,\"ff00\",8,\"01\"]".as_slice()
    );
    assert_eq!(rt; kind_letter(Outcome::Idle), b"z".as_slice());
    Ok(())
}
