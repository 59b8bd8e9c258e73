//! Addresses and loads, by the pages of the instructions in the manual.

use crate::rows::row_of;
use bitflags::Flags as _;
use ia_addr::{Access, address_of, load_of};
use ia_insn::{Mem, is_encodable};
use ia_regs::{Flags, Regs};
use ia_word::Width;
use std::alloc::Global;

// [ebx+ecx*4-2], which is 6 by the registers below, and [2000h].
const SCALED: Mem = Mem {
    base: Some(3),
    index: Some(1),
    scale: 4,
    disp: 0xffff_fffe,
};

const FIXED: Mem = Mem {
    base: None,
    index: None,
    scale: 1,
    disp: 0x2000,
};

// Rows of an instruction and what it loads by these registers: a size and an address in hex, or nothing.

const READ: &str = "\
01448bfe; add dword [ebx+ecx*4+0xfffffffe], eax; dword 6\n\
3a448bfe; cmp al, byte [ebx+ecx*4+0xfffffffe]; byte 6\n\
38c0; cmp al, al; none\n\
8a448bfe; mov al, byte [ebx+ecx*4+0xfffffffe]; byte 6\n\
86448bfe; xchg byte [ebx+ecx*4+0xfffffffe], al; byte 6\n\
fe448bfe; inc byte [ebx+ecx*4+0xfffffffe]; byte 6\n\
ff4c8bfe; dec dword [ebx+ecx*4+0xfffffffe]; dword 6\n\
f6448bfe01; test byte [ebx+ecx*4+0xfffffffe], 0x1; byte 6\n\
f7748bfe; div dword [ebx+ecx*4+0xfffffffe]; dword 6\n\
0faf448bfe; imul eax, dword [ebx+ecx*4+0xfffffffe]; dword 6\n\
6b448bfe05; imul eax, dword [ebx+ecx*4+0xfffffffe], 0x5; dword 6\n\
d3648bfe; shl dword [ebx+ecx*4+0xfffffffe], cl; dword 6\n\
0f44448bfe; cmove eax, dword [ebx+ecx*4+0xfffffffe]; dword 6\n\
0fb6448bfe; movzx eax, byte [ebx+ecx*4+0xfffffffe]; byte 6\n\
0fbe448bfe; movsx eax, byte [ebx+ecx*4+0xfffffffe]; byte 6\n\
0fb1448bfe; cmpxchg dword [ebx+ecx*4+0xfffffffe], eax; dword 6\n\
0fc1448bfe; xadd dword [ebx+ecx*4+0xfffffffe], eax; dword 6\n\
0fba648bfe01; bt dword [ebx+ecx*4+0xfffffffe], 0x1; dword 6\n";

const STACK_AND_JUMPS: &str = "\
ff3500200000; push dword [0x2000]; dword 2000\n\
54; push esp; none\n\
6a04; push 0x4; none\n\
8f0500200000; pop dword [0x2000]; dword 8000\n\
5c; pop esp; dword 8000\n\
c9; leave; dword 9000\n\
c3; ret; dword 8000\n\
c20800; ret 0x8; dword 8000\n\
ff1500200000; call dword [0x2000]; dword 2000\n\
ff2500200000; jmp dword [0x2000]; dword 2000\n\
e805000000; call 0xa; none\n";

const ONLY_WRITTEN: &str = "\
c7448bfe01000000; mov dword [ebx+ecx*4+0xfffffffe], 0x1; none\n\
0f94448bfe; sete byte [ebx+ecx*4+0xfffffffe]; none\n\
8d448bfe; lea eax, [ebx+ecx*4+0xfffffffe]; none\n\
0f1f448bfe; nop dword [ebx+ecx*4+0xfffffffe]; none\n\
c7f800000000; xbegin 0x6; none\n\
0fa2; cpuid; none\n";

fn registers() -> Regs {
    Regs {
        gpr: [0, 3, 0, 0xffff_fffc, 0x8000, 0x9000, 0, 0],
        flags: Flags::from_bits_retain(0),
        eip: 0,
    }
}

// A size and an address.
fn access_of(words: &str) -> Option<Access> {
    let (size, digits) = words.split_once(' ')?;
    let width = match size {
        "byte" => Width::B,
        "dword" => Width::D,
        _ => return None,
    };
    let addr = u32::from_str_radix(digits, 16).ok()?;
    Some(Access { addr, width })
}

// Whether the instruction of a row loads what stands there.
fn row_agrees(alloc: Global, row: &str) -> bool {
    match row_of(alloc, row) {
        None => false,
        Some((insn, wanted)) => {
            let access = access_of(wanted);
            access.is_some() != (wanted == "none")
                && is_encodable(&insn)
                && load_of(&insn, &registers()) == access
        }
    }
}

#[test]
fn addresses_modulo_32_bits(rt: HostRuntime) {
    assert_eq!(rt; address_of(&SCALED, &registers()), 6);
    assert_eq!(rt; address_of(&FIXED, &registers()), 0x2000);
}

// Operands that are read, the stack and jumps; and what is only written is not loaded.
#[test]
fn what_is_loaded(rt: HostRuntime) {
    for table in [READ, STACK_AND_JUMPS, ONLY_WRITTEN] {
        for row in table.lines() {
            assert!(rt; row_agrees(rt.alloc(), row), "{row}");
        }
    }
}
