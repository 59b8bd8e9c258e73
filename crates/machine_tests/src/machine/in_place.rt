//! The call of `tm_whole`: that it runs a transaction, and that it leaves everything as it was where it runs none.

use super::program;
use ia_image::Program;
use ia_regs::{Flags, Regs};
use std::alloc::{AllocError, Global};
use tm_quick::Listing;
use tm_rule::Code;
use tm_whole::run_whole;

/// xbegin, of no distance.
const BEGIN: &[u8] = &[0xc7, 0xf8, 0, 0, 0, 0];

/// inc dword [0x200]
const COUNT: &[u8] = &[0xff, 0x05, 0, 2, 0, 0];

/// mov eax, [0x200]; mov [0x202], eax; push eax; pop edx; xend
const REST: &[u8] = &[
    0x8b, 0x05, 0, 2, 0, 0, 0x89, 0x05, 2, 2, 0, 0, 0x50, 0x5a, 0x0f, 0x01, 0xd5,
];

/// The ends of transactions that are not run.
const ENDS: &[&[u8]] = &[
    &[0xf4], // hlt
    &[0xc6, 0xf8, 1], // xabort 1
    &[0xc7, 0xf8, 0, 0, 0, 0], // xbegin
    &[0xff, 0x05, 0, 1, 0, 0], // inc dword [0x100], where the code is
    &[0xff, 0x05, 0xfd, 3, 0, 0], // inc dword [0x3fd], beyond memory
    &[0xeb, 0xf2], // jmp to the two stores, again and again
];

/// The code of BEGIN, two times COUNT, and an end.
fn code_of(alloc: Global, end: &[u8]) -> Result<Vec<u8>, AllocError> {
    let mut code = Vec::new(alloc);
    code.extend_from_slice(BEGIN)?;
    code.extend_from_slice(COUNT)?;
    code.extend_from_slice(COUNT)?;
    code.extend_from_slice(end)?;
    Ok(code)
}

/// The code of a program, with its lines.
fn listing_of(program: &Program) -> Listing<'_> {
    let code = Code {
        bytes: program.code(),
        base: program.base(),
        rows: program.rows(),
    };
    Listing {
        code,
        lines: program.lines(),
    }
}

/// A memory of 0x400 bytes, each another than the one before.
fn memory_of(alloc: Global) -> Result<Vec<u8>, AllocError> {
    let mut memory = vec![in alloc; 0u8; 0x400]?;
    let mut next = 7u8;
    for byte in &mut memory {
        *byte = next;
        next = next.wrapping_add(3);
    }
    Ok(memory)
}

/// Whether these bytes stand at an address.
fn stand_at(memory: &[u8], addr: usize, wanted: &[u8]) -> bool {
    match memory.get(addr..addr.wrapping_add(wanted.len())) {
        Some(bytes) => bytes == wanted,
        None => false,
    }
}

/// Registers at the XBEGIN, with ESP at 0x300.
fn start() -> Regs {
    Regs {
        gpr: [1, 2, 3, 4, 0x300, 6, 7, 8],
        flags: Flags::of(false, false, false, false, false, false),
        eip: 0x100,
    }
}

#[test]
fn a_transaction_runs_on_memory_in_place(rt: HostRuntime) -> Result<(), AllocError> {
    let code = code_of(rt.alloc(), REST)?;
    let program = program(&rt, rt.alloc(), code.as_slice(), &[0x100]);
    let mut memory = vec![in rt.alloc(); 0u8; 0x400]?;
    let mut regs = start();
    let inside = run_whole(&listing_of(&program), &mut memory, &mut regs, 7);
    assert!(rt; inside == Some(6), "how many");
    assert!(rt; regs.gpr == [2, 2, 2, 4, 0x300, 6, 7, 8], "registers");
    assert!(rt; regs.eip == 0x123, "EIP");
    assert!(rt;
        stand_at(&memory, 0x1ff, &[0, 2, 0, 2, 0, 0, 0, 0]),
        "memory"
    );
    assert!(rt; stand_at(&memory, 0x2fb, &[0, 2, 0, 0, 0, 0]), "the stack");
    Ok(())
}

#[test]
fn a_budget_that_ends_changes_nothing(rt: HostRuntime) -> Result<(), AllocError> {
    let code = code_of(rt.alloc(), REST)?;
    let program = program(&rt, rt.alloc(), code.as_slice(), &[0x100]);
    for most in 0..7 {
        let mut memory = memory_of(rt.alloc())?;
        let wanted = memory_of(rt.alloc())?;
        let mut regs = start();
        let inside = run_whole(&listing_of(&program), &mut memory, &mut regs, most);
        assert!(rt; inside.is_none() && regs == start(), "most {most}");
        assert!(rt; memory.as_slice() == wanted.as_slice(), "memory of {most}");
    }
    Ok(())
}

#[test]
fn what_is_not_run_changes_nothing(rt: HostRuntime) -> Result<(), AllocError> {
    for (at, end) in ENDS.iter().enumerate() {
        let code = code_of(rt.alloc(), end)?;
        let program = program(&rt, rt.alloc(), code.as_slice(), &[0x100]);
        let mut memory = memory_of(rt.alloc())?;
        let wanted = memory_of(rt.alloc())?;
        let mut regs = start();
        let inside = run_whole(&listing_of(&program), &mut memory, &mut regs, 1000);
        assert!(rt; inside.is_none() && regs == start(), "end {at}");
        assert!(rt; memory.as_slice() == wanted.as_slice(), "memory of {at}");
    }
    Ok(())
}
