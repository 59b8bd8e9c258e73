//! A board's machine against serial runs of its own history and of others.

use elide_replay::{Agreement, agreement_of};
use ia_image::load;
use std::alloc::Global;
use std::test::*;
use tm_core::Limits;
use tm_hist::Board;

const LIMITS: Limits = Limits {
    read_lines: 512,
    write_lines: 512,
    stores: 0,
};

// A board of this code at 100h after so many steps of core 0. Each core begins at 100h.
fn stepped(alloc: Global, code: &[u8], entries: &[u32], steps: u32) -> Result<Board, Fail> {
    let code_len = u32::try_from(code.len()).map_err(|_| "short code")?;
    let Ok(program) = load(alloc, code, 0x100, code_len, 0x10000, entries) else {
        return Err("a program".into());
    };
    let Ok(mut board) = Board::new(alloc, &program, LIMITS, 16) else {
        return Err("a board".into());
    };
    for _ in 0..steps {
        let _ = board.step(0);
    }
    Ok(board)
}

// Whether the machine of one board agrees with the serial run of another one.
fn agree(alloc: Global, board: &Board, other: &Board) -> Result<bool, Fail> {
    match other.replay(alloc) {
        Ok(serial) => Ok(agreement_of(board, &serial) == Agreement::Agrees),
        Err(_) => Err("a serial run".into()),
    }
}

// Of two boards of this code, one after so many steps of its only core, and one with these entries before its first
// step: whether each agrees with its own history, and with the other's only if it is to.
fn is_so(
    alloc: Global,
    code: &[u8],
    steps: u32,
    entries: &[u32],
    agrees: bool,
) -> Result<bool, Fail> {
    let some = stepped(alloc, code, &[0x100], steps)?;
    let none = stepped(alloc, code, entries, 0)?;
    let own = agree(alloc, &some, &some)? && agree(alloc, &none, &none)?;
    Ok(own && agree(alloc, &some, &none)? == agrees && agree(alloc, &none, &some)? == agrees)
}

#[test]
fn what_differs_is_told(rt: HostRuntime) -> Result<(), Fail> {
    let cases: [(&[u8], u32, &[u32], bool); 6] = [
        // MOV of 7 to the byte at 1000h, and a jump back: memory alone is another one.
        (
            &[0xc6, 0x05, 0, 0x10, 0, 0, 7, 0xeb, 0xf7],
            2,
            &[0x100],
            false,
        ),
        // INC EAX, and a jump back: EAX alone is another one.
        (&[0x40, 0xeb, 0xfd], 2, &[0x100], false),
        // STC, and a jump back: the flags alone are others.
        (&[0xf9, 0xeb, 0xfd], 2, &[0x100], false),
        // HLT: the stop alone is another one.
        (&[0xf4], 1, &[0x100], false),
        // As many registers and stops, and a core more.
        (&[0xf4], 0, &[0x100, 0x100], false),
        // XBEGIN and INC EAX: the registers of an open transaction are those before its XBEGIN.
        (&[0xc7, 0xf8, 0, 0, 0, 0, 0x40], 2, &[0x100], true),
    ];
    for (code, steps, entries, agrees) in cases {
        assert!(rt;
            is_so(rt.alloc(), code, steps, entries, agrees)?,
            "{code:?}"
        );
    }
    Ok(())
}
