//! What no row of `doc_tests` shows of a session: what is left of its input, the board that it gives back, numbers and
//! names, and a plan with a core that there is not. Code lies from 100h on, in a memory of 65,536 bytes.

mod broken;

use debug_command::{CommandName, CommandRefusal, Manner, Names, Range};
use ia_image::load;
use std::alloc::Global;
use std::io::Cursor;
use std::process::Abort;
use std::test::Fail;
use text_out::ToVec;
use tm_core::Limits;
use tm_debug::{FromReader, In, MOST_BREAKPOINTS, SessionFault, serve, serve_in};
use tm_hist::Board;
use tm_model::{Event, Interference, Pick};

/// Room for more lines than any transaction here uses.
pub const LIMITS: Limits = Limits {
    read_lines: 512,
    write_lines: 512,
    stores: 0,
};

// XBEGIN at 100h with fallback 115h, a load of [1000h], INC EAX, a store to [1000h], XEND at 111h, and two HLT.
const INCREMENT: [u8; 22] = [
    0xc7, 0xf8, 0x0f, 0, 0, 0, 0xa1, 0, 0x10, 0, 0, 0x40, 0xa3, 0, 0x10, 0, 0, 0x0f, 0x01, 0xd5,
    0xf4, 0xf4,
];

fn board(rt: &impl Abort, alloc: Global, entries: &[u32], limit: u64) -> Board {
    let program = load(alloc, &INCREMENT, 0x100, 22, 65536, entries).expect(rt, "it is loaded");
    Board::new(alloc, &program, LIMITS, limit).expect(rt, "the board is made")
}

// No names.
fn no_names(alloc: Global) -> Names {
    Names {
        symbols: Vec::new(alloc),
        labels: Vec::new(alloc),
    }
}

// A step of a core under no event.
fn plain(core: u8) -> Pick {
    Pick { core, event: None }
}

// A command refuses such a schedule before the session.
#[test]
fn a_plan_ends_at_a_core_that_there_is_not(rt: HostRuntime) {
    let mut input = FromReader::new(Cursor::new(b"next 4\nnext 2\nnext 3\n".as_slice()));
    let mut out = ToVec::new(Vec::new(rt.alloc()));
    let interrupted = Pick {
        core: 0,
        event: Some(Event::Abort(Interference::Interrupt)),
    };
    let steps = [plain(0), plain(1), plain(1), interrupted, plain(9)];
    let plan = Vec::from_slice(rt.alloc(), &steps).expect(&rt, "memory");
    let board = serve_in(
        &rt,
        rt.alloc(),
        Manner::Plain,
        plan,
        no_names(rt.alloc()),
        board(&rt, rt.alloc(), &[0x100, 0x100], 100),
        &mut input,
        &mut out,
    )
    .expect(&rt, "it is served");
    assert_eq!(rt; board.made(), 4);
    assert_eq!(rt;
        out.bytes.as_slice(),
        b"0 begun\n1 begun\n1 inside\n0 aborted 00000000 interrupt\nerror 72\nerror 72\nbye\n".as_slice()
    );
}

#[test]
fn lent_devices(rt: HostRuntime) {
    let mut input = FromReader::new(b"step 0\nquit\nleft".as_slice());
    let mut out = ToVec::new(Vec::new(rt.alloc()));
    let board = board(&rt, rt.alloc(), &[0x100], 100);
    let board = serve(&rt, rt.alloc(), board, &mut input, &mut out).expect(&rt, "it is served");
    assert_eq!(rt; board.made(), 1);
    assert_eq!(rt; out.bytes.as_slice(), b"0 begun\nbye\n".as_slice());
    let mut rest = [0; 9];
    assert_eq!(rt; input.get(&mut rest), Ok(4));
    assert_eq!(rt; &rest[..4], b"left".as_slice());
    assert_eq!(rt; input.get(&mut rest), Ok(0));
    assert_eq!(rt; input.failures(), 0);
}

#[test]
fn refusals_and_faults_have_numbers(rt: HostRuntime) -> Result<(), Fail> {
    let cases = [
        (CommandRefusal::UnknownCommand, 70, "UnknownCommand"),
        (CommandRefusal::LongLine, 70, "LongLine"),
        (
            CommandRefusal::BadArgument(CommandName::Mem),
            71,
            "BadArgument",
        ),
        (CommandRefusal::NoSuchSymbol, 71, "NoSuchSymbol"),
        (CommandRefusal::NoSuchCore(2), 72, "NoSuchCore"),
        (CommandRefusal::OutOfRange(Range::Lines), 73, "OutOfRange"),
        (CommandRefusal::LimitReached, 74, "LimitReached"),
        (CommandRefusal::TooManyBreakpoints, 75, "TooManyBreakpoints"),
    ];
    for (refusal, number, name) in cases {
        assert_eq!(rt; refusal.code(), number);
        let text = format!(in rt.alloc(); "{refusal}")?;
        assert_eq!(rt; text.as_str(), name);
    }
    assert_eq!(rt; MOST_BREAKPOINTS, 64);
    let board = || board(&rt, rt.alloc(), &[0x100], 100);
    let cases = [
        (SessionFault::Read(board()), 76, "Read Read(..)"),
        (SessionFault::Write(board()), 77, "Write Write(..)"),
        (SessionFault::NoMemory(board()), 78, "NoMemory NoMemory(..)"),
    ];
    for (fault, number, names) in cases {
        assert_eq!(rt; fault.code(), number);
        let text = format!(in rt.alloc(); "{fault} {fault:?}")?;
        assert_eq!(rt; text.as_str(), names);
        assert_eq!(rt; fault.board().made(), 0);
    }
    Ok(())
}
