//! Sessions with gdb on several cores, by packets: each step, stop and step back that a clause promises, once, and a
//! plan with a core that there is not, which a command refuses.

use crate::sessions::LIMITS;
use gdb_packet::write_packet;
use ia_image::load;
use std::alloc::Global;
use std::io::Cursor;
use std::process::Abort;
use std::sync::Wait;
use std::test::Fail;
use text_out::{Out, ToVec};
use tm_debug::FromReader;
use tm_gdb::serve;
use tm_hist::Board;
use tm_model::Pick;

/// A program at 0x100, where its cores begin, the cores of its schedule, if it has one, the packets that are sent, each
/// with its answer, and how many steps are made then.
struct Case<'a> {
    code: &'a [u8],
    entries: &'a [u32],
    plan: Option<&'a [u8]>,
    packets: &'a [(&'a [u8], &'a [u8])],
    made: u64,
}

// The schedule of these cores, whose steps come under no event.
fn plan_of(alloc: Global, cores: &[u8]) -> Result<Vec<Pick>, Fail> {
    let mut plan = Vec::new(alloc);
    for core in cores {
        plan.push(Pick {
            core: *core,
            event: None,
        })?;
    }
    Ok(plan)
}

// Holds a session to its answers.
fn hold<R: Abort + Wait>(rt: &R, alloc: Global, case: &Case) -> Result<(), Fail> {
    assert!(rt; case.code.len() <= 64);
    let program = load(
        alloc,
        case.code,
        0x100,
        case.code.len() as u32,
        65536,
        case.entries,
    )
    .expect(rt, "it is loaded");
    let board = Board::new(alloc, &program, LIMITS, 1000).expect(rt, "the board is made");
    let plan = match case.plan {
        Some(cores) => Some(plan_of(alloc, cores)?),
        None => None,
    };
    let mut sent = ToVec::new(Vec::new(alloc));
    let mut wanted = ToVec::new(Vec::new(alloc));
    for (packet, answer) in case.packets {
        assert!(rt; packet.len() <= 16384);
        assert!(rt; answer.len() <= 16384);
        write_packet(packet, &mut sent)?;
        assert!(rt; wanted.put(b"+").is_ok());
        write_packet(answer, &mut wanted)?;
    }
    let mut input = FromReader::new(Cursor::new(sent.bytes.as_slice()));
    let mut out = ToVec::new(Vec::new(alloc));
    match serve(rt, alloc, board, plan, &mut input, &mut out) {
        Ok(board) => assert_eq!(rt; board.made(), case.made),
        Err(fault) => assert!(rt; false, "fault {}", fault.code()),
    }
    assert_eq!(rt; out.bytes.as_slice(), wanted.bytes.as_slice());
    Ok(())
}

// nop, nop, hlt
const NOPS: &[u8] = b"\x90\x90\xf4";

#[test]
fn each_core_stops_at_a_breakpoint(rt: HostRuntime) -> Result<(), Fail> {
    hold(
        &rt,
        rt.alloc(),
        &Case {
            code: NOPS,
            entries: &[0x100, 0x100, 0x100],
            plan: None,
            packets: &[
                (b"Z0,102,1", b"OK"),
                (b"vCont;c", b"T05swbreak:;thread:01;"),
                (b"?", b"T05swbreak:;thread:01;"),
                (b"vCont;c", b"T05swbreak:;thread:02;"),
                (b"vCont;c", b"T05swbreak:;thread:03;"),
                (b"vCont;c", b"T05replaylog:end;thread:03;"),
                (b"bc", b"T05swbreak:;thread:03;"),
                (b"bc", b"T05swbreak:;thread:02;"),
                (b"bc", b"T05swbreak:;thread:01;"),
                (b"bc", b"T05replaylog:begin;thread:01;"),
                (b"z0,102,1", b"OK"),
                (b"vCont;c", b"T05replaylog:end;thread:03;"),
            ],
            made: 9,
        },
    )
}

#[test]
fn a_breakpoint_is_told_before_the_first_step(rt: HostRuntime) -> Result<(), Fail> {
    hold(
        &rt,
        rt.alloc(),
        &Case {
            code: NOPS,
            entries: &[0x100],
            plan: None,
            packets: &[
                (b"Z0,100,1", b"OK"),
                (b"c", b"T05swbreak:;thread:01;"),
                (b"c", b"T05replaylog:end;thread:01;"),
            ],
            made: 3,
        },
    )
}

#[test]
fn steps_of_a_chosen_core_are_taken_back(rt: HostRuntime) -> Result<(), Fail> {
    hold(
        &rt,
        rt.alloc(),
        &Case {
            code: NOPS,
            entries: &[0x100, 0x100],
            plan: None,
            packets: &[
                (b"vCont;s:1", b"T05thread:01;"),
                (b"vCont;s:2;c", b"T05thread:02;"),
                (b"vCont;s:2", b"T05thread:02;"),
                (b"Hc2", b"OK"),
                (b"bs", b"T05thread:02;"),
                (b"Hc1", b"OK"),
                (b"bs", b"T05thread:01;"),
                (b"Hc2", b"OK"),
                (b"bs", b"T05replaylog:begin;thread:02;"),
                (b"Hc3", b"E01"),
                (b"s", b"T05thread:02;"),
            ],
            made: 1,
        },
    )
}

#[test]
fn a_changed_watchpoint_is_told_at_each_step(rt: HostRuntime) -> Result<(), Fail> {
    hold(
        &rt,
        rt.alloc(),
        &Case {
            // mov byte [0x1000], 7; hlt
            code: b"\xc6\x05\x00\x10\x00\x00\x07\xf4",
            entries: &[0x100, 0x107],
            plan: None,
            packets: &[
                (b"Z2,1000,4", b"OK"),
                (b"vCont;s:1", b"T05watch:00001000;thread:01;"),
                (b"Hc1", b"OK"),
                (b"bs", b"T05watch:00001000;thread:01;"),
                (b"vCont;c", b"T05watch:00001000;thread:01;"),
                (b"vCont;c", b"T05replaylog:end;thread:01;"),
                (b"bc", b"T05watch:00001000;thread:01;"),
                (b"M1000,1:00", b"E01"),
                (b"P0=00000000", b"E.read-only"),
            ],
            made: 0,
        },
    )
}

#[test]
fn a_core_alone_goes_on_or_stays(rt: HostRuntime) -> Result<(), Fail> {
    hold(
        &rt,
        rt.alloc(),
        &Case {
            code: NOPS,
            entries: &[0x100, 0x100],
            plan: None,
            packets: &[
                (b"vCont;c:2", b"T05replaylog:end;thread:02;"),
                (b"vCont;s:2", b"T05replaylog:end;thread:02;"),
                (b"vCont;s:1", b"T05thread:01;"),
                (b"vCont;c:2", b"T05replaylog:end;thread:02;"),
                (b"vCont;c:7", b"E01"),
                (b"Hc1", b"OK"),
                (b"c", b"T05replaylog:end;thread:01;"),
            ],
            made: 6,
        },
    )
}

#[test]
fn a_core_that_stops_is_told_by_its_signal(rt: HostRuntime) -> Result<(), Fail> {
    hold(
        &rt,
        rt.alloc(),
        &Case {
            // int3; ud2; xor ecx, ecx; div ecx; mov eax, [0xffff0000]
            code: b"\xcc\x0f\x0b\x31\xc9\xf7\xf1\xa1\x00\x00\xff\xff",
            entries: &[0x100, 0x101, 0x103, 0x107],
            plan: None,
            packets: &[
                (b"vCont;c", b"T05thread:01;"),
                (b"vCont;c", b"T04thread:02;"),
                (b"vCont;c", b"T0bthread:04;"),
                (b"vCont;s:3", b"T08thread:03;"),
                (b"vCont;c", b"T05replaylog:end;thread:03;"),
            ],
            made: 5,
        },
    )
}

#[test]
fn a_plan_goes_on_to_its_end(rt: HostRuntime) -> Result<(), Fail> {
    hold(
        &rt,
        rt.alloc(),
        &Case {
            // hlt; inc eax, five times
            code: b"\xf4\x40\x40\x40\x40\x40",
            entries: &[0x100, 0x101],
            plan: Some(&[0, 0, 0, 1, 1, 1]),
            packets: &[(b"vCont;c", b"T05replaylog:end;thread:02;")],
            made: 6,
        },
    )?;
    hold(
        &rt,
        rt.alloc(),
        &Case {
            code: NOPS,
            entries: &[0x100],
            plan: Some(&[]),
            packets: &[(b"vCont;c", b"T05replaylog:end;thread:01;")],
            made: 0,
        },
    )?;
    hold(
        &rt,
        rt.alloc(),
        &Case {
            code: NOPS,
            entries: &[0x100, 0x100],
            plan: Some(&[0, 2, 0]),
            packets: &[
                (b"vCont;c", b"T05replaylog:end;thread:01;"),
                (b"vCont;s:2", b"T05thread:02;"),
            ],
            made: 2,
        },
    )
}

#[test]
fn an_event_comes_over_the_next_step(rt: HostRuntime) -> Result<(), Fail> {
    hold(
        &rt,
        rt.alloc(),
        &Case {
            // xbegin to the hlt; nop; nop; hlt
            code: b"\xc7\xf8\x02\x00\x00\x00\x90\x90\xf4",
            entries: &[0x100],
            plan: None,
            packets: &[
                (b"vCont;s:1", b"T05thread:01;"),
                (
                    b"qRcmd,6576656e7420736e6f6f70",
                    b"746865206e657874207374657020636f6d657320756e6465723a20736e6f6f700a",
                ),
                (b"Z0,108,1", b"OK"),
                (b"vCont;c", b"T05swbreak:;thread:01;"),
                (b"p8", b"08010000"),
                (b"p0", b"06000000"),
            ],
            made: 2,
        },
    )
}
