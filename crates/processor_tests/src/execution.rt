//! Instructions on registers, as a processor has them (tests-data/execution.c).

mod processor_table;

ghost use Rattle.std.specs.Prelude.{◌<◌, IsTrue};
ghost use Rattle.ia_insn.specs.Encoding.{encodable};

use crate::arithmetic::{BEFORE, WIDE, flags};
use crate::numbers::Numbers;
use ia_exec::{Finished, finish_in};
use ia_insn::{Insn, Op, Operand};
use ia_regs::Regs;
use ia_word::{BareOp, Condition, ExchangeOp, ExtendOp, LoopOp, UnaryOp, Width};
use processor_table::{CMPXCHG, CONDITIONS, EXTENSIONS, LOOPS, TEST, XADD};

const BEHIND: u32 = 0x1003;

// The places of the flags, in the order of the table of conditions.
const PLACES: [(u8, u16); 6] = [
    (1, 1),
    (2, 4),
    (4, 0x10),
    (8, 0x40),
    (16, 0x80),
    (32, 0x800),
];

// What an operation of 3 bytes leaves in registers and flags, outside of transactions, where it goes on and stores
// nothing.
fn run(op: Op, regs: &Regs) -> Option<Regs>
    requires { IsTrue (encodable op) }
{
    let mut after = *regs;
    match finish_in(&Insn { lock: false, op }, 3, &mut after, 0, 0) {
        Finished::Goes => Some(after),
        _ => None,
    }
}

// Registers with EAX, ECX, EDX and EBX as given, and the flags by their sum.
fn starting(eax: u32, ecx: u32, edx: u32, ebx: u32, sum: u16) -> Regs {
    Regs {
        gpr: [eax, ecx, edx, ebx, 0x8000, 0x9000, 0xa000, 0xb000],
        flags: flags(sum),
        eip: 0x1000,
    }
}

// The sum of the flags.
fn sum_of(regs: &Regs) -> u32 {
    u32::from(bitflags::Flags::bits(&regs.flags))
}

// Destination, source and flags after XADD of two registers.
fn xadd_of(to: u32, from: u32, before: u16) -> Option<(u32, u32, u32)> {
    let after = run(
        Op::Exchange(ExchangeOp::Add, Operand::Reg(2), 3),
        &starting(0, 0, to, from, before),
    )?;
    Some((after.get(2), after.get(3), sum_of(&after)))
}

// EAX, destination and flags after CMPXCHG with a register.
fn cmpxchg_of(eax: u32, to: u32, before: u16) -> Option<(u32, u32, u32)> {
    let after = run(
        Op::Exchange(ExchangeOp::Compare, Operand::Reg(2), 1),
        &starting(eax, 0x1234_5678, to, 0, before),
    )?;
    Some((after.get(0), after.get(2), sum_of(&after)))
}

// Both operands, as they stay, and flags after TEST of two registers.
fn test_of(left: u32, right: u32, before: u16) -> Option<u32> {
    let start = starting(left, right, 0, 0, before);
    let after = run(Op::Test(Width::D, Operand::Reg(0), Operand::Reg(1)), &start)?;
    if after.gpr == start.gpr {
        Some(sum_of(&after))
    } else {
        None
    }
}

fn xadd_agrees(table: &str) -> bool {
    let mut rows = Numbers::new(table);
    for to in WIDE {
        for from in WIDE {
            for before in BEFORE {
                if rows.take_three() != xadd_of(to, from, before) {
                    return false;
                }
            }
        }
    }
    rows.is_empty()
}

fn cmpxchg_agrees(table: &str) -> bool {
    let mut rows = Numbers::new(table);
    for eax in WIDE {
        for to in WIDE {
            for before in BEFORE {
                if rows.take_three() != cmpxchg_of(eax, to, before) {
                    return false;
                }
            }
        }
    }
    rows.is_empty()
}

fn test_agrees(table: &str) -> bool {
    let mut rows = Numbers::new(table);
    for left in WIDE {
        for right in WIDE {
            for before in BEFORE {
                if rows.take() != test_of(left, right, before) {
                    return false;
                }
            }
        }
    }
    rows.is_empty()
}

// A register after an instruction that changes no flag.
fn left_in(register: u8, op: Op, start: &Regs) -> Option<u32>
    requires register { register < 8 }
    requires op { IsTrue (encodable op) }
{
    let after = run(op, start)?;
    if after.flags == start.flags {
        Some(after.get(register))
    } else {
        None
    }
}

fn extensions_agree(table: &str) -> bool {
    let mut rows = Numbers::new(table);
    for a in WIDE {
        let start = starting(a, 5, 5, a, 0x8d5);
        let source = Operand::Reg(3);
        if rows.take() != left_in(3, Op::Unary(UnaryOp::Not, source), &start)
            || rows.take() != left_in(1, Op::Extend(ExtendOp::Zero, 1, source), &start)
            || rows.take() != left_in(1, Op::Extend(ExtendOp::Sign, 1, source), &start)
            || rows.take() != left_in(2, Op::Bare(BareOp::Cdq), &start)
            || rows.take() != left_in(0, Op::Bare(BareOp::Cwde), &start)
        {
            return false;
        }
    }
    rows.is_empty()
}

// 1 where an instruction jumped 16 bytes back from its end, and 0 where it stands behind itself.
fn jumped(op: Op, start: &Regs) -> Option<u32>
    requires { IsTrue (encodable op) }
{
    match run(op, start)?.eip {
        0xff3 => Some(1),
        BEHIND => Some(0),
        _ => None,
    }
}

fn loops_agree(table: &str) -> bool {
    let mut rows = Numbers::new(table);
    for ecx in WIDE {
        let start = starting(7, ecx, 7, 7, 0x8d5);
        if rows.take() != left_in(1, Op::LoopJump(LoopOp::Loop, 0xffff_fff0), &start)
            || rows.take() != jumped(Op::LoopJump(LoopOp::Loop, 0xffff_fff0), &start)
            || rows.take() != jumped(Op::LoopJump(LoopOp::Ecx, 0xffff_fff0), &start)
        {
            return false;
        }
    }
    rows.is_empty()
}

// The flags of a number of the table of conditions.
fn flags_at(number: u8) -> u16 {
    let mut sum = 0;
    for (bit, place) in PLACES {
        if number & bit != 0 {
            sum |= place;
        }
    }
    sum
}

// Whether SETcc, CMOVcc and both jumps take a condition as the table's mask says.
fn condition_agrees(number: u8, mask: u32, before: u16) -> bool
    requires { number < 16 }
{
    let condition = Condition::of(number);
    let wanted = (mask >> number) % 2;
    let start = starting(0, 1, 0xffff_ffff, 0, before);
    let set = if wanted == 1 {
        0xffff_ff01
    } else {
        0xffff_ff00
    };
    left_in(2, Op::Setcc(condition, Operand::Reg(2)), &start) == Some(set)
        && left_in(0, Op::Cmovcc(condition, 0, Operand::Reg(1)), &start) == Some(wanted)
        && jumped(Op::Jcc(condition, 0xffff_fff0), &start) == Some(wanted)
        && jumped(Op::JccShort(condition, 0xffff_fff0), &start) == Some(wanted)
}

#[test]
fn sums_and_exchanges_are_the_processors(rt: HostRuntime) {
    assert!(rt; xadd_agrees(XADD));
    assert!(rt; cmpxchg_agrees(CMPXCHG));
    assert!(rt; test_agrees(TEST));
}

#[test]
fn extensions_and_loops_are_the_processors(rt: HostRuntime) {
    assert!(rt; extensions_agree(EXTENSIONS));
    assert!(rt; loops_agree(LOOPS));
}

#[test]
fn conditions_are_the_processors(rt: HostRuntime) {
    let mut rows = Numbers::new(CONDITIONS);
    for number in 0u8..64 {
        let mask = rows.take().unwrap_or(0);
        for condition in 0u8..16 {
            assert!(rt; condition_agrees(condition, mask, flags_at(number)));
        }
    }
    assert!(rt; rows.is_empty());
}
