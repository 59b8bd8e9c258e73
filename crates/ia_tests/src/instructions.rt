//! What no clause says: the names of the faults. And each function once, on values of the manual.

use crate::rows::row_of;
use ia_insn::{
    Argument, Arguments, DecodeFault, Insn, Mem, Op, Operand, Role, distances_count_from_the_end,
    encodable_by_operands, is_encodable, is_lockable, is_signed_byte, no_spelling_begins_another,
    one_instruction, rows_are_reached,
};
use ia_word::{AluOp, BareOp, BitOp, Condition, ExchangeOp, Width};
use std::alloc::Global;
use std::test::Fail;

const PLACE: Operand = Operand::Mem(Mem {
    base: Some(3),
    index: Some(1),
    scale: 4,
    disp: 0,
});

fn with_lock(op: Op) -> Insn {
    Insn { lock: true, op }
}

fn plain(op: Op) -> Insn {
    Insn { lock: false, op }
}

#[test]
fn faults(rt: HostRuntime) -> Result<(), Fail> {
    let names = [
        (DecodeFault::Short, 1, "Short"),
        (DecodeFault::NotInSubset, 2, "NotInSubset"),
        (DecodeFault::LockNotAllowed, 3, "LockNotAllowed"),
    ];
    for (fault, code, name) in names {
        assert_eq!(rt; fault.code(), code);
        let text = format!(in rt.alloc(); "{fault}")?;
        assert_eq!(rt; text.as_str(), name);
    }
    Ok(())
}

// An instruction, and whether LOCK may stand before it.
const LOCKABLE: &str = "\
01048b; add dword [ebx+ecx*4], eax; yes\n\
39048b; cmp dword [ebx+ecx*4], eax; no\n\
03048b; add eax, dword [ebx+ecx*4]; no\n\
0fba3c8b07; btc dword [ebx+ecx*4], 0x7; yes\n\
f71c8b; neg dword [ebx+ecx*4]; yes\n\
0fba248b07; bt dword [ebx+ecx*4], 0x7; no\n\
f7248b; mul dword [ebx+ecx*4]; no\n\
89048b; mov dword [ebx+ecx*4], eax; no\n\
40; inc eax; no\n";

// Whether LOCK may stand before the instruction of a row as it says, be the prefix there or not.
fn row_agrees(alloc: Global, row: &str) -> bool {
    match row_of(alloc, row) {
        None => false,
        Some((insn, wanted)) => {
            let fits = is_lockable(&plain(insn.op)) && is_lockable(&with_lock(insn.op));
            let neither = !is_lockable(&plain(insn.op)) && !is_lockable(&with_lock(insn.op));
            (wanted == "yes" && fits) || (wanted == "no" && neither)
        }
    }
}

#[test]
fn lockable(rt: HostRuntime) {
    for row in LOCKABLE.lines() {
        assert!(rt; row_agrees(rt.alloc(), row), "{row}");
    }
}

#[test]
fn encodable(rt: HostRuntime) {
    let add = Op::Alu(AluOp::Add, Width::D, PLACE, Operand::Reg(0));
    assert!(rt; is_encodable(&with_lock(add)));
    assert!(rt; !is_encodable(&with_lock(Op::Nop)));
    assert!(rt; is_encodable(&plain(Op::JmpShort(0xffff_ff80))));
    assert!(rt; !is_encodable(&plain(Op::JmpShort(0x80))));
    assert!(rt; !is_encodable(&plain(Op::Mov(Width::D, PLACE, PLACE))));
    assert!(rt; !is_encodable(&plain(Op::Mov(Width::B, PLACE, Operand::Imm(256)))));
    assert!(rt; !is_encodable(&plain(Op::Pop(Operand::Reg(8)))));
    let esp_times_two = Mem {
        base: None,
        index: Some(4),
        scale: 2,
        disp: 0,
    };
    assert!(rt; !is_encodable(&plain(Op::Lea(0, esp_times_two))));
    let times_three = Mem {
        base: None,
        index: Some(1),
        scale: 3,
        disp: 0,
    };
    assert!(rt; !is_encodable(&plain(Op::Lea(0, times_three))));
}

fn place(role: Role) -> Option<Argument> {
    Some(Argument::Operand(role, Width::D, PLACE))
}

fn register(role: Role) -> Option<Argument> {
    Some(Argument::Operand(role, Width::D, Operand::Reg(2)))
}

fn arguments(
    first: Option<Argument>,
    second: Option<Argument>,
    third: Option<Argument>,
) -> Arguments {
    Arguments {
        first,
        second,
        third,
    }
}

// By the tables "Instruction Operand Encoding" of the pages, as the two tests below.
#[test]
fn operands_in_places(rt: HostRuntime) {
    let number = Operand::Imm(7);
    let source = Some(Argument::Source(Width::D, number));
    let seven = Some(Argument::Byte(7));
    let add = Op::Alu(AluOp::Add, Width::D, PLACE, number);
    let cmp = Op::Alu(AluOp::Cmp, Width::D, PLACE, number);
    let rows = [
        (add, Role::Changed, source),
        (cmp, Role::Read, source),
        (Op::Mov(Width::D, PLACE, number), Role::Written, source),
        (Op::Bit(BitOp::Bt, PLACE, 7), Role::Read, seven),
        (Op::Bit(BitOp::Btc, PLACE, 7), Role::Changed, seven),
        (Op::Pop(PLACE), Role::Written, None),
        (Op::NopOf(PLACE), Role::Named, None),
    ];
    for (op, role, second) in rows {
        let wanted = arguments(place(role), second, None);
        assert_eq!(rt; op.operands(), wanted, "{op:?}");
    }
}

#[test]
fn operands_in_registers(rt: HostRuntime) {
    let read = place(Role::Read);
    let changed = place(Role::Changed);
    let number = Some(Argument::Source(Width::D, Operand::Imm(7)));
    let compare = Op::Exchange(ExchangeOp::Compare, PLACE, 2);
    let add = Op::Exchange(ExchangeOp::Add, PLACE, 2);
    let cmovl = Op::Cmovcc(Condition::Less, 2, PLACE);
    let rows = [
        (
            Op::ImulImm(2, PLACE, 7),
            register(Role::Written),
            read,
            number,
        ),
        (cmovl, register(Role::Changed), read, None),
        (compare, changed, register(Role::Read), None),
        (add, changed, register(Role::Changed), None),
    ];
    for (op, first, second, third) in rows {
        let wanted = arguments(first, second, third);
        assert_eq!(rt; op.operands(), wanted, "{op:?}");
    }
}

#[test]
fn operands_that_are_distances(rt: HostRuntime) {
    let near = Some(Argument::Near(6, 0x1000));
    let short = Some(Argument::Short(0xffff_fff0));
    let rows = [
        (Op::Jcc(Condition::Less, 0x1000), near),
        (Op::JccShort(Condition::Less, 0xffff_fff0), short),
        (Op::Bare(BareOp::Cpuid), None),
    ];
    for (op, first) in rows {
        let wanted = arguments(first, None, None);
        assert_eq!(rt; op.operands(), wanted, "{op:?}");
    }
}

#[test]
fn signed_bytes(rt: HostRuntime) {
    let numbers = [
        (0, true),
        (0x7f, true),
        (0x80, false),
        (0xff, false),
        (0xffff_ff7f, false),
        (0xffff_ff80, true),
        (0xffff_ffff, true),
    ];
    for (number, fits) in numbers {
        assert_eq!(rt; is_signed_byte(number), fits, "{number}");
    }
}

#[test]
fn laws() {
    no_spelling_begins_another();
    one_instruction();
    rows_are_reached();
    encodable_by_operands();
    distances_count_from_the_end();
}
