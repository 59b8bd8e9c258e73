//! Printed instructions read by `ia_source::entries` and assembled by `ia_asm::assemble`, by example; lines that nasm
//! has assembled too. And each law once.

mod nasm_table;

use ia_asm::assemble;
use ia_decode::decode;
use ia_insn::{Insn, Mem, Op, Operand};
use ia_item::Item;
use ia_round_trip::{
    expressions_agree, form_reads_back, head_reads_back, instruction_reads_back,
    line_assembles_to_its_bytes, operand_reads_back, operands_read_back,
    source_assembles_to_its_bytes, source_reads_back, text_has_its_tokens, text_is_one_line,
};
use ia_source::entries;
use ia_text::write_insn;
use ia_word::{AluOp, Condition, Width};
use std::alloc::Global;
use std::test::Fail;
use text_out::{Out, ToVec};

/// The instruction that a text asks for, with its numbers left out.
fn read(alloc: Global, text: &[u8]) -> Option<Insn> {
    match entries(alloc, text) {
        Err(_) => None,
        Ok(found) => match found.as_slice().first() {
            None => None,
            Some(entry) => match &entry.item {
                Item::Code(template) => Some(template.insn),
                _ => None,
            },
        },
    }
}

/// What the text of an instruction is read as.
fn read_back(alloc: Global, insn: &Insn, at: u32) -> Option<Insn> {
    let mut out = ToVec::new(Vec::new(alloc));
    match write_insn(insn, at, &mut out) {
        Err(_) => None,
        Ok(()) => read(alloc, out.bytes.as_slice()),
    }
}

/// Whether a source that puts the text of an instruction where `org` says gives an image of these bytes.
fn gives(alloc: Global, org: &[u8], insn: &Insn, at: u32, bytes: &[u8]) -> bool {
    let mut out = ToVec::new(Vec::new(alloc));
    if out.put(org).is_err() || write_insn(insn, at, &mut out).is_err() {
        return false;
    }
    match assemble(alloc, out.bytes.as_slice()) {
        Err(_) => false,
        Ok(unit) => unit.base == at && unit.image.as_slice() == bytes,
    }
}

fn place(disp: u32) -> Operand {
    Operand::Mem(Mem {
        base: Some(4),
        index: Some(5),
        scale: 8,
        disp,
    })
}

#[test]
fn a_locked_addition(rt: HostRuntime) {
    let insn = |disp, number| Insn {
        lock: true,
        op: Op::Alu(AluOp::Add, Width::B, place(disp), Operand::Imm(number)),
    };
    assert_eq!(rt;
        read_back(rt.alloc(), &insn(0x20, 0xff), 0),
        Some(insn(0, 0))
    );
}

#[test]
fn a_short_jump(rt: HostRuntime) {
    let insn = |distance| Insn {
        lock: false,
        op: Op::JccShort(Condition::BelowOrEqual, distance),
    };
    assert_eq!(rt;
        read_back(rt.alloc(), &insn(0xffff_ff80), 0x100),
        Some(insn(0))
    );
}

#[test]
fn images(rt: HostRuntime) -> Result<(), Fail> {
    let addition = Insn {
        lock: true,
        op: Op::Alu(AluOp::Add, Width::B, place(0x20), Operand::Imm(0xff)),
    };
    let jump = Insn {
        lock: false,
        op: Op::JccShort(Condition::BelowOrEqual, 0xffff_ff80),
    };
    assert!(rt;
        gives(
            rt.alloc(),
            b"org 0\n",
            &addition,
            0,
            b"\xf0\x80\x44\xec\x20\xff"
        )
    );
    assert!(rt; gives(rt.alloc(), b"org 0x100\n", &jump, 0x100, b"\x76\x80"));
    // It ends at 2^32.
    assert!(rt;
        gives(
            rt.alloc(),
            b"org 0xfffffffe\n",
            &jump,
            0xffff_fffe,
            b"\x76\x80"
        )
    );
    Ok(())
}

/// The instruction that some bytes are, all of them.
fn only(bytes: &[u8]) -> Option<Insn> {
    match decode(bytes) {
        Ok((insn, length)) if usize::from(length) == bytes.len() => Some(insn),
        _ => None,
    }
}

/// Whether a line assembles to these bytes, or to another spelling of the instruction that they are.
fn agrees(alloc: Global, line: &[u8], bytes: &[u8]) -> bool {
    match assemble(alloc, line) {
        Err(_) => false,
        Ok(unit) => {
            let ours = unit.image.as_slice();
            ours == bytes || (only(bytes).is_some() && only(ours) == only(bytes))
        }
    }
}

/// Whether a line agrees with the bytes in hex that stand behind its last semicolon.
fn row_agrees(alloc: Global, row: &str) -> bool {
    match row.rsplit_once(';') {
        None => false,
        Some((line, digits)) => match hex::decode(alloc, digits.trim()) {
            Err(_) => false,
            Ok(bytes) => agrees(alloc, line.as_bytes(), bytes.as_slice()),
        },
    }
}

#[test]
fn nasm(rt: HostRuntime) {
    for row in nasm_table::LINES.lines() {
        assert!(rt; row_agrees(rt.alloc(), row), "{row}");
    }
}

#[test]
fn laws() {
    text_is_one_line();
    text_has_its_tokens();
    operand_reads_back();
    operands_read_back();
    head_reads_back();
    form_reads_back();
    instruction_reads_back();
    source_reads_back();
    expressions_agree();
    line_assembles_to_its_bytes();
    source_assembles_to_its_bytes();
}
