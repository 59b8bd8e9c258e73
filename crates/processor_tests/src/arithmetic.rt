//! Results and flags at the edges as a processor gives them (tests-data/arithmetic.c). Worked rows stand in
//! `doc_tests`.

mod products_table;
mod shifts_table;
mod sums_table;

use crate::numbers::Numbers;
use bitflags::Flags as _;
use ia_alu::{Divide, alu, bit, div, idiv, imul, imul_low, incdec, mul, neg, shift};
use ia_regs::Flags;
use ia_word::{AluOp, BitOp, IncDecOp, ShiftOp, Width};
use std::alloc::AllocError;

// The operands and counts at the edges, in the order of the tables.

/// Operands of 32 bits.
pub const WIDE: [u32; 8] = [
    0,
    1,
    0x7f,
    0x80,
    0xff,
    0x7fff_ffff,
    0x8000_0000,
    0xffff_ffff,
];

const BYTES: [u32; 5] = [0, 1, 0x7f, 0x80, 0xff];

const COUNTS: [u32; 5] = [0, 1, 31, 32, 33];

const HIGHS: [u32; 4] = [0, 1, 0x7fff_ffff, 0xffff_ffff];

// In the place of a second operand, where an operation has one only.
const ALONE: [u32; 1] = [0];

/// The flags before: none, and all six.
pub const BEFORE: [u16; 2] = [0, 0x8d5];

// An operation of a table with a value and flags in a row.
#[derive(Clone, Copy, Debug)]
enum Operation {
    Wide(AluOp),
    Bytes(AluOp),
    WideStep(IncDecOp),
    ByteStep(IncDecOp),
    Negation,
    Shift(ShiftOp),
    Bit(BitOp),
    LowProduct,
}

// Flags by their sum.
pub(crate) fn flags(sum: u16) -> Flags {
    Flags::from_bits_retain(sum)
}

// The sum of some flags.
fn sum_of(flags: Flags) -> u32 {
    u32::from(flags.bits())
}

// The lowest byte.
fn low_byte(number: u32) -> u8 {
    (number % 0x100) as u8
}

// What CMP leaves in its destination, and what another operation does.
fn written(op: AluOp, a: u32, value: u32) -> u32 {
    if op == AluOp::Cmp { a } else { value }
}

// The destination and the flags after an operation of a doubleword, a byte or a count.
fn result_of(operation: Operation, a: u32, b: u32, before: Flags) -> (u32, Flags) {
    let byte = u32::from(low_byte(a));
    match operation {
        Operation::Wide(op) => {
            let (value, after) = alu(op, Width::D, a, b, before);
            (written(op, a, value), after)
        }
        Operation::Bytes(op) => {
            let (value, after) = alu(op, Width::B, byte, u32::from(low_byte(b)), before);
            (written(op, a, value), after)
        }
        Operation::WideStep(op) => incdec(op, Width::D, a, before),
        Operation::ByteStep(op) => incdec(op, Width::B, byte, before),
        Operation::Negation => neg(a),
        Operation::Shift(op) => shift(op, a, low_byte(b), before),
        Operation::Bit(op) => bit(op, a, low_byte(b), before),
        Operation::LowProduct => imul_low(a, b, before),
    }
}

// Whether an operation gives what the table has at each pair of operands, whatever the flags before.
fn agrees(operation: Operation, lefts: &[u32], rights: &[u32], table: &str) -> bool {
    let mut rows = Numbers::new(table);
    for a in lefts {
        for b in rights {
            for before in BEFORE {
                let (value, after) = result_of(operation, *a, *b, flags(before));
                if rows.take_two() != Some((value, sum_of(after))) {
                    return false;
                }
            }
        }
    }
    rows.is_empty()
}

// Whether MUL, or IMUL, gives what the table has at each pair of doublewords.
fn products_agree(signed: bool, table: &str) -> bool {
    let mut rows = Numbers::new(table);
    for a in WIDE {
        for b in WIDE {
            for before in BEFORE {
                let (low, high, after) = if signed {
                    imul(a, b, flags(before))
                } else {
                    mul(a, b, flags(before))
                };
                if rows.take_three() != Some((low, high, sum_of(after))) {
                    return false;
                }
            }
        }
    }
    rows.is_empty()
}

// Whether there is a fault, the quotient and the remainder, as a row of the table.
fn quotient_row(quotient: Result<(u32, u32), Divide>) -> (u32, u32, u32) {
    match quotient {
        Ok((quotient, remainder)) => (0, quotient, remainder),
        Err(_) => (1, 0, 0),
    }
}

// Whether DIV, or IDIV, gives what the table has at each dividend and divisor.
fn quotients_agree(signed: bool, table: &str) -> bool {
    let mut rows = Numbers::new(table);
    for high in HIGHS {
        for low in WIDE {
            for by in WIDE {
                let row = quotient_row(if signed {
                    idiv(high, low, by)
                } else {
                    div(high, low, by)
                });
                if rows.take_three() != Some(row) {
                    return false;
                }
            }
        }
    }
    rows.is_empty()
}

#[test]
fn operations_of_doublewords_are_the_processors(rt: HostRuntime) {
    use sums_table::*;
    assert!(rt; agrees(Operation::Wide(AluOp::Add), &WIDE, &WIDE, ADD_D));
    assert!(rt; agrees(Operation::Wide(AluOp::Or), &WIDE, &WIDE, OR_D));
    assert!(rt; agrees(Operation::Wide(AluOp::Adc), &WIDE, &WIDE, ADC_D));
    assert!(rt; agrees(Operation::Wide(AluOp::Sbb), &WIDE, &WIDE, SBB_D));
    assert!(rt; agrees(Operation::Wide(AluOp::And), &WIDE, &WIDE, AND_D));
    assert!(rt; agrees(Operation::Wide(AluOp::Sub), &WIDE, &WIDE, SUB_D));
    assert!(rt; agrees(Operation::Wide(AluOp::Xor), &WIDE, &WIDE, XOR_D));
    assert!(rt; agrees(Operation::Wide(AluOp::Cmp), &WIDE, &WIDE, CMP_D));
}

#[test]
fn operations_of_bytes_are_the_processors(rt: HostRuntime) {
    use sums_table::*;
    assert!(rt; agrees(Operation::Bytes(AluOp::Add), &BYTES, &BYTES, ADD_B));
    assert!(rt; agrees(Operation::Bytes(AluOp::Or), &BYTES, &BYTES, OR_B));
    assert!(rt; agrees(Operation::Bytes(AluOp::Adc), &BYTES, &BYTES, ADC_B));
    assert!(rt; agrees(Operation::Bytes(AluOp::Sbb), &BYTES, &BYTES, SBB_B));
    assert!(rt; agrees(Operation::Bytes(AluOp::And), &BYTES, &BYTES, AND_B));
    assert!(rt; agrees(Operation::Bytes(AluOp::Sub), &BYTES, &BYTES, SUB_B));
    assert!(rt; agrees(Operation::Bytes(AluOp::Xor), &BYTES, &BYTES, XOR_B));
    assert!(rt; agrees(Operation::Bytes(AluOp::Cmp), &BYTES, &BYTES, CMP_B));
}

#[test]
fn steps_and_negations_are_the_processors(rt: HostRuntime) {
    use sums_table::*;
    assert!(rt; agrees(Operation::WideStep(IncDecOp::Inc), &WIDE, &ALONE, INC_D));
    assert!(rt; agrees(Operation::WideStep(IncDecOp::Dec), &WIDE, &ALONE, DEC_D));
    assert!(rt; agrees(Operation::ByteStep(IncDecOp::Inc), &BYTES, &ALONE, INC_B));
    assert!(rt; agrees(Operation::ByteStep(IncDecOp::Dec), &BYTES, &ALONE, DEC_B));
    assert!(rt; agrees(Operation::Negation, &WIDE, &ALONE, NEG_D));
}

#[test]
fn shifts_and_bit_tests_are_the_processors(rt: HostRuntime) {
    use shifts_table::*;
    assert!(rt; agrees(Operation::Shift(ShiftOp::Rol), &WIDE, &COUNTS, ROL));
    assert!(rt; agrees(Operation::Shift(ShiftOp::Ror), &WIDE, &COUNTS, ROR));
    assert!(rt; agrees(Operation::Shift(ShiftOp::Shl), &WIDE, &COUNTS, SHL));
    assert!(rt; agrees(Operation::Shift(ShiftOp::Shr), &WIDE, &COUNTS, SHR));
    assert!(rt; agrees(Operation::Shift(ShiftOp::Sar), &WIDE, &COUNTS, SAR));
    assert!(rt; agrees(Operation::Bit(BitOp::Bt), &WIDE, &COUNTS, BT));
    assert!(rt; agrees(Operation::Bit(BitOp::Bts), &WIDE, &COUNTS, BTS));
    assert!(rt; agrees(Operation::Bit(BitOp::Btr), &WIDE, &COUNTS, BTR));
    assert!(rt; agrees(Operation::Bit(BitOp::Btc), &WIDE, &COUNTS, BTC));
}

#[test]
fn products_and_quotients_are_the_processors(rt: HostRuntime) {
    use products_table::*;
    assert!(rt; products_agree(false, MUL));
    assert!(rt; products_agree(true, IMUL));
    assert!(rt; agrees(Operation::LowProduct, &WIDE, &WIDE, IMUL_LOW));
    assert!(rt; quotients_agree(false, DIV));
    assert!(rt; quotients_agree(true, IDIV));
}

// The flags before are those that no instructions leave together.
#[test]
fn a_low_product(rt: HostRuntime) {
    assert_eq!(rt;
        imul_low(0xffff_fffd, 5, flags(0x8d5)),
        (0xffff_fff1, flags(0x0d4))
    );
}

#[test]
fn the_fault_has_its_name(rt: HostRuntime) -> Result<(), AllocError> {
    assert_eq!(rt; Divide.code(), 4);
    let name = format!(in rt.alloc(); "{}", Divide)?;
    assert_eq!(rt; name.as_str(), "Divide");
    Ok(())
}
