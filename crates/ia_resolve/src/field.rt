//! Fields of instructions: what the number goes into, and its range there. A jump's number is a distance, which only
//! its place tells.

ghost use Rattle.std.specs.Prelude.{◌≡◌, ◌+◌, ◌-◌, ◌≤◌, ◌<◌, ◌^◌, ℤ, pos, negsuc, ◌≤ℤ◌, IsTrue};
ghost use Rattle.ia_insn.specs.Encoding.{fits_short};
ghost use Rattle.ia_item.specs.Fields.{field_in, field_or, field_of, low_of, high_of, modulo_long, modulo_byte};
ghost use Rattle.ia_item.specs.Fields.{distance, stored_number};
ghost use Rattle.ia_item.specs.Fields.{Holds};
ghost use Rattle.ia_resolve.specs.Items.{far_fault};

use crate::place_fault::PlaceFault;
use ia_insn::{Argument, Op, is_signed_byte};
use ia_item::Field;
use ia_word::Width;

fn field_in(argument: Argument) -> Field
    ensures { result ≡ field_in argument }
{
    match argument {
        Argument::Source(Width::B, _) => Field::Byte,
        Argument::Count(_) => Field::Byte,
        Argument::Byte(_) => Field::Byte,
        Argument::Half(_) => Field::Half,
        Argument::Near(long, _) => Field::Near(long),
        Argument::Short(_) => Field::Short(2),
        _ => Field::Long,
    }
}

fn field_or(argument: Option<Argument>, other: Field) -> Field
    ensures { result ≡ field_or argument other }
{
    match argument {
        Some(argument) => field_in(argument),
        None => other,
    }
}

/// What the number of an instruction goes into, which is its last operand.
pub fn field_of(op: &Op) -> Field
    ensures { result ≡ field_of op.now }
{
    let operands = op.operands();
    let first = field_or(operands.first, Field::Long);
    field_or(operands.third, field_or(operands.second, first))
}

/// The least value that a field takes.
pub fn low_of(field: Field) -> i64
    ensures value { result ≡ low_of field }
    ensures low { result ≤ℤ pos 0 }
{
    match field {
        Field::Byte => -128,
        Field::Half => 0,
        _ => -0x8000_0000,
    }
}

/// The greatest value that a field takes.
pub fn high_of(field: Field) -> i64
    ensures value { result ≡ high_of field }
    ensures high { pos 0 ≤ℤ result }
{
    match field {
        Field::Byte => 255,
        Field::Half => 65535,
        _ => 0xffff_ffff,
    }
}

/// The distance to a target from so many bytes behind an address, modulo 2^32.
pub fn distance(at: u128, long: u8, target: u32) -> u32
    requires { at ≤ 2 ^ 126 }
    ensures { result ≡ distance at long target }
{
    let from = ((at + u128::from(long)) % (1 << 32)) as u64;
    ((u64::from(target) + (1 << 32) - from) % (1 << 32)) as u32
}

/// A value modulo 2^32.
pub fn modulo_long(value: i64) -> u32
    requires low { negsuc (2 ^ 31 - 1) ≤ℤ value }
    requires high { value ≤ℤ pos (2 ^ 32 - 1) }
    ensures { result ≡ modulo_long value }
{
    if value >= 0 {
        value as u32
    } else {
        (value + (1 << 32)) as u32
    }
}

fn modulo_byte(value: i64) -> u32
    requires low { negsuc 127 ≤ℤ value }
    requires high { value ≤ℤ pos 255 }
    ensures value { result ≡ modulo_byte value }
    ensures small { result < 256 }
{
    if value >= 0 {
        value as u32
    } else {
        (value + 256) as u32
    }
}

fn short_distance(at: u128, long: u8, target: u32) -> u32
    requires { at ≤ 2 ^ 126 }
    ensures value { result ≡ stored_number (Field.Short long) at (pos target) }
    ensures fits { IsTrue (fits_short result) }
{
    let to = distance(at, long, target);
    if is_signed_byte(to) { to } else { 0 }
}

/// What goes into a field at an address for a value that it takes.
pub fn stored_number(field: Field, at: u128, value: i64) -> u32
    requires near { at ≤ 2 ^ 126 }
    requires low { low_of field ≤ℤ value }
    requires high { value ≤ℤ high_of field }
    ensures value { result ≡ stored_number field at value }
    ensures holds { Holds field result }
{
    match field {
        Field::Byte => modulo_byte(value),
        Field::Half => modulo_long(value),
        Field::Long => modulo_long(value),
        Field::Near(long) => distance(at, long, modulo_long(value)),
        Field::Short(long) => short_distance(at, long, modulo_long(value)),
    }
}

/// Whether a short jump's target is too far.
pub fn far_fault(field: Field, at: u128, value: i64) -> Option<PlaceFault>
    requires near { at ≤ 2 ^ 126 }
    requires low { low_of field ≤ℤ value }
    requires high { value ≤ℤ high_of field }
    ensures { result ≡ far_fault field at value }
{
    match field {
        Field::Short(long) => {
            if is_signed_byte(distance(at, long, modulo_long(value))) {
                None
            } else {
                Some(PlaceFault::ShortJumpTooFar)
            }
        }
        _ => None,
    }
}
