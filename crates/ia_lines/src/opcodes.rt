//! The opcodes of a line number program, as they stand in its bytes (DWARF version 5, sections 6.2.5.1 to 6.2.5.3).

ghost use Rattle.std.specs.Prelude.{◌≡◌, ◌+◌, ◌≤◌, IfSome, length};
ghost use Rattle.ia_lines.specs.Cursor.{Gives};
ghost use Rattle.ia_lines.specs.Opcodes.{extended_at, extended_of, opcode_at, skipped_at, standard_at};

use crate::cursor::{block, byte, half, signed, unsigned, word};

/// An opcode with what stands behind it. Addresses and lines count modulo 2^32.
#[derive(Clone, Copy, PartialEq, Eq, Debug)]
pub(crate) enum Opcode {
    /// Advances the address and the line, and appends a row: its number, counted from the first special one.
    Special(u8),
    /// Appends a row.
    Copy,
    /// Advances the address by so many instructions of the least length.
    AdvancePc(u32),
    /// Advances the line.
    AdvanceLine(u32),
    /// Says the file, by its number.
    SetFile(u32),
    /// Advances the address as special opcode 255 would.
    ConstAddPc,
    /// Advances the address by so many bytes.
    FixedAdvancePc(u16),
    /// Appends the last row of a sequence, whose address is the first behind it.
    EndSequence,
    /// Says the address.
    SetAddress(u32),
    /// Changes neither the address nor the file nor the line.
    Other,
}

// A standard opcode with a number that is not kept.
fn skipped(bytes: &[u8]) -> Option<(Opcode, &[u8])>
    ensures value { Gives (λ x. (x.0, x.1.now)) result (skipped_at bytes.now) }
    ensures shorter { IfSome result (λ x. length x.1.now ≤ length bytes.now) }
{
    let (_number, rest) = unsigned(bytes)?;
    Some((Opcode::Other, rest))
}

// The standard opcode of this number.
#[tactic(auto, unfolding(crate::specs::Opcodes::standard_at))]
fn standard(number: u8, bytes: &[u8]) -> Option<(Opcode, &[u8])>
    ensures value { Gives (λ x. (x.0, x.1.now)) result (standard_at number bytes.now) }
    ensures shorter { IfSome result (λ x. length x.1.now ≤ length bytes.now) }
{
    match number {
        1 => Some((Opcode::Copy, bytes)),
        2 => {
            let (count, rest) = unsigned(bytes)?;
            Some((Opcode::AdvancePc(count), rest))
        }
        3 => {
            let (count, rest) = signed(bytes)?;
            Some((Opcode::AdvanceLine(count), rest))
        }
        4 => {
            let (file, rest) = unsigned(bytes)?;
            Some((Opcode::SetFile(file), rest))
        }
        5 => skipped(bytes),
        6 => Some((Opcode::Other, bytes)),
        7 => Some((Opcode::Other, bytes)),
        8 => Some((Opcode::ConstAddPc, bytes)),
        9 => {
            let (count, rest) = half(bytes)?;
            Some((Opcode::FixedAdvancePc(count), rest))
        }
        10 => Some((Opcode::Other, bytes)),
        11 => Some((Opcode::Other, bytes)),
        12 => skipped(bytes),
        _ => None,
    }
}

// What the bytes of an extended opcode say.
#[tactic(auto, unfolding(crate::specs::Opcodes::extended_of))]
fn extended_in(bytes: &[u8]) -> Option<Opcode>
    ensures { Gives (λ x. x) result (extended_of bytes.now) }
{
    let (number, rest) = byte(bytes)?;
    if number == 1 {
        return Some(Opcode::EndSequence);
    }
    if number != 2 {
        return Some(Opcode::Other);
    }
    if rest.len() != 4 {
        return None;
    }
    let (address, _rest) = word(rest)?;
    Some(Opcode::SetAddress(address))
}

// An extended opcode: its length, and so many bytes.
#[tactic(auto, unfolding(crate::specs::Opcodes::extended_at))]
fn extended(bytes: &[u8]) -> Option<(Opcode, &[u8])>
    ensures value { Gives (λ x. (x.0, x.1.now)) result (extended_at bytes.now) }
    ensures shorter { IfSome result (λ x. length x.1.now ≤ length bytes.now) }
{
    let (count, rest) = unsigned(bytes)?;
    let (inner, rest) = block(rest, count as usize)?;
    let opcode = extended_in(inner)?;
    Some((opcode, rest))
}

/// The opcode in front, where the first special one has this number. `None` where the bytes end within it, where it is
/// a standard one above 12, or sets an address that isn't of 4 bytes.
#[tactic(auto, unfolding(crate::specs::Opcodes::opcode_at))]
pub(crate) fn next_opcode(opcode_base: u8, bytes: &[u8]) -> Option<(Opcode, &[u8])>
    ensures value { Gives (λ x. (x.0, x.1.now)) result (opcode_at opcode_base bytes.now) }
    ensures shorter { IfSome result (λ x. length x.1.now + 1 ≤ length bytes.now) }
{
    let (number, rest) = byte(bytes)?;
    if number == 0 {
        return extended(rest);
    }
    if opcode_base <= number {
        return Some((Opcode::Special(number - opcode_base), rest));
    }
    standard(number, rest)
}
