//! A fault with its place: the line, the part of it that is at fault, and what may be meant. What is written of it to a
//! terminal is not made here.

ghost use Rattle.std.specs.Prelude.{◌≡◌, ◌≤◌, ◌+◌, ◌-◌, IfOk, MatchOption, length};
ghost use Rattle.ia_diagnosis.specs.Diagnoses.{HasNoLine, IsPlaced};

use crate::finding::Finding;
use crate::line::line_at;
use crate::meaning::Meaning;
use crate::operand::bad_operand;
use crate::piece::{Piece, pieces};
use crate::range::{range, short_jump};
use crate::symbol::{symbol_twice, unknown_symbol};
use crate::token::bad_token;
use crate::word::not_in_subset;
use ia_asm::AsmFault;
use std::alloc::{AllocError, Global};

/// A fault of a source, where it stands, and what is meant.
#[derive(Clone, Copy)]
pub struct Diagnosis<'a> {
    /// The fault, with its line.
    pub fault: AsmFault,
    /// The text of that line.
    pub text: &'a [u8],
    /// Where on the line it stands, in bytes, from 1.
    pub column: usize,
    /// How many bytes are at fault.
    pub length: usize,
    /// What is meant.
    pub meaning: Meaning<'a>,
}

/// A line of a source that is at fault.
#[derive(Clone, Copy)]
pub struct FaultyLine<'a> {
    /// The whole source.
    pub source: &'a [u8],
    /// The line's number, from 1.
    pub number: u32,
    /// Its text.
    pub text: &'a [u8],
}

// Where the fault of a line stands, and what is meant.
fn found<'a>(
    alloc: Global,
    line: FaultyLine<'a>,
    fault: AsmFault,
) -> Result<Finding<'a>, AllocError> {
    let pieces = pieces(alloc, line.text)?;
    let finding = found_among(alloc, line, pieces.as_slice(), fault);
    drop(pieces);
    finding
}

// `found` among the pieces of the line.
fn found_among<'a>(
    alloc: Global,
    line: FaultyLine<'a>,
    pieces: &[Piece<'a>],
    fault: AsmFault,
) -> Result<Finding<'a>, AllocError> {
    match fault {
        AsmFault::BadToken(_) => bad_token(alloc, line.text, pieces),
        AsmFault::NotInSubset(_) => not_in_subset(alloc, line.text),
        AsmFault::SymbolTwice(_) => symbol_twice(alloc, line),
        AsmFault::BadOperand(_) => bad_operand(alloc, line.text, pieces),
        AsmFault::UnknownSymbol(_) => unknown_symbol(alloc, line, pieces),
        AsmFault::Range(_) => Ok(range(line.text, pieces)),
        AsmFault::ShortJumpTooFar(_) => Ok(short_jump(line.text, pieces)),
        AsmFault::NoMemory => Err(AllocError),
    }
}

// A place within a line: where it begins, and how many bytes it has.
fn within(text: &[u8], finding: &Finding<'_>) -> (usize, usize)
    ensures { result.0 + result.1 ≤ length text.now }
{
    let start = finding.start.min(text.len());
    let end = finding.end.min(text.len()).max(start);
    (start, end - start)
}

/// A fault of a source with its place. None where the source has no such line.
pub fn diagnosis_of<'a>(
    alloc: Global,
    source: &'a [u8],
    fault: AsmFault,
) -> Result<Option<Diagnosis<'a>>, AllocError>
    ensures { IfOk result (λ told. MatchOption told (HasNoLine source.now fault)
        (λ d. (d.fault ≡ fault) × IsPlaced source.now d)) }
{
    let Some(number) = fault.line() else {
        return Err(AllocError);
    };
    let Some((_start, text)) = line_at(source, number) else {
        return Ok(None);
    };
    let line = FaultyLine {
        source,
        number,
        text,
    };
    let finding = found(alloc, line, fault)?;
    let (start, length) = within(text, &finding);
    Ok(Some(Diagnosis {
        fault,
        text,
        column: start + 1,
        length,
        meaning: finding.meaning,
    }))
}
