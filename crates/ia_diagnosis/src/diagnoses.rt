//! The faults of a source, not the first one alone: the line of each is taken out of a copy, which is then read again,
//! until none is left or enough are told. They come in the order of their lines.

ghost use Rattle.std.specs.Prelude.{◌≡◌, ◌<◌, ◌+◌, ◌^◌, ◌++◌, ◌∷◌, [], IfOk, MatchOption};
ghost use Rattle.ia_diagnosis.specs.Diagnoses.{AreDiagnoses, Extends, HasProgram, IsPlaced, turn};
ghost use Rattle.ia_asm.specs.Assembles.{RefusedAs};

use crate::change::take_out;
use crate::diagnosis::{Diagnosis, diagnosis_of};
use ia_asm::{AsmFault, assemble_image};
use std::alloc::{AllocError, Global};

/// The most faults that are told of a source.
const MOST: usize = 20;

/// How often a source is assembled again.
const ROUNDS: usize = 40;

/// The faults of a source that are told.
#[derive(Drop)]
pub struct Diagnoses<'a> {
    /// The faults, at most 20.
    pub told: Vec<Diagnosis<'a>>,
    /// Whether there are more.
    pub more: bool,
}

// Why a text is refused, or that it is not.
fn fault_of(alloc: Global, text: &[u8]) -> Result<Option<AsmFault>, AllocError>
    ensures { IfOk result (λ fault. MatchOption fault (HasProgram text.now) (λ f. RefusedAs text.now f)) }
{
    match assemble_image(alloc, text) {
        Ok(_program) => Ok(None),
        Err(fault) => Ok(Some(fault)),
    }
}

// Where a fault stands among those of a source: faults of reading come before those of placing, each by their lines.
fn turn(fault: AsmFault) -> u64
    ensures turn { result ≡ turn fault }
    ensures small { result < 2 ^ 33 }
{
    match fault {
        AsmFault::BadToken(line) => u64::from(line),
        AsmFault::NotInSubset(line) => u64::from(line),
        AsmFault::SymbolTwice(line) => u64::from(line),
        AsmFault::BadOperand(line) => u64::from(line),
        AsmFault::UnknownSymbol(line) => (1 << 32) + u64::from(line),
        AsmFault::Range(line) => (1 << 32) + u64::from(line),
        AsmFault::ShortJumpTooFar(line) => (1 << 32) + u64::from(line),
        AsmFault::NoMemory => 0,
    }
}

// Adds a fault behind others, and gives the turn from which on others may follow.
fn tell<'a>(told: &mut Vec<Diagnosis<'a>>, diagnosis: Diagnosis<'a>) -> Result<u64, AllocError>
    ensures { IfOk result (λ next. (told.new.items ≡ told.old.items ++ diagnosis.entry ∷ [])
        × (next ≡ turn diagnosis.entry.fault + 1)) }
{
    let next = turn(diagnosis.fault) + 1;
    told.push(diagnosis)?;
    Ok(next)
}

// Adds a fault behind others, where its turn has not passed and the source has its line.
fn tell_next<'a>(
    alloc: Global,
    source: &'a [u8],
    fault: AsmFault,
    least: u64,
    told: &mut Vec<Diagnosis<'a>>,
) -> Result<u64, AllocError>
    ensures { IfOk result (λ next. Extends source.now told.old.items least told.new.items next) }
{
    if turn(fault) < least {
        return Ok(least);
    }
    match diagnosis_of(alloc, source, fault)? {
        None => Ok(least),
        Some(diagnosis) => tell(told, diagnosis),
    }
}

// The faults behind the first one, of a copy without its line.
#[tactic(auto, using(crate::proofs::Rising::courses))]
fn further<'a>(
    alloc: Global,
    source: &'a [u8],
    copy: &mut Vec<u8>,
    first: Diagnosis<'a>,
) -> Result<Diagnoses<'a>, AllocError>
    requires refused { RefusedAs source.now first.fault }
    requires placed { IsPlaced source.now first }
    ensures { IfOk result (λ found. AreDiagnoses source.now found.told.items) }
{
    let mut told = Vec::new(alloc);
    let mut least = tell(&mut told, first)?;
    for _round in 0..ROUNDS {
        let Some(fault) = fault_of(alloc, copy.as_slice())? else {
            return Ok(Diagnoses { told, more: false });
        };
        if told.as_slice().len() >= MOST {
            return Ok(Diagnoses { told, more: true });
        }
        take_out(copy, source, fault);
        least = tell_next(alloc, source, fault, least, &mut told)?;
    }
    Ok(Diagnoses { told, more: true })
}

/// The faults of a source, up to 20: the one that `assemble_image` tells, and then, each time without the line before,
/// the next. None, where the source is assembled. `AllocError` where memory is refused.
pub fn diagnose<'a>(alloc: Global, source: &'a [u8]) -> Result<Diagnoses<'a>, AllocError>
    ensures { IfOk result (λ found. AreDiagnoses source.now found.told.items) }
{
    let Some(fault) = fault_of(alloc, source)? else {
        return Ok(Diagnoses {
            told: Vec::new(alloc),
            more: false,
        });
    };
    let Some(diagnosis) = diagnosis_of(alloc, source, fault)? else {
        return Ok(Diagnoses {
            told: Vec::new(alloc),
            more: true,
        });
    };
    let mut copy = Vec::from_slice(alloc, source)?;
    take_out(&mut copy, source, fault);
    let found = further(alloc, source, &mut copy, diagnosis);
    drop(copy);
    found
}
