//! The bytes that are loaded: segments by their addresses, from the lowest on, with zeros between them. Headers were
//! read and compared before.

ghost use Rattle.std.specs.Prelude.{◌≡◌, ◌+◌, ◌-◌, ◌^◌, ◌<◌, ◌≤◌, ◌++◌, IfOk, OnOk, drop, length, replicate, take};
ghost use Rattle.ia_elf.specs.Faults.{IsWhole};
ghost use Rattle.ia_elf.specs.Loaded.{IsBase, IsLoaded};
ghost use Rattle.ia_elf.specs.Segments.{EachSegment, InOrder, IsLow, SomeCode};

use crate::fields::{E_PHNUM, half_at};
use crate::segment::{Segment, segment_at};
use std::alloc::{AllocError, Global};

// Adds zeros up to this length, and then the bytes of a segment.
fn push_segment(
    bytes: &mut Vec<u8>,
    file: &[u8],
    segment: Segment,
    start: usize,
) -> Result<(), AllocError>
    requires start { length bytes.old.items ≤ start }
    requires low { start < 2 ^ 32 }
    requires lies { segment.p_offset + segment.p_filesz ≤ length file.now }
    ensures { OnOk result (bytes.new.items ≡ bytes.old.items ++ replicate (start - length bytes.old.items) 0
        ++ take segment.p_filesz (drop segment.p_offset file.now)) }
{
    let offset = segment.p_offset as usize;
    bytes.resize(start, 0)?;
    bytes.extend_from_slice(&file[offset..offset + segment.p_filesz as usize])
}

/// The bytes of all segments that are loaded, from the base on.
#[tactic(auto, using(crate::proofs::Loading::load_steps))]
pub(crate) fn load(alloc: Global, file: &[u8], base: u32) -> Result<Vec<u8>, AllocError>
    requires whole { IsWhole file.now }
    requires base { IsBase file.now base }
    requires code { SomeCode file.now }
    requires low { EachSegment file.now IsLow }
    requires in_order { InOrder file.now }
    ensures { IfOk result (λ bytes. IsLoaded file.now bytes.items base) }
{
    let mut bytes = Vec::new(alloc);
    for number in 0..half_at(file, E_PHNUM) {
        let segment = segment_at(file, number);
        if segment.has_bytes() {
            push_segment(&mut bytes, file, segment, (segment.p_vaddr - base) as usize)?;
        }
    }
    Ok(bytes)
}
