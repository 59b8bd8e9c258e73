//! How the segments of a file have to lie.

ghost use Rattle.std.specs.Prelude.{◌≡◌, ◌≢◌, ◌+◌, ◌*◌, ◌<◌, ◌≤◌, ◌↔◌, IsTrue, IfNone, IfSome, length};
ghost use Rattle.ia_elf.specs.Faults.{IsWhole};
ghost use Rattle.ia_elf.specs.Segments.{CodeInFront, EachSegment, HasOther, InOrder, IsExecutable, IsLow, SomeCode};
ghost use Rattle.ia_elf.specs.Segments.{bytes_end, memory_end};
ghost use Rattle.ia_elf.specs.Loaded.{IsBase, IsCodeEnd, IsMemoryEnd};

use crate::fields::{E_PHNUM, E_TYPE, half_at};
use crate::segment::{Segment, segment_at};

/// The file is an executable.
const ET_EXEC: u16 = 2;

/// The segment is for dynamic linking.
const PT_DYNAMIC: u32 = 2;

/// The segment names a program interpreter.
const PT_INTERP: u32 = 3;

/// The end of the largest memory: 256 MiB.
const MOST_MEMORY: u64 = 268_435_456;

// Whether no segment is for dynamic linking.
fn is_static(file: &[u8]) -> bool
    requires { IsWhole file.now }
    ensures { IsTrue result ↔ EachSegment file.now (λ s. (s.p_type ≢ 2) × (s.p_type ≢ 3)) }
{
    for number in 0..half_at(file, E_PHNUM) {
        let segment = segment_at(file, number);
        if segment.p_type == PT_DYNAMIC || segment.p_type == PT_INTERP {
            return false;
        }
    }
    true
}

/// Whether the file is an executable that needs no dynamic linking.
pub(crate) fn is_executable(file: &[u8]) -> bool
    requires { IsWhole file.now }
    ensures { IsTrue result ↔ IsExecutable file.now }
{
    half_at(file, E_TYPE) == ET_EXEC && is_static(file)
}

fn bytes_end(segment: Segment) -> u64
    ensures { result ≡ bytes_end segment }
{
    u64::from(segment.p_vaddr) + u64::from(segment.p_filesz)
}

fn memory_end(segment: Segment) -> u64
    ensures { result ≡ memory_end segment }
{
    u64::from(segment.p_vaddr) + u64::from(segment.p_memsz)
}

/// Where the last byte of code ends, or nothing where no code is loaded.
pub(crate) fn code_end(file: &[u8]) -> Option<u64>
    requires { IsWhole file.now }
    ensures some { IfSome result (λ end. IsCodeEnd file.now end) }
    ensures none { IfNone result (¬ SomeCode file.now) }
{
    let mut end = 0;
    for number in 0..half_at(file, E_PHNUM) {
        let segment = segment_at(file, number);
        if segment.has_code() && bytes_end(segment) > end {
            end = bytes_end(segment);
        }
    }
    if end == 0 { None } else { Some(end) }
}

fn is_segment_low(segment: Segment) -> bool
    ensures { IsTrue result ↔ IsLow segment }
{
    !segment.loads() || memory_end(segment) <= MOST_MEMORY
}

/// Whether all segments lie in the largest memory.
pub(crate) fn is_low(file: &[u8]) -> bool
    requires { IsWhole file.now }
    ensures { IsTrue result ↔ EachSegment file.now IsLow }
{
    for number in 0..half_at(file, E_PHNUM) {
        if !is_segment_low(segment_at(file, number)) {
            return false;
        }
    }
    true
}

/// Where the memory of the last segment ends, or nothing where the segments don't stand in ascending order.
#[tactic(auto, using(crate::proofs::Ends::end_steps))]
pub(crate) fn memory_end_in_order(file: &[u8]) -> Option<u64>
    requires whole { IsWhole file.now }
    requires code { SomeCode file.now }
    ensures some { IfSome result (λ end. InOrder file.now × IsMemoryEnd file.now end) }
    ensures none { IfNone result (¬ InOrder file.now) }
{
    let mut end = 0;
    for number in 0..half_at(file, E_PHNUM) {
        let segment = segment_at(file, number);
        if segment.loads() {
            if u64::from(segment.p_vaddr) < end {
                return None;
            }
            end = memory_end(segment);
        }
    }
    Some(end)
}

fn is_behind(segment: Segment, code_end: u64) -> bool
    ensures { IsTrue result ↔ (HasOther segment → code_end ≤ segment.p_vaddr) }
{
    !segment.has_other() || code_end <= u64::from(segment.p_vaddr)
}

/// Whether all bytes that aren't executable lie behind the code, which ends here.
pub(crate) fn is_code_in_front(file: &[u8], code_end: u64) -> bool
    requires whole { IsWhole file.now }
    requires end { IsCodeEnd file.now code_end }
    ensures { IsTrue result ↔ CodeInFront file.now }
{
    for number in 0..half_at(file, E_PHNUM) {
        if !is_behind(segment_at(file, number), code_end) {
            return false;
        }
    }
    true
}

/// The address of the first byte: that of the first segment with bytes, since the segments stand in ascending order.
pub(crate) fn base(file: &[u8]) -> u32
    requires whole { IsWhole file.now }
    requires code { SomeCode file.now }
    requires in_order { InOrder file.now }
    ensures { IsBase file.now result }
{
    for number in 0..half_at(file, E_PHNUM) {
        let segment = segment_at(file, number);
        if segment.has_bytes() {
            return segment.p_vaddr;
        }
    }
    unreachable!()
}
