//! Lines with their masks and bytes, as plain rows: each at its place, in the order of the first stores.
//!
//! What reads and writes a row without changing which lines there are stands here: a line's place, a byte or four of
//! them, and the writing of all to memory ([`drain`]). Places are given, and slots kept, in `stored`.

ghost use Rattle.std.specs.Prelude.{◌≡◌, ◌==◌, ◌+◌, ◌*◌, ◌/◌, ◌%◌, ◌^◌, ◌<◌, ◌≤◌, ℕ, ◌&&◌, if◌then◌else◌, length};
ghost use Rattle.std.specs.Prelude.{slice_index, Some, IfSome};
ghost use Rattle.std.specs.Int.{bit_at};
ghost use Rattle.tm_buffer.specs.Buffer.{Fits, memory_with, place_of};
ghost use Rattle.tm_buffer.specs.Slots.{AtItsPlace, bytes_of, slot_byte};

/// The place of a line. The place `recent` is looked at first, where there is one of this number.
pub fn place_in(lines: &[u32], recent: usize, line: u32) -> Option<usize>
    requires { AtItsPlace lines.now }
    ensures { result ≡ place_of lines.now line }
{
    if recent < lines.len() && lines[recent] == line {
        return Some(recent);
    }
    search(lines, line)
}

/// The place of a line, by a search.
fn search(lines: &[u32], line: u32) -> Option<usize>
    ensures { result ≡ place_of lines.now line }
{
    for (place, other) in lines.iter().enumerate() {
        if *other == line {
            return Some(place);
        }
    }
    None
}

/// The byte that is stored at an offset of the line at a place, if any.
#[inline(always)]
pub fn byte_in(masks: &[u64], bytes: &[u8], place: usize, offset: usize) -> Option<u8>
    requires place { place < length masks.now }
    requires offset { offset < 64 }
    requires bytes { place * 64 + offset < length bytes.now }
    requires fits { place < 2 ^ 32 }
    ensures { result ≡ slot_byte masks.now bytes.now offset place }
{
    if masks[place] >> offset & 1 == 1 {
        Some(bytes[place * 64 + offset])
    } else {
        None
    }
}

/// The four bytes from an offset of the line at a place on, where all of them are stored.
#[inline(always)]
pub fn run_in(masks: &[u64], bytes: &[u8], place: usize, offset: usize) -> Option<[u8; 4]>
    requires place { place < length masks.now }
    requires offset { offset ≤ 60 }
    requires bytes { length bytes.now ≡ length masks.now * 64 }
    requires fits { place < 2 ^ 32 }
    ensures { IfSome result (λ run. (k : ℕ) → k < 4 →
        slot_byte masks.now bytes.now (offset + k) place ≡ Some (slice_index run k)) }
{
    if masks[place] >> offset & 15 != 15 {
        return None;
    }
    let start = place * 64 + offset;
    Some([
        bytes[start],
        bytes[start + 1],
        bytes[start + 2],
        bytes[start + 3],
    ])
}

/// Writes the bytes of a mask to memory, one by one from the lowest on.
fn drain_bits(line: u32, mask: u64, bytes: &[u8], memory: &mut [u8])
    requires bytes { length bytes.now ≡ 64 }
    requires below { (k : ℕ) → k < 64 → bit_at mask k ≡ 1 → line * 64 + k < length memory.old }
    ensures { (q : ℕ) → slice_index memory.new q ≡ (if q / 64 == line && bit_at mask (q % 64) == 1
        then slice_index bytes.now (q % 64) else slice_index memory.old q) }
{
    let start = line as usize * 64;
    let mut left = mask;
    while left != 0 {
        let offset = left.trailing_zeros() as usize;
        memory[start + offset] = bytes[offset];
        left &= !(1 << offset);
    }
}

/// Writes the bytes of one line to memory: those of its mask, and no others.
fn drain_slot(line: u32, mask: u64, bytes: &[u8], memory: &mut [u8])
    requires bytes { length bytes.now ≡ 64 }
    requires below { (k : ℕ) → k < 64 → bit_at mask k ≡ 1 → line * 64 + k < length memory.old }
    ensures { (q : ℕ) → slice_index memory.new q ≡ (if q / 64 == line && bit_at mask (q % 64) == 1
        then slice_index bytes.now (q % 64) else slice_index memory.old q) }
{
    if mask == u64::MAX {
        let start = line as usize * 64;
        memory[start..start + 64].copy_from_slice(bytes);
    } else {
        drain_bits(line, mask, bytes, memory);
    }
}

/// Writes the bytes of all lines to memory.
pub fn drain(lines: &[u32], masks: &[u64], bytes: &[u8], memory: &mut [u8])
    requires places { AtItsPlace lines.now }
    requires masks { length lines.now ≤ length masks.now }
    requires bytes { length bytes.now ≡ length masks.now * 64 }
    requires fits { Fits (bytes_of lines.now masks.now bytes.now) (length memory.old) }
    ensures { memory.new ≡ memory_with (bytes_of lines.now masks.now bytes.now) memory.old }
{
    for (place, line) in lines.iter().enumerate() {
        let start = place * 64;
        drain_slot(*line, masks[place], &bytes[start..start + 64], memory);
    }
}
