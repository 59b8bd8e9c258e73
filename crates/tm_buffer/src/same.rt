//! Whether two buffers have stored the same bytes: [`Buffer::is_same`], line by line, by masks and then by bytes.
//!
//! Each line of one is looked for in the other, first at its own place; then each line of the other must be here, or
//! have no byte. The order of lines, their slots and what stands beside the masks make no difference.

ghost use Rattle.std.specs.Prelude.{◌≡◌, ◌↔◌, ◌<◌, ℕ, IsTrue, None, length, slice_index};
ghost use Rattle.std.specs.Int.{bit_at};
ghost use Rattle.tm_buffer.specs.Buffer.{place_of};
ghost use Rattle.tm_buffer.specs.Slots.{AreSameOn, IsBareOn};

use crate::slots::place_in;
use crate::stored::Buffer;

impl Buffer {
    /// Whether another buffer has stored the same bytes, in whatever order of lines and slots; the room, and what a
    /// byte's place held before, make no difference. Takes no memory. Its time is that of the lines where both have
    /// them in the same order; a line at another place takes a search.
    pub fn is_same(&self, other: &Buffer) -> bool
        ensures { IsTrue result ↔ (self.now.bytes ≡ other.now.bytes) }
    {
        self.is_within(other) && other.has_no_line_beyond(self)
    }

    /// Whether another buffer has the same bytes on each line of this one.
    fn is_within(&self, other: &Buffer) -> bool
        ensures rest { (line : ℕ) → place_of self.now.order line ≡ None → IsBareOn self.now.bytes line }
        ensures same { IsTrue result
            ↔ ((place : ℕ) → place < length self.now.order
            → AreSameOn self.now.bytes other.now.bytes (slice_index self.now.order place)) }
    {
        for place in 0..self.lines.len() {
            if !self.is_same_line(place, other) {
                return false;
            }
        }
        true
    }

    /// Whether another buffer has the same bytes on the line at a place of this one. The same place is looked at first.
    fn is_same_line(&self, place: usize, other: &Buffer) -> bool
        requires { place < length self.now.order }
        ensures { IsTrue result ↔ AreSameOn self.now.bytes other.now.bytes (slice_index self.now.order place) }
    {
        match place_in(&other.lines, place, self.lines[place]) {
            Some(at) => {
                let (start, from) = (place * 64, at * 64);
                self.masks[place] == other.masks[at]
                    && are_same_bytes(
                        self.masks[place],
                        &self.bytes[start..start + 64],
                        &other.bytes[from..from + 64],
                    )
            }
            None => self.masks[place] == 0,
        }
    }

    /// Whether each line that has a byte here is a line of another buffer.
    fn has_no_line_beyond(&self, other: &Buffer) -> bool
        ensures rest { (line : ℕ) → place_of self.now.order line ≡ None → IsBareOn self.now.bytes line }
        ensures beyond { IsTrue result
            ↔ ((place : ℕ) → place < length self.now.order
            → place_of other.now.order (slice_index self.now.order place) ≡ None
            → IsBareOn self.now.bytes (slice_index self.now.order place)) }
    {
        for place in 0..self.lines.len() {
            if !self.is_bare_or_in(place, other) {
                return false;
            }
        }
        true
    }

    /// Whether the line at a place of this one has no byte, or is a line of another buffer.
    fn is_bare_or_in(&self, place: usize, other: &Buffer) -> bool
        requires { place < length self.now.order }
        ensures { IsTrue result
            ↔ (place_of other.now.order (slice_index self.now.order place) ≡ None
            → IsBareOn self.now.bytes (slice_index self.now.order place)) }
    {
        self.masks[place] == 0 || place_in(&other.lines, place, self.lines[place]).is_some()
    }
}

/// Whether two lines have the same bytes where a mask has them, looked at from the lowest on.
fn are_same_bytes(mask: u64, bytes: &[u8], other: &[u8]) -> bool
    requires bytes { length bytes.now ≡ 64 }
    requires other { length other.now ≡ 64 }
    ensures { IsTrue result
        ↔ ((k : ℕ) → k < 64 → bit_at mask k ≡ 1 → slice_index bytes.now k ≡ slice_index other.now k) }
{
    let mut left = mask;
    while left != 0 {
        let offset = left.trailing_zeros() as usize;
        if bytes[offset] != other[offset] {
            return false;
        }
        left &= !(1 << offset);
    }
    true
}
