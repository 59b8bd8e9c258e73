//! A buffer that takes over another's lines with their bytes, one line a call, in their order.
//!
//! [`Buffer::copy_next`] is told the slot of each, as the sets of the two need not have given a line the same one. It
//! is how a machine becomes as another one is (`tm_core`): the buffer is emptied before.

ghost use Rattle.std.specs.Prelude.{◌≡◌, ◌+◌, ◌*◌, ◌/◌, ◌<◌, ◌≤◌, ◌==◌, ◌++◌, ◌∷◌, [], ℕ, Some, if◌then◌else◌, length};
ghost use Rattle.std.specs.Prelude.{slice_index, take};
ghost use Rattle.tm_buffer.specs.Buffer.{IsPartOf, IsSlotOf};

use crate::stored::Buffer;

/// Writes the 64 bytes of a place as they are there elsewhere.
fn copy_place(bytes: &mut [u8], from: &[u8], place: usize)
    requires here { place * 64 + 64 ≤ length bytes.old }
    requires there { place * 64 + 64 ≤ length from.now }
    ensures { (q : ℕ) → slice_index bytes.new q
        ≡ (if q / 64 == place then slice_index from.now q else slice_index bytes.old q) }
{
    let start = place * 64;
    bytes[start..start + 64].copy_from_slice(&from[start..start + 64]);
}

impl Buffer {
    /// Takes over the next line of another buffer, with its bytes, on this slot, which no line holds. Asked where the
    /// lines so far are the first of the other's, with their bytes: so an empty buffer has the same bytes after as many
    /// calls as the other has lines. Takes no memory.
    pub fn copy_next(&mut self, other: &Buffer, slot: u32)
        requires front { self.old.order ≡ take (length self.old.order) other.now.order }
        requires part { IsPartOf self.old other.now }
        requires more { length self.old.order < length other.now.order }
        requires slot { IsSlotOf self.old (slice_index other.now.order (length self.old.order)) (Some slot) }
        ensures order { self.new.order
            ≡ self.old.order ++ slice_index other.now.order (length self.old.order) ∷ [] }
        ensures part { IsPartOf self.new other.now }
        ensures slots { self.new.slots ≡ self.old.slots ++ slot ∷ [] }
        ensures room { self.new.room ≡ self.old.room }
    {
        let place = self.lines.len();
        self.add(other.lines[place], slot);
        self.masks[place] = other.masks[place];
        copy_place(&mut self.bytes, &other.bytes, place);
    }
}
