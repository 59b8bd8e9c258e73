//! Numbers by which states that may be the same are found: states of one digest are compared. That the same states have
//! the same digest is promised (`specs/Digests.antt`), and so that none is kept twice.

ghost use Rattle.std.specs.Prelude.{◌≡◌, ◌↔◌, ◌+◌, ◌/◌, ◌<◌, ◌≤◌, ℕ, IsTrue, length, slice_index};
ghost use Rattle.tm_core.specs.Reopening.{IsSameElsewhere};
ghost use Rattle.tm_outcomes.specs.Digests.{mixed, mixed_line, mixed_word, word_in};

/// An odd number with bits set all over: 2^64 divided by the golden ratio.
const MIX: u64 = 0x9e37_79b9_7f4a_7c15;

/// A number that is the same where the same words were added in the same order.
#[derive(Clone, Copy, PartialEq, Eq, Debug)]
pub struct Digest {
    value: u64,
}

impl Digest {
    /// With no word added.
    pub fn new() -> Digest
        ensures { result.value ≡ 0 }
    {
        Digest { value: 0 }
    }

    /// The number.
    pub fn value(self) -> u64
        ensures { result ≡ self.value }
    {
        self.value
    }

    /// Adds a word.
    #[inline(always)]
    pub fn add(&mut self, word: u64)
        ensures { self.new.value ≡ mixed self.old.value word }
    {
        self.value = (self.value ^ word).wrapping_mul(MIX).rotate_left(29);
    }

    /// Adds a line of 64 bytes of memory, where it is not the same in the other.
    pub fn add_line(&mut self, memory: &[u8], other: &[u8], line: u32)
        ensures { self.new.value ≡ mixed_line memory.now other.now self.old.value line }
    {
        let start = line as usize * 64;
        if memory.len() < start + 64 || other.len() < start + 64 {
            return;
        }
        for word in 0..8 {
            self.add_word(memory, other, start + word * 8);
        }
    }

    // Adds the word at an address, where it is not the same in the other.
    #[inline(always)]
    fn add_word(&mut self, memory: &[u8], other: &[u8], at: usize)
        requires here { at + 8 ≤ length memory.now }
        requires there { at + 8 ≤ length other.now }
        ensures { self.new.value ≡ mixed_word memory.now other.now self.old.value at }
    {
        let value = word_at(memory, at);
        if value != word_at(other, at) {
            self.add(at as u64 / 8);
            self.add(value);
        }
    }
}

// The eight bytes from an address on.
#[inline(always)]
fn word_at(bytes: &[u8], at: usize) -> u64
    requires { at + 8 ≤ length bytes.now }
    ensures { result ≡ word_in bytes.now at }
{
    u64::from_le_bytes([
        bytes[at],
        bytes[at + 1],
        bytes[at + 2],
        bytes[at + 3],
        bytes[at + 4],
        bytes[at + 5],
        bytes[at + 6],
        bytes[at + 7],
    ])
}

/// Whether both are the same bytes, where each is the same as a third but on these lines.
pub fn are_same(these: &[u8], those: &[u8], opening: &[u8], lines: &[u32]) -> bool
    requires these { IsSameElsewhere lines.now these.now opening.now }
    requires those { IsSameElsewhere lines.now those.now opening.now }
    ensures { IsTrue result ↔ these.now ≡ those.now }
{
    for line in lines {
        if !is_line_same(these, those, *line) {
            return false;
        }
    }
    true
}

// Whether the bytes of a line are the same. Each is looked at, so that the compiler compares sixteen at once.
fn is_line_same(these: &[u8], those: &[u8], line: u32) -> bool
    requires { length these.now ≡ length those.now }
    ensures same { IsTrue result → (address : ℕ) → address / 64 ≡ line →
        slice_index these.now address ≡ slice_index those.now address }
    ensures differs { these.now ≡ those.now → IsTrue result }
{
    let start = line as usize * 64;
    let end = end_of(line, these.len());
    let mut same = true;
    for at in start..end {
        same = same & (these[at] == those[at]);
    }
    same
}

// Where a line of 64 bytes ends in memory of this size.
fn end_of(line: u32, size: usize) -> usize
    ensures within { result ≤ size }
    ensures all { (address : ℕ) → address / 64 ≡ line → address < size → address < result }
{
    let end = line as usize * 64 + 64;
    if end < size { end } else { size }
}
