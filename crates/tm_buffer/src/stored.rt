//! The buffer: stores, loads over memory, and the writing of all bytes at a commit.
//!
//! A store comes in two ways: [`Buffer::put`] searches for its lines and may be refused, [`Buffer::put_at`] is told
//! their slots and may not; loads likewise. A byte of a place counts only where its mask has it, so clearing forgets
//! lines and touches no byte. That memory has the addresses is the caller's to see to.

ghost use Rattle.std.specs.Prelude.{◌≡◌, ◌+◌, ◌/◌, ◌^◌, ◌<◌, ◌≤◌, ◌==◌, [], ◌∷◌, ◌++◌, length, slice_index, nat_lt};
ghost use Rattle.std.specs.Prelude.{is_err, if◌then◌else◌, IfOk, IfSome, OnOk, OnErr, IsSome, IsNone, IsTrue};
ghost use Rattle.std.specs.Prelude.{unwrap_or};
ghost use Rattle.std.specs.Prelude.{ℕ, Option, Some, None, false, not};
ghost use Rattle.std.specs.FinMap as bytes_map;
ghost use Rattle.std.specs.FinSet as set;
ghost use Rattle.ia_word.specs.Width.{bits_of, bytes_of};
ghost use Rattle.ia_word.specs.Line.{line, last_line, lines};
ghost use Rattle.ia_word.specs.Operand.{operand_bytes, operand_of, placed_bytes};
ghost use Rattle.tm_buffer.specs.Buffer.{Fits, with_bytes, laid_over, memory_with, lines_of, holds, place_of};
ghost use Rattle.tm_buffer.specs.Buffer.{AreSameLines, IsSlotOf, IsSlotOrNone, Keep, first_slot, last_slot};
ghost use Rattle.tm_buffer.specs.Buffer.{slots_for, with_line, with_lines};

use crate::fault::{Full, NoMemory};
use crate::slots::{byte_in, drain, place_in, run_in};
use ia_word::{Width, from_le, le_bytes, line_of};
use std::alloc::Global;
use std::marker::Model;

/// A map from addresses to bytes, bounded by lines of 64 bytes.
///
/// Each line that has a byte stands at a place, in the order of the first stores, and holds a slot: a number below the
/// room by which a caller who keeps it finds the line without a search. Which slot a line holds tells `places`, read
/// together with `slots`, so that neither is ever cleared (a sparse set; Briggs and Torczon, "An Efficient
/// Representation for Sparse Sets", 1993).
#[derive(Drop)]
pub struct Buffer {
    /// The line at each place.
    pub(crate) lines: Vec<u32>,
    /// The slot of the line at each place.
    slots: Vec<u32>,
    /// For each slot, the place of the line that holds it, if one does.
    places: Vec<u32>,
    /// For each place, used or not, which bytes of the line are stored: bit k for the byte at offset k.
    pub(crate) masks: Vec<u64>,
    /// 64 bytes a place.
    pub(crate) bytes: Vec<u8>,
    /// How many lines there is room for.
    room: usize,
    /// The place that was used last by a call without slots.
    recent: usize,
}

impl Model for Buffer {
    ghost use Rattle.std.specs.Prelude.{◌≤◌};
    ghost use Rattle.std.specs.Prelude.{vec_capacity};
    ghost use Rattle.tm_buffer.specs.Buffer.{BufferValue, buffer_code};
    ghost use Rattle.tm_buffer.specs.Slots.{AreSlots, bytes_of};

    ghost Value = { BufferValue };

    ghost coded = { buffer_code };

    ghost view = { λ a. record {
      bytes = bytes_of a.lines.items a.masks.items a.bytes.items;
      order = a.lines.items;
      slots = a.slots.items;
      room = a.room;
    } };

    ghost invariant = { λ a.
        AreSlots a.lines.items a.slots.items a.places.items a.masks.items a.bytes.items a.room
        × (a.room ≤ vec_capacity a.lines) × (a.room ≤ vec_capacity a.slots) × (a.room ≤ 4096) };
}

impl Buffer {
    /// An empty buffer with room for so many lines, 1 to 4096. The only call that takes memory; `NoMemory` (33) where
    /// there is none.
    pub fn with_lines(alloc: Global, room: u32) -> Result<Buffer, NoMemory>
        requires some { 1 ≤ room }
        requires most { room ≤ 4096 }
        ensures bytes { IfOk result (λ b. b.bytes ≡ bytes_map.empty) }
        ensures order { IfOk result (λ b. b.order ≡ []) }
        ensures slots { IfOk result (λ b. b.slots ≡ []) }
        ensures room { IfOk result (λ b. b.room ≡ room) }
    {
        let room = room as usize;
        let places = vec![in alloc; 0; room]?;
        let masks = vec![in alloc; 0; room]?;
        let bytes = vec![in alloc; 0; room * 64]?;
        let lines = Vec::with_capacity(alloc, room)?;
        let slots = Vec::with_capacity(alloc, room)?;
        Ok(Buffer {
            lines,
            slots,
            places,
            masks,
            bytes,
            room,
            recent: 0,
        })
    }

    /// How many lines have a byte. No byte lies on another line.
    pub fn lines(&self) -> u32
        ensures count { result ≡ length self.now.order }
        ensures distinct { result ≡ set.len (lines_of self.now.order) }
        ensures within { result ≤ self.now.room }
        ensures nowhere_else { (address : ℕ) → holds self.now.order (line address) ≡ false →
            bytes_map.get self.now.bytes address ≡ None }
    {
        self.lines.len() as u32
    }

    /// The line at place i. Each line that was stored to is at one i below `lines()`, in the order of the first stores.
    pub fn line_at(&self, i: u32) -> u32
        requires { i < length self.now.order }
        ensures { result ≡ slice_index self.now.order i }
    {
        self.lines[i as usize]
    }

    /// Stores an operand of one or four bytes, the lowest first. Asked for an access that ends at or below 2^32.
    /// `Full` (30), and nothing changed, exactly where the lines used and those of this access are together more
    /// distinct lines than there is room for. The lines are found by a search, and one that is new takes any slot that
    /// is free; the others keep theirs.
    pub fn put(&mut self, address: u32, width: Width, value: u32) -> Result<(), Full>
        requires ends { address + bytes_of width ≤ 2 ^ 32 }
        requires fits { value < 2 ^ bits_of width }
        ensures full { is_err result ≡ nat_lt self.old.room (length (with_lines self.old.order (lines address width))) }
        ensures bytes { OnOk result (self.new.bytes
            ≡ with_bytes self.old.bytes (placed_bytes address (operand_bytes width value))) }
        ensures order { OnOk result (self.new.order ≡ with_lines self.old.order (lines address width)) }
        ensures lines { OnOk result (lines_of self.new.order ≡ lines_of (lines address width ++ self.old.order)) }
        ensures room { self.new.room ≡ self.old.room }
        ensures slots { Keep self.old.slots self.new.slots }
        ensures err { OnErr result (self.new ≡ self.old) }
    {
        let line = line_of(address);
        if line_of(address + (width.bytes() - 1)) != line {
            return self.put_by_search(address, width, value);
        }
        let place = self.take_one(line)?;
        self.write_in(place, address, width, value);
        self.recent = place;
        Ok(())
    }

    /// [`Buffer::put`] by the slots of the access's lines: the first for the line of its first byte and, where it
    /// crosses a line's end, the second for that of its last. Asked with a slot for each line: the one that the line
    /// holds, or for a new line one that no line holds, and another for each. Slots may come in any order. There is
    /// room for each slot, so that nothing is refused.
    #[inline(always)]
    pub fn put_at(&mut self, address: u32, width: Width, value: u32, slots: [Option<u32>; 2])
        requires ends { address + bytes_of width ≤ 2 ^ 32 }
        requires fits { value < 2 ^ bits_of width }
        requires first { IsSlotOf self.old (line address) (first_slot slots) }
        requires last { (last_line address width ≡ line address → ⊥)
            → IsSlotOf self.old (last_line address width) (last_slot slots) }
        requires apart { first_slot slots ≡ last_slot slots → ⊥ }
        ensures bytes { self.new.bytes
            ≡ with_bytes self.old.bytes (placed_bytes address (operand_bytes width value)) }
        ensures order { self.new.order ≡ with_lines self.old.order (lines address width) }
        ensures lines { lines_of self.new.order ≡ lines_of (lines address width ++ self.old.order) }
        ensures slots { self.new.slots ≡ with_lines self.old.slots (slots_for address width slots) }
        ensures room { self.new.room ≡ self.old.room }
    {
        let [first, last] = slots;
        match width {
            Width::B => {
                let place = self.take_at(line_of(address), first.unwrap());
                self.write_at(place, address, value as u8);
            }
            Width::D => {
                let place = self.take_at(line_of(address), first.unwrap());
                let end = line_of(address + 3);
                if end == line_of(address) {
                    self.write_run(place, address, le_bytes(value));
                } else {
                    let last = self.take_at(end, last.unwrap());
                    self.write_over_end(place, last, address, le_bytes(value));
                }
            }
        }
    }

    /// The operand at an address as the transaction sees it: the stored bytes laid over the value that memory has
    /// there. Asked for an access that ends at or below 2^32.
    pub fn overlay(&self, address: u32, width: Width, memory_value: u32) -> u32
        requires ends { address + bytes_of width ≤ 2 ^ 32 }
        requires fits { memory_value < 2 ^ bits_of width }
        ensures { result ≡ operand_of width (laid_over self.now.bytes address (operand_bytes width memory_value)) }
    {
        match width {
            Width::B => {
                let place = self.place(line_of(address));
                u32::from(self.byte_over(place, address, memory_value as u8))
            }
            Width::D => {
                let first = self.place(line_of(address));
                let end = line_of(address + 3);
                if end == line_of(address) {
                    self.run_over(first, address, memory_value)
                } else {
                    let last = self.place(end);
                    self.long_over(first, last, address, memory_value)
                }
            }
        }
    }

    /// [`Buffer::overlay`] by the slots of the access's lines, in the order of `put_at`. Asked with the slot a line
    /// holds; for a line that has no byte with none, or with one that no line holds.
    #[inline(always)]
    pub fn overlay_at(
        &self,
        address: u32,
        width: Width,
        memory_value: u32,
        slots: [Option<u32>; 2],
    ) -> u32
        requires ends { address + bytes_of width ≤ 2 ^ 32 }
        requires fits { memory_value < 2 ^ bits_of width }
        requires first { IsSlotOrNone self.now (line address) (first_slot slots) }
        requires last { (last_line address width ≡ line address → ⊥)
            → IsSlotOrNone self.now (last_line address width) (last_slot slots) }
        ensures { result ≡ operand_of width (laid_over self.now.bytes address (operand_bytes width memory_value)) }
    {
        let [first, last] = slots;
        let place = self.place_or_none(line_of(address), first);
        match width {
            Width::B => u32::from(self.byte_over(place, address, memory_value as u8)),
            Width::D => {
                let end = line_of(address + 3);
                if end == line_of(address) {
                    self.run_over(place, address, memory_value)
                } else {
                    let last = self.place_or_none(end, last);
                    self.long_over(place, last, address, memory_value)
                }
            }
        }
    }

    /// Writes the stored bytes, and no others, to memory, and forgets them. Asked for memory that has each of their
    /// addresses.
    pub fn drain_into(&mut self, memory: &mut [u8])
        requires { Fits self.old.bytes (length memory.old) }
        ensures memory { memory.new ≡ memory_with self.old.bytes memory.old }
        ensures bytes { self.new.bytes ≡ bytes_map.empty }
        ensures order { self.new.order ≡ [] }
        ensures slots { self.new.slots ≡ [] }
        ensures room { self.new.room ≡ self.old.room }
    {
        drain(&self.lines, &self.masks, &self.bytes, memory);
        self.clear();
    }

    /// Forgets all bytes and lines.
    pub fn clear(&mut self)
        ensures bytes { self.new.bytes ≡ bytes_map.empty }
        ensures order { self.new.order ≡ [] }
        ensures slots { self.new.slots ≡ [] }
        ensures room { self.new.room ≡ self.old.room }
    {
        self.lines.clear();
        self.slots.clear();
    }

    /// The place of a line, by a search.
    fn place(&self, line: u32) -> Option<usize>
        ensures place { result ≡ place_of self.now.order line }
        ensures within { length self.now.order ≤ self.now.room }
    {
        place_in(&self.lines, self.recent, line)
    }

    /// The place of a line that holds a slot, or of none if both are new.
    #[inline(always)]
    fn place_at(&self, line: u32, slot: u32) -> Option<usize>
        requires low { slot < self.now.room }
        requires same { place_of self.now.order line ≡ place_of self.now.slots slot }
        ensures { result ≡ place_of self.now.order line }
    {
        let place = self.places[slot as usize] as usize;
        if place < self.lines.len() && self.lines[place] == line {
            Some(place)
        } else {
            None
        }
    }

    /// What `place_at` answers for a slot, and none where no slot is given.
    #[inline(always)]
    fn place_or_none(&self, line: u32, slot: Option<u32>) -> Option<usize>
        requires { IsSlotOrNone self.now line slot }
        ensures { result ≡ place_of self.now.order line }
    {
        match slot {
            Some(slot) => self.place_at(line, slot),
            None => None,
        }
    }

    /// The place of a line, which is given one where it has none; `Full` where there is no room for it.
    #[inline(always)]
    fn take_one(&mut self, line: u32) -> Result<usize, Full>
        ensures full { is_err result ≡ nat_lt self.old.room (length (with_line self.old.order line)) }
        ensures place { IfOk result (λ place. place_of self.new.order line ≡ Some place) }
        ensures bytes { OnOk result (self.new.bytes ≡ self.old.bytes) }
        ensures order { OnOk result (self.new.order ≡ with_line self.old.order line) }
        ensures room { self.new.room ≡ self.old.room }
        ensures slots { Keep self.old.slots self.new.slots }
        ensures err { OnErr result (self.new ≡ self.old) }
    {
        match self.place(line) {
            Some(place) => Ok(place),
            None if self.lines.len() < self.room => {
                let slot = self.free_slot();
                Ok(self.add(line, slot))
            }
            None => Err(Full),
        }
    }

    /// Stores an operand on the line that has this place.
    #[inline(always)]
    fn write_in(&mut self, place: usize, address: u32, width: Width, value: u32)
        requires ends { address + bytes_of width ≤ 2 ^ 32 }
        requires fits { value < 2 ^ bits_of width }
        requires place { place_of self.old.order (line address) ≡ Some place }
        requires one { last_line address width ≡ line address }
        ensures bytes { self.new.bytes
            ≡ with_bytes self.old.bytes (placed_bytes address (operand_bytes width value)) }
        ensures lines { AreSameLines self.old self.new }
    {
        match width {
            Width::B => self.write_at(place, address, value as u8),
            Width::D => self.write_run(place, address, le_bytes(value)),
        }
    }

    /// A store on two lines, which are found or given their places one by one.
    #[inline(never)]
    fn put_by_search(&mut self, address: u32, width: Width, value: u32) -> Result<(), Full>
        requires ends { address + bytes_of width ≤ 2 ^ 32 }
        requires fits { value < 2 ^ bits_of width }
        ensures full { is_err result ≡ nat_lt self.old.room (length (with_lines self.old.order (lines address width))) }
        ensures bytes { OnOk result (self.new.bytes
            ≡ with_bytes self.old.bytes (placed_bytes address (operand_bytes width value))) }
        ensures order { OnOk result (self.new.order ≡ with_lines self.old.order (lines address width)) }
        ensures lines { OnOk result (lines_of self.new.order ≡ lines_of (lines address width ++ self.old.order)) }
        ensures room { self.new.room ≡ self.old.room }
        ensures slots { Keep self.old.slots self.new.slots }
        ensures err { OnErr result (self.new ≡ self.old) }
    {
        self.reserve(address, width)?;
        match width {
            Width::B => self.write(address, value as u8),
            Width::D => self.write_long(address, le_bytes(value)),
        }
        Ok(())
    }

    /// How many lines have a place.
    fn used(&self) -> usize
        ensures count { result ≡ length self.now.order }
        ensures small { result ≤ 4096 }
    {
        self.lines.as_slice().len()
    }

    /// How many places a line would take: one where it has none.
    fn wanted(&self, line: u32) -> usize
        ensures count { result ≡ (if holds self.now.order line then 0 else 1) }
        ensures small { result ≤ 1 }
    {
        match self.place(line) {
            Some(_) => 0,
            None => 1,
        }
    }

    /// How many lines would have a place, with these two.
    fn used_with(&self, first: u32, last: u32) -> usize
        ensures { result ≡ length (with_line (with_line self.now.order first) last) }
    {
        if last == first {
            return self.used() + self.wanted(first);
        }
        self.used() + self.wanted(first) + self.wanted(last)
    }

    /// Gives the lines of an access their places.
    fn reserve(&mut self, address: u32, width: Width) -> Result<(), Full>
        requires { address + bytes_of width ≤ 2 ^ 32 }
        ensures full { is_err result ≡ nat_lt self.old.room (length (with_lines self.old.order (lines address width))) }
        ensures bytes { self.new.bytes ≡ self.old.bytes }
        ensures order { OnOk result (self.new.order ≡ with_lines self.old.order (lines address width)) }
        ensures lines { OnOk result (lines_of self.new.order ≡ lines_of (lines address width ++ self.old.order)) }
        ensures first { OnOk result (IsTrue (holds self.new.order (line address))) }
        ensures last { OnOk result (IsTrue (holds self.new.order (last_line address width))) }
        ensures room { self.new.room ≡ self.old.room }
        ensures slots { Keep self.old.slots self.new.slots }
        ensures err { OnErr result (self.new ≡ self.old) }
    {
        let first = line_of(address);
        let last = line_of(address + (width.bytes() - 1));
        if self.used_with(first, last) > self.room {
            return Err(Full);
        }
        self.take(first);
        self.take(last);
        Ok(())
    }

    /// The byte stored at an address, whose line has this place, or else this byte.
    #[inline(always)]
    fn byte_over(&self, place: Option<usize>, address: u32, under: u8) -> u8
        requires { place ≡ place_of self.now.order (line address) }
        ensures { result ≡ unwrap_or (bytes_map.get self.now.bytes address) under }
    {
        let (masks, bytes) = (self.masks.as_slice(), self.bytes.as_slice());
        let Some(place) = place else {
            return under;
        };
        byte_in(masks, bytes, place, address as usize % 64).unwrap_or(under)
    }

    /// The doubleword at an address, of which the first and the last byte's lines have these places, over this one.
    fn long_over(&self, first: Option<usize>, last: Option<usize>, address: u32, under: u32) -> u32
        requires ends { address + 4 ≤ 2 ^ 32 }
        requires first { first ≡ place_of self.now.order (line address) }
        requires last { last ≡ place_of self.now.order (line (address + 3)) }
        ensures { result ≡ operand_of Width.D (laid_over self.now.bytes address (operand_bytes Width.D under)) }
    {
        let under = le_bytes(under);
        from_le([
            self.byte_over(first, address, under[0]),
            self.byte_over(one_of(first, last, address, 1), address + 1, under[1]),
            self.byte_over(one_of(first, last, address, 2), address + 2, under[2]),
            self.byte_over(last, address + 3, under[3]),
        ])
    }

    /// The doubleword at an address, all on the line that has this place, over this one.
    #[inline(always)]
    fn run_over(&self, place: Option<usize>, address: u32, under: u32) -> u32
        requires ends { address + 4 ≤ 2 ^ 32 }
        requires place { place ≡ place_of self.now.order (line address) }
        requires one { line (address + 3) ≡ line address }
        ensures { result ≡ operand_of Width.D (laid_over self.now.bytes address (operand_bytes Width.D under)) }
    {
        let (masks, bytes) = (self.masks.as_slice(), self.bytes.as_slice());
        let Some(at) = place else {
            return under;
        };
        match run_in(masks, bytes, at, address as usize % 64) {
            Some(run) => from_le(run),
            None => self.long_over(place, place, address, under),
        }
    }

    /// Whether no line holds a slot.
    #[inline(always)]
    fn is_free(&self, slot: usize) -> bool
        requires { slot < self.now.room }
        ensures { result ≡ not (holds self.now.slots slot) }
    {
        let place = self.places[slot] as usize;
        place >= self.slots.len() || self.slots[place] as usize != slot
    }

    /// A slot that no line holds: that of the next place, or else the first.
    #[inline(always)]
    fn free_slot(&self) -> u32
        requires { length self.now.order < self.now.room }
        ensures low { result < self.now.room }
        ensures free { place_of self.now.slots result ≡ None }
    {
        let next = self.lines.len();
        if self.is_free(next) {
            next as u32
        } else {
            self.first_free()
        }
    }

    /// The first slot that no line holds.
    #[inline(never)]
    fn first_free(&self) -> u32
        requires { length self.now.order < self.now.room }
        ensures low { result < self.now.room }
        ensures free { place_of self.now.slots result ≡ None }
    {
        for slot in 0..self.room {
            if self.is_free(slot) {
                return slot as u32;
            }
        }
        unreachable!()
    }

    /// Gives a line a place, where it has none.
    fn take(&mut self, line: u32)
        requires { length (with_line self.old.order line) ≤ self.old.room }
        ensures bytes { self.new.bytes ≡ self.old.bytes }
        ensures order { self.new.order ≡ with_line self.old.order line }
        ensures room { self.new.room ≡ self.old.room }
        ensures slots { Keep self.old.slots self.new.slots }
    {
        if self.place(line).is_some() {
            return;
        }
        let slot = self.free_slot();
        self.recent = self.add(line, slot);
    }

    /// The place of a line that holds a slot, which it is given where both are new.
    #[inline(always)]
    fn take_at(&mut self, line: u32, slot: u32) -> usize
        requires low { slot < self.old.room }
        requires same { place_of self.old.order line ≡ place_of self.old.slots slot }
        ensures place { place_of self.new.order line ≡ Some result }
        ensures bytes { self.new.bytes ≡ self.old.bytes }
        ensures order { self.new.order ≡ with_line self.old.order line }
        ensures slots { self.new.slots ≡ with_line self.old.slots slot }
        ensures room { self.new.room ≡ self.old.room }
    {
        match self.place_at(line, slot) {
            Some(place) => place,
            None => self.add(line, slot),
        }
    }

    /// Gives a new line the next place, and a slot that is free.
    pub(crate) fn add(&mut self, line: u32, slot: u32) -> usize
        requires new { place_of self.old.order line ≡ None }
        requires low { slot < self.old.room }
        requires free { place_of self.old.slots slot ≡ None }
        ensures place { result ≡ length self.old.order }
        ensures bytes { self.new.bytes ≡ self.old.bytes }
        ensures order { self.new.order ≡ self.old.order ++ line ∷ [] }
        ensures slots { self.new.slots ≡ self.old.slots ++ slot ∷ [] }
        ensures room { self.new.room ≡ self.old.room }
    {
        let place = self.lines.len();
        self.masks[place] = 0;
        self.places[slot as usize] = place as u32;
        self.lines.push(line).unwrap();
        self.slots.push(slot).unwrap();
        place
    }

    /// Writes a byte to the line that has this place.
    #[inline(always)]
    fn write_at(&mut self, place: usize, address: u32, byte: u8)
        requires { place_of self.old.order (line address) ≡ Some place }
        ensures bytes { self.new.bytes ≡ bytes_map.insert self.old.bytes address byte }
        ensures lines { AreSameLines self.old self.new }
    {
        let offset = address as usize % 64;
        self.masks[place] = self.masks[place] | 1 << offset;
        self.bytes[place * 64 + offset] = byte;
    }

    /// Writes four bytes to the line that has this place.
    #[inline(always)]
    fn write_run(&mut self, place: usize, address: u32, bytes: [u8; 4])
        requires ends { address + 4 ≤ 2 ^ 32 }
        requires place { place_of self.old.order (line address) ≡ Some place }
        requires one { line (address + 3) ≡ line address }
        ensures bytes { self.new.bytes ≡ with_bytes self.old.bytes (placed_bytes address (slice_index bytes 0
            ∷ slice_index bytes 1 ∷ slice_index bytes 2 ∷ slice_index bytes 3 ∷ [])) }
        ensures lines { AreSameLines self.old self.new }
    {
        let offset = address as usize % 64;
        let [low, second, third, high] = bytes;
        self.masks[place] = self.masks[place] | 15 << offset;
        let start = place * 64 + offset;
        self.bytes[start + 3] = high;
        self.bytes[start + 2] = third;
        self.bytes[start + 1] = second;
        self.bytes[start] = low;
    }

    /// Writes four bytes to the two lines that have these places.
    fn write_over_end(&mut self, first: usize, last: usize, address: u32, bytes: [u8; 4])
        requires ends { address + 4 ≤ 2 ^ 32 }
        requires first { place_of self.old.order (line address) ≡ Some first }
        requires last { place_of self.old.order (line (address + 3)) ≡ Some last }
        ensures bytes { self.new.bytes ≡ with_bytes self.old.bytes (placed_bytes address bytes) }
        ensures lines { AreSameLines self.old self.new }
    {
        let [low, second, third, high] = bytes;
        self.write_at(last, address + 3, high);
        self.write_at(one_of(first, last, address, 2), address + 2, third);
        self.write_at(one_of(first, last, address, 1), address + 1, second);
        self.write_at(first, address, low);
    }

    /// Writes a byte to its line, by a search.
    fn write(&mut self, address: u32, byte: u8)
        requires { IsTrue (holds self.old.order (line address)) }
        ensures bytes { self.new.bytes ≡ bytes_map.insert self.old.bytes address byte }
        ensures lines { AreSameLines self.old self.new }
    {
        let place = self.place(line_of(address)).unwrap();
        self.write_at(place, address, byte);
        self.recent = place;
    }

    /// Writes four bytes to their lines, by a search for each.
    fn write_long(&mut self, address: u32, bytes: [u8; 4])
        requires ends { address + 4 ≤ 2 ^ 32 }
        requires first { IsTrue (holds self.old.order (line address)) }
        requires last { IsTrue (holds self.old.order (last_line address Width.D)) }
        ensures bytes { self.new.bytes ≡ with_bytes self.old.bytes (placed_bytes address bytes) }
        ensures lines { AreSameLines self.old self.new }
    {
        let first = self.place(line_of(address)).unwrap();
        let last = self.place(line_of(address + 3)).unwrap();
        self.write_over_end(first, last, address, bytes);
        self.recent = last;
    }
}

/// Of the places of the first and the last of four bytes, that of the byte at an offset.
#[inline(always)]
fn one_of<T: Copy>(first: T, last: T, address: u32, offset: u32) -> T
    requires { address + offset < 2 ^ 32 }
    ensures { result ≡ (if line (address + offset) == line address then first else last) }
{
    if line_of(address + offset) == line_of(address) {
        first
    } else {
        last
    }
}
