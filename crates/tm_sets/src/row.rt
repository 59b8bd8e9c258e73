//! The entries of a directory, in one row of fixed length, and the two calls that change it.
//!
//! [`hook`] puts an entry in front of both its lists, [`unhook`] takes it off both and onto the free list, which goes
//! by the field of the core's list. The heads of the lists, and how many lines a core has, are `threaded`'s to keep.

ghost use Rattle.std.specs.Prelude.{◌≡◌, ◌+◌, ◌^◌, ◌<◌, ◌≤◌, length};
ghost use Rattle.tm_sets.specs.Row.{entry_at, hooked, unhooked};
ghost use Rattle.tm_sets.specs.Row.{with_before_on_core, with_before_on_line, with_after_on_line};

use crate::interface::Kind;

/// An entry of the row: a triple, on the list of its core and on the list of its line; or a free entry, on the free
/// list.
///
/// Entries are told by their index + 1, and 0 tells none.
#[derive(Clone, Copy, Debug)]
pub struct Entry {
    /// Whether it stands for a triple.
    pub held: bool,
    pub core: u8,
    pub kind: Kind,
    pub line: u32,
    /// How many lines the core had written when this entry came.
    pub slot: u32,
    pub before_on_core: u32,
    /// The entry after this one on its core's list, or on the free list.
    pub after_on_core: u32,
    pub before_on_line: u32,
    pub after_on_line: u32,
}

/// Writes which entry is before the entry told, if any is, on its core's list.
fn set_before_on_core(entries: &mut [Entry], told: u32, before: u32)
    requires { told ≤ length entries.old }
    ensures { entries.new ≡ with_before_on_core entries.old told before }
{
    if told != 0 {
        entries[told as usize - 1].before_on_core = before;
    }
}

/// Writes which entry is before the entry told, if any is, on its line's list.
fn set_before_on_line(entries: &mut [Entry], told: u32, before: u32)
    requires { told ≤ length entries.old }
    ensures { entries.new ≡ with_before_on_line entries.old told before }
{
    if told != 0 {
        entries[told as usize - 1].before_on_line = before;
    }
}

/// Writes which entry is after the entry told, if any is, on its line's list.
fn set_after_on_line(entries: &mut [Entry], told: u32, after: u32)
    requires { told ≤ length entries.old }
    ensures { entries.new ≡ with_after_on_line entries.old told after }
{
    if told != 0 {
        entries[told as usize - 1].after_on_line = after;
    }
}

/// Writes an entry that comes before those that it tells to be after it, on both lists.
#[tactic(auto, unfolding(crate::specs::Row::hooked))]
pub fn hook(entries: &mut [Entry], place: u32, entry: Entry)
    requires place { place < length entries.old }
    requires small { place + 1 < 2 ^ 32 }
    requires core { entry.after_on_core ≤ length entries.old }
    requires line { entry.after_on_line ≤ length entries.old }
    ensures { entries.new ≡ hooked entries.old place entry }
{
    entries[place as usize] = entry;
    set_before_on_core(entries, entry.after_on_core, place + 1);
    set_before_on_line(entries, entry.after_on_line, place + 1);
}

/// Takes the first entry of a core's list off both its lists, and puts it before the entry `free`.
#[tactic(auto, unfolding(crate::specs::Row::unhooked))]
pub fn unhook(entries: &mut [Entry], place: u32, free: u32)
    requires place { place < length entries.old }
    requires core { (entry_at entries.old place).after_on_core ≤ length entries.old }
    requires before { (entry_at entries.old place).before_on_line ≤ length entries.old }
    requires after { (entry_at entries.old place).after_on_line ≤ length entries.old }
    ensures { entries.new ≡ unhooked entries.old place free }
{
    let entry = entries[place as usize];
    set_before_on_core(entries, entry.after_on_core, 0);
    set_after_on_line(entries, entry.before_on_line, entry.after_on_line);
    set_before_on_line(entries, entry.after_on_line, entry.before_on_line);
    entries[place as usize] = Entry {
        held: false,
        after_on_core: free,
        ..entry
    };
}
