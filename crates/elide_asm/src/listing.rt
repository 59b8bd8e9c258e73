//! The lines of a listing with labels, from the first byte of the code to its last, none left out.
//!
//! [`write_listing`] writes at each address the labels, and below them one line. An instruction outside of the subset
//! ends before a label in it, so that the label has its line; one of the subset is written whole, and a label in it is
//! not. Its labels are sorted by `symbols`, and lines of the subset written by `ia_text`'s calls.

ghost use Rattle.std.specs.Prelude.{◌≡◌, ◌<◌, ◌≤◌, ℕ, IfOk, List, length};
ghost use Rattle.std.specs.List.Sorted.{IsNonDecreasingBy};
ghost use Rattle.text_out.specs.Writing.{Wrote, Writes};
ghost use Rattle.elide_asm.specs.Labelled.{IsBeforeLabel, IsLine, IsListed, mark_lines, name_line};
ghost use Rattle.symbols.specs.Marks.{marks_at};

use crate::foreign::{outcome_text, write_foreign};
use ia_foreign::foreign_in;
use ia_text::write_line;
use symbols::{Mark, standing_at};
use text_out::{Out, WriteFault};

/// Writes the listing of some code at an address, with these labels, which stand in the order of their addresses.
pub fn write_listing<O: Out>(
    code: &[u8],
    base: u32,
    marks: &[Mark<'_>],
    out: &mut O,
) -> Result<(), WriteFault>
    requires { IsNonDecreasingBy (λ (m : Mark). m.address) marks.now }
    ensures { IfOk result (λ _. (text : List ℕ) × IsListed marks.now code.now base (length code.now) text
        × Wrote (O.device out.old) (O.device out.new) text) }
{
    let mut place = 0;
    let mut at = base;
    'lines: while place < code.len() {
        write_marks(marks, at, out)?;
        let shown = write_entry(&code[place..], at, marks, out)?;
        place += usize::from(shown);
        at = at.wrapping_add(u32::from(shown));
    }
    Ok(())
}

// Writes the lines of the labels at an address.
fn write_marks<O: Out>(marks: &[Mark<'_>], at: u32, out: &mut O) -> Result<(), WriteFault>
    requires { IsNonDecreasingBy (λ (m : Mark). m.address) marks.now }
    ensures { IfOk result (λ _. Wrote (O.device out.old) (O.device out.new) (mark_lines (marks_at marks.now at))) }
{
    write_names(standing_at(marks, at), out)
}

// Writes the line of each label.
fn write_names<O: Out>(marks: &[Mark<'_>], out: &mut O) -> Result<(), WriteFault>
    ensures { IfOk result (λ _. Wrote (O.device out.old) (O.device out.new) (mark_lines marks.now)) }
{
    for mark in marks {
        write_name(mark.name, out)?;
    }
    Ok(())
}

// Writes the line of a label of this name.
fn write_name<O: Out>(name: &[u8], out: &mut O) -> Result<(), WriteFault>
    ensures { IfOk result (λ _. Wrote (O.device out.old) (O.device out.new) (name_line name.now)) }
{
    out.put(name)?;
    out.put(b":\n")?;
    Ok(())
}

// Writes the line of what stands in front of some code, and tells how many bytes it shows.
fn write_entry<O: Out>(
    code: &[u8],
    at: u32,
    marks: &[Mark<'_>],
    out: &mut O,
) -> Result<u8, WriteFault>
    requires some { 0 < length code.now }
    requires sorted { IsNonDecreasingBy (λ (m : Mark). m.address) marks.now }
    ensures line { IfOk result (λ count. (line : List ℕ) × IsLine marks.now code.now at count line
        × Wrote (O.device out.old) (O.device out.new) line) }
    ensures some { IfOk result (λ count. 0 < count) }
    ensures within { IfOk result (λ count. count ≤ length code.now) }
{
    let Some(foreign) = foreign_in(code) else {
        return write_line(code, at, out);
    };
    let count = before_label(marks, at, foreign.length.unwrap_or(1));
    let bytes = &code[..usize::from(count)];
    write_foreign(bytes, at, foreign.words, outcome_text(code), out)?;
    Ok(count)
}

// How many of so many bytes at an address stand before the next label behind the first.
fn before_label(marks: &[Mark<'_>], at: u32, most: u8) -> u8
    requires some { 0 < most }
    requires sorted { IsNonDecreasingBy (λ (m : Mark). m.address) marks.now }
    ensures { IsBeforeLabel marks.now at most result }
{
    for count in 1..most {
        if !standing_at(marks, at.wrapping_add(u32::from(count))).is_empty() {
            return count;
        }
    }
    most
}
