//! Notes of the author, each at a step.
//!
//! [`notes_of`] reads them before the run, [`check_notes`] tests them when its length is known, and [`write_notes`]
//! leaves out those at steps that do not stand in the page. Steps are counted by the run as they are read, and by
//! the page as they are written.

ghost use Rattle.std.specs.Prelude.{◌≡◌, IfOk, MatchResult, OnOk, None, Some, codes, false};
ghost use Rattle.std.specs.Prelude.{true};
ghost use Rattle.std.specs.List.{list_any};
ghost use Rattle.elide_args.specs.Asked.{texts_of};
ghost use Rattle.elide_setup.specs.Misuse.{IsMisuse};
ghost use Rattle.text_out.specs.Writing.{Wrote};
ghost use Rattle.elide_page.specs.Notes.{AreNotes, is_behind, is_outside, note_said, note_text, notes_text};
ghost use Rattle.elide_page.specs.Notes.{piece_text, some_with};

use elide_program::{add, number_of};
use elide_setup::Refusal;
use page_run::Window;
use page_text::{NOTE, write_comma, write_number, write_string};
use std::alloc::Global;
use text_out::{Out, WriteFault};

/// A note.
#[derive(Clone, Copy)]
pub struct Note<'a> {
    /// The step that it stands at, as the run counts them: 0 is the beginning.
    pub step: u64,
    /// What it says.
    pub text: &'a str,
}

/// The notes of `--note STEP:TEXT`. One without a number, or without a colon, is a misuse.
pub fn notes_of<'a>(alloc: Global, words: &[&'a str]) -> Result<Vec<Note<'a>>, Refusal>
    ensures { IfOk result (λ notes. AreNotes (texts_of words.now) notes.items) }
{
    let mut notes = Vec::new(alloc);
    for word in words {
        add(&mut notes, note_of(word)?)?;
    }
    Ok(notes)
}

fn note_of<'a>(word: &'a str) -> Result<Note<'a>, Refusal>
    ensures { MatchResult result
        (λ note. note_said word.now ≡ Some (note.step, note.text.now))
        (λ refusal. (note_said word.now ≡ None) × IsMisuse (codes "--note") refusal) }
{
    let Some((step, text)) = word.split_once(':') else {
        return Err(Refusal::Usage("--note"));
    };
    match number_of(Some(step), "--note") {
        Ok(step) => Ok(Note {
            step: u64::from(step),
            text,
        }),
        Err(_) => Err(Refusal::Usage("--note")),
    }
}

/// That no note stands at a step behind the last of a run of this length.
pub fn check_notes(notes: &[Note<'_>], total: u64) -> Result<(), Refusal>
    ensures { MatchResult result
        (λ _. list_any (is_behind total) notes.now ≡ false)
        (λ refusal. (list_any (is_behind total) notes.now ≡ true) × IsMisuse (codes "--note") refusal) }
{
    if has_behind(notes, total) {
        return Err(Refusal::Usage("--note"));
    }
    Ok(())
}

fn has_behind(notes: &[Note<'_>], total: u64) -> bool
    ensures { result ≡ list_any (is_behind total) notes.now }
{
    notes.iter().any(|note| total < note.step)
}

/// Writes the notes of a page's steps and of what comes before the first, each with its number in the page.
pub fn write_notes<O: Out>(
    notes: &[Note<'_>],
    window: Window,
    out: &mut O,
) -> Result<(), WriteFault>
    ensures { OnOk result (Wrote (O.device out.old) (O.device out.new) (notes_text window false notes.now)) }
{
    let mut some = false;
    for note in notes {
        some = write_one(some, *note, window, out)?;
    }
    Ok(())
}

// Writes a note that stands in the page, behind a comma where there was another.
fn write_one<O: Out>(
    some: bool,
    note: Note<'_>,
    window: Window,
    out: &mut O,
) -> Result<bool, WriteFault>
    ensures text { OnOk result (Wrote (O.device out.old) (O.device out.new) (piece_text window some note.entry)) }
    ensures some { IfOk result (λ is. is ≡ some_with window some note.entry) }
{
    if is_outside(note, window) {
        return Ok(some);
    }
    write_comma(some, out)?;
    write_note(note, window, out)?;
    Ok(true)
}

fn is_outside(note: Note<'_>, window: Window) -> bool
    ensures { result ≡ is_outside window note.entry }
{
    note.step < window.from || window.to < note.step
}

fn write_note<O: Out>(note: Note<'_>, window: Window, out: &mut O) -> Result<(), WriteFault>
    ensures { OnOk result (Wrote (O.device out.old) (O.device out.new) (note_text window note.entry)) }
{
    out.put(b"[")?;
    write_number(note.step.saturating_sub(window.from), out)?;
    out.put(b",")?;
    write_string(note.text.as_bytes(), NOTE, out)?;
    out.put(b"]")?;
    Ok(())
}
