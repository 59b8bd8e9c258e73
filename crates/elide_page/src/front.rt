//! What stands in a page's data before its steps: [`put_front`].
//!
//! It is written in three pieces: names and limits; the program with its labels and bounds; variables and notes.
//! Each is made in memory and looked at before it goes out (`page_run`). The machine before the first step comes
//! behind them, from `page_telling`.

ghost use Rattle.std.specs.Prelude.{◌≡◌, ℕ, IfErr, IfOk, List, OnOk};
ghost use Rattle.elide_setup.specs.Faults.{want};
ghost use Rattle.elide_setup.specs.Refused.{IsUntold};
ghost use Rattle.text_out.specs.Writing.{Wrote};
ghost use Rattle.page_run.specs.Plain.{ArePlain, WrotePlain};
ghost use Rattle.elide_page.specs.Fronts.{IsFrontOf, cores_text, file_text, form_word, kind_text, limits_text};
ghost use Rattle.elide_page.specs.Fronts.{lists_text, names_text, reads_text, sets_text, subject_text};
ghost use Rattle.elide_page.specs.Fronts.{title_text_of, titles_text, writes_text};

use crate::job::{Job, Subject};
use crate::notes::write_notes;
use crate::shows::{Shown, write_shown};
use elide_program::{Form, name_of};
use elide_setup::Refusal;
use page_program::write_program;
use page_run::{put_piece, put_plain};
use page_text::{NAME, NOTE, TITLE, write_comma, write_number, write_string};
use std::alloc::AllocError;
use text_out::{Out, ToVec, WriteFault};

/// Writes the data up to the machine as it is before the first step that stands there.
pub fn put_front<O: Out>(job: &Job<'_>, shows: &[Shown<'_>], out: &mut O) -> Result<(), Refusal>
    ensures text { OnOk result ((text : List ℕ) × IsFrontOf job.now shows.now text
        × Wrote (O.device out.old) (O.device out.new) text) }
    ensures refused { IfErr result IsUntold }
{
    put_names(job, name_of(job.subject.path), out)?;
    put_program(job, out)?;
    put_lists(job, shows, out)
}

// The names, and what is known of the machine.
fn put_names<O: Out>(job: &Job<'_>, name: &str, out: &mut O) -> Result<(), Refusal>
    ensures text { OnOk result (Wrote (O.device out.old) (O.device out.new) (names_text job.now name.now)) }
    ensures plain { OnOk result (ArePlain (names_text job.now name.now)) }
    ensures refused { IfErr result IsUntold }
{
    let text = names_of(job, name)?;
    put_plain(text.as_slice(), out)
}

// A device in memory fails for want of it alone.
fn names_of(job: &Job<'_>, name: &str) -> Result<Vec<u8>, AllocError>
    ensures { IfOk result (λ text. text.items ≡ names_text job.now name.now) }
{
    let mut text = ToVec::new(Vec::new(job.subject.loaded.alloc));
    match write_names(job, name, &mut text) {
        Ok(()) => Ok(text.bytes),
        Err(_) => Err(AllocError),
    }
}

fn write_names<O: Out>(job: &Job<'_>, name: &str, out: &mut O) -> Result<(), WriteFault>
    ensures { OnOk result (Wrote (O.device out.old) (O.device out.new) (names_text job.now name.now)) }
{
    write_subject(&job.subject, name, out)?;
    write_limits(job, out)?;
    Ok(())
}

fn write_subject<O: Out>(subject: &Subject<'_>, name: &str, out: &mut O) -> Result<(), WriteFault>
    ensures { OnOk result (Wrote (O.device out.old) (O.device out.new) (subject_text subject.now name.now)) }
{
    write_titles(subject, name, out)?;
    write_kind(subject, out)?;
    Ok(())
}

fn write_titles<O: Out>(subject: &Subject<'_>, name: &str, out: &mut O) -> Result<(), WriteFault>
    ensures { OnOk result (Wrote (O.device out.old) (O.device out.new) (titles_text subject.now name.now)) }
{
    write_file_name(name, out)?;
    write_page_title(subject, out)?;
    Ok(())
}

fn write_file_name<O: Out>(name: &str, out: &mut O) -> Result<(), WriteFault>
    ensures { OnOk result (Wrote (O.device out.old) (O.device out.new) (file_text name.now)) }
{
    out.put(b"{\"format\":1,\"name\":")?;
    write_string(name.as_bytes(), NAME, out)?;
    Ok(())
}

fn write_page_title<O: Out>(subject: &Subject<'_>, out: &mut O) -> Result<(), WriteFault>
    ensures { OnOk result (Wrote (O.device out.old) (O.device out.new) (title_text_of subject.now)) }
{
    out.put(b",\"title\":")?;
    write_string(subject.title.as_bytes(), TITLE, out)?;
    Ok(())
}

fn write_kind<O: Out>(subject: &Subject<'_>, out: &mut O) -> Result<(), WriteFault>
    ensures { OnOk result (Wrote (O.device out.old) (O.device out.new) (kind_text subject.now)) }
{
    out.put(b",\"kind\":\"")?;
    out.put(form_word(subject.form))?;
    out.put(b"\",\"command\":")?;
    write_string(subject.command, NOTE, out)?;
    Ok(())
}

fn form_word(form: Form) -> &'static [u8]
    ensures { result.now ≡ form_word form }
{
    match form {
        Form::Source => b"source",
        Form::Executable => b"elf",
        Form::Image => b"image",
    }
}

// How many cores there are, how large the sets may be, and how many steps came before.
fn write_limits<O: Out>(job: &Job<'_>, out: &mut O) -> Result<(), WriteFault>
    ensures { OnOk result (Wrote (O.device out.old) (O.device out.new)
        (limits_text job.now.subject job.now.stretch.window.from)) }
{
    write_cores(&job.subject, out)?;
    write_sets(&job.subject, out)?;
    out.put(b"],\"from\":")?;
    write_number(job.stretch.window.from, out)?;
    Ok(())
}

fn write_cores<O: Out>(subject: &Subject<'_>, out: &mut O) -> Result<(), WriteFault>
    ensures { OnOk result (Wrote (O.device out.old) (O.device out.new) (cores_text subject.now)) }
{
    out.put(b",\"cores\":")?;
    write_number(u64::from(subject.loaded.setup.program.cores()), out)?;
    Ok(())
}

fn write_sets<O: Out>(subject: &Subject<'_>, out: &mut O) -> Result<(), WriteFault>
    ensures { OnOk result (Wrote (O.device out.old) (O.device out.new) (sets_text subject.now)) }
{
    write_most_read(subject, out)?;
    write_most_stored(subject, out)?;
    Ok(())
}

fn write_most_read<O: Out>(subject: &Subject<'_>, out: &mut O) -> Result<(), WriteFault>
    ensures { OnOk result (Wrote (O.device out.old) (O.device out.new) (reads_text subject.now)) }
{
    out.put(b",\"limits\":[")?;
    write_number(u64::from(subject.loaded.setup.limits.read_lines), out)?;
    Ok(())
}

fn write_most_stored<O: Out>(subject: &Subject<'_>, out: &mut O) -> Result<(), WriteFault>
    ensures { OnOk result (Wrote (O.device out.old) (O.device out.new) (writes_text subject.now)) }
{
    out.put(b",")?;
    write_number(u64::from(subject.loaded.setup.limits.write_lines), out)?;
    Ok(())
}

// The program's lines, its labels, and where its code stands.
fn put_program<O: Out>(job: &Job<'_>, out: &mut O) -> Result<(), Refusal>
    ensures text { OnOk result (WrotePlain (O.device out.old) (O.device out.new)) }
    ensures refused { IfErr result IsUntold }
{
    let mut piece = ToVec::new(Vec::new(job.subject.loaded.alloc));
    let made = in_memory(write_places(job, &mut piece));
    put_piece(made, &piece, out)
}

// What is written to memory alone is refused for want of it alone.
fn in_memory(made: Result<(), Refusal>) -> Result<(), Refusal>
    ensures { IfErr result (λ why. why ≡ want) }
{
    match made {
        Ok(()) => Ok(()),
        Err(_) => Err(Refusal::from(AllocError)),
    }
}

fn write_places<O: Out>(job: &Job<'_>, out: &mut O) -> Result<(), Refusal> {
    write_text(job, out)?;
    write_labels(&job.subject, out)?;
    write_bounds(&job.subject, out)?;
    Ok(())
}

// The variables and the notes.
fn put_lists<O: Out>(job: &Job<'_>, shows: &[Shown<'_>], out: &mut O) -> Result<(), Refusal>
    ensures text { OnOk result (Wrote (O.device out.old) (O.device out.new) (lists_text job.now shows.now)) }
    ensures plain { OnOk result (ArePlain (lists_text job.now shows.now)) }
    ensures refused { IfErr result IsUntold }
{
    let text = lists_of(job, shows)?;
    put_plain(text.as_slice(), out)
}

fn lists_of(job: &Job<'_>, shows: &[Shown<'_>]) -> Result<Vec<u8>, AllocError>
    ensures { IfOk result (λ text. text.items ≡ lists_text job.now shows.now) }
{
    let mut text = ToVec::new(Vec::new(job.subject.loaded.alloc));
    match write_lists(job, shows, &mut text) {
        Ok(()) => Ok(text.bytes),
        Err(_) => Err(AllocError),
    }
}

fn write_lists<O: Out>(job: &Job<'_>, shows: &[Shown<'_>], out: &mut O) -> Result<(), WriteFault>
    ensures { OnOk result (Wrote (O.device out.old) (O.device out.new) (lists_text job.now shows.now)) }
{
    out.put(b",\n\"show\":[")?;
    write_shown(shows, out)?;
    out.put(b"],\n\"notes\":[")?;
    write_notes(job.subject.notes, job.stretch.window, out)?;
    out.put(b"]")?;
    Ok(())
}

// The lines of the program, and where its instructions stand in them.
fn write_text<O: Out>(job: &Job<'_>, out: &mut O) -> Result<(), Refusal> {
    let subject = &job.subject;
    write_program(
        subject.loaded,
        subject.form,
        subject.text,
        subject.sources,
        job.survey.ran.as_slice(),
        out,
    )
}

// The labels, each with its address and its name.
fn write_labels<O: Out>(subject: &Subject<'_>, out: &mut O) -> Result<(), WriteFault> {
    out.put(b",\n\"labels\":[")?;
    let labels = subject.loaded.places.labels();
    for index in 0..labels.len() {
        write_comma(index > 0, out)?;
        out.put(b"[")?;
        write_number(u64::from(labels[index].value()), out)?;
        out.put(b",")?;
        write_string(labels[index].name(), NAME, out)?;
        out.put(b"]")?;
    }
    out.put(b"]")?;
    Ok(())
}

// The first address of the code, and the one behind it.
fn write_bounds<O: Out>(subject: &Subject<'_>, out: &mut O) -> Result<(), WriteFault> {
    let program = &subject.loaded.setup.program;
    let first = u64::from(program.base());
    out.put(b",\n\"code\":[")?;
    write_number(first, out)?;
    out.put(b",")?;
    write_number(first.saturating_add(program.code().len() as u64), out)?;
    out.put(b"]")?;
    Ok(())
}
