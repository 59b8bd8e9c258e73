//! A page as it goes to a device ([`write_page`]), or to a file ([`write_page_to`]).
//!
//! In this order: the template's head with the title, the front, the steps, the reasons, the tail; steps and
//! reasons are passes over the run (`page_telling`, `reasons`). A file asks for the page while it is written, so
//! that what refuses it on the way is kept and told in place of a failed file. The job's window and notes were
//! tested before.

ghost use Rattle.std.specs.Io.KnownBytes.{Appends};
ghost use Rattle.std.specs.Prelude.{◌≡◌, ◌⊎◌, ℕ, IfErr, IfOk, IfSome, List, OnOk, Some, true};
ghost use Rattle.elide_setup.specs.Refused.{IsUnwritten};
ghost use Rattle.elide_setup.specs.declared.fault.Fault.TheVariants as fault;
ghost use Rattle.elide_setup.specs.declared.fault.Refusal.TheVariants as refusal;
ghost use Rattle.page_run.specs.Refused.{IsNotTold};
ghost use Rattle.page_template.specs.declared.template.TheConstants.{TAIL};
ghost use Rattle.elide_page.specs.Pages.{IsPageOf};
ghost use Rattle.elide_page.specs.Refused.{IsNoPage};

use crate::front::put_front;
use crate::job::Job;
use crate::reasons::write_reasons;
use crate::shows::{Shown, shown_of};
use elide_device::Gathered;
use elide_program::{Paths, Text};
use elide_setup::{Fault, Refusal};
use page_run::{UsedLine, note_shown};
use page_telling::write_steps;
use page_template::{write_head, write_tail};
use std::alloc::AllocError;
use text_out::{Out, WriteFault};

/// Writes a page to a file, as a whole or not at all. It goes there as it is made, so that no memory grows with its
/// run. What refuses it on the way is told, and 81 `Output` where the file cannot be written.
pub fn write_page_to<P: Paths>(job: &Job<'_>, path: &str, paths: &mut P) -> Result<(), Refusal>
    ensures written { OnOk result (IfSome (P.content paths.new path.now) (IsPageOf job.now)) }
    ensures refused { IfErr result (IsNoPage job.now.stretch.setup.now job.now.stretch.course.now) }
{
    let mut file = PageFile {
        job: *job,
        refused: None,
    };
    match paths.write(path, &mut file) {
        Ok(()) => Ok(()),
        Err(_) => Err(refusal_of(file.refused)),
    }
}

// Why a page is not written to a file: what refused it as it was made, but for a device that failed, which was the
// file.
fn refusal_of(refused: Option<Refusal>) -> Refusal
    ensures { (result ≡ refusal.Fault fault.Output) ⊎ ((refused ≡ Some result) × ¬ IsUnwritten result) }
{
    match refused {
        Some(cause) if !is_of_device(cause) => cause,
        _ => Refusal::Fault(Fault::Output),
    }
}

fn is_of_device(cause: Refusal) -> bool
    ensures { IsUnwritten cause → result ≡ true }
{
    match cause {
        Refusal::Fault(told) => told.code() == WriteFault::Write.code(),
        Refusal::Usage(_) => false,
    }
}

// The text of a page.
#[derive(Drop)]
struct PageFile<'a> {
    job: Job<'a>,
    // What refused it, where it was written and did not come to its end.
    refused: Option<Refusal>,
}

impl Text for PageFile<'_> {
    ghost tells = { λ before after bytes. (after.refused ≡ before.refused) × IsPageOf before.job bytes };

    ghost breaks = { λ before after. IfSome after.refused (IsNotTold before.job.stretch) };

    fn write_to<O: Out + Drop>(&mut self, out: O) -> Result<O, WriteFault> {
        match write_page(&self.job, out) {
            Ok(out) => Ok(out),
            Err(refusal) => {
                self.refused = Some(refusal);
                Err(WriteFault::Write)
            }
        }
    }
}

/// Writes a page to a device, and gives that back.
pub fn write_page<O: Out + Drop>(job: &Job<'_>, out: O) -> Result<O, Refusal>
    ensures written { IfOk result (λ given. (bytes : List ℕ) × IsPageOf job.now bytes
        × Appends (O.device out).contents (O.device given).contents bytes) }
    ensures refused { IfErr result (IsNotTold job.now.stretch) }
{
    let subject = &job.subject;
    let shows = shown_of(subject.loaded, subject.sums, job.survey)?;
    let lines = lines_with(job, shows.as_slice())?;
    let mut page = Gathered::new(out);
    write_head(subject.title.as_bytes(), &mut page)?;
    put_front(job, shows.as_slice(), &mut page)?;
    drop(shows);
    let told = write_steps(job.stretch, lines.as_slice(), page)?;
    drop(lines);
    let explained = write_reasons(job, told)?;
    finish(explained)
}

// The end of a page.
fn finish<O: Out + Drop>(page: Gathered<O>) -> Result<O, Refusal>
    ensures tail { IfOk result (λ out. Appends (⟦<Gathered<O> as Out>⟧.device page).contents (O.device out).contents
        TAIL.now) }
    ensures refused { IfErr result IsUnwritten }
{
    let mut page = page;
    write_tail(&mut page)?;
    let out = page.finish()?;
    Ok(out)
}

// How a run uses memory, with the lines of the variables.
fn lines_with(job: &Job<'_>, shows: &[Shown<'_>]) -> Result<Vec<UsedLine>, AllocError> {
    let mut lines = Vec::from_slice(job.subject.loaded.alloc, job.survey.lines.as_slice())?;
    for shown in shows {
        note_shown(&mut lines, shown.address);
    }
    Ok(lines)
}
