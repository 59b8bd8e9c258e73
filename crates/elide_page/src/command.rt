//! `elide page`: from its options to a page.
//!
//! [`page`] is the one call. Faults come in the order of its steps: `--output`, the page's options, the machine's, the
//! schedule's, FILE, the schedule's file, the run, the window and the notes. Nothing is written before the run is known
//! to fit.

use crate::asked::Asked;
use crate::commanded::command_of;
use crate::job::{Job, Subject};
use crate::notes::check_notes;
use crate::output::{write_page, write_page_to};
use elide_args::PageOptions;
use elide_device::Progress;
use elide_places::Wants;
use elide_program::{Paths, Settings, has_store_buffer, name_of, read_file};
use elide_setup::{Course, LoadedFile, Plan, Refusal};
use page_program::{Loaded, Sources};
use page_run::{Stretch, Survey, Window, surveyed};
use std::alloc::Global;
use text_out::Out;

/// Runs a schedule of core steps, and writes the page of the steps that are asked for: to a file, as a whole or not at
/// all, where there is a path, and else on the device, which it gives back.
pub fn page<P: Paths, O: Out + Drop, G: Progress>(
    alloc: Global,
    options: &PageOptions<'_>,
    paths: &mut P,
    out: O,
    progress: &mut G,
) -> Result<O, Refusal> {
    let asked = Asked::read(alloc, options, paths)?;
    let request = Request {
        alloc,
        options,
        asked: &asked,
    };
    let written = page_asked(request, paths, out, progress);
    drop(asked);
    written
}

// What is asked for.
#[derive(Clone, Copy)]
struct Request<'a> {
    alloc: Global,
    options: &'a PageOptions<'a>,
    asked: &'a Asked<'a>,
}

// What was read beside it: the machine's options, the schedule's, and FILE.
#[derive(Drop)]
struct Given<'a> {
    settings: &'a Settings<'a>,
    plan: Plan<'a>,
    text: &'a [u8],
}

// A program that is to run, and its schedule.
#[derive(Clone, Copy)]
struct Ready<'a> {
    text: &'a [u8],
    file: &'a LoadedFile,
    course: &'a Course,
}

/// What is known of a program behind the first pass over its run.
#[derive(Clone, Copy)]
pub struct Known<'a> {
    /// What the pass came to.
    pub survey: &'a Survey,
    /// The command that makes the page.
    pub command: &'a [u8],
}

// Reads the rest of the options, and FILE. What is made in one of these functions is lent to the next, and what owns
// much is dropped by a call, so that each is proved soon.
fn page_asked<P: Paths, O: Out + Drop, G: Progress>(
    request: Request<'_>,
    paths: &mut P,
    out: O,
    progress: &mut G,
) -> Result<O, Refusal> {
    let options = request.options;
    let settings = Settings::read(&options.machine)?;
    let drains = has_store_buffer(&options.machine);
    let plan = Plan::read(request.alloc, &options.schedule, drains)?;
    let text = read_file(options.machine.file, paths)?;
    let given = Given {
        settings: &settings,
        plan,
        text: text.as_slice(),
    };
    let written = page_given(request, given, paths, out, progress);
    drop(text);
    written
}

fn page_given<P: Paths, O: Out + Drop, G: Progress>(
    request: Request<'_>,
    given: Given<'_>,
    paths: &mut P,
    out: O,
    progress: &mut G,
) -> Result<O, Refusal> {
    let Given {
        settings,
        plan,
        text,
    } = given;
    let file = LoadedFile::of_text(request.alloc, settings, text, Wants::PLACES)?;
    let course = plan.course(request.alloc, paths)?;
    let ready = Ready {
        text,
        file: &file,
        course: &course,
    };
    let written = page_ready(request, ready, paths, out, progress);
    drop(course);
    drop(file);
    written
}

fn page_ready<P: Paths, O: Out + Drop, G: Progress>(
    request: Request<'_>,
    ready: Ready<'_>,
    paths: &mut P,
    out: O,
    progress: &mut G,
) -> Result<O, Refusal> {
    let alloc = request.alloc;
    let asked = request.asked;
    let survey = surveyed(
        alloc,
        &ready.file.setup,
        ready.course,
        asked.extent,
        progress,
    )?;
    let command = command_of(alloc, request.options)?;
    let known = Known {
        survey: &survey,
        command: command.as_slice(),
    };
    let written = page_known(request, ready, known, paths, out);
    drop(command);
    drop(survey);
    written
}

// Writes the page of a run that was surveyed.
fn page_known<'x, P: Paths, O: Out + Drop>(
    request: Request<'x>,
    ready: Ready<'x>,
    known: Known<'x>,
    paths: &mut P,
    out: O,
) -> Result<O, Refusal> {
    let asked = request.asked;
    let survey = known.survey;
    let window = Window::of(&asked.extent, survey.made)?;
    window.check()?;
    check_notes(asked.notes.as_slice(), survey.made)?;
    let options = request.options;
    let path = options.machine.file;
    let loaded = Loaded {
        alloc: request.alloc,
        setup: &ready.file.setup,
        places: &ready.file.names.places,
    };
    let sources = Sources::beside(loaded, path, survey.ran.as_slice(), paths)?;
    let job = Job {
        subject: Subject {
            loaded,
            path,
            text: ready.text,
            form: ready.file.form,
            sources: &sources,
            title: title_of(options),
            command: known.command,
            sums: options.machine.shows.as_slice(),
            notes: asked.notes.as_slice(),
        },
        stretch: Stretch {
            alloc: request.alloc,
            setup: &ready.file.setup,
            course: ready.course,
            total: survey.made,
            window,
        },
        survey,
    };
    let written = write_job(&job, asked.output, paths, out);
    drop(sources);
    written
}

// Writes a page to a file, where there is a path, and else to the device.
fn write_job<P: Paths, O: Out + Drop>(
    job: &Job<'_>,
    path: Option<&str>,
    paths: &mut P,
    out: O,
) -> Result<O, Refusal> {
    match path {
        Some(path) => {
            write_page_to(job, path, paths)?;
            Ok(out)
        }
        None => write_page(job, out),
    }
}

fn title_of<'a>(options: &PageOptions<'a>) -> &'a str {
    match options.title {
        Some(title) => title,
        None => name_of(options.machine.file),
    }
}
