//! The page of a schedule that a search found: [`PageFiles`] writes it for `hunt` and `outcomes`.
//!
//! A schedule that is too long for a page is told before anything is read. Then the options are read once more,
//! with the text that the search ran, and the run is surveyed; all of its steps stand in the page, without notes,
//! under the file's name. That the path spares FILE is tested before the search, in `elide_setup`.

ghost use Rattle.std.specs.Prelude.{◌≡◌, IfErr};
ghost use Rattle.elide_setup.specs.Faults.{want};
ghost use Rattle.elide_setup.specs.Refused.{IsNotPaged};
ghost use Rattle.elide_page.specs.Refused.{IsNoPage};

use crate::command::Known;
use crate::commanded::command_of_picks;
use crate::job::{Job, Subject};
use crate::output::write_page_to;
use elide_args::MachineOptions;
use elide_device::Silent;
use elide_places::Wants;
use elide_program::{Paths, Settings, name_of};
use elide_setup::{Course, Extent, LoadedFile, Paged, Pages, Refusal};
use page_program::{Loaded, Sources};
use page_run::{MOST_STEPS, Stretch, Window, surveyed};
use std::alloc::Global;
use tm_model::Pick;

/// What writes the pages of runs that a search found.
#[derive(Clone, Copy, Debug)]
pub struct PageFiles;

impl Pages for PageFiles {
    // Which page the file holds is in no clause: rows and scripts/try-page show it.
    ghost shows = { λ _ _ _ _ _. Unit {0} };

    #[tactic(auto, using(crate::proofs::Untold::any_shows))]
    fn write_page<P: Paths>(
        &self,
        alloc: Global,
        machine: &MachineOptions<'_>,
        text: &[u8],
        picks: &[Pick],
        path: &str,
        paths: &mut P,
    ) -> Result<Paged, Refusal> {
        if picks.len() as u64 > MOST_STEPS {
            return Ok(Paged::TooLong);
        }
        let searched = FoundSchedule {
            machine: &*machine,
            text: &*text,
            picks: &*picks,
        };
        page_of_picks(alloc, searched, path, paths)?;
        Ok(Paged::AsAsked)
    }
}

// A schedule that was found, of the program of these options and of this text.
#[derive(Clone, Copy)]
struct FoundSchedule<'a> {
    machine: &'a MachineOptions<'a>,
    text: &'a [u8],
    picks: &'a [Pick],
}

// A program that is to run, and its schedule.
#[derive(Clone, Copy)]
struct Found<'a> {
    machine: &'a MachineOptions<'a>,
    text: &'a [u8],
    file: &'a LoadedFile,
    course: &'a Course,
}

// Writes the page of a schedule to a file.
fn page_of_picks<P: Paths>(
    alloc: Global,
    searched: FoundSchedule<'_>,
    path: &str,
    paths: &mut P,
) -> Result<(), Refusal>
    ensures { IfErr result (IsNotPaged searched.entry.text.now searched.entry.machine.now searched.entry.picks.now) }
{
    let FoundSchedule {
        machine,
        text,
        picks,
    } = searched;
    let settings = Settings::read(machine)?;
    let file = LoadedFile::of_text(alloc, &settings, text, Wants::PLACES)?;
    let course = Course::Listed(Vec::from_slice(alloc, picks)?);
    let found = Found {
        machine,
        text,
        file: &file,
        course: &course,
    };
    let written = page_found(alloc, found, path, paths);
    drop(course);
    drop(file);
    written
}

fn page_found<P: Paths>(
    alloc: Global,
    found: Found<'_>,
    path: &str,
    paths: &mut P,
) -> Result<(), Refusal>
    ensures { IfErr result (IsNoPage found.entry.file.now.setup found.entry.course.now) }
{
    let survey = surveyed(
        alloc,
        &found.file.setup,
        found.course,
        Extent::ALL,
        &mut Silent,
    )?;
    let command = command_listed(alloc, found)?;
    let loaded = Loaded {
        alloc,
        setup: &found.file.setup,
        places: &found.file.names.places,
    };
    let known = Known {
        survey: &survey,
        command: command.as_slice(),
    };
    let written = page_surveyed(loaded, found, known, path, paths);
    drop(command);
    drop(survey);
    written
}

fn command_listed(alloc: Global, found: Found<'_>) -> Result<Vec<u8>, Refusal>
    ensures { IfErr result (λ why. why ≡ want) }
{
    match found.course {
        Course::Listed(picks) => Ok(command_of_picks(alloc, found.machine, picks.as_slice())?),
        Course::Drawn(_) => Ok(Vec::new(alloc)),
    }
}

fn page_surveyed<'x, P: Paths>(
    loaded: Loaded<'x>,
    found: Found<'x>,
    known: Known<'x>,
    path: &str,
    paths: &mut P,
) -> Result<(), Refusal>
    ensures { IfErr result (IsNoPage found.entry.file.now.setup found.entry.course.now) }
{
    let survey = known.survey;
    let window = Window::of(&Extent::ALL, survey.made)?;
    let name = found.machine.file;
    let sources = Sources::beside(loaded, name, survey.ran.as_slice(), paths)?;
    let job = Job {
        subject: Subject {
            loaded,
            path: name,
            text: found.text,
            form: found.file.form,
            sources: &sources,
            title: name_of(name),
            command: known.command,
            sums: found.machine.shows.as_slice(),
            notes: &[],
        },
        stretch: Stretch {
            alloc: loaded.alloc,
            setup: &found.file.setup,
            course: found.course,
            total: survey.made,
            window,
        },
        survey,
    };
    let written = write_page_to(&job, path, paths);
    drop(sources);
    written
}
