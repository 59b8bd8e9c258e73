//! `elide draw`: from its options to a picture.
//!
//! [`draw`] is the one call. Faults come in this order: `--record`, the machine's options, the schedule's, `--from` and
//! `--to`, `--core`, FILE, the program, the labels, the schedule's file, the run, and what of it is asked for. Then the
//! record is written, and behind it the picture: nothing is printed before the run has ended. How a picture looks is
//! `tm_timeline`'s.

ghost use Rattle.std.specs.Prelude.{Option, ◌≡◌, ℕ, IfOk, List, OnOk};
ghost use Rattle.elide_program.specs.ProgramFile.{IsRead};
ghost use Rattle.elide_program.specs.declared.file.ProgramFile.{ProgramFile};
ghost use Rattle.elide_setup.specs.Made.{HasRun, HasRunCourse, HasRunPlan};
ghost use Rattle.elide_setup.specs.Recorded.{IsRecorded};
ghost use Rattle.elide_setup.specs.Schedules.{schedule_made};
ghost use Rattle.elide_setup.specs.Setup.{IsSetup};
ghost use Rattle.elide_program.specs.declared.settings.Settings.{Settings};

use crate::course::{Tally, count_steps, watch_course};
use crate::extent::{rows_of, window_of};
use crate::line_names::LineNames;
use crate::scene::ProgramScene;
use elide_args::DrawOptions;
use elide_device::{Gathered, Lent, Progress};
use elide_places::{Places, Wants};
use elide_program::{Paths, Settings, has_store_buffer, name_of, read_file};
use elide_setup::{Course, Extent, LoadedFile, Plan, Refusal, Setup, record_path};
use std::alloc::Global;
use text_out::Out;
use tm_timeline::{Label, Rows, Timeline};

// What is asked for beside the schedule.
#[derive(Drop)]
struct Asked<'a> {
    // What the options say of the machine.
    settings: Settings<'a>,
    file: &'a str,
    // Where the schedule that came about is written.
    path: Option<&'a str>,
    extent: Extent,
    rows: Rows,
}

// A program that is drawn: what each step of the way reads.
#[derive(Clone, Copy)]
struct Drawing<'a> {
    alloc: Global,
    setup: &'a Setup,
    places: &'a Places,
    asked: &'a Asked<'a>,
}

/// Runs a schedule of core steps, writes the schedule that came about where there is a path, and then a timeline of the
/// steps that are asked for, as SVG.
pub fn draw<P: Paths, O: Out, G: Progress>(
    alloc: Global,
    options: &DrawOptions<'_>,
    paths: &mut P,
    out: &mut O,
    progress: &mut G,
) -> Result<(), Refusal>
    ensures { OnOk result (HasRun (P.content paths.old) (P.content paths.new) options.now.machine
        options.now.schedule options.now.«record») }
{
    let path = record_path(options.record, options.machine.file, paths)?;
    let settings = Settings::read(&options.machine)?;
    let drains = has_store_buffer(&options.machine);
    let plan = Plan::read(alloc, &options.schedule, drains)?;
    match Asked::read(options, settings, path) {
        Ok(asked) => draw_plan(alloc, plan, &asked, paths, out, progress),
        Err(refusal) => Err(refusal),
    }
}

impl<'a> Asked<'a> {
    // Reads `--from`, `--to` and `--core`.
    fn read(
        options: &DrawOptions<'a>,
        settings: Settings<'a>,
        path: Option<&'a str>,
    ) -> Result<Asked<'a>, Refusal>
        ensures settings { IfOk result (λ asked. asked.settings ≡ settings.entry) }
        ensures file { IfOk result (λ asked. asked.file ≡ options.now.machine.file) }
        ensures path { IfOk result (λ asked. asked.path ≡ path.entry) }
    {
        let extent = Extent::read(options.from, options.to)?;
        let rows = rows_of(options.cores, settings.cores)?;
        Ok(Asked {
            settings,
            file: options.machine.file,
            path,
            extent,
            rows,
        })
    }
}

// Reads the program, and draws its run. What is made in one of these functions is lent to the next, and what owns much
// is dropped by a call, so that each is proved soon.
fn draw_plan<P: Paths, O: Out, G: Progress>(
    alloc: Global,
    plan: Plan<'_>,
    asked: &Asked<'_>,
    paths: &mut P,
    out: &mut O,
    progress: &mut G,
) -> Result<(), Refusal>
    ensures { OnOk result ((file : ProgramFile) × (given : List ℕ → Option (List ℕ))
        × IsRead (P.content paths.old asked.now.file.now) file
        × ((other : List ℕ) → given other ≡ P.content paths.old other)
        × HasRunPlan given (P.content paths.new) file asked.now.settings plan.entry asked.now.path) }
{
    let loaded = load(alloc, asked, paths)?;
    let drawing = Drawing {
        alloc,
        setup: &loaded.setup,
        places: &loaded.names.places,
        asked,
    };
    let drawn = draw_loaded(drawing, plan, paths, out, progress);
    drop(loaded);
    drawn
}

// Reads FILE: its program, and its places.
fn load<P: Paths>(alloc: Global, asked: &Asked<'_>, paths: &mut P) -> Result<LoadedFile, Refusal>
    ensures loaded { IfOk result (λ loaded. (file : ProgramFile)
        × IsRead (P.content paths.old asked.now.file.now) file × IsSetup file asked.now.settings loaded.setup) }
    ensures kept { (other : List ℕ) → P.content paths.new other ≡ P.content paths.old other }
{
    let text = read_file(asked.file, paths)?;
    LoadedFile::of_text(alloc, &asked.settings, text.as_slice(), Wants::PLACES)
}

// Reads the schedule of a program that is loaded, and draws its run.
fn draw_loaded<P: Paths, O: Out, G: Progress>(
    drawing: Drawing<'_>,
    plan: Plan<'_>,
    paths: &mut P,
    out: &mut O,
    progress: &mut G,
) -> Result<(), Refusal>
    ensures { (file : ProgramFile) (settings : Settings) → IsSetup file settings drawing.entry.setup.now →
        OnOk result (HasRunPlan (P.content paths.old) (P.content paths.new) file settings plan.entry
        drawing.entry.asked.now.path) }
{
    let course = plan.course(drawing.alloc, paths)?;
    let drawn = draw_course(drawing, &course, paths, out, progress);
    drop(course);
    drawn
}

fn draw_course<P: Paths, O: Out, G: Progress>(
    drawing: Drawing<'_>,
    course: &Course,
    paths: &mut P,
    out: &mut O,
    progress: &mut G,
) -> Result<(), Refusal>
    ensures { OnOk result (HasRunCourse (P.content paths.new) drawing.entry.setup.now course.now
        drawing.entry.asked.now.path) }
{
    let alloc = drawing.alloc;
    let setup = drawing.setup;
    let asked = drawing.asked;
    // First, as this alone says how many steps there are to choose from.
    let tally = count_steps(alloc, setup, course, asked.path.is_some(), progress)?;
    let window = window_of(&asked.extent, tally.total)?;
    let scene = ProgramScene {
        alloc,
        program: &setup.program,
        labels: drawing.places.labels(),
        addresses: setup.parts.values.as_slice(),
        sums: asked.settings.shows,
    };
    let timeline = watch_course(alloc, setup, course, window, scene, progress)?;
    let drawn = record_drawn(drawing, course, &tally, &timeline, paths, out);
    drop(timeline);
    drawn
}

// Writes the schedule that came about, and then a timeline.
fn record_drawn<P: Paths, O: Out>(
    drawing: Drawing<'_>,
    course: &Course,
    tally: &Tally,
    timeline: &Timeline,
    paths: &mut P,
    out: &mut O,
) -> Result<(), Refusal>
    ensures { OnOk result (IsRecorded (P.content paths.new) drawing.entry.asked.now.path
        (schedule_made course.now tally.now.made.items)) }
{
    course.record(drawing.asked.path, tally.made.as_slice(), paths)?;
    write_timeline(timeline, drawing.places, drawing.asked, out)
}

// Writes a timeline.
fn write_timeline<O: Out>(
    timeline: &Timeline,
    places: &Places,
    asked: &Asked<'_>,
    out: &mut O,
) -> Result<(), Refusal> {
    let mut page = Gathered::new(Lent::new(out));
    let title = Label::of(name_of(asked.file));
    timeline.write(&title, &asked.rows, &LineNames { places }, &mut page)?;
    page.finish()?;
    Ok(())
}
