//! The schedule of a run that is drawn, written to a file as its steps are made, so that no list of them takes memory.
//!
//! The run is made while [`Paths::write`] asks for the text, so that a file that is replaced is replaced only once the
//! last step is made and its schedule written. A refused step ends the text as a failed device does; told is why it was
//! refused, and 81 `Output` where only the file failed. With no path the steps are made alone.

ghost use Rattle.std.specs.Io.KnownBytes.{Appends};
ghost use Rattle.std.specs.Prelude.{◌≡◌, ◌≤◌, ◌⊎◌, ◌++◌, [], ℕ, IfErr, IfOk, IfSome, List, is_some, not};
ghost use Rattle.tm_model.specs.declared.outcome.Outcome.{Outcome};
ghost use Rattle.tm_model.specs.declared.outcome.Pick.{Pick};
ghost use Rattle.tm_schedule.specs.Schedule.{drawn_text};
ghost use Rattle.tm_schedule.specs.ScheduleWriting.{left_text};
ghost use Rattle.elide_setup.specs.Drawing.{ComeAs, may_tell};
ghost use Rattle.elide_setup.specs.Recorded.{IsRecorded};
ghost use Rattle.elide_setup.specs.Refused.{IsNextDrawn, IsStepRefused, IsUnrecorded};
ghost use Rattle.elide_setup.specs.Rounds.{IsDrawnOut};
ghost use Rattle.elide_setup.specs.Schedules.{picks_made, picks_told};
ghost use Rattle.elide_setup.specs.Walks.{Leads};
ghost use Rattle.elide_setup.specs.declared.fault.Fault.TheVariants as fault;
ghost use Rattle.elide_setup.specs.declared.fault.Refusal.TheVariants as refusal;

use crate::fault::{Fault, Refusal};
use crate::keeper::{Keeper, Unkept, pick_told};
use crate::plan::Drawn;
use crate::walk::{StepMaker, walk_drawn};
use elide_device::{Gathered, Progress};
use elide_program::{Paths, Text};
use text_out::{Out, WriteFault};
use tm_model::{Outcome, Pick};
use tm_schedule::ScheduleWriter;

/// Makes the steps that are drawn on a machine of so many cores, 1 to 64. Where there is a path, their schedule is
/// written there as they are made; where a step is refused or the file cannot be written, what stood there stays.
pub fn walk_written<S: StepMaker, P: Paths, G: Progress>(
    drawn: Drawn,
    cores: u8,
    path: Option<&str>,
    maker: &mut S,
    paths: &mut P,
    progress: &mut G,
) -> Result<(), Refusal>
    requires { cores ≤ 64 }
    ensures refused { IfErr result (λ why. IsStepRefused S.takes S.refuses (IsNextDrawn drawn cores) maker.old why
        ⊎ IsUnrecorded path.entry why) }
    ensures walked { IfOk result (λ _. (steps : List (Pick × Outcome)) × ComeAs drawn (picks_made steps)
        × Leads S.takes maker.old steps maker.new
        × IsRecorded (P.content paths.new) path.entry (drawn_text (may_tell drawn) (picks_told steps))
        × IsDrawnOut (not (is_some drawn.seed)) cores drawn.most steps) }
{
    match path {
        None => walk_drawn(drawn, cores, &mut Unkept, maker, progress),
        Some(path) => walk_to_file(drawn, cores, path, maker, paths, progress),
    }
}

// What [`walk_written`] does where there is a path.
fn walk_to_file<S: StepMaker, P: Paths, G: Progress>(
    drawn: Drawn,
    cores: u8,
    path: &str,
    maker: &mut S,
    paths: &mut P,
    progress: &mut G,
) -> Result<(), Refusal>
    requires { cores ≤ 64 }
    ensures refused { IfErr result (λ why. IsStepRefused S.takes S.refuses (IsNextDrawn drawn cores) maker.old why
        ⊎ (why ≡ refusal.Fault fault.Output)) }
    ensures walked { IfOk result (λ _. (steps : List (Pick × Outcome)) × ComeAs drawn (picks_made steps)
        × Leads S.takes maker.old steps maker.new
        × IfSome (P.content paths.new path.now) (λ held. held ≡ drawn_text (may_tell drawn) (picks_told steps))
        × IsDrawnOut (not (is_some drawn.seed)) cores drawn.most steps) }
{
    let mut text = DrawnText {
        drawn,
        cores,
        maker,
        progress,
        refused: None,
    };
    let written = paths.write(path, &mut text);
    let DrawnText { maker, refused, .. } = text;
    // By this it is known that the maker is the one that was lent.
    let _maker = &*maker;
    match written {
        Ok(()) => Ok(()),
        Err(_) => match refused {
            Some(refusal) => Err(refusal),
            // No step was refused, so it is the file that failed.
            None => Err(Refusal::Fault(Fault::Output)),
        },
    }
}

// The schedule of steps that are made while it is written.
#[derive(Drop)]
struct DrawnText<'a, 'b, S, G> {
    drawn: Drawn,
    cores: u8,
    maker: &'a mut S,
    progress: &'b mut G,
    // Why the steps came to no end, where they did not.
    refused: Option<Refusal>,
}

impl<S: StepMaker, G: Progress> Text for DrawnText<'_, '_, S, G> {
    // The maker stays the one that was lent, and nothing refused it.
    ghost tells = { λ before after bytes. (after.maker.ghost_name ≡ before.maker.ghost_name)
        × (after.refused ≡ before.refused)
        × (steps : List (Pick × Outcome)) × ComeAs before.drawn (picks_made steps)
        × Leads S.takes before.maker.now steps after.maker.now
        × (bytes ≡ drawn_text (may_tell before.drawn) (picks_told steps))
        × IsDrawnOut (not (is_some before.drawn.seed)) before.cores before.drawn.most steps };

    ghost keeps = { λ text. text.cores ≤ 64 };

    // Nothing more refused it, or a step or the device did.
    ghost breaks = { λ before after. (after.refused ≡ before.refused) ⊎ IfSome after.refused (λ why.
        IsStepRefused S.takes S.refuses (IsNextDrawn before.drawn before.cores) before.maker.now why
        ⊎ (why ≡ refusal.Fault fault.Output)) };

    fn write_to<O: Out + Drop>(&mut self, out: O) -> Result<O, WriteFault> {
        let mut page = Gathered::new(out);
        let writer = ScheduleWriter::begin(self.drawn.may_tell(), &mut page)?;
        let mut recorder = Recorder { writer, page };
        match walk_drawn(
            self.drawn,
            self.cores,
            &mut recorder,
            &mut *self.maker,
            &mut *self.progress,
        ) {
            Ok(()) => recorder.finish(),
            Err(refusal) => {
                // A text can only say that it failed: why is kept beside it, for [`walk_to_file`].
                self.refused = Some(refusal);
                Err(WriteFault::Write)
            }
        }
    }
}

// Writes the schedule of the steps that it keeps.
#[derive(Drop)]
struct Recorder<O> {
    writer: ScheduleWriter,
    page: Gathered<O>,
}

impl<O: Out + Drop> Recorder<O> {
    // Writes what is left, and gives the device back.
    fn finish(self) -> Result<O, WriteFault>
        ensures { IfOk result (λ out. Appends (⟦<Gathered<O> as Out>⟧.device self.page).contents
            (O.device out).contents (left_text self.writer [])) }
    {
        let Recorder { writer, mut page } = self;
        writer.finish(&mut page)?;
        let out = page.finish()?;
        Ok(out)
    }
}

impl<O: Out> Keeper for Recorder<O> {
    // Whatever steps follow, what is written of these stands before their text.
    ghost keeps = { λ before steps after. (bytes : List ℕ)
        × ((rest : List Pick)
        → left_text before.writer (picks_told steps ++ rest) ≡ bytes ++ left_text after.writer rest)
        × Appends (⟦<Gathered<O> as Out>⟧.device before.page).contents
        (⟦<Gathered<O> as Out>⟧.device after.page).contents bytes };

    ghost fails = { λ why. why ≡ refusal.Fault fault.Output };

    #[inline(always)]
    fn keep(&mut self, pick: Pick, outcome: Outcome) -> Result<(), Refusal> {
        match self.writer.add(pick_told(pick, outcome), &mut self.page) {
            Ok(()) => Ok(()),
            Err(_) => Err(Refusal::Fault(Fault::Output)),
        }
    }
}
