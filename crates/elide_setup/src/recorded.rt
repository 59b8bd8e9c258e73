//! Schedules that are written to the file of `--record`, from a list that is at hand.
//!
//! [`record_path`] comes early, before FILE is read, so that no run is made whose record would overwrite its program.
//! [`record`] and [`record_drawn`] write the list, in the form of one that was given or of one that was drawn; no path
//! is no record. Where the picks are only drawn while the file is written, it is `recording` that writes them.

ghost use Rattle.std.specs.Prelude.{◌≡◌, ℕ, IfErr, IfOk, IfSome, List, OnOk, false};
ghost use Rattle.tm_schedule.specs.Schedule.{drawn_text, schedule_text};
ghost use Rattle.elide_setup.specs.Recorded.{IsRecorded};
ghost use Rattle.elide_setup.specs.Refused.{AreOne, IsOverProgram, IsUnrecorded};

use crate::fault::{Fault, Refusal};
use elide_device::Gathered;
use elide_program::{Paths, Text};
use text_out::{Out, WriteFault};
use tm_model::Pick;
use tm_schedule::{write_drawn, write_schedule};

/// The path that `--record` gives, which is not that of the program.
#[tactic(auto, using(crate::proofs::OneFile::is_one))]
pub fn record_path<'a, P: Paths>(
    path: Option<&'a str>,
    file: &str,
    paths: &mut P,
) -> Result<Option<&'a str>, Refusal>
    ensures kept { (other : List ℕ) → P.content paths.new other ≡ P.content paths.old other }
    ensures steady { (one two : List ℕ) → P.are_one paths.new one two ≡ P.are_one paths.old one two }
    ensures given { IfOk result (λ given. given ≡ path.entry) }
    ensures apart { IfOk result
        (λ _. IfSome path.entry (λ given. AreOne (P.are_one paths.old given.now file.now) false)) }
    ensures over { IfErr result (IsOverProgram (P.are_one paths.old) path.entry file.now) }
{
    let Some(given) = path else {
        return Ok(None);
    };
    if paths.is_same_file(given, file) {
        return Err(Refusal::Usage("--record"));
    }
    Ok(path)
}

/// Writes the schedule of these steps to a file, where there is a path.
#[tactic(auto, using(crate::proofs::Records::held_same))]
pub fn record<P: Paths>(path: Option<&str>, picks: &[Pick], paths: &mut P) -> Result<(), Refusal>
    ensures written { OnOk result (IsRecorded (P.content paths.new) path.entry (schedule_text picks.now)) }
    ensures failed { IfErr result (IsUnrecorded path.entry) }
{
    let Some(path) = path else {
        return Ok(());
    };
    match paths.write(path, &mut Schedule(picks)) {
        Ok(()) => Ok(()),
        Err(_) => Err(Refusal::Fault(Fault::Output)),
    }
}

/// Writes the schedule as [`record`] does, but of steps that were drawn, one of which may have come under an event.
#[tactic(auto, using(crate::proofs::Records::held_same))]
pub fn record_drawn<P: Paths>(
    path: Option<&str>,
    has_events: bool,
    picks: &[Pick],
    paths: &mut P,
) -> Result<(), Refusal>
    ensures written { OnOk result (IsRecorded (P.content paths.new) path.entry (drawn_text has_events picks.now)) }
    ensures failed { IfErr result (IsUnrecorded path.entry) }
{
    let Some(path) = path else {
        return Ok(());
    };
    match paths.write(path, &mut DrawnSchedule { has_events, picks }) {
        Ok(()) => Ok(()),
        Err(_) => Err(Refusal::Fault(Fault::Output)),
    }
}

// The text of a schedule of these steps.
#[derive(Clone, Copy)]
struct Schedule<'a>(&'a [Pick]);

impl Text for Schedule<'_> {
    ghost tells = { λ s _ bytes. bytes ≡ schedule_text s.0.now };

    fn write_to<O: Out + Drop>(&mut self, out: O) -> Result<O, WriteFault> {
        let mut page = Gathered::new(out);
        write_schedule(self.0, &mut page)?;
        let out = page.finish()?;
        Ok(out)
    }
}

// As [`Schedule`], of steps that were drawn: its first line says whether events may come.
#[derive(Clone, Copy)]
struct DrawnSchedule<'a> {
    has_events: bool,
    picks: &'a [Pick],
}

impl Text for DrawnSchedule<'_> {
    ghost tells = { λ s _ bytes. bytes ≡ drawn_text s.has_events s.picks.now };

    fn write_to<O: Out + Drop>(&mut self, out: O) -> Result<O, WriteFault> {
        let mut page = Gathered::new(out);
        write_drawn(self.has_events, self.picks, &mut page)?;
        let out = page.finish()?;
        Ok(out)
    }
}
