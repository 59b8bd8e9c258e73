//! A schedule that is written as its steps come.

ghost use Rattle.std.specs.Prelude.{◌≡◌, ◌≤◌, ◌<◌, ◌++◌, ◌∷◌, ℕ, [], List, IfOk, Ok, length, true};
ghost use Rattle.text_out.specs.Writing.{Writes};
ghost use Rattle.tm_model.specs.declared.outcome.Pick.{Pick};

use super::runs::Run;
use super::writing::{WORDS_A_LINE, separator, title_line, write_run};
use text_out::{Out, WriteFault};
use tm_model::Pick;

/// A schedule that is written as its steps come, so that it takes no memory: the longest runs of the steps, 16 words a
/// line, of which one of more than 16,777,216 steps is split from the front. Nothing of a run is written before its
/// end.
#[derive(Drop)]
pub struct ScheduleWriter {
    // The run that the last step belongs to; none before the first step.
    run: Option<Run>,
    // How many words stand on the last line.
    column: u8,
    ghost within: { column < 16 },
}

impl ScheduleWriter {
    ghost use Rattle.tm_schedule.specs.Picks.{AreBytes, has_event};
    ghost use Rattle.tm_schedule.specs.Schedule.{drawn_text, runs_text, schedule_of, title_line};
    ghost use Rattle.tm_schedule.specs.ScheduleWriting.{left_text};

    /// Writes the first line: that of the third form, where a step may come under an event, and else that of the
    /// second. At most 16,777,216 steps are read back.
    ///
    /// [`WriteFault::Write`], where the device failed: a beginning of the line was written.
    pub fn begin<O: Out>(has_events: bool, out: &mut O) -> Result<ScheduleWriter, WriteFault>
        ensures title { Writes (O.device out.old) (O.device out.new) (title_line has_events) result }
        ensures begun { IfOk result (λ writer. (picks : List Pick) → left_text writer picks ≡ runs_text picks) }
        // Each text of steps is read as these steps.
        ensures read_back { (picks : List Pick) → AreBytes picks → length picks ≤ 16777216 →
            (has_event picks ≡ true → has_events ≡ true) → schedule_of (drawn_text has_events picks) ≡ Ok picks }
    {
        out.put(title_line(has_events))?;
        Ok(ScheduleWriter {
            run: None,
            column: 0,
        })
    }

    /// Takes the next step. Where it ends a run, the word of that is written.
    ///
    /// [`WriteFault::Write`], where the device failed: a beginning of the word was written.
    #[inline(always)]
    pub fn add<O: Out>(&mut self, pick: Pick, out: &mut O) -> Result<(), WriteFault>
        // Whatever steps follow, what is written stands before their text.
        ensures { (bytes : List ℕ)
            × ((rest : List Pick) → left_text self.old (pick ∷ rest) ≡ bytes ++ left_text self.new rest)
            × Writes (O.device out.old) (O.device out.new) bytes result }
    {
        match self.run {
            None => {
                self.run = Some(Run { pick, count: 1 });
                Ok(())
            }
            Some(last) => match last.with(pick) {
                Some(longer) => {
                    self.run = Some(longer);
                    Ok(())
                }
                None => {
                    let behind = separator(self.column);
                    self.run = Some(Run { pick, count: 1 });
                    self.column = (self.column + 1) % WORDS_A_LINE;
                    write_run(last, behind, out)
                }
            },
        }
    }

    /// Writes the word of the last run.
    ///
    /// [`WriteFault::Write`], where the device failed: a beginning of the word was written.
    pub fn finish<O: Out>(self, out: &mut O) -> Result<(), WriteFault>
        ensures { Writes (O.device out.old) (O.device out.new) (left_text self []) result }
    {
        match self.run {
            Some(last) => write_run(last, b"\n", out),
            None => Ok(()),
        }
    }
}
