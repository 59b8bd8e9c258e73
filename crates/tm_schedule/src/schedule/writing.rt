//! Steps are written as a schedule: steps of one core side by side are one word, sixteen words a line. The title says
//! which form, and is written first, so it has to be known before whether a step may come under an event.

ghost use Rattle.std.specs.Prelude.{◌≡◌, ◌+◌, ◌<◌, ◌≤◌, ◌++◌, ◌∷◌, ◌==◌, [], false, if◌then◌else◌, Ok, length};
ghost use Rattle.arrayvec.specs.ArrayVec.{array_vec_len};
ghost use Rattle.std.specs.Int.Digits.{digits_of};
ghost use Rattle.text_out.specs.TextLine.{line_end};
ghost use Rattle.text_out.specs.Writing.{Writes};
ghost use Rattle.tm_schedule.specs.Picks.{event_text, has_event};
ghost use Rattle.tm_schedule.specs.Schedule.{drawn_text, schedule_of, steps_of, schedule_text, numbers_text};
ghost use Rattle.tm_schedule.specs.Schedule.{steps_text};
ghost use Rattle.tm_schedule.specs.Schedule.{title_line};
ghost use Rattle.tm_schedule.specs.ScheduleRuns.{AreLongest, count_text, run_word, runs_of};
ghost use Rattle.tm_schedule.specs.ScheduleWriting.{left_text};

use super::picks::{has_event, letter_of};
use super::runs::Run;
use super::writer::ScheduleWriter;
use text_out::page::push;
use text_out::text_line::{TextLine, push_number};
use text_out::{Out, WriteFault};
use tm_model::{Event, Pick};

/// How many words stand on a line.
pub const WORDS_A_LINE: u8 = 16;

// Adds a number in decimal digits, and none for 0.
#[tactic(auto, using(crate::proofs::Counts::count_texts))]
fn push_count(row: &mut TextLine, n: u32)
    requires { array_vec_len row.old + length (digits_of 10 n) ≤ 160 }
    ensures text { row.new.items ≡ row.old.items ++ count_text n }
    ensures len { array_vec_len row.new ≡ array_vec_len row.old + length (digits_of 10 n) }
{
    if n > 0 {
        push_count(row, n / 10);
        push(row, &[b'0' + (n % 10) as u8]);
    }
}

// Adds the letter of an event, and none for none.
fn push_event(row: &mut TextLine, event: Option<Event>)
    requires { array_vec_len row.old + 1 ≤ 160 }
    ensures text { row.new.items ≡ row.old.items ++ event_text event }
    ensures len { array_vec_len row.new ≤ array_vec_len row.old + 1 }
{
    if let Some(event) = event {
        push(row, &[letter_of(event)]);
    }
}

// Adds the word of a run.
#[tactic(auto, using(crate::proofs::Counts::count_few), unfolding(crate::specs::ScheduleRuns::run_word))]
fn push_run(row: &mut TextLine, run: Run)
    requires { array_vec_len row.old + 15 ≤ 160 }
    ensures text { row.new.items ≡ row.old.items ++ run_word run }
    ensures len { array_vec_len row.new ≤ array_vec_len row.old + 15 }
{
    push_number(row, run.pick.core);
    push_event(row, run.pick.event);
    if run.count != 1 {
        push(row, b"*");
        push_count(row, run.count);
    }
}

// What stands behind a word that another one follows, by the words before it on its line.
pub fn separator(column: u8) -> &'static [u8]
    requires { column < 16 }
    ensures text { result.now ≡ (if column + 1 == 16 then line_end else 32 ∷ []) }
    ensures len { length result.now ≡ 1 }
{
    if column + 1 == WORDS_A_LINE {
        b"\n"
    } else {
        b" "
    }
}

// Writes the word of a run, and what stands behind it.
pub fn write_run<O: Out>(run: Run, behind: &[u8], out: &mut O) -> Result<(), WriteFault>
    requires { length behind.now ≡ 1 }
    ensures { Writes (O.device out.old) (O.device out.new) (run_word run ++ behind.now) result }
{
    let mut row = TextLine::new();
    push_run(&mut row, run);
    push(&mut row, behind);
    out.put(row.as_slice())?;
    Ok(())
}

// The first line of a schedule, by whether a step may come under an event.
pub fn title_line(has_events: bool) -> &'static [u8]
    ensures { result.now ≡ title_line has_events }
{
    if has_events {
        b"schedule 3\n"
    } else {
        b"schedule 2\n"
    }
}

/// Writes the schedule of a list of steps: in the third form, where one of them comes under an event, and else in the
/// second. Either has the list's longest runs, as a [`ScheduleWriter`] writes them. A list of at most 16,777,216 steps
/// is read back.
///
/// [`WriteFault::Write`], where the device failed: a beginning of the schedule was written.
pub fn write_schedule<O: Out>(picks: &[Pick], out: &mut O) -> Result<(), WriteFault>
    ensures written { Writes (O.device out.old) (O.device out.new) (schedule_text picks.now) result }
    // Each text of a list is read as that list.
    ensures read_back { length picks.now ≤ 16777216 → schedule_of (schedule_text picks.now) ≡ Ok picks.now }
    ensures longest { AreLongest (runs_of picks.now) }
    ensures first_form { has_event picks.now ≡ false → schedule_of (numbers_text picks.now) ≡ Ok picks.now }
    ensures list { steps_of (steps_text picks.now) ≡ Ok picks.now }
{
    write_drawn(has_event(picks), picks, out)
}

/// [`write_schedule`] of steps that were drawn: in the third form, where one of them may have come under an event.
pub fn write_drawn<O: Out>(has_events: bool, picks: &[Pick], out: &mut O) -> Result<(), WriteFault>
    ensures { Writes (O.device out.old) (O.device out.new) (drawn_text has_events picks.now) result }
{
    let writer = ScheduleWriter::begin(has_events, out)?;
    write_steps(writer, picks, out)
}

// Writes steps, and ends the schedule.
fn write_steps<O: Out>(begun: ScheduleWriter, picks: &[Pick], out: &mut O) -> Result<(), WriteFault>
    ensures { Writes (O.device out.old) (O.device out.new) (left_text begun picks.now) result }
{
    let mut writer = begun;
    let mut left = picks;
    'picks: while let Some((pick, rest)) = left.split_first() {
        writer.add(*pick, out)?;
        left = rest;
    }
    writer.finish(out)
}
