//! Schedules: lists of steps as text.

ghost use Rattle.std.specs.Prelude.{◌≡◌, ◌+◌, ◌<◌, ◌^◌, ◌⊎◌, Ok, Err, IfOk, IfErr, length};
ghost use Rattle.ia_lex.specs.Lines.{lines_of};
ghost use Rattle.tm_schedule.specs.Schedule.{steps_of, schedule_of, below_title};

mod numbers;
mod picks;
mod reading;
mod runs;
mod words;
mod writer;
mod writing;

use ia_lex::first_line;
use numbers::read_numbers;
use picks::Form;
pub use picks::pick_of_word;
use reading::read_runs;
use std::alloc::Global;
use thiserror::Error;
use tm_model::Pick;
use words::Unread;
pub use writer::ScheduleWriter;
pub use writing::{write_drawn, write_schedule};

/// Why a schedule was not read.
#[derive(Clone, Copy, PartialEq, Eq, Debug, Error)]
pub enum ScheduleFault {
    /// This line, counted from 1, is the first that breaks the form.
    #[error("BadSchedule")]
    BadSchedule(usize),
    /// The list of steps found no memory.
    #[error("NoMemory")]
    NoMemory,
    /// With a word of this line, counted from 1, the steps are more than 16,777,216.
    #[error("TooManySteps")]
    TooManySteps(usize),
}

impl ScheduleFault {
    ghost use Rattle.tm_schedule.specs.Schedule.{fault_code};

    /// The fault's number.
    pub fn code(self) -> u8
        ensures { result ≡ fault_code self }
    {
        match self {
            ScheduleFault::BadSchedule(_line) => 52,
            ScheduleFault::NoMemory => 54,
            ScheduleFault::TooManySteps(_line) => 56,
        }
    }
}

/// The steps of a schedule, in one of three forms.
///
/// The first form is `schedule 1` alone on the first line, and below it core numbers in decimal digits, one to three
/// and at most 255, between spaces and line ends. The second is `schedule 2` alone on the first line, and below it
/// words `c` and `c*n`, the second of which stands for n times the core c: n has one to eight decimal digits, and is 1
/// to 16,777,216. The third is `schedule 3` alone on the first line, and below it such words, in which the letter of an
/// event may stand behind the core number: `i` for an interrupt, `e` for an eviction, `s` for a snoop, `d` for a drain.
/// A line ends at a line feed, and a carriage return before it is no part of it.
///
/// [`ScheduleFault::BadSchedule`] names the first line that breaks the form; [`ScheduleFault::TooManySteps`], the line
/// of the word with which a schedule with runs has more than 16,777,216 steps, before memory for them is taken. Of
/// these two the one that stands first in the text is told. [`ScheduleFault::NoMemory`], where the list of steps found
/// no memory.
pub fn read_schedule(alloc: Global, text: &[u8]) -> Result<Vec<Pick>, ScheduleFault>
    ensures ok { IfOk result (λ picks. schedule_of text.now ≡ Ok picks.items) }
    ensures err { IfErr result (λ fault. (fault ≡ ScheduleFault.NoMemory) ⊎ (schedule_of text.now ≡ Err fault)) }
{
    if text.is_empty() {
        return Err(ScheduleFault::BadSchedule(1));
    }
    let (title, size) = first_line(text);
    read_below(alloc, title, &text[size..])
}

// The steps below this first line.
fn read_below(alloc: Global, title: &[u8], below: &[u8]) -> Result<Vec<Pick>, ScheduleFault>
    requires { 2 + length below.now < 2 ^ 64 }
    ensures ok { IfOk result (λ picks. below_title title.now (lines_of below.now) ≡ Ok picks.items) }
    ensures err { IfErr result (λ fault. (fault ≡ ScheduleFault.NoMemory)
        ⊎ (below_title title.now (lines_of below.now) ≡ Err fault)) }
{
    if title == b"schedule 1".as_slice() {
        return read_numbers(alloc, Form::Cores, 1, below);
    }
    if title == b"schedule 2".as_slice() {
        return read_runs(alloc, Form::Cores, Unread::below(1, below));
    }
    if title == b"schedule 3".as_slice() {
        return read_runs(alloc, Form::Picks, Unread::below(1, below));
    }
    Err(ScheduleFault::BadSchedule(1))
}

/// The steps of a list: the words of a schedule of the third form without runs, with no first line above them.
///
/// The faults are those of [`read_schedule`], the lines being counted from 1.
pub fn read_steps(alloc: Global, text: &[u8]) -> Result<Vec<Pick>, ScheduleFault>
    ensures ok { IfOk result (λ picks. steps_of text.now ≡ Ok picks.items) }
    ensures err { IfErr result (λ fault. (fault ≡ ScheduleFault.NoMemory) ⊎ (steps_of text.now ≡ Err fault)) }
{
    read_numbers(alloc, Form::Picks, 0, text)
}
