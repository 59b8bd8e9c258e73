//! The word of a step, as `--steps` takes it.

ghost use Rattle.std.specs.Prelude.{◌≡◌, ◌≤◌, length};
ghost use Rattle.tm_schedule.specs.Picks.{event_text, pick_word};

use arrayvec::ArrayString;
use itoa::Buffer;
use tm_model::{Event, Interference, Pick};

/// The word of a step. The longest has the three digits of a core's number and a letter.
pub type StepWord = ArrayString<4>;

/// The word of a step: its core, and the letter of its event, if any (docs/FORMATS.md, "Schedules").
pub fn step_word(pick: Pick) -> StepWord
    ensures { result.bytes ≡ pick_word pick }
{
    let mut digits = Buffer::new();
    let mut word = StepWord::new();
    // There is room for both.
    let _ = word.try_push_str(digits.format(pick.core));
    let _ = word.try_push_str(letter_of(pick.event));
    word
}

// The letter of an event, and nothing for none.
fn letter_of(event: Option<Event>) -> &'static str
    ensures letter { result.now ≡ event_text event }
    ensures len { length result.now ≤ 1 }
{
    match event {
        None => "",
        Some(Event::Abort(Interference::Interrupt)) => "i",
        Some(Event::Abort(Interference::Eviction)) => "e",
        Some(Event::Abort(Interference::Snoop)) => "s",
        Some(Event::Drain) => "d",
    }
}
