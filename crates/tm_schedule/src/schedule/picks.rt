//! A step as a word: a core number, and behind it the letter of an event, or none.

ghost use Rattle.std.specs.Prelude.{◌≡◌, ◌<◌, Some, is_some};
ghost use Rattle.tm_schedule.specs.Picks.{AreBytes, event_letter, event_of, has_event, is_same, pick_from, pick_in};
ghost use Rattle.tm_schedule.specs.Picks.{pick_of_word};

use super::numbers::core_of;
use tm_model::{Event, Interference, Pick};

/// What the words of a text say a step by.
#[derive(Clone, Copy)]
pub enum Form {
    /// A core number: the step comes under no event.
    Cores,
    /// A core number, and behind it the letter of an event, or none.
    Picks,
}

impl Form {
    /// The step that a word says.
    pub fn pick_in(self, word: &[u8]) -> Option<Pick>
        ensures { result ≡ pick_in self word.now }
    {
        match self {
            Form::Cores => pick_from(core_of(word), None),
            Form::Picks => pick_of_word(word),
        }
    }
}

// The event of a letter.
fn event_of(letter: u8) -> Option<Event>
    ensures { result ≡ event_of letter }
{
    match letter {
        b'i' => Some(Event::Abort(Interference::Interrupt)),
        b'e' => Some(Event::Abort(Interference::Eviction)),
        b's' => Some(Event::Abort(Interference::Snoop)),
        b'd' => Some(Event::Drain),
        _ => None,
    }
}

fn pick_from(core: Option<u8>, event: Option<Event>) -> Option<Pick>
    ensures { result ≡ pick_from core event }
{
    match core {
        Some(core) => Some(Pick { core, event }),
        None => None,
    }
}

/// The step that a word says: a core number of one to three decimal digits, at most 255, and behind it `i`, `e` or `s`,
/// where the step comes under an interrupt, an eviction or a snoop, or `d`, where the oldest store of the core that is
/// pending reaches memory in its place. Nothing, where the word is of another form.
#[tactic(auto, unfolding(crate::specs::Picks::pick_of_word))]
pub fn pick_of_word(word: &[u8]) -> Option<Pick>
    ensures { result ≡ pick_of_word word.now }
{
    if word.is_empty() {
        return None;
    }
    let at = word.len() - 1;
    match event_of(word[at]) {
        Some(event) => pick_from(core_of(&word[..at]), Some(event)),
        None => pick_from(core_of(word), None),
    }
}

/// The letter of an event.
pub fn letter_of(event: Event) -> u8
    ensures { result ≡ event_letter (Some event) }
{
    match event {
        Event::Abort(Interference::Interrupt) => b'i',
        Event::Abort(Interference::Eviction) => b'e',
        Event::Abort(Interference::Snoop) => b's',
        Event::Drain => b'd',
    }
}

/// Whether two steps are the same.
pub fn is_same(a: Pick, b: Pick) -> bool
    ensures { result ≡ is_same a b }
{
    a == b
}

fn is_under(pick: &Pick) -> bool
    ensures under { result ≡ is_some pick.now.event }
    ensures core { pick.now.core < 256 }
{
    let Pick { core: _core, event } = *pick;
    event.is_some()
}

/// Whether one of these steps comes under an event.
pub fn has_event(picks: &[Pick]) -> bool
    ensures event { result ≡ has_event picks.now }
    // Each is read, so that this is known of each.
    ensures cores { AreBytes picks.now }
{
    let mut left = picks;
    let mut found = false;
    'picks: while let Some((pick, rest)) = left.split_first() {
        found |= is_under(pick);
        left = rest;
    }
    found
}
