//! What `--events` says: from its text to the events that a schedule is drawn with.
//!
//! [`events_of`] takes the text apart from the left: the `1`, the rate behind `/`, the kinds behind `:`. No part has a
//! fault of its own: whatever is wrong, the option is misused. Which steps come under an event is drawn by `tm_pick`;
//! `draw`, which `hunt` alone takes, is read in `elide_checks`.

ghost use Rattle.std.specs.Prelude.{◌≡◌, ◌==◌, ◌<◌, IfErr, IfOk, None, Some, codes};
ghost use Rattle.std.specs.Option.{option_copied};
ghost use Rattle.elide_setup.specs.Events.{events_said, kind_said, kinds_more, kinds_said, names_in, one_in_said};
ghost use Rattle.elide_setup.specs.Events.{pieces, rate_said, with_kind};
ghost use Rattle.elide_setup.specs.Misuse.{IsMisuse};
ghost use Rattle.tm_pick.specs.Kinds.{has_event};

use crate::fault::Refusal;
use elide_program::number_of;
use tm_model::{Event, Interference};
use tm_pick::{Events, Kinds};

/// The most steps of which one comes under an event.
const MOST_STEPS: u32 = 65_536;

/// No kind.
const NONE: Kinds = Kinds {
    interrupt: false,
    eviction: false,
    snoop: false,
    drain: false,
};

/// The kinds where none are said.
const INTERRUPTS: Kinds = Kinds {
    interrupt: true,
    eviction: false,
    snoop: false,
    drain: false,
};

/// The events of `1/N`: one step in N, 1 to 65,536, comes under an interrupt, or under an event of the kinds that stand
/// behind it and a colon ([`kinds_of`]). `1` is `1/1`: each step.
///
/// [`Refusal::Usage`] of `--events` for any other text.
pub fn events_of(text: &str) -> Result<Events, Refusal>
    ensures ok { IfOk result (λ events. events_said text.now ≡ Some events) }
    ensures err { IfErr result (λ refusal. (events_said text.now ≡ None) × IsMisuse (codes "--events") refusal) }
{
    match events_in(text) {
        Some(events) => Ok(events),
        None => Err(Refusal::Usage("--events")),
    }
}

fn events_in(text: &str) -> Option<Events>
    ensures { result ≡ events_said text.now }
{
    let (one, rate) = cut(text, '/');
    if one.as_bytes() != b"1".as_slice() {
        return None;
    }
    match rate {
        Some(rate) => rate_in(rate),
        None => Some(Events::Rate {
            one_in: 1,
            kinds: INTERRUPTS,
        }),
    }
}

// The events of a rate, without the `1/` before it.
fn rate_in(text: &str) -> Option<Events>
    ensures { result ≡ rate_said text.now }
{
    let (many, names) = cut(text, ':');
    let one_in = one_in(many)?;
    match names {
        Some(names) => {
            let kinds = kinds_of(names)?;
            Some(Events::Rate { one_in, kinds })
        }
        None => Some(Events::Rate {
            one_in,
            kinds: INTERRUPTS,
        }),
    }
}

// In how many steps one comes under an event.
fn one_in(text: &str) -> Option<u32>
    ensures { result ≡ one_in_said text.now }
{
    match number_of(Some(text), "--events") {
        Ok(many) => {
            if 1 <= many && many <= MOST_STEPS {
                Some(many)
            } else {
                None
            }
        }
        Err(_) => None,
    }
}

/// The kinds of `KIND[,KIND]`: of `interrupt`, `eviction` and `snoop` each at most once. None of any other text.
pub fn kinds_of(text: &str) -> Option<Kinds>
    ensures { result ≡ kinds_said text.now }
{
    more_kinds(NONE, text)
}

// These kinds, and those of names with commas between, each of which is a new one.
fn more_kinds(kinds: Kinds, text: &str) -> Option<Kinds>
    ensures { result ≡ kinds_more kinds (names_in text.now) }
{
    let (name, names) = cut(text, ',');
    let kinds = with_named(kinds, name)?;
    match names {
        Some(names) => more_kinds(kinds, names),
        None => Some(kinds),
    }
}

// These kinds and that of a name.
fn with_named(kinds: Kinds, name: &str) -> Option<Kinds>
    ensures { result ≡ with_kind kinds (kind_said name.now) }
{
    with_kind(kinds, kind_of(name)?)
}

// The kind of a name.
fn kind_of(name: &str) -> Option<Event>
    ensures { result ≡ kind_said name.now }
{
    let name = name.as_bytes();
    if name == b"interrupt".as_slice() {
        return Some(Event::Abort(Interference::Interrupt));
    }
    if name == b"eviction".as_slice() {
        return Some(Event::Abort(Interference::Eviction));
    }
    if name == b"snoop".as_slice() {
        return Some(Event::Abort(Interference::Snoop));
    }
    if name == b"drain".as_slice() {
        return Some(Event::Drain);
    }
    None
}

// These kinds and another one.
fn with_kind(kinds: Kinds, event: Event) -> Option<Kinds>
    ensures { result ≡ with_kind kinds (Some event) }
{
    if has_event(kinds, event) {
        return None;
    }
    match event {
        Event::Abort(Interference::Interrupt) => Some(Kinds {
            interrupt: true,
            ..kinds
        }),
        Event::Abort(Interference::Eviction) => Some(Kinds {
            eviction: true,
            ..kinds
        }),
        Event::Abort(Interference::Snoop) => Some(Kinds {
            snoop: true,
            ..kinds
        }),
        Event::Drain => Some(Kinds {
            drain: true,
            ..kinds
        }),
    }
}

// Whether an event is of these kinds.
fn has_event(kinds: Kinds, event: Event) -> bool
    ensures { result ≡ has_event kinds event }
{
    match event {
        Event::Abort(by) => kinds.contains(by),
        Event::Drain => kinds.drain,
    }
}

// A text before the first such character, and behind it, where it is there.
fn cut(text: &str, at: char) -> (&str, Option<&str>)
    requires { at < 128 }
    ensures front { result.0.now ≡ (pieces (λ b. b == at) text.now).0 }
    ensures behind { option_copied result.1 ≡ (pieces (λ b. b == at) text.now).1 }
{
    match text.split_once(at) {
        Some((front, behind)) => (front, Some(behind)),
        None => (text, None),
    }
}
