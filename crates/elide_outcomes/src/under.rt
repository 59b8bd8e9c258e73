//! What the steps come under, as `--events` says it: none, any of some kinds, or always an interrupt.
//!
//! [`Under::read`] needs no program. [`Under::listed`] makes the events in an order of its own, whatever the option's
//! was, and [`Under::events`] lends them to the search. Rates, as `1/64`, are of commands that draw: they are read by
//! `elide_setup`. Where stores may be pending a drain may come, too, whatever the option says but `always`.

ghost use Rattle.std.specs.Prelude.{◌≡◌, ◌++◌, IfErr, IfOk, OnOk};
ghost use Rattle.std.specs.Option.{option_copied};
ghost use Rattle.elide_outcomes.specs.Refused.{IsNoUnder};
ghost use Rattle.elide_outcomes.specs.Under.{AreUnder, IsUnder, drain_if, event_if, listed_by};

use elide_setup::{Refusal, kinds_of};
use std::alloc::{AllocError, Global};
use tm_model::{Event, Interference};
use tm_outcomes::Events;
use tm_pick::Kinds;

/// What `--events` says that each step of a schedule comes under.
#[derive(Clone, Copy, PartialEq, Eq, Debug)]
pub enum Under {
    /// No event: the option is not given.
    Nothing,
    /// None, or an event of one of these kinds.
    AnyOf(Kinds),
    /// An interrupt.
    Always,
}

impl Under {
    /// What the option says: `always`, or kinds with commas between. Anything else is a misuse.
    pub fn read(text: Option<&str>) -> Result<Under, Refusal>
        ensures ok { IfOk result (IsUnder (option_copied text.entry)) }
        ensures err { IfErr result (IsNoUnder (option_copied text.entry)) }
    {
        let Some(text) = text else {
            return Ok(Under::Nothing);
        };
        if text == "always" {
            return Ok(Under::Always);
        }
        match kinds_of(text) {
            Some(kinds) => Ok(Under::AnyOf(kinds)),
            None => Err(Refusal::Usage("--events")),
        }
    }

    /// The events that a step may come under, where it need not: a drain among them where stores may be pending.
    pub fn listed(self, alloc: Global, drains: bool) -> Result<Vec<Event>, AllocError>
        ensures { IfOk result (λ listed. listed.items ≡ listed_by self drains) }
    {
        let mut listed = Vec::new(alloc);
        match self {
            Under::AnyOf(kinds) => {
                add_if(kinds.interrupt, Interference::Interrupt, &mut listed)?;
                add_if(kinds.eviction, Interference::Eviction, &mut listed)?;
                add_if(kinds.snoop, Interference::Snoop, &mut listed)?;
                add_drain(drains, &mut listed)?;
                Ok(listed)
            }
            Under::Nothing => {
                add_drain(drains, &mut listed)?;
                Ok(listed)
            }
            Under::Always => Ok(listed),
        }
    }

    /// What the steps of a trial come under, where they may come under these, and stores may be pending or not.
    pub fn events(self, drains: bool, listed: &[Event]) -> Events<'_>
        requires { listed.now ≡ listed_by self drains }
        ensures { AreUnder self drains result }
    {
        match self {
            Under::Nothing => {
                if drains {
                    Events::May(listed)
                } else {
                    Events::Never
                }
            }
            Under::AnyOf(_kinds) => Events::May(listed),
            Under::Always => Events::Always(Event::Abort(Interference::Interrupt)),
        }
    }
}

// Adds a drain, where stores may be pending.
fn add_drain(drains: bool, listed: &mut Vec<Event>) -> Result<(), AllocError>
    ensures { OnOk result (listed.new.items ≡ listed.old.items ++ drain_if drains) }
{
    if drains {
        listed.push(Event::Drain)?;
    }
    Ok(())
}

// Adds an abort by this, where it is said.
fn add_if(is_said: bool, by: Interference, listed: &mut Vec<Event>) -> Result<(), AllocError>
    ensures { OnOk result (listed.new.items ≡ listed.old.items ++ event_if is_said by) }
{
    if is_said {
        listed.push(Event::Abort(by))?;
    }
    Ok(())
}
