//! The kinds of events that may come, and which of them comes.
//!
//! One number is drawn among the kinds that are said, in the order interrupt, eviction, snoop, drain; where none is
//! said there is no event and no number is drawn. Whether a step comes under an event at all is drawn before, in `lot`.

ghost use Rattle.std.specs.Prelude.{◌≡◌, ◌<◌, ◌≤◌, true};
ghost use Rattle.tm_pick.specs.Befalls.{kind_at, kind_count, kind_drawn};
ghost use Rattle.tm_pick.specs.Chances.{words_of};
ghost use Rattle.tm_pick.specs.Kinds.{IsOfKinds, has_event, has_kind, only_kind};

use crate::chance::Chance;
use tm_model::{Event, Interference};

/// The kinds of events that may come: aborts from outside of the program, and drains. Where none is said, none comes.
#[derive(Clone, Copy, PartialEq, Eq, Debug)]
pub struct Kinds {
    /// Interrupts.
    pub interrupt: bool,
    /// Evictions of lines that the transaction has touched.
    pub eviction: bool,
    /// Accesses to such lines by what is no core of the machine.
    pub snoop: bool,
    /// Drains: the oldest store of the core that is pending reaches memory.
    pub drain: bool,
}

impl Kinds {
    /// Each abort from outside of the program.
    pub const ALL: Kinds = Kinds {
        interrupt: true,
        eviction: true,
        snoop: true,
        drain: false,
    };

    /// This one alone.
    pub fn only(by: Interference) -> Kinds
        ensures { result ≡ only_kind by }
    {
        let none = Kinds {
            interrupt: false,
            eviction: false,
            snoop: false,
            drain: false,
        };
        match by {
            Interference::Interrupt => Kinds {
                interrupt: true,
                ..none
            },
            Interference::Eviction => Kinds {
                eviction: true,
                ..none
            },
            Interference::Snoop => Kinds {
                snoop: true,
                ..none
            },
        }
    }

    /// Whether this one is among them.
    pub fn contains(self, by: Interference) -> bool
        ensures { result ≡ has_kind self by }
    {
        match by {
            Interference::Interrupt => self.interrupt,
            Interference::Eviction => self.eviction,
            Interference::Snoop => self.snoop,
        }
    }

    // An event of one of them, each as likely as another.
    pub(crate) fn draw(self, chance: &mut Chance) -> Option<Event>
        ensures kinds { IsOfKinds self result }
        ensures drawn { (result, words_of chance.new) ≡ kind_drawn self (words_of chance.old) }
    {
        let count = self.count();
        if count == 0 {
            return None;
        }
        Some(self.at(chance.below(count)))
    }

    // How many they are.
    fn count(self) -> u32
        ensures { result ≡ kind_count self }
    {
        u32::from(self.interrupt)
            + u32::from(self.eviction)
            + u32::from(self.snoop)
            + u32::from(self.drain)
    }

    // An event of the kind with this index, counted from 0.
    #[tactic(auto, using(crate::proofs::EachKind::each_kind))]
    fn at(self, index: u32) -> Event
        requires { index < kind_count self }
        ensures among { has_event self result ≡ true }
        ensures value { result ≡ kind_at self index }
    {
        if self.interrupt && index == 0 {
            Event::Abort(Interference::Interrupt)
        } else if self.eviction && index == u32::from(self.interrupt) {
            Event::Abort(Interference::Eviction)
        } else if self.snoop && index == u32::from(self.interrupt) + u32::from(self.eviction) {
            Event::Abort(Interference::Snoop)
        } else {
            Event::Drain
        }
    }
}
