//! What is searched, and what is shown: a program, its limits, its items, its events, its stops and its checks.
//!
//! A [`Trial`] is lent to all calls, and holds nothing of a search. Whoever makes it asks [`Trial::has_all`] before
//! the search, which takes for granted that its items are there; the limits are tested by the first machine.

ghost use Rattle.std.specs.Prelude.{◌↔◌, IsTrue};
ghost use Rattle.tm_outcomes.specs.Outcomes.{AreThere, IsThere};

use ia_image::Program;
use tm_condition::Check;
use tm_core::Limits;
use tm_model::Event;
use tm_rule::Stop;

/// A part of what an outcome shows.
#[derive(Clone, Copy, PartialEq, Eq, Debug)]
pub enum Item {
    /// A general register of a core: the core's number, and the register's, 0 to 7.
    Register(u8, u8),
    /// The doubleword at this address.
    Memory(u32),
}

/// What the steps of a trial's schedules come under.
#[derive(Clone, Copy, Debug)]
pub enum Events<'a> {
    /// Each step comes under no event: stores drain where steps wait for that, and nowhere else.
    Never,
    /// Each step comes under none, or under one of these: where stores may be pending, a drain should be among them.
    May(&'a [Event]),
    /// Each step comes under this one.
    Always(Event),
}

/// A program, what its steps come under, what is shown of it and checked where each core has stopped, and which stops
/// are looked for.
#[derive(Clone, Copy)]
pub struct Trial<'a> {
    /// The program.
    pub program: &'a Program,
    /// How many lines a transaction can touch, and how many stores of a core may be pending.
    pub limits: Limits,
    /// What is shown, in order.
    pub items: &'a [Item],
    /// What each step comes under.
    pub events: Events<'a>,
    /// The reasons to stop that are looked for.
    pub stops: &'a [Stop],
    /// What is checked where each core has stopped.
    pub checks: &'a [Check],
}

impl Trial<'_> {
    /// Whether the program has the core, or its memory the doubleword.
    pub fn has(&self, item: Item) -> bool
        ensures { IsTrue result ↔ IsThere self.now item }
    {
        match item {
            Item::Register(core, register) => core < self.program.cores() && register < 8,
            Item::Memory(address) => u64::from(address) + 4 <= u64::from(self.program.mem_size()),
        }
    }
}

impl Trial<'_> {
    /// Whether it has each item.
    pub fn has_all(&self) -> bool
        ensures { IsTrue result ↔ AreThere self.now }
    {
        for item in self.items {
            if !self.has(*item) {
                return false;
            }
        }
        true
    }
}
