//! Numbers by chance: generators that are a function of the seed and the number of a run alone.
//!
//! [`Chance::of_run`] draws the cores of a run, [`Chance::of_events`] its events and [`Chance::of_drains`] its drains,
//! so that none moves another's numbers. Nothing is asked of the system; the seed itself comes with a schedule's
//! options.

ghost use Rattle.std.specs.Prelude.{◌≡◌, ◌<◌, ◌^◌, Contains, IsPermutation, length};
ghost use Rattle.rand.specs.Shuffle.{shuffled};
ghost use Rattle.tm_pick.specs.Choices.{IsAny};
ghost use Rattle.tm_pick.specs.Chances.{below, generator_of, number_of_drains, number_of_events, number_of_run};
ghost use Rattle.tm_pick.specs.Chances.{words_of};

use crate::going::Going;
use rand::RngExt;
use rand::seq::SliceRandom;
use rand_core::SeedableRng;
use rand_xoshiro::Xoshiro256PlusPlus;

/// By what the number of a run's events differs from that of its cores: "interfer" in ASCII.
const OF_EVENTS: u64 = 0x696e_7465_7266_6572;

/// The same of its drains: "draining" in ASCII.
const OF_DRAINS: u64 = 0x6472_6169_6e69_6e67;

/// A generator of one run: a function of the seed and the run's number alone.
#[derive(Drop)]
pub struct Chance {
    words: Xoshiro256PlusPlus,
}

impl Chance {
    /// The generator of a run: xoshiro256++, whose state SplitMix64 fills from the seed as the high half of 64 bits and
    /// the run's number as the low half.
    pub fn of_run(seed: u32, run: u32) -> Chance
        ensures { words_of result ≡ generator_of (number_of_run seed run) }
    {
        Chance::of_number(both(seed, run))
    }

    /// The generator of the events of a run: another one, whose number differs from that of the run in each half.
    pub fn of_events(seed: u32, run: u32) -> Chance
        ensures { words_of result ≡ generator_of (number_of_events seed run) }
    {
        Chance::of_number(both(seed, run) ^ OF_EVENTS)
    }

    /// The generator of the drains of a run: one more.
    pub fn of_drains(seed: u32, run: u32) -> Chance
        ensures { words_of result ≡ generator_of (number_of_drains seed run) }
    {
        Chance::of_number(both(seed, run) ^ OF_DRAINS)
    }

    // The generator whose state SplitMix64 fills from a number.
    fn of_number(number: u64) -> Chance
        ensures { words_of result ≡ generator_of number }
    {
        Chance {
            words: Xoshiro256PlusPlus::seed_from_u64(number),
        }
    }

    /// A number below this one, each as likely as another.
    pub fn below(&mut self, bound: u32) -> u32
        requires { 0 < bound }
        ensures less { result < bound }
        ensures drawn { (result, words_of self.new) ≡ below bound (words_of self.old) }
    {
        self.words.random_range(0u32..bound)
    }

    /// One of the cores, each as likely as another.
    pub fn any(&mut self, going: &Going) -> u8
        requires { 0 < length going.now }
        ensures among { Contains going.now result }
        ensures drawn { IsAny going.now (words_of self.old) result (words_of self.new) }
    {
        let count = going.len();
        going.at(self.below(count as u32) as usize)
    }

    /// Puts a list in an order by chance.
    pub fn shuffle(&mut self, cores: &mut [u8])
        ensures same { IsPermutation cores.old cores.new }
        ensures drawn { (cores.new, words_of self.new) ≡ shuffled cores.old 0 (words_of self.old) }
    {
        cores.shuffle(&mut self.words);
    }
}

/// A power of 2.
pub fn power_of_two(exponent: u32) -> u32
    requires { exponent < 32 }
    ensures { result ≡ 2 ^ exponent }
{
    1 << exponent
}

// The seed as the high half of 64 bits, and the run's number as the low half.
fn both(seed: u32, run: u32) -> u64
    ensures { result ≡ number_of_run seed run }
{
    u64::from(seed) * 0x1_0000_0000 + u64::from(run)
}
