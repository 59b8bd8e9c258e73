//! The reasons to stop that are looked for: [`stops_of`] reads the words of `--stop`, before all other options.
//!
//! They are the words of `hunt`'s option, and read by the same call. That one is reached is found by the search.

ghost use Rattle.std.specs.Prelude.{◌≡◌, ◌⊎◌, MatchResult};
ghost use Rattle.elide_checks.specs.Refused.{IsNoStop};
ghost use Rattle.elide_setup.specs.Faults.{want};
ghost use Rattle.elide_outcomes.specs.Stops.{AreStops};

use elide_checks::stop_of;
use elide_program::add;
use elide_setup::Refusal;
use std::alloc::Global;
use tm_rule::Stop;

/// One for each word of `--stop`.
pub fn stops_of(alloc: Global, words: &[&str]) -> Result<Vec<Stop>, Refusal>
    ensures { MatchResult result (λ stops. AreStops words.now stops.items)
        (λ why. IsNoStop words.now why ⊎ (why ≡ want)) }
{
    let mut stops = Vec::new(alloc);
    for word in words {
        let why = stop_of(word)?;
        add(&mut stops, why)?;
    }
    Ok(stops)
}
