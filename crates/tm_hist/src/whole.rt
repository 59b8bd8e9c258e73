//! Steps that were made at once, as a history keeps them: one pair for each, as if they had been made one by one.
//!
//! They are added behind the machine's call. The room for them was asked for when the board was made, and `board`
//! lets no more be made than it has: nothing is refused here.

ghost use Rattle.std.specs.Prelude.{◌≡◌, ◌≤◌, ◌+◌, ◌++◌, map, vec_capacity, vec_len};
ghost use Rattle.tm_core.specs.Theorem.{plain_steps, transaction_of};
ghost use Rattle.tm_hist.specs.History.{pair_of};

use crate::pair::Pair;
use tm_model::Outcome;

/// Keeps a core's transaction: its XBEGIN, so many instructions inside, and the XEND that commits it.
pub fn push_transaction(made: &mut Vec<Pair>, core: u8, inside: u32)
    requires { vec_len made.old + inside + 2 ≤ vec_capacity made.old }
    ensures pairs { map pair_of made.new.items ≡ map pair_of made.old.items ++ transaction_of core inside }
    ensures capacity { vec_capacity made.new ≡ vec_capacity made.old }
{
    made.push_reserved(Pair::new(core, Outcome::Begun));
    for _ in 0..inside {
        made.push_reserved(Pair::new(core, Outcome::Inside));
    }
    made.push_reserved(Pair::new(core, Outcome::Committed));
}

/// Keeps so many instructions of a core outside of transactions.
pub fn push_plain(made: &mut Vec<Pair>, core: u8, count: u32)
    requires { vec_len made.old + count ≤ vec_capacity made.old }
    ensures pairs { map pair_of made.new.items ≡ map pair_of made.old.items ++ plain_steps core count }
    ensures capacity { vec_capacity made.new ≡ vec_capacity made.old }
{
    for _ in 0..count {
        made.push_reserved(Pair::new(core, Outcome::Plain));
    }
}
