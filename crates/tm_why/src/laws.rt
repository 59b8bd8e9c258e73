//! The law of what is watched: a hit stands on a core exactly while the core is doomed.
//!
//! The function does nothing: its contract is the law, of the definitions alone, for owed steps whose hits are
//! told. That a watch keeps what they say is promised by [`Watch::note`](crate::Watch::note).

ghost use Rattle.tm_why.specs.Standing.{HitsStand};

/// A hit stands on a core exactly while the core is doomed: where that is so, it is so behind each owed step whose hits
/// were told, under an event or under none. So each abort of a doomed transaction is told
/// with the hit that condemned it, and no abort with a hit of a step that was not made.
pub fn hits_stand()
    ensures { HitsStand }
{}
