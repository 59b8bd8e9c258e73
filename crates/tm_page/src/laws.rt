//! Laws of pages: of the deltas of a whole run, of private bytes, of a difference, and of the cores that a delta
//! names.
//!
//! The functions do nothing: their contracts are the laws, of the definitions alone. What a single call makes is
//! promised beside it, in `difference`.

ghost use Rattle.tm_page.specs.Difference.{DifferencesAreDeltas, NamesCondemned};
ghost use Rattle.tm_page.specs.Shows.{SeesPrivate, StatesStand};

/// Where each delta of a run is right, the page behind all of them is what the machine shows behind all steps.
pub fn states_stand()
    ensures { StatesStand }
{}

/// What a core sees is the page's memory with the core's pending stores over it, and over these its private bytes.
pub fn private_bytes_are_seen()
    ensures { SeesPrivate }
{}

/// The difference of what is shown before a step and behind it is a right delta.
pub fn differences_are_deltas()
    ensures { DifferencesAreDeltas }
{}

/// A delta names exactly the cores that its step condemns.
pub fn condemned_are_named()
    ensures { NamesCondemned }
{}
