//! Laws of reading. Each function does nothing: its contract is the law.

ghost use Rattle.ia_source.specs.Addends.{PlacesAreSums};

/// A memory operand stands for the sum of its addends, whichever their order: registers, a register times a scale,
/// numbers and symbols.
pub fn places_are_sums()
    ensures { PlacesAreSums }
{}
