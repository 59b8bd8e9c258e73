//! Why an item cannot be placed.

ghost use Rattle.std.specs.Prelude.{◌≡◌};
ghost use Rattle.ia_resolve.specs.PlaceFaults.{first_of};

/// Why an item cannot be placed as it is written. Of several on a line, the first in the order of these cases is told.
#[derive(Clone, Copy, Debug, PartialEq, Eq)]
pub enum PlaceFault {
    /// A symbol is defined nowhere; for `equ` and `resb`, above by no `equ`.
    UnknownSymbol,
    /// A number or a value is outside its range, or the item ends too far from the base or past 2^32.
    Range,
    /// The distance of a short jump, LOOP or JECXZ is not from -128 to 127.
    ShortJumpTooFar,
}

/// The first of two faults of one line, in the order in which they are told.
pub fn first_of(a: Option<PlaceFault>, b: Option<PlaceFault>) -> Option<PlaceFault>
    ensures { result ≡ first_of a b }
{
    match (a, b) {
        (None, _) => b,
        (Some(PlaceFault::UnknownSymbol), _) => a,
        (Some(PlaceFault::Range), Some(PlaceFault::UnknownSymbol)) => b,
        (Some(PlaceFault::Range), _) => a,
        (Some(PlaceFault::ShortJumpTooFar), None) => a,
        (Some(PlaceFault::ShortJumpTooFar), Some(_)) => b,
    }
}
