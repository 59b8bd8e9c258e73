//! The six ways to compare two numbers, all of them without sign.
//!
//! [`Comparison::holds`] is asked once both numbers are there. That one may be missing is met before, in `clause`.

ghost use Rattle.std.specs.Prelude.{◌≡◌};
ghost use Rattle.tm_condition.specs.Conditions.{compares};

/// How two numbers are compared, without sign.
#[derive(Clone, Copy, PartialEq, Eq, Debug)]
pub enum Comparison {
    /// `==`.
    Equal,
    /// `!=`.
    NotEqual,
    /// `<`.
    Below,
    /// `<=`.
    AtMost,
    /// `>`.
    Above,
    /// `>=`.
    AtLeast,
}

impl Comparison {
    /// Whether two numbers compare so.
    pub fn holds(self, left: u32, right: u32) -> bool
        ensures { result ≡ compares self left right }
    {
        match self {
            Comparison::Equal => left == right,
            Comparison::NotEqual => left != right,
            Comparison::Below => left < right,
            Comparison::AtMost => left <= right,
            Comparison::Above => right < left,
            Comparison::AtLeast => right <= left,
        }
    }
}
