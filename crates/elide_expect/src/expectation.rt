//! What is expected of a command.

/// How the outcomes that are written stand to those that are found.
#[derive(Clone, Copy, PartialEq, Eq, Debug)]
pub enum Rule {
    /// They are all, and each is found.
    Exactly,
    /// Each is found.
    AtLeast,
    /// None is found.
    Never,
}

/// What is expected of what a command came to.
#[derive(Drop)]
pub enum Expectation<'a> {
    /// This exit status.
    Status(u8),
    /// A line of standard output, behind those that are expected before: these pieces, with any characters between.
    Line(Vec<&'a [u8]>),
    /// That `hunt` finds no failure.
    NoFailure,
    /// Outcomes of `outcomes`, each as the front of its line: its values in eight hex digits, each with a space behind.
    Outcomes(Rule, Vec<Vec<u8>>),
}

/// An expectation, and where it stands.
#[derive(Drop)]
pub struct Expected<'a> {
    /// The line, from 1.
    pub line: usize,
    /// What stands behind `expect:`, without blanks round it.
    pub text: &'a [u8],
    /// What it says.
    pub expectation: Expectation<'a>,
}
