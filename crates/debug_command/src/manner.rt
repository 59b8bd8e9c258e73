//! How a session speaks: to a person at a terminal, or to a program that sends commands.

/// How a session speaks.
#[derive(Clone, Copy, PartialEq, Eq)]
pub enum Manner {
    /// Answers alone, as a program reads them.
    Plain,
    /// As a person reads it: the prompt `elide> ` before each line is read, and words behind the number of a refusal.
    Spoken,
}
