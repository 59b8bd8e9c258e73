//! The names of a session. What is found among symbols is `symbols`'s.

use symbols::Symbol;

/// The names that a session knows.
#[derive(Drop)]
pub struct Names {
    /// By which commands may write addresses: labels and constants.
    pub symbols: Vec<Symbol>,
    /// By which answers tell addresses: labels alone, since a constant names no place.
    pub labels: Vec<Symbol>,
}
