//! What was found, as it is handed from the search to what prints it: by then the program's file is dropped, and the
//! labels are copies.

use symbols::Symbol;
use tm_outcomes::Search;

/// What a search found, and the labels of its program where they are asked for.
#[derive(Drop)]
pub struct Found {
    /// The search, whose outcomes stand in the order in which they are told.
    pub search: Search,
    /// The labels.
    pub labels: Vec<Symbol>,
}
