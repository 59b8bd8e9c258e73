//! A search as an object: what is borrowed for it. `object` fills it in, once the exit status is known, and sends it.

use elide_args::OutcomesOptions;
use tm_outcomes::Search;

/// A search, with the options that it was asked by, the items of `--show` as they were given, and its exit status.
#[derive(Clone, Copy)]
pub struct SearchObject<'a, 's> {
    /// The options.
    pub options: &'a OutcomesOptions<'s>,
    /// The words of `--show`.
    pub show: &'a [&'s str],
    /// The exit status.
    pub status: u64,
    /// Whether stores may be pending.
    pub has_stores: bool,
    /// The search.
    pub search: &'a Search,
}
