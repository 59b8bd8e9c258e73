//! The steps of a run as they are written to a page, one by one as they are made.
//!
//! [`write_steps`] makes the run once more, and writes the machine before the first step that stands in the page and
//! the line of each step, which says by `page_steps` what the step changed (`tm_page`). No memory grows with the run.
//! Promised: each step up to the last of the page is told by its own delta, and the lines of those that stand there are
//! written one behind the other, none left out (`specs/Told.antt`). Stands on `page_run`, `page_steps`, `tm_page` and
//! `tm_why`.
#![tactic(auto)]

mod kept;
mod opening;
mod telling;

pub use telling::write_steps;
