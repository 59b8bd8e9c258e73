//! Tests of the parts of a page by their public calls: `page_text`, `page_template`, `tm_page` and `page_steps`.
//!
//! Each public call is run once where there is memory enough, with what page/README.md says that it gives. They stand
//! here so that each crate below is proved once. Nothing is promised here.
#![tactic(auto)]

#[cfg(test)]
mod deltas;
#[cfg(test)]
mod texts;
