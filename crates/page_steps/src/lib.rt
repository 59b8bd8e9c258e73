//! The steps of a run as they stand in a page's data: a line of JSON for each.
//!
//! [`write_step`] writes the line of a delta (`tm_page`), the other calls what else of a machine stands in the data:
//! lists of numbers, registers, bytes that were stored, stores that are pending, and what a core does. Promised: each
//! text is that of `specs/Steps.antt`, which says it by the delta alone, and reads back: by the grammar of JSON and the
//! tables of page/README.md a reader finds in it what the delta says (`specs/Reading.antt`). Takes no memory. Stands on
//! `tm_page`, `page_text`, and on `tm_hist` for the words of states.
#![tactic(auto)]

mod members;
mod numbers;
mod registers;
mod step;
mod stored;
mod words;

pub use members::store_numbers;
pub use numbers::write_numbers;
pub use registers::{RegisterRow, register_values};
pub use step::write_step;
pub use stored::write_stored;
pub use words::{kind_letter, write_state};
