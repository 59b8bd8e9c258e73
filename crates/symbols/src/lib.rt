//! Symbols of a program: names with what they stand for, what is found among them, and how names are shown.
//!
//! Promised: a name stands for the value of the first symbol of it; which symbols stand at an address and which is the
//! nearest below one, the first or the last of those at one address, as the caller says (`specs/Symbols.antt`,
//! `specs/Marks.antt`); a name is shown by bytes of `!` to `~` alone, and one that has no other bytes and no backslash
//! as it is (`specs/Shown.antt`). Stands on no crate; memory is taken for names, and for an order of all symbols.
#![tactic(auto)]

mod marks;
mod search;
mod shown;
mod symbol;

pub use marks::{Mark, marks_of, standing_at};
pub use search::{first_at, first_nearest, last_nearest, value_of};
pub use shown::{is_plain, shown_name};
pub use symbol::Symbol;
