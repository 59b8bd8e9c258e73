//! `--why`: the lines of a run's aborts go on with the reason of each.
//!
//! Promised: the line of an abort is the text of `specs/Lines.antt` for its reason, that of an abort from outside of
//! the program the one of `specs/Interference.antt`, that of a stop where the subset ends the one of
//! `specs/Subset.antt`, and the code that is told is the program's; the symbols that are told are printable ASCII; a
//! step that is told is one of the machine's, and is refused where the machine has no such core, or its line is not
//! written, alone; the steps of a board, where no machine is made or a line is not written (`specs/Refused.antt`).
//! Which steps are told of, and what the places of the source say, is compared by `doc_tests`. Stands on `tm_why` for
//! the reasons and on `elide_places` for the symbols and lines of a source.
#![tactic(auto)]

mod history;
mod interference;
mod lines;
mod outside;
mod parts;
mod placed;
mod subset;
mod teller;
mod telling;
mod words;

pub use history::tell_history;
pub use interference::write_interference;
pub use lines::write_abort;
pub use outside::Outside;
pub use parts::write_parts;
pub use placed::NamedPlaces;
pub use subset::write_stop;
pub use teller::Teller;
pub use telling::{StepTeller, Telling};
pub use words::{PlaceText, Words};
