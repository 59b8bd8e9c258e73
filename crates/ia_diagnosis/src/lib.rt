//! What is meant by the faults of a source, and where on their lines: for a person who reads them.
//!
//! `diagnose` tells the faults of a source, up to 20: the first is the one that `ia_asm::assemble_image` tells. For
//! each further one the line before is taken out of a copy, except for its label, and the copy is assembled again.
//! Promised: each lies within the line of the source that its fault names, and they stand in the order in which a
//! source's faults are told. What is meant by each is advice, and compared by `doc_tests`.
//!
//! Stands on `ia_asm` for the faults, on `ia_source` and `ia_lex` for lines and their words, and on `ia_item` for
//! names.
#![tactic(auto)]

mod change;
mod check;
mod diagnoses;
mod diagnosis;
mod finding;
mod line;
mod meaning;
mod near;
mod operand;
mod piece;
mod range;
mod sentence;
mod suspect;
mod symbol;
mod token;
mod word;
mod words;

pub use diagnoses::{Diagnoses, diagnose};
pub use diagnosis::Diagnosis;
pub use meaning::{Field, Meaning};
