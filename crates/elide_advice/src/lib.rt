//! What a person at a terminal is told beside a fault: where it stands, and what is meant.
//!
//! The line of docs/FORMATS.md stands above already, so nothing is lost where no memory is left for this, where FILE is
//! read otherwise now, or where the device fails: it ends there. Promises no more than safety; the texts are compared
//! by `doc_tests`. Stands on `ia_diagnosis` for the faults of a source, on `elide_checks` for conditions, on
//! `elide_shell` for names as they are shown, on `elide_color`, and on the options and files of a command
//! (`elide_args`, `elide_program`, `elide_setup`).
#![tactic(auto)]

mod advice;
mod asked;
mod checks;
mod draws;
mod excerpt;
mod files;
mod machine;
mod misuse;
mod near;
mod page;
mod range;
mod source;
mod steps;
mod unknown;

pub use advice::advise;
