//! `elide page`: a recorded run as one HTML page, to be stepped through in a browser.
//!
//! [`page`] is the command, and [`PageFiles`] writes the page of a schedule that a search found. A run is made three
//! times, so that what the page is made with does not grow with the run: to learn how long it is, which lines of
//! memory it touches and which code it runs (`page_run`); to write its steps as they come, each as the delta of
//! `tm_page` in the words of `page_steps` (`page_telling`); and to write the reasons of its aborts and stops. The
//! program is shown by `page_program`. A page goes to the device as it is made, and to a file, too: to one beside it,
//! which takes its name once it is whole. The data has the form of page/README.md.
//!
//! Promised: what a page has from its first byte to its last, whether the device or a file takes it
//! (`specs/Pages.antt`): the title, what comes before the steps but for the program's own lines and labels
//! (`specs/Fronts.antt`), each step of the window by its delta, and a reason for each of them that aborted or stopped
//! and for no other (`specs/Reasons.antt`). Which words a reason has, and which variables are shown where none are
//! asked for, is compared by `doc_tests`.
#![tactic(auto)]

mod asked;
mod command;
mod commanded;
mod front;
mod job;
mod notes;
mod output;
mod picks;
mod reasons;
mod shows;

pub use command::page;
pub use picks::PageFiles;
