//! `elide test`: files whose tests are carried out, and what they came to.
//!
//! [`names_of`] says which files the options name ([`SharedPaths`] reads them, also those of folders and of `--list`),
//! [`words_of`] the command of a test, [`report_of`] what it came to, and [`tell`] prints what came of all, in the
//! order of the files. The files of a command are those of [`FolderPaths`], seen from the folder of the file with the
//! test. `elide_trial` carries the commands out.
//!
//! Promised: a command is the words that stand in the file, with FILE behind the first; a report is told by the verdict
//! of `elide_expect` on what the command came to, so that only a test that passes is told as one, and has the line of
//! standard error by which the command was refused; the answer is that all passed only where each did; and what is
//! printed is the text of these files by the Test Anything Protocol, or their object (`specs/Tried.antt`,
//! `specs/Refusals.antt`, `specs/Tap.antt`, `specs/Object.antt`, `specs/Printed.antt`). Where a file cannot be tried,
//! the answer is a refusal, and what is printed before is the text of the files so far, of that file and of some name
//! of its fault. Which files the options name, and which fault is told, is compared by `doc_tests`.
#![tactic(auto)]

mod bailing;
mod block;
mod ended;
mod folder;
mod names;
mod object;
mod reading;
mod refusal;
mod report;
mod shared;
mod stop;
mod system;
mod tap;
mod telling;
mod verdict;
mod words;

pub use ended::Ended;
pub use folder::{FolderPaths, folder_of};
pub use names::names_of;
pub use reading::read;
pub use report::{Answer, FileReport, TestReport, Trials};
pub use shared::SharedPaths;
pub use stop::Stop;
pub use system::SystemPaths;
pub use telling::tell;
pub use verdict::report_of;
pub use words::{text_of, words_of};
