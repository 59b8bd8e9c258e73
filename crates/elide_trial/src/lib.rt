//! A whole command line, `elide test` among the commands.
//!
//! [`command`] does what words say. The tests of files are carried out here, some files side by side: each is a command
//! line of its own, by `elide_command`, whose output is kept. Every other command is handed to `elide_command`.
//!
//! Promised: the exit status is 0 to 3. Each test of a file that is told has the verdict of `elide_expect` on the
//! status and the output of its own command, and none of the file's is left out (`elide_test`, `specs/Tried.antt`,
//! `specs/Printed.antt`): a call was made with the test's words, with the files as its file's folder sees them, and
//! with an empty device, and it answered this status and left this output in the device (`specs/Came.antt`). That the
//! call is `command` of `elide_command`, without input, is compared by `doc_tests`. What a command prints is what its
//! own crate promises.
#![tactic(auto)]

mod bench;
mod carrier;
mod dispatch;
mod ending;
mod trial;

pub use dispatch::command;
