//! A page that is to be written: a [`Job`] holds all that its parts are made of, borrowed.
//!
//! It is put together when the run was surveyed and its window tested, by `command` or `picks`, and handed whole to
//! `output`. The machine is no part of it: each pass over the run makes its own.

use crate::notes::Note;
use elide_program::Form;
use page_program::{Loaded, Sources};
use page_run::{Stretch, Survey};

/// A program, and what is said of its page.
#[derive(Clone, Copy)]
pub struct Subject<'a> {
    /// The program.
    pub loaded: Loaded<'a>,
    /// The path of its file.
    pub path: &'a str,
    /// What stands in that.
    pub text: &'a [u8],
    /// What that is.
    pub form: Form,
    /// The sources beside it.
    pub sources: &'a Sources,
    /// The title of the page.
    pub title: &'a str,
    /// The command that makes it.
    pub command: &'a [u8],
    /// `--show`.
    pub sums: &'a [&'a str],
    /// `--note`.
    pub notes: &'a [Note<'a>],
}

/// A page that is to be written: that of some steps of a run.
#[derive(Clone, Copy)]
pub struct Job<'a> {
    /// The program, and what is said of the page.
    pub subject: Subject<'a>,
    /// The steps.
    pub stretch: Stretch<'a>,
    /// What is known of their run.
    pub survey: &'a Survey,
}
