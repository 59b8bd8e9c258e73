//! What tests came to: the shapes, from an expectation to all files, and whether all passed.
//!
//! Reports are made by `verdict`, put together by `elide_trial` and told by `telling`. A file without tests passes,
//! since none of it fails.

ghost use Rattle.std.specs.Prelude.{◌≡◌};
ghost use Rattle.std.specs.List.{list_all};
ghost use Rattle.elide_test.specs.Answers.{answer_of, is_met, passes};

use crate::stop::Stop;

/// What the tests of all files came to.
#[derive(Clone, Copy, PartialEq, Eq)]
pub enum Answer {
    /// Each of them passed.
    Passes,
    /// One or more failed.
    Fails,
}

/// An expectation that was not met.
#[derive(Drop)]
pub struct Difference {
    /// Its line in the file, from 1.
    pub line: usize,
    /// Its text.
    pub expected: String,
}

/// What a test came to.
#[derive(Drop)]
pub struct TestReport {
    /// The line of its command in the file, from 1.
    pub line: usize,
    /// The command's first word, that of a subcommand.
    pub word: String,
    /// The exit status that its command came to.
    pub status: u8,
    /// The line of standard error by which its command was refused, if it was.
    pub refusal: Option<String>,
    /// The first expectation that was not met. None of a test that passed.
    pub difference: Option<Difference>,
}

impl TestReport {
    /// Whether it passed.
    pub fn is_met(&self) -> bool
        ensures { result ≡ is_met self.now }
    {
        self.difference.is_none()
    }
}

/// What the tests of a file came to.
#[derive(Drop)]
pub struct FileReport {
    /// The file's path.
    pub name: String,
    /// Its tests, in the order of their lines.
    pub tests: Vec<TestReport>,
}

impl FileReport {
    // Whether each of its tests passed.
    #[tactic(auto, unfolding(crate::specs::Answers::passes))]
    fn passes(&self) -> bool
        ensures { result ≡ passes self.now }
    {
        self.tests.iter().all(|report| report.is_met())
    }
}

/// Whether each test of these files passed.
pub fn all_pass(files: &[FileReport]) -> bool
    ensures { result ≡ list_all passes files.now }
{
    files.iter().all(|file| file.passes())
}

impl Answer {
    /// That of these files.
    pub fn of(files: &[FileReport]) -> Answer
        ensures { result ≡ answer_of files.now }
    {
        if all_pass(files) {
            Answer::Passes
        } else {
            Answer::Fails
        }
    }
}

/// What the tests of files came to.
#[derive(Drop)]
pub struct Trials {
    /// The files that were tried, in their order.
    pub files: Vec<FileReport>,
    /// Why the file behind those was not tried, if it was not.
    pub stop: Option<Stop>,
}
