//! Tests as they are read from a file's remarks: commands, and below each what is expected of it. An expectation that
//! goes with no command, or clashes with one before, is a fault; nothing is run here.

ghost use Rattle.std.specs.Prelude.{◌≡◌, ◌&&◌, [], ◌<◌, IfOk, IfSome, length, map, not, position, option_map};
ghost use Rattle.std.specs.List.{list_any, take_while};
ghost use Rattle.elide_expect.specs.Comments.{comment_content};
ghost use Rattle.elide_expect.specs.Expectations.{clashes, suits, wanted, wanted_of};
ghost use Rattle.elide_expect.specs.Tests.{Gives, command_of, expectations_from, expected_content, file_content};
ghost use Rattle.elide_expect.specs.Tests.{file_of};
ghost use Rattle.elide_expect.specs.Tests.{the_wanted, tests_of};
ghost use Rattle.elide_expect.specs.Tests.{if_suited, program_of, test_content, test_of, tests_in};
ghost use Rattle.elide_expect.specs.Words.{texts};

use crate::comment::{Comment, Kind, comments_in, path_in};
use crate::expectation::{Expectation, Expected};
use crate::fault::TestFault;
use crate::suits::{clashes, may_be_tested, suits};
use crate::text::lines_of;
use crate::wanted::wanted_of;
use crate::words::words_of;
use std::alloc::{AllocError, Global};

/// A test: a command, and what is expected of what it comes to.
#[derive(Drop)]
pub struct Test<'a> {
    /// The line of the command, from 1.
    pub line: usize,
    /// The words of the command, 1 to 64, the first of which is the subcommand. FILE is not among them.
    pub words: Vec<Vec<u8>>,
    /// What is expected, one or more.
    pub expectations: Vec<Expected<'a>>,
}

/// The tests of a file.
#[derive(Drop)]
pub struct TestFile<'a> {
    /// The path that a file beside an executable names, as seen from its own folder.
    pub program: Option<&'a [u8]>,
    /// The tests, in the order of the file.
    pub tests: Vec<Test<'a>>,
}

// The words of a command that a test may have.
fn command_of(alloc: Global, text: &[u8]) -> Result<Option<Vec<Vec<u8>>>, AllocError>
    ensures { IfOk result (λ words. option_map (λ some. texts some.items) words ≡ command_of text.now) }
{
    let Some(words) = words_of(alloc, text)? else {
        return Ok(None);
    };
    if may_be_tested(&words) {
        Ok(Some(words))
    } else {
        Ok(None)
    }
}

// Whether an expectation clashes with one of those before.
fn is_at_odds(expectation: &Expectation<'_>, before: &[Expected<'_>]) -> bool
    ensures { result ≡ list_any (λ other. clashes other (wanted expectation.now)) (map the_wanted before.now) }
{
    for other in before {
        if clashes(&other.expectation, expectation) {
            return true;
        }
    }
    false
}

// Whether an expectation goes with the command and with what is expected before.
fn is_suited(words: &[Vec<u8>], before: &[Expected<'_>], expectation: &Expectation<'_>) -> bool
    ensures { result ≡ (suits (texts words.now) (wanted expectation.now)
        && not (list_any (λ other. clashes other (wanted expectation.now)) (map the_wanted before.now))) }
{
    suits(words, expectation) && !is_at_odds(expectation, before)
}

// What a text says, where it goes with the command and with what is expected before.
fn suited<'a>(
    alloc: Global,
    words: &[Vec<u8>],
    before: &[Expected<'a>],
    text: &'a [u8],
) -> Result<Option<Expectation<'a>>, AllocError>
    ensures { IfOk result (λ expectation. option_map wanted expectation
        ≡ if_suited (texts words.now) (map the_wanted before.now) (wanted_of text.now)) }
{
    let Some(expectation) = wanted_of(alloc, text)? else {
        return Ok(None);
    };
    if is_suited(words, before, &expectation) {
        Ok(Some(expectation))
    } else {
        Ok(None)
    }
}

// The expectations of a command.
fn read_expectations<'a>(
    alloc: Global,
    words: &[Vec<u8>],
    comments: &[Comment<'a>],
) -> Result<Vec<Expected<'a>>, TestFault>
    ensures { Gives (λ all. map expected_content all.items) result
        (expectations_from (texts words.now) [] (map comment_content comments.now)) }
{
    let mut all = Vec::new(alloc);
    for comment in comments {
        let Some(expectation) = suited(alloc, words, &all, comment.text)? else {
            return Err(TestFault::BadTest(comment.line));
        };
        all.push(Expected {
            line: comment.line,
            text: comment.text,
            expectation,
        })?;
    }
    Ok(all)
}

// The test of a command and of the expectations behind it.
fn read_test<'a>(
    alloc: Global,
    command: &Comment<'a>,
    comments: &[Comment<'a>],
) -> Result<Test<'a>, TestFault>
    ensures { Gives test_content result (test_of (comment_content command.now) (map comment_content comments.now)) }
{
    let Some(words) = command_of(alloc, command.text)? else {
        return Err(TestFault::BadTest(command.line));
    };
    if comments.is_empty() {
        return Err(TestFault::BadTest(command.line));
    }
    let expectations = read_expectations(alloc, &words, comments)?;
    Ok(Test {
        line: command.line,
        words,
        expectations,
    })
}

// The place of the first command.
fn command_place(comments: &[Comment<'_>]) -> Option<usize>
    ensures place { result ≡ position (λ comment. comment.is_command) comments.now }
    ensures within { IfSome result (λ at. at < length comments.now) }
{
    comments.iter().position(|comment| comment.is_command)
}

// The expectations at the front.
fn expectations_in<'b, 'a>(comments: &'b [Comment<'a>]) -> &'b [Comment<'a>]
    ensures { map comment_content result.now
        ≡ take_while (λ other. not other.is_command) (map comment_content comments.now) }
{
    match command_place(comments) {
        Some(at) => &comments[..at],
        None => comments,
    }
}

// A test for each command.
fn read_commands<'a>(alloc: Global, comments: &[Comment<'a>]) -> Result<Vec<Test<'a>>, TestFault>
    ensures { Gives (λ tests. map test_content tests.items) result (tests_of (map comment_content comments.now)) }
{
    let mut tests = Vec::new(alloc);
    for (i, comment) in comments.iter().enumerate() {
        if comment.is_command {
            let test = read_test(alloc, comment, expectations_in(&comments[i + 1..]))?;
            tests.push(test)?;
        }
    }
    Ok(tests)
}

// The tests of comments, the first of which is a command.
fn tests_in<'a>(alloc: Global, comments: &[Comment<'a>]) -> Result<Vec<Test<'a>>, TestFault>
    ensures { Gives (λ tests. map test_content tests.items) result (tests_in (map comment_content comments.now)) }
{
    match comments.first() {
        Some(comment) if !comment.is_command => Err(TestFault::BadTest(comment.line)),
        _ => read_commands(alloc, comments),
    }
}

// The program that the first line names; none where it should name one and does not.
fn program_of<'a>(kind: Kind, lines: &[&'a [u8]]) -> Option<Option<&'a [u8]>>
    ensures { option_map (λ program. option_map (λ path. path.now) program) result
        ≡ program_of kind (map (λ line. line.now) lines.now) }
{
    match kind {
        Kind::Source => Some(None),
        Kind::Beside => Some(Some(path_in(lines.first()?)?)),
    }
}

/// The tests of a file, in the order of its lines.
///
/// Each has one expectation at least, and a command that reads no standard input and is given no path to write to by
/// `--record`, `--output` or `--page`. [`TestFault::BadTest`] names the first line that cannot be read, by which the
/// file has no tests at all; [`TestFault::NoMemory`], where the tests found no memory.
pub fn read_tests<'a>(alloc: Global, text: &'a [u8], kind: Kind) -> Result<TestFile<'a>, TestFault>
    ensures { Gives file_content result (file_of kind text.now) }
{
    let lines = lines_of(alloc, text)?;
    let Some(program) = program_of(kind, &lines) else {
        return Err(TestFault::BadTest(1));
    };
    let comments = comments_in(alloc, kind, &lines)?;
    let tests = tests_in(alloc, &comments)?;
    Ok(TestFile { program, tests })
}
