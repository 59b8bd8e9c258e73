//! Which commands a test may have, and which expectations go with a command and with one another.

ghost use Rattle.std.specs.Prelude.{◌≡◌, not, nat_eq, codes};
ghost use Rattle.std.specs.Cmp.Lexicographic.{pointwise};
ghost use Rattle.std.specs.List.{list_all, list_any};
ghost use Rattle.elide_expect.specs.Expectations.{clashes, differ, is_called, is_status, needed_status, prints_lines};
ghost use Rattle.elide_expect.specs.Expectations.{suits, wanted};
ghost use Rattle.elide_expect.specs.Tests.{is_left_out, may_be_tested, writes};
ghost use Rattle.elide_expect.specs.Words.{texts};

use crate::expectation::{Expectation, Rule};

// A word by which a command writes a file.
fn writes(word: &[u8]) -> bool
    ensures { result ≡ writes word.now }
{
    word == b"--record".as_slice()
        || word == b"--output".as_slice()
        || word == b"--page".as_slice()
        || word.starts_with(b"--record=")
        || word.starts_with(b"--output=")
        || word.starts_with(b"--page=")
}

// A subcommand that reads standard input, or makes tests itself.
fn is_left_out(word: &[u8]) -> bool
    ensures { result ≡ is_left_out word.now }
{
    word == b"debug".as_slice() || word == b"gdb".as_slice() || word == b"test".as_slice()
}

fn write_none(words: &[Vec<u8>]) -> bool
    ensures { result ≡ list_all (λ word. not (writes word)) (texts words.now) }
{
    for word in words {
        if writes(word) {
            return false;
        }
    }
    true
}

/// Whether these may be the words of a test: 1 to 64, and none by which it would write a file or read standard input.
pub fn may_be_tested(words: &[Vec<u8>]) -> bool
    ensures { result ≡ may_be_tested (texts words.now) }
{
    let Some((word, others)) = words.split_first() else {
        return false;
    };
    others.len() < 64 && !is_left_out(word) && write_none(others)
}

fn is_called(name: &[u8], words: &[Vec<u8>]) -> bool
    ensures { result ≡ is_called name.now (texts words.now) }
{
    match words.first() {
        Some(word) => word.as_slice() == name,
        None => false,
    }
}

fn ask_for_json(words: &[Vec<u8>]) -> bool
    ensures { result ≡ list_any (λ word. pointwise nat_eq word.items (codes "--json")) words.now }
{
    words
        .iter()
        .any(|word| word.as_slice() == b"--json".as_slice())
}

// Whether a command prints lines, and no JSON.
fn prints_lines(words: &[Vec<u8>]) -> bool
    ensures { result ≡ prints_lines (texts words.now) }
{
    !ask_for_json(words)
}

/// Whether a command with these words prints what is expected.
pub fn suits(words: &[Vec<u8>], expectation: &Expectation<'_>) -> bool
    ensures { result ≡ suits (texts words.now) (wanted expectation.now) }
{
    match expectation {
        Expectation::NoFailure => is_called(b"hunt", words) && prints_lines(words),
        Expectation::Outcomes(_rule, _fronts) => {
            is_called(b"outcomes", words) && prints_lines(words)
        }
        Expectation::Status(_status) => true,
        Expectation::Line(_pieces) => true,
    }
}

// The status without which an expectation is not met.
fn needed_status(expectation: &Expectation<'_>) -> Option<u8>
    ensures { result ≡ needed_status (wanted expectation.now) }
{
    match expectation {
        Expectation::Status(status) => Some(*status),
        Expectation::Line(_pieces) => None,
        Expectation::NoFailure => Some(0),
        Expectation::Outcomes(rule, _fronts) => match rule {
            Rule::AtLeast => None,
            Rule::Exactly => Some(0),
            Rule::Never => Some(0),
        },
    }
}

fn is_status(expectation: &Expectation<'_>) -> bool
    ensures { result ≡ is_status (wanted expectation.now) }
{
    match expectation {
        Expectation::Status(_status) => true,
        Expectation::Line(_pieces) => false,
        Expectation::NoFailure => false,
        Expectation::Outcomes(_rule, _fronts) => false,
    }
}

fn differ(a: Option<u8>, b: Option<u8>) -> bool
    ensures { result ≡ differ a b }
{
    match (a, b) {
        (Some(a), Some(b)) => a != b,
        _ => false,
    }
}

/// Whether these are two statuses, or two expectations of which never both are met.
pub fn clashes(a: &Expectation<'_>, b: &Expectation<'_>) -> bool
    ensures { result ≡ clashes (wanted a.now) (wanted b.now) }
{
    (is_status(a) && is_status(b)) || differ(needed_status(a), needed_status(b))
}
