//! Whether what a command came to meets what is expected.

ghost use Rattle.std.specs.Prelude.{◌≡◌, ◌≤◌, ◌∷◌, ℕ, List, true, false, codes, filter_map, IfOk, IfSome, IfNone};
ghost use Rattle.std.specs.Prelude.{length, map, drop, position};
ghost use Rattle.std.specs.List.{cons_option, list_all, list_any};
ghost use Rattle.ia_lex.specs.Lines.{lines_of};
ghost use Rattle.elide_expect.specs.Expectations.{wanted};
ghost use Rattle.elide_expect.specs.Judged.{IsVerdict, are_as_long, are_met, ends_front, finds_none, is_found};
ghost use Rattle.elide_expect.specs.Judged.{is_listed, is_met, is_outcome};
ghost use Rattle.elide_expect.specs.Judged.{IsFirst, are_each_met, have_lines, in_order, pattern_of, shows};
ghost use Rattle.elide_expect.specs.Judged.{wanted_status};
ghost use Rattle.elide_expect.specs.Patterns.{meets, place_of};
ghost use Rattle.elide_expect.specs.Tests.{test_content, the_line, the_wanted};
ghost use Rattle.elide_expect.specs.Words.{texts};

use crate::expectation::{Expectation, Expected, Rule};
use crate::file::Test;
use crate::pieces::meets;
use crate::text::{lines_of, place_of};
use std::alloc::{AllocError, Global};

/// What a command came to.
#[derive(Drop)]
pub struct CameTo<'a> {
    /// Its exit status.
    pub status: u8,
    /// The lines of its standard output.
    pub lines: Vec<&'a [u8]>,
}

impl<'a> CameTo<'a> {
    /// What a command came to that ended with this status and wrote this to standard output.
    pub fn new(alloc: Global, status: u8, output: &'a [u8]) -> Result<CameTo<'a>, AllocError>
        ensures status { IfOk result (λ came. came.status ≡ status) }
        ensures lines { IfOk result (λ came. map (λ line. line.now) came.lines.items ≡ lines_of output.now) }
    {
        Ok(CameTo {
            status,
            lines: lines_of(alloc, output)?,
        })
    }
}

/// Why a test does not pass.
#[derive(Clone, Copy, PartialEq, Eq, Debug)]
pub enum Difference {
    /// This status is wanted, and the command ended with another.
    Status(u8),
    /// The expectation on this line is not met.
    Unmet(usize),
}

/// Whether a test passes.
#[derive(Clone, Copy, PartialEq, Eq, Debug)]
pub enum Verdict {
    Passes,
    Differs(Difference),
}

// Whether a line is of the outcome with this front.
fn shows(front: &[u8], line: &[u8]) -> bool
    ensures { result ≡ shows front.now line.now }
{
    line.starts_with(front) && line[front.len()..].starts_with(b" ")
}

fn is_outcome(line: &[u8]) -> bool
    ensures { result ≡ is_outcome line.now }
{
    place_of(b"  ", line).is_some()
}

fn is_found(lines: &[&[u8]], front: &[u8]) -> bool
    ensures { result ≡ is_found lines.now front.now }
{
    lines.iter().any(|line| shows(front, line))
}

fn shows_one(fronts: &[Vec<u8>], line: &[u8]) -> bool
    ensures { result ≡ list_any (λ front. shows front line.now) (texts fronts.now) }
{
    for front in fronts {
        if shows(front, line) {
            return true;
        }
    }
    false
}

fn is_listed(fronts: &[Vec<u8>], line: &[u8]) -> bool
    ensures { result ≡ is_listed (texts fronts.now) line.now }
{
    !is_outcome(line) || shows_one(fronts, line)
}

fn all_listed(fronts: &[Vec<u8>], lines: &[&[u8]]) -> bool
    ensures { result ≡ list_all (λ line. is_listed (texts fronts.now) line.now) lines.now }
{
    lines.iter().all(|line| is_listed(fronts, line))
}

fn all_found(fronts: &[Vec<u8>], lines: &[&[u8]]) -> bool
    ensures { result ≡ list_all (is_found lines.now) (texts fronts.now) }
{
    for front in fronts {
        if !is_found(lines, front) {
            return false;
        }
    }
    true
}

fn one_found(fronts: &[Vec<u8>], lines: &[&[u8]]) -> bool
    ensures { result ≡ list_any (is_found lines.now) (texts fronts.now) }
{
    for front in fronts {
        if is_found(lines, front) {
            return true;
        }
    }
    false
}

// Whether a line is of no outcome, or of one with as many values as a front.
fn is_as_long(front: &[u8], line: &[u8]) -> bool
    ensures { result ≡ ends_front (place_of (codes "  ") line.now) (length front.now) }
{
    match place_of(b"  ", line) {
        Some(place) => place + 1 == front.len(),
        None => true,
    }
}

fn are_as_long(lines: &[&[u8]], front: &[u8]) -> bool
    ensures { result ≡ are_as_long lines.now front.now }
{
    lines.iter().all(|line| is_as_long(front, line))
}

fn all_as_long(fronts: &[Vec<u8>], lines: &[&[u8]]) -> bool
    ensures { result ≡ list_all (are_as_long lines.now) (texts fronts.now) }
{
    for front in fronts {
        if !are_as_long(lines, front) {
            return false;
        }
    }
    true
}

fn are_met(rule: Rule, fronts: &[Vec<u8>], lines: &[&[u8]]) -> bool
    ensures { result ≡ are_met rule (texts fronts.now) lines.now }
{
    match rule {
        Rule::Exactly => all_found(fronts, lines) && all_listed(fronts, lines),
        Rule::AtLeast => all_found(fronts, lines),
        Rule::Never => !one_found(fronts, lines) && all_as_long(fronts, lines),
    }
}

fn finds_none(lines: &[&[u8]]) -> bool
    ensures { result ≡ finds_none lines.now }
{
    match lines.first() {
        Some(line) => line.starts_with(b"no failure in "),
        None => false,
    }
}

// Whether an expectation is met, where it is no line.
fn is_met(status: u8, lines: &[&[u8]], expectation: &Expectation<'_>) -> bool
    ensures { result ≡ is_met status lines.now (wanted expectation.now) }
{
    match expectation {
        Expectation::Status(wanted) => status == *wanted,
        Expectation::Line(_pieces) => true,
        Expectation::NoFailure => status == 0 && finds_none(lines),
        Expectation::Outcomes(rule, fronts) => match rule {
            Rule::AtLeast => are_met(Rule::AtLeast, fronts, lines),
            Rule::Exactly => status == 0 && are_met(Rule::Exactly, fronts, lines),
            Rule::Never => status == 0 && are_met(Rule::Never, fronts, lines),
        },
    }
}

// The status that is wanted.
fn wanted_status(expectations: &[Expected<'_>]) -> u8
    ensures { result ≡ wanted_status (map the_wanted expectations.now) }
{
    for expected in expectations {
        if let Expectation::Status(status) = &expected.expectation {
            return *status;
        }
    }
    0
}

// The line of the first expectation that is not met, where it is no line.
fn unmet(status: u8, lines: &[&[u8]], expectations: &[Expected<'_>]) -> Option<usize>
    ensures none { IfNone result (list_all (is_met status lines.now) (map the_wanted expectations.now) ≡ true) }
    ensures some { IfSome result (λ n. list_all (is_met status lines.now) (map the_wanted expectations.now) ≡ false) }
    ensures first { IfSome result (λ n. IsFirst (map the_line expectations.now) (map the_wanted expectations.now)
        (are_each_met status lines.now) n) }
{
    for expected in expectations {
        if !is_met(status, lines, &expected.expectation) {
            return Some(expected.line);
        }
    }
    None
}

// The place of the first line that meets these pieces.
fn place_met(pieces: &[&[u8]], lines: &[&[u8]]) -> Option<usize>
    ensures { result ≡ position (λ line. meets (map (λ piece. piece.now) pieces.now) line.now) lines.now }
{
    lines.iter().position(|line| meets(pieces, line))
}

// Where the lines begin that stand behind the first that meets these pieces. The first is the best, since it leaves the
// most behind it.
fn line_behind(pieces: &[&[u8]], lines: &[&[u8]], from: usize) -> Option<usize>
    requires { from ≤ length lines.now }
    ensures within { IfSome result (λ next. next ≤ length lines.now) }
    ensures some { IfSome result (λ next. (patterns : List (List (List ℕ)))
        → in_order (map (λ piece. piece.now) pieces.now ∷ patterns) (drop from lines.now)
        ≡ in_order patterns (drop next lines.now)) }
    ensures none { IfNone result ((patterns : List (List (List ℕ)))
        → in_order (map (λ piece. piece.now) pieces.now ∷ patterns) (drop from lines.now) ≡ false) }
{
    match place_met(pieces, &lines[from..]) {
        Some(at) => Some(from + at + 1),
        None => None,
    }
}

// Where the lines begin that stand behind one that is expected.
fn behind(expectation: &Expectation<'_>, lines: &[&[u8]], from: usize) -> Option<usize>
    requires { from ≤ length lines.now }
    ensures within { IfSome result (λ next. next ≤ length lines.now) }
    ensures some { IfSome result (λ next. (patterns : List (List (List ℕ)))
        → in_order (cons_option (pattern_of (wanted expectation.now)) patterns) (drop from lines.now)
        ≡ in_order patterns (drop next lines.now)) }
    ensures none { IfNone result ((patterns : List (List (List ℕ)))
        → in_order (cons_option (pattern_of (wanted expectation.now)) patterns) (drop from lines.now) ≡ false) }
{
    match expectation {
        Expectation::Line(pieces) => line_behind(pieces, lines, from),
        Expectation::Status(_status) => Some(from),
        Expectation::NoFailure => Some(from),
        Expectation::Outcomes(_rule, _fronts) => Some(from),
    }
}

// The line of the first expectation of a line that stands in no line behind those before.
fn missing(lines: &[&[u8]], expectations: &[Expected<'_>]) -> Option<usize>
    ensures none { IfNone result
        (in_order (filter_map pattern_of (map the_wanted expectations.now)) lines.now ≡ true) }
    ensures some { IfSome result (λ n.
        in_order (filter_map pattern_of (map the_wanted expectations.now)) lines.now ≡ false) }
    ensures first { IfSome result (λ n. IsFirst (map the_line expectations.now) (map the_wanted expectations.now)
        (have_lines lines.now) n) }
{
    let mut from = 0;
    for expected in expectations {
        match behind(&expected.expectation, lines, from) {
            Some(next) => from = next,
            None => return Some(expected.line),
        }
    }
    None
}

impl Test<'_> {
    /// Whether what the command came to is what the test expects.
    pub fn judge(&self, came: &CameTo<'_>) -> Verdict
        ensures { IsVerdict (test_content self.now) came.now.status came.now.lines.items result }
    {
        let expectations = self.expectations.as_slice();
        let lines = came.lines.as_slice();
        let wanted = wanted_status(expectations);
        if came.status != wanted {
            return Verdict::Differs(Difference::Status(wanted));
        }
        if let Some(line) = unmet(came.status, lines, expectations) {
            return Verdict::Differs(Difference::Unmet(line));
        }
        if let Some(line) = missing(lines, expectations) {
            return Verdict::Differs(Difference::Unmet(line));
        }
        Verdict::Passes
    }
}
