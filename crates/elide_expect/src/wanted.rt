//! Expectations as they are read: a text behind `expect:` comes in, and what is expected comes out, or nothing where it
//! says none of these things.

ghost use Rattle.std.specs.Prelude.{◌≡◌, IfOk, option_map};
ghost use Rattle.std.specs.Char.{is_ascii_digit};
ghost use Rattle.std.specs.List.{list_all};
ghost use Rattle.elide_expect.specs.Expectations.{Wanted, line_of, outcomes_of, status_of, wanted, wanted_of};

use crate::expectation::{Expectation, Rule};
use crate::fronts::fronts_of;
use crate::pieces::pieces_of;
use crate::text::trimmed;
use ia_lex::word_number;
use std::alloc::{AllocError, Global};

fn are_decimal(bytes: &[u8]) -> bool
    ensures { result ≡ list_all is_ascii_digit bytes.now }
{
    bytes.iter().all(|b| b.is_ascii_digit())
}

// The exit status: decimal digits, at most 255.
#[tactic(auto, unfolding(crate::specs::Expectations::status_of))]
fn status_of(digits: &[u8]) -> Option<Expectation<'_>>
    ensures { option_map wanted result ≡ status_of digits.now }
{
    if !are_decimal(digits) {
        return None;
    }
    match word_number(digits) {
        Some(number) if number < 256 => Some(Expectation::Status(number as u8)),
        _ => None,
    }
}

fn line_of(alloc: Global, text: &[u8]) -> Result<Option<Expectation<'_>>, AllocError>
    ensures { IfOk result (λ line. option_map wanted line ≡ line_of text.now) }
{
    if text.is_empty() {
        return Ok(None);
    }
    Ok(Some(Expectation::Line(pieces_of(alloc, text)?)))
}

fn outcomes_of(
    alloc: Global,
    rule: Rule,
    text: &[u8],
) -> Result<Option<Expectation<'_>>, AllocError>
    ensures { IfOk result (λ outcomes. option_map wanted outcomes ≡ outcomes_of rule text.now) }
{
    match fronts_of(alloc, text)? {
        Some(fronts) => Ok(Some(Expectation::Outcomes(rule, fronts))),
        None => Ok(None),
    }
}

/// What a text says that is expected, without blanks round it: `status N`, `line TEXT`, `no failure`, or lists of
/// values behind `exactly`, `at least` or `never`. None where it says nothing of these.
#[tactic(auto, unfolding(crate::specs::Expectations::wanted_of))]
pub fn wanted_of(alloc: Global, text: &[u8]) -> Result<Option<Expectation<'_>>, AllocError>
    ensures { IfOk result (λ expectation. option_map wanted expectation ≡ wanted_of text.now) }
{
    if text == b"no failure".as_slice() {
        Ok(Some(Expectation::NoFailure))
    } else if text.starts_with(b"status ") {
        Ok(status_of(trimmed(&text[7..])))
    } else if text.starts_with(b"line ") {
        line_of(alloc, trimmed(&text[5..]))
    } else if text.starts_with(b"exactly ") {
        outcomes_of(alloc, Rule::Exactly, &text[8..])
    } else if text.starts_with(b"at least ") {
        outcomes_of(alloc, Rule::AtLeast, &text[9..])
    } else if text.starts_with(b"never ") {
        outcomes_of(alloc, Rule::Never, &text[6..])
    } else {
        Ok(None)
    }
}
