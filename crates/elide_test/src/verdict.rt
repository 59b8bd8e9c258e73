//! Whether a test passed, and what differed.
//!
//! [`report_of`] has the verdict of `elide_expect`, on the status and the output alone, and copies what is told of it,
//! since the file's text is dropped before. The first expectation that is not met is the one that is told. Nothing is
//! carried out here.

ghost use Rattle.std.specs.Prelude.{◌≡◌, ◌++◌, IfOk, codes, string_bytes};
ghost use Rattle.std.specs.Fmt.{decimal};
ghost use Rattle.elide_expect.specs.Tests.{test_content};
ghost use Rattle.elide_test.specs.Tried.{IsJudged, IsToldOf, TellsVerdict};

use crate::ended::Ended;
use crate::refusal::refusal_in;
use crate::report::{Difference, TestReport};
use crate::stop::Stop;
use crate::words::first_word;
use elide_expect::{CameTo, Difference as Found, Expected, Test, Verdict};
use std::alloc::{AllocError, Global};

/// What a test came to, whose command came to this.
pub fn report_of(alloc: Global, test: &Test<'_>, ended: &Ended) -> Result<TestReport, Stop>
    ensures { IfOk result (IsJudged (test_content test.now) ended.now) }
{
    let came = CameTo::new(alloc, ended.status, ended.output.as_slice())?;
    let verdict = test.judge(&came);
    drop(came);
    verdict_report(alloc, test, ended, verdict)
}

// The report of a verdict.
fn verdict_report(
    alloc: Global,
    test: &Test<'_>,
    ended: &Ended,
    verdict: Verdict,
) -> Result<TestReport, Stop>
    ensures { IfOk result (IsToldOf (test_content test.now) ended.now verdict) }
{
    let word = first_word(alloc, test)?;
    let refusal = refusal_in(alloc, ended.errors.as_slice())?;
    let difference = difference_of(alloc, test, verdict)?;
    Ok(TestReport {
        line: test.line,
        word,
        status: ended.status,
        refusal,
        difference,
    })
}

// What differed.
fn difference_of(
    alloc: Global,
    test: &Test<'_>,
    verdict: Verdict,
) -> Result<Option<Difference>, AllocError>
    ensures { IfOk result (TellsVerdict (test_content test.now) verdict) }
{
    match verdict {
        Verdict::Passes => Ok(None),
        Verdict::Differs(Found::Status(status)) => {
            let expected = status_text(alloc, status)?;
            Ok(Some(Difference {
                line: test.line,
                expected,
            }))
        }
        Verdict::Differs(Found::Unmet(line)) => {
            let expected = unmet_text(alloc, test.expectations.as_slice(), line)?;
            Ok(Some(Difference { line, expected }))
        }
    }
}

// The expectation of a status.
fn status_text(alloc: Global, status: u8) -> Result<String, AllocError>
    ensures { IfOk result (λ text. string_bytes text ≡ codes "status " ++ decimal status) }
{
    format!(in alloc; "status {status}")
}

// The text of the expectation on a line.
fn unmet_text(
    alloc: Global,
    expectations: &[Expected<'_>],
    line: usize,
) -> Result<String, AllocError> {
    for expected in expectations {
        if expected.line == line {
            return String::from_utf8_lossy(alloc, expected.text);
        }
    }
    Ok(String::new(alloc))
}
