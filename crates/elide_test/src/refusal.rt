//! The line by which a command was refused, found among what it wrote on standard error.
//!
//! [`refusal_in`] takes the first that begins as a refusal does: warnings stand above it, and what is meant below. It
//! is told beside the verdict and plays no part in it.

ghost use Rattle.std.specs.Prelude.{◌≡◌, IfOk, map, option_map, string_bytes};
ghost use Rattle.std.specs.List.{find};
ghost use Rattle.std.specs.Option.{option_copied};
ghost use Rattle.elide_test.specs.Refusals.{is_refusal, refusal_of};

use elide_expect::CameTo;
use std::alloc::{AllocError, Global};

/// The first line on standard error that says why a command was refused: a fault, a misused option, or words that are
/// those of no command.
pub fn refusal_in(alloc: Global, errors: &[u8]) -> Result<Option<String>, AllocError>
    ensures { IfOk result (λ refusal. option_map string_bytes refusal ≡ refusal_of errors.now) }
{
    let came = CameTo::new(alloc, 0, errors)?;
    match refusal_among(came.lines.as_slice()) {
        Some(line) => Ok(Some(String::from_utf8_lossy(alloc, line)?)),
        None => Ok(None),
    }
}

fn refusal_among<'a>(lines: &[&'a [u8]]) -> Option<&'a [u8]>
    ensures { option_copied result ≡ find is_refusal (map (λ line. line.now) lines.now) }
{
    for line in lines {
        if is_refusal(line) {
            return Some(*line);
        }
    }
    None
}

fn is_refusal(line: &[u8]) -> bool
    ensures { result ≡ is_refusal line.now }
{
    line.starts_with(b"fault ") || line.starts_with(b"usage: ") || line.starts_with(b"error: ")
}
