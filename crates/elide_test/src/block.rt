//! What stands below a test that failed: a block of YAML, which says what was expected where, and what came.
//!
//! [`tell_difference`] writes nothing of a test that passed. Texts are quoted where `#` or a colon would end them, and
//! escaped in both forms. The line above it is `tap`'s.

ghost use Rattle.std.specs.Prelude.{◌≡◌, ◌++◌, OnOk, codes, option_map, string_bytes};
ghost use Rattle.std.specs.List.{list_any};
ghost use Rattle.text_out.specs.TextLine.{line_end};
ghost use Rattle.text_out.specs.Writing.{Wrote};
ghost use Rattle.elide_shell.specs.Controls.{escaped};
ghost use Rattle.elide_shell.specs.declared.escapes.Mark.TheVariants.{DoubledQuote};
ghost use Rattle.elide_test.specs.Tap.{block_text, difference_text, is_special, refusal_text, scalar};

use crate::report::{Difference, TestReport};
use crate::tap::{tell_number, tell_text};
use elide_shell::{Mark, put_escaped};
use text_out::{Out, WriteFault};

/// Prints what differed of a test, if it failed.
pub fn tell_difference<O: Out>(report: &TestReport, out: &mut O) -> Result<(), WriteFault>
    ensures { OnOk result (Wrote (O.device out.old) (O.device out.new)
        (difference_text report.now.status (option_map string_bytes report.now.refusal) report.now.difference)) }
{
    match &report.difference {
        None => Ok(()),
        Some(difference) => tell_block(difference, report.status, &report.refusal, out),
    }
}

fn tell_block<O: Out>(
    difference: &Difference,
    status: u8,
    refusal: &Option<String>,
    out: &mut O,
) -> Result<(), WriteFault>
    ensures { OnOk result (Wrote (O.device out.old) (O.device out.new)
        (block_text difference.now.line (string_bytes difference.now.expected) status
        (option_map string_bytes refusal.now))) }
{
    out.put(b"  ---\n  line: ")?;
    tell_number(difference.line, out)?;
    out.put(b"\n  expected: ")?;
    tell_scalar(difference.expected.as_str(), out)?;
    out.put(b"\n  came: status ")?;
    tell_number(status as usize, out)?;
    out.put(b"\n")?;
    tell_refusal(refusal, out)?;
    out.put(b"  ...\n")?;
    Ok(())
}

// Prints the line by which a command was refused, if it was.
fn tell_refusal<O: Out>(refusal: &Option<String>, out: &mut O) -> Result<(), WriteFault>
    ensures { OnOk result
        (Wrote (O.device out.old) (O.device out.new) (refusal_text (option_map string_bytes refusal.now))) }
{
    match refusal {
        None => Ok(()),
        Some(line) => tell_stderr(line.as_str(), out),
    }
}

fn tell_stderr<O: Out>(line: &str, out: &mut O) -> Result<(), WriteFault>
    ensures { OnOk result
        (Wrote (O.device out.old) (O.device out.new) (codes "  stderr: " ++ (scalar line.now ++ line_end))) }
{
    out.put(b"  stderr: ")?;
    tell_scalar(line, out)?;
    out.put(b"\n")?;
    Ok(())
}

// Prints a text as a scalar of YAML.
#[tactic(auto, unfolding(crate::specs::Tap::scalar))]
fn tell_scalar<O: Out>(text: &str, out: &mut O) -> Result<(), WriteFault>
    ensures { OnOk result (Wrote (O.device out.old) (O.device out.new) (scalar text.now)) }
{
    if is_special(text.as_bytes()) {
        tell_quoted(text, out)
    } else {
        tell_text(text, out)
    }
}

fn is_special(text: &[u8]) -> bool
    ensures { result ≡ list_any is_special text.now }
{
    text.iter().any(|byte| *byte == b'#' || *byte == b':')
}

fn tell_quoted<O: Out>(text: &str, out: &mut O) -> Result<(), WriteFault>
    ensures { OnOk result (Wrote (O.device out.old) (O.device out.new)
        (codes "'" ++ (escaped DoubledQuote text.now ++ codes "'"))) }
{
    out.put(b"'")?;
    put_escaped(text, Mark::DoubledQuote, out)?;
    out.put(b"'")?;
    Ok(())
}
