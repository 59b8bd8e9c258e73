//! What is printed of checks that ends violate: a line each, with a schedule to such an end.
//!
//! [`tell_violations`] goes in the order of the search, and names a check by the word of its option. In an object
//! `sending` has them.

ghost use Rattle.std.specs.Prelude.{◌++◌, OnOk};
ghost use Rattle.text_out.specs.Writing.{Wrote};
ghost use Rattle.elide_outcomes.specs.Violated.{check_words, violation_line, violation_lines};

use crate::report::tell_steps;
use elide_args::OutcomesOptions;
use text_out::{Out, WriteFault};
use tm_outcomes::Violation;

/// The line of each check that an end violates.
pub fn tell_violations<O: Out>(
    options: &OutcomesOptions<'_>,
    violations: &[Violation],
    out: &mut O,
) -> Result<(), WriteFault>
    ensures { OnOk result (Wrote (O.device out.old) (O.device out.new) (violation_lines options.now violations.now)) }
{
    for told in violations {
        tell_violation(options, told, out)?;
    }
    Ok(())
}

// The check, and the steps of a schedule that leads to the end.
fn tell_violation<O: Out>(
    options: &OutcomesOptions<'_>,
    told: &Violation,
    out: &mut O,
) -> Result<(), WriteFault>
    ensures { OnOk result (Wrote (O.device out.old) (O.device out.new) (violation_line options.now told.now)) }
{
    tell_check(options, told.check, out)?;
    out.put(b" ")?;
    tell_steps(told.schedule.as_slice(), out)?;
    out.put(b"\n")?;
    Ok(())
}

// The word of the option that says the check with this index, two spaces, and its text: those of `--check` come first.
fn tell_check<O: Out>(
    options: &OutcomesOptions<'_>,
    check: usize,
    out: &mut O,
) -> Result<(), WriteFault>
    ensures { OnOk result (Wrote (O.device out.old) (O.device out.new) (check_words options.now check)) }
{
    if let Some(text) = options.checks.get(check) {
        return tell_both(b"check  ", text, out);
    }
    let behind = check.saturating_sub(options.checks.len());
    match options.forbids.get(behind) {
        Some(text) => tell_both(b"forbid  ", text, out),
        None => Ok(()),
    }
}

fn tell_both<O: Out>(name: &[u8], text: &str, out: &mut O) -> Result<(), WriteFault>
    ensures { OnOk result (Wrote (O.device out.old) (O.device out.new) (name.now ++ text.now)) }
{
    out.put(name)?;
    out.put(text.as_bytes())?;
    Ok(())
}
