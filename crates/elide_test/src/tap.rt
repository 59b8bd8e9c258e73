//! Results as text: the Test Anything Protocol, version 14 (docs/FORMATS.md, "Tests").
//!
//! [`tell_files`] writes the version, then each test by its number among those of all files, and last the plan, which
//! counts them. [`tell_until`] leaves the plan away, as `Bail out!` follows. What differed stands below its test, by
//! `block`.

ghost use Rattle.std.specs.Prelude.{◌≡◌, ◌+◌, ◌^◌, ◌<◌, ◌++◌, IfOk, IfSome, OnOk, OnSome, codes, length};
ghost use Rattle.std.specs.Fmt.{decimal};
ghost use Rattle.text_out.specs.Writing.{Wrote};
ghost use Rattle.elide_shell.specs.Controls.{escaped};
ghost use Rattle.elide_shell.specs.declared.escapes.Mark.TheVariants.{Backslash, Hash};
ghost use Rattle.elide_test.specs.Tap.{count_of, file_text, files_text, line_text, named_text, none_text, tap_text};
ghost use Rattle.elide_test.specs.Tap.{test_text, tests_text, verdict_text};

use crate::block::tell_difference;
use crate::report::{Difference, FileReport, TestReport};
use elide_shell::{Mark, put_escaped};
use itoa::Buffer;
use text_out::{Out, WriteFault};

/// Prints the tests of files, and below how many there are.
pub fn tell_files<O: Out>(files: &[FileReport], out: &mut O) -> Result<(), WriteFault>
    ensures { OnOk result (Wrote (O.device out.old) (O.device out.new) (tap_text files.now)) }
{
    out.put(b"TAP version 14\n")?;
    let count = tell_each(files, out)?;
    out.put(b"1..")?;
    tell_number(count, out)?;
    out.put(b"\n")?;
    Ok(())
}

/// Prints the tests of files, behind which nothing is tried.
pub fn tell_until<O: Out>(files: &[FileReport], out: &mut O) -> Result<(), WriteFault>
    ensures { OnOk result (Wrote (O.device out.old) (O.device out.new)
        (codes "TAP version 14\n" ++ files_text 0 files.now)) }
{
    out.put(b"TAP version 14\n")?;
    tell_each(files, out)?;
    Ok(())
}

// Prints the tests of each file, and answers how many there are.
fn tell_each<O: Out>(files: &[FileReport], out: &mut O) -> Result<usize, WriteFault>
    ensures told { OnOk result (Wrote (O.device out.old) (O.device out.new) (files_text 0 files.now)) }
    ensures count { IfOk result (λ count. count ≡ count_of files.now) }
{
    let mut before: usize = 0;
    for file in files {
        let Some(count) = with_tests_of(before, file) else {
            // Memory holds fewer.
            return Err(WriteFault::Write);
        };
        tell_file(before, file, out)?;
        before = count;
    }
    Ok(before)
}

// How many tests there are with those of a file.
fn with_tests_of(before: usize, file: &FileReport) -> Option<usize>
    ensures fits { OnSome result (before + length file.now.tests.items < 2 ^ 64) }
    ensures count { IfSome result (λ count. count ≡ before + length file.now.tests.items) }
{
    before.checked_add(file.tests.as_slice().len())
}

// Prints the tests of a file, behind so many others.
#[tactic(auto, unfolding(crate::specs::Tap::file_text))]
fn tell_file<O: Out>(before: usize, file: &FileReport, out: &mut O) -> Result<(), WriteFault>
    requires { before + length file.now.tests.items < 2 ^ 64 }
    ensures { OnOk result (Wrote (O.device out.old) (O.device out.new) (file_text before file.now)) }
{
    tell_named(before, file.name.as_str(), file.tests.as_slice(), out)
}

fn tell_named<O: Out>(
    before: usize,
    name: &str,
    reports: &[TestReport],
    out: &mut O,
) -> Result<(), WriteFault>
    requires { before + length reports.now < 2 ^ 64 }
    ensures { OnOk result (Wrote (O.device out.old) (O.device out.new) (named_text before name.now reports.now)) }
{
    match reports {
        [] => tell_none(name, out),
        some => tell_tests(before, name, some, out),
    }
}

// Says that a file has no tests.
fn tell_none<O: Out>(name: &str, out: &mut O) -> Result<(), WriteFault>
    ensures { OnOk result (Wrote (O.device out.old) (O.device out.new) (none_text name.now)) }
{
    out.put(b"# no tests in ")?;
    tell_text(name, out)?;
    out.put(b"\n")?;
    Ok(())
}

fn tell_tests<O: Out>(
    before: usize,
    name: &str,
    reports: &[TestReport],
    out: &mut O,
) -> Result<(), WriteFault>
    requires { before + length reports.now < 2 ^ 64 }
    ensures { OnOk result (Wrote (O.device out.old) (O.device out.new) (tests_text name.now before reports.now)) }
{
    let mut number = before;
    for report in reports {
        number += 1;
        tell_test(name, number, report, out)?;
    }
    Ok(())
}

// Prints a test, and what differed.
fn tell_test<O: Out>(
    name: &str,
    number: usize,
    report: &TestReport,
    out: &mut O,
) -> Result<(), WriteFault>
    ensures { OnOk result (Wrote (O.device out.old) (O.device out.new) (test_text name.now number report.now)) }
{
    tell_line(&report.difference, number, name, report.word.as_str(), out)?;
    tell_difference(report, out)?;
    Ok(())
}

fn tell_line<O: Out>(
    difference: &Option<Difference>,
    number: usize,
    name: &str,
    word: &str,
    out: &mut O,
) -> Result<(), WriteFault>
    ensures { OnOk result (Wrote (O.device out.old) (O.device out.new)
        (line_text difference.now number name.now word.now)) }
{
    tell_verdict(difference, out)?;
    tell_number(number, out)?;
    out.put(b" ")?;
    tell_name(name, out)?;
    out.put(b" ")?;
    tell_name(word, out)?;
    out.put(b"\n")?;
    Ok(())
}

fn tell_verdict<O: Out>(difference: &Option<Difference>, out: &mut O) -> Result<(), WriteFault>
    ensures { OnOk result (Wrote (O.device out.old) (O.device out.new) (verdict_text difference.now)) }
{
    match difference {
        None => out.put(b"ok ")?,
        Some(_) => out.put(b"not ok ")?,
    }
    Ok(())
}

/// Prints a number.
pub fn tell_number<O: Out>(number: usize, out: &mut O) -> Result<(), WriteFault>
    ensures { OnOk result (Wrote (O.device out.old) (O.device out.new) (decimal number)) }
{
    let mut digits = Buffer::new();
    out.put(digits.format(number).as_bytes())?;
    Ok(())
}

/// Prints a name, or a text.
pub fn tell_text<O: Out>(text: &str, out: &mut O) -> Result<(), WriteFault>
    ensures { OnOk result (Wrote (O.device out.old) (O.device out.new) (escaped Backslash text.now)) }
{
    put_escaped(text, Mark::Backslash, out)?;
    Ok(())
}

// Prints a name in the line of a test.
fn tell_name<O: Out>(name: &str, out: &mut O) -> Result<(), WriteFault>
    ensures { OnOk result (Wrote (O.device out.old) (O.device out.new) (escaped Hash name.now)) }
{
    put_escaped(name, Mark::Hash, out)?;
    Ok(())
}
