//! A file, whose tests are carried out one after another.
//!
//! [`try_file`] reads the whole file before the first command, so that a line that is no test is told before any is
//! carried out. FILE of the commands is the file itself, or the one that a `.elide` names on its first line. The first
//! test that cannot be carried out ends the file; one that fails does not.

ghost use Rattle.std.specs.Prelude.{◌≡◌, IfOk, map, string_bytes};
ghost use Rattle.std.specs.List.{AllZip};
ghost use Rattle.std.specs.Option.{option_copied};
ghost use Rattle.elide_expect.specs.Tests.{test_content};
ghost use Rattle.elide_trial.specs.Came.{CameTo};
ghost use Rattle.elide_test.specs.Tried.{AreTried, IsTried, WasTried, kind_of, program_or};

use crate::carrier::carried_out;
use crate::ending::CommandEnd;
use elide_expect::{Kind, Test, read_tests};
use elide_program::add;
use elide_test::{
    FileReport, FolderPaths, SharedPaths, Stop, TestReport, folder_of, read, report_of, text_of,
    words_of,
};
use std::alloc::Global;
use text_out::ToVec;

/// Carries out the tests of a file.
pub fn try_file<S: SharedPaths, C: Fn(&[&str], FolderPaths<'_, S>, ToVec) -> CommandEnd>(
    alloc: Global,
    path: &str,
    paths: &S,
    call: &C,
) -> Result<FileReport, Stop>
    requires { C.IsAlwaysCallable call.now }
    ensures name { IfOk result (λ file. string_bytes file.name ≡ path.now) }
    ensures tried { IfOk result (IsTried (S.holds paths.now) (CameTo (C.post call.now) paths.now)) }
{
    let name = String::from_str(alloc, path)?;
    let text = read(path, paths)?;
    let tests = try_text(alloc, path, text.as_slice(), paths, call)?;
    Ok(FileReport { name, tests })
}

// Carries out the tests of the text of a file.
fn try_text<S: SharedPaths, C: Fn(&[&str], FolderPaths<'_, S>, ToVec) -> CommandEnd>(
    alloc: Global,
    path: &str,
    text: &[u8],
    paths: &S,
    call: &C,
) -> Result<Vec<TestReport>, Stop>
    requires { C.IsAlwaysCallable call.now }
    ensures { IfOk result (λ reports. AreTried (CameTo (C.post call.now) paths.now) path.now text.now reports.items) }
{
    let file = read_tests(alloc, text, kind_of(path))?;
    let (folder, name) = folder_of(path);
    let program = program_or(name, file.program)?;
    try_tests(alloc, folder, program, file.tests.as_slice(), paths, call)
}

// Where tests stand in a file of this path.
fn kind_of(path: &str) -> Kind
    ensures { result ≡ kind_of path.now }
{
    if path.as_bytes().ends_with(b".elide") {
        Kind::Beside
    } else {
        Kind::Source
    }
}

// FILE of the commands. A program is named on the first line.
fn program_or<'a>(name: &'a str, program: Option<&'a [u8]>) -> Result<&'a str, Stop>
    ensures { IfOk result (λ file. file.now ≡ program_or name.now (option_copied program.entry)) }
{
    match program {
        Some(program) => text_of(program, 1),
        None => Ok(name),
    }
}

// Carries out tests one after another.
fn try_tests<S: SharedPaths, C: Fn(&[&str], FolderPaths<'_, S>, ToVec) -> CommandEnd>(
    alloc: Global,
    folder: Option<&str>,
    program: &str,
    tests: &[Test<'_>],
    paths: &S,
    call: &C,
) -> Result<Vec<TestReport>, Stop>
    requires { C.IsAlwaysCallable call.now }
    ensures { IfOk result (λ reports.
        AllZip (WasTried (CameTo (C.post call.now) paths.now) (option_copied folder.entry) program.now)
        (map test_content tests.now) reports.items) }
{
    let mut reports = Vec::new(alloc);
    for test in tests {
        let report = try_test(alloc, folder, program, test, paths, call)?;
        add(&mut reports, report)?;
    }
    Ok(reports)
}

// Carries out a test.
fn try_test<S: SharedPaths, C: Fn(&[&str], FolderPaths<'_, S>, ToVec) -> CommandEnd>(
    alloc: Global,
    folder: Option<&str>,
    program: &str,
    test: &Test<'_>,
    paths: &S,
    call: &C,
) -> Result<TestReport, Stop>
    requires { C.IsAlwaysCallable call.now }
    ensures { IfOk result (WasTried (CameTo (C.post call.now) paths.now) (option_copied folder.entry) program.now
        (test_content test.now)) }
{
    let words = words_of(alloc, program, test)?;
    let ended = carried_out(alloc, folder, words.as_slice(), paths, call)?;
    report_of(alloc, test, &ended)
}
