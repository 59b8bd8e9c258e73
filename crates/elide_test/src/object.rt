//! The object that `--json` prints (docs/JSON.md, "test").
//!
//! [`tell_object`] is the one call: the files, their tests and the exit status are sent in the order in which they
//! stand.

ghost use Rattle.std.specs.Prelude.{◌≡◌, IfOk, OnOk, codes, option_map, string_bytes};
ghost use Rattle.std.specs.Io.KnownBytes.{Appends};
ghost use Rattle.elide_object.specs.Object.{SendsMember, list_value, object_text};
ghost use Rattle.serde_json.specs.Events.{SendsValue};
ghost use Rattle.elide_test.specs.Object.{difference_value, file_value, test_value, tests_status, tests_value};
ghost use Rattle.elide_test.specs.Object.{refusal_value, unmet_value};

use crate::report::{Difference, FileReport, TestReport, all_pass};
use elide_object::{object_line, send_flag, send_number, send_text};
use elide_setup::Refusal;
use serde::{Described, Serialize, Serializer};
use std::alloc::{AllocError, Global};
use text_out::Out;

/// Prints the object of what the tests of files came to, on a line of its own.
pub fn tell_object<O: Out>(alloc: Global, files: &[FileReport], out: &mut O) -> Result<(), Refusal>
    ensures { OnOk result (Appends (O.device out.old).contents (O.device out.new).contents
        (object_text (tests_value files.now))) }
{
    match line_of(alloc, files) {
        Ok(line) => {
            out.put(line.as_bytes())?;
            Ok(())
        }
        Err(refused) => Err(Refusal::from(refused)),
    }
}

fn line_of(alloc: Global, files: &[FileReport]) -> Result<String, AllocError>
    ensures { IfOk result (λ line. string_bytes line ≡ object_text (tests_value files.now)) }
{
    object_line(alloc, &TestsObject { files })
}

// What the tests of files came to.
#[derive(Clone, Copy)]
struct TestsObject<'a> {
    files: &'a [FileReport],
}

impl Described for TestsObject<'_> {
    ghost writes = { λ o. SendsValue (tests_value o.files.now) };
}

impl Serialize for TestsObject<'_> {
    fn serialize<S: Serializer>(&self, out: &mut S) -> Result<(), S::Error> {
        out.begin_map(Some(4))?;
        send_number("format", 1, out)?;
        send_text("command", "test", out)?;
        send_files(self.files, out)?;
        send_number("status", status_of(self.files), out)?;
        out.end_map()
    }
}

// The exit status.
fn status_of(files: &[FileReport]) -> u64
    ensures { result ≡ tests_status files.now }
{
    if all_pass(files) { 0 } else { 3 }
}

fn send_files<S: Serializer>(files: &[FileReport], out: &mut S) -> Result<(), S::Error>
    ensures { OnOk result (SendsMember (codes "files") (list_value file_value files.now)
        (S.written out.old) (S.written out.new)) }
{
    out.key("files")?;
    send_file_list(files, out)
}

fn send_file_list<S: Serializer>(files: &[FileReport], out: &mut S) -> Result<(), S::Error>
    ensures { OnOk result (SendsValue (list_value file_value files.now) (S.written out.old) (S.written out.new)) }
{
    out.begin_seq(Some(files.len()))?;
    for file in files {
        send_file(file, out)?;
    }
    out.end_seq()
}

fn send_file<S: Serializer>(file: &FileReport, out: &mut S) -> Result<(), S::Error>
    ensures { OnOk result (SendsValue (file_value file.now) (S.written out.old) (S.written out.new)) }
{
    out.begin_map(Some(2))?;
    send_text("file", file.name.as_str(), out)?;
    send_tests(file.tests.as_slice(), out)?;
    out.end_map()
}

fn send_tests<S: Serializer>(tests: &[TestReport], out: &mut S) -> Result<(), S::Error>
    ensures { OnOk result (SendsMember (codes "tests") (list_value test_value tests.now)
        (S.written out.old) (S.written out.new)) }
{
    out.key("tests")?;
    send_test_list(tests, out)
}

fn send_test_list<S: Serializer>(tests: &[TestReport], out: &mut S) -> Result<(), S::Error>
    ensures { OnOk result (SendsValue (list_value test_value tests.now) (S.written out.old) (S.written out.new)) }
{
    out.begin_seq(Some(tests.len()))?;
    for test in tests {
        send_test(test, out)?;
    }
    out.end_seq()
}

fn send_test<S: Serializer>(test: &TestReport, out: &mut S) -> Result<(), S::Error>
    ensures { OnOk result (SendsValue (test_value test.now) (S.written out.old) (S.written out.new)) }
{
    out.begin_map(Some(6))?;
    send_number("line", test.line as u64, out)?;
    send_text("command", test.word.as_str(), out)?;
    send_flag("ok", test.is_met(), out)?;
    send_unmet(&test.difference, out)?;
    send_number("status", u64::from(test.status), out)?;
    send_refusal(&test.refusal, out)?;
    out.end_map()
}

// Sends the line by which the command was refused.
fn send_refusal<S: Serializer>(refusal: &Option<String>, out: &mut S) -> Result<(), S::Error>
    ensures { OnOk result (SendsMember (codes "stderr") (refusal_value (option_map string_bytes refusal.now))
        (S.written out.old) (S.written out.new)) }
{
    out.key("stderr")?;
    match refusal {
        Some(line) => out.str(line.as_str()),
        None => out.unit(),
    }
}

// Sends the expectation that was not met.
fn send_unmet<S: Serializer>(difference: &Option<Difference>, out: &mut S) -> Result<(), S::Error>
    ensures { OnOk result (SendsMember (codes "unmet") (unmet_value difference.now)
        (S.written out.old) (S.written out.new)) }
{
    out.key("unmet")?;
    match difference {
        Some(difference) => send_difference(difference, out),
        None => out.unit(),
    }
}

fn send_difference<S: Serializer>(difference: &Difference, out: &mut S) -> Result<(), S::Error>
    ensures { OnOk result (SendsValue (difference_value difference.now) (S.written out.old) (S.written out.new)) }
{
    out.begin_map(Some(2))?;
    send_number("line", difference.line as u64, out)?;
    send_text("expected", difference.expected.as_str(), out)?;
    out.end_map()
}
