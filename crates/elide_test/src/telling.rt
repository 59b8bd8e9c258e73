//! What is printed of tests: [`tell`], once all are tried.
//!
//! A file that was not tried comes first: then `bailing` tells the others, and the answer is a refusal. Else they are
//! told as lines or as one object, and the answer is whether each passed. Nothing is handed on before it is whole, or
//! much.

ghost use Rattle.std.specs.Prelude.{IfOk, IfSome, IsErr};
ghost use Rattle.std.specs.Io.KnownBytes.{Appends};
ghost use Rattle.elide_object.specs.Object.{object_text};
ghost use Rattle.elide_test.specs.Object.{tests_value};
ghost use Rattle.elide_test.specs.Printed.{IsTold};
ghost use Rattle.elide_test.specs.Tap.{tap_text};

use crate::bailing::refused;
use crate::object::tell_object;
use crate::report::{Answer, FileReport, Trials};
use crate::tap::tell_files;
use elide_device::Gathered;
use elide_setup::Refusal;
use std::alloc::Global;
use text_out::Out;

/// Prints what was tried, or why nothing more was, and answers whether each test passed. Gives the device back.
pub fn tell<O: Out + Drop>(
    alloc: Global,
    is_json: bool,
    names: &[String],
    trials: &Trials,
    out: O,
) -> Result<(Answer, O), Refusal>
    ensures told { IfOk result (λ r. IsTold is_json trials.now.files.items r.0
        (O.device out).contents (O.device r.1).contents) }
    ensures stopped { IfSome trials.now.stop (λ _. IsErr result) }
{
    match trials.stop {
        Some(stop) => Err(refused(is_json, names, trials.files.as_slice(), stop, out)),
        None => tell_whole(alloc, is_json, trials.files.as_slice(), out),
    }
}

// Prints what all files came to.
fn tell_whole<O: Out + Drop>(
    alloc: Global,
    is_json: bool,
    files: &[FileReport],
    out: O,
) -> Result<(Answer, O), Refusal>
    ensures { IfOk result (λ r. IsTold is_json files.now r.0
        (O.device out).contents (O.device r.1).contents) }
{
    if is_json {
        let out = put_object(alloc, files, out)?;
        Ok((Answer::of(files), out))
    } else {
        let out = put_lines(files, out)?;
        Ok((Answer::of(files), out))
    }
}

// Prints their object.
fn put_object<O: Out + Drop>(alloc: Global, files: &[FileReport], out: O) -> Result<O, Refusal>
    ensures { IfOk result (λ given. Appends (O.device out).contents (O.device given).contents
        (object_text (tests_value files.now))) }
{
    let mut page = Gathered::new(out);
    tell_object(alloc, files, &mut page)?;
    let out = page.finish()?;
    Ok(out)
}

// Prints their lines.
fn put_lines<O: Out + Drop>(files: &[FileReport], out: O) -> Result<O, Refusal>
    ensures { IfOk result (λ given. Appends (O.device out).contents (O.device given).contents (tap_text files.now)) }
{
    let mut page = Gathered::new(out);
    tell_files(files, &mut page)?;
    let out = page.finish()?;
    Ok(out)
}
