//! The object that `--json` prints of a search (docs/JSON.md, "hunt").
//!
//! [`tell_object`] is the one call. The command that replays a failure is made first, then the whole text with it, and
//! only then it is written: want of memory, told as that of a run, leaves no half of it. Its members are sent by
//! `sending`.

ghost use Rattle.std.specs.Prelude.{◌≡◌, IfErr, IfOk, OnOk, Some, string_bytes};
ghost use Rattle.std.specs.Io.KnownBytes.{Appends};
ghost use Rattle.elide_object.specs.Object.{object_text};
ghost use Rattle.elide_setup.specs.Refused.{IsUntold};
ghost use Rattle.elide_hunt.specs.Object.{found_value, hunt_value, search_value};
ghost use Rattle.elide_hunt.specs.Sent.{object_value};

use crate::replay::command_bytes;
use crate::report::Beside;
use crate::sending::{FailureObject, HuntObject};
use elide_args::HuntOptions;
use elide_object::object_line;
use elide_setup::{Fault, Refusal};
use std::alloc::{AllocError, Global};
use std::str;
use text_out::Out;
use tm_core::RunFault;
use tm_hunt::{Found, Search};

/// Prints the object of a search, with what is told beside its failure.
pub fn tell_object<O: Out>(
    alloc: Global,
    options: &HuntOptions<'_>,
    search: &Search,
    beside: &Beside,
    out: &mut O,
) -> Result<(), Refusal>
    ensures written { OnOk result (Appends (O.device out.old).contents (O.device out.new).contents
        (object_text (search_value options.now beside.now search.now))) }
    ensures refused { IfErr result IsUntold }
{
    match search_line(alloc, options, search, beside) {
        Ok(line) => {
            out.put(line.as_bytes())?;
            Ok(())
        }
        Err(_) => Err(Refusal::Fault(Fault::Run(RunFault::NoMemory))),
    }
}

fn search_line(
    alloc: Global,
    options: &HuntOptions<'_>,
    search: &Search,
    beside: &Beside,
) -> Result<String, AllocError>
    ensures { IfOk result (λ line. string_bytes line ≡ object_text (search_value options.now beside.now search.now)) }
{
    match &search.found {
        Some(found) => failure_line(alloc, options, search, found, beside),
        None => line_of(
            alloc,
            &HuntObject {
                ended: search.ended,
                cut: search.cut,
                failure: None,
            },
        ),
    }
}

// The line of a search whose last run failed, behind so many that passed.
fn failure_line(
    alloc: Global,
    options: &HuntOptions<'_>,
    search: &Search,
    found: &Found,
    beside: &Beside,
) -> Result<String, AllocError>
    ensures { IfOk result (λ line. string_bytes line ≡ object_text (hunt_value search.now.ended search.now.cut
        (found_value options.now beside.now (Some found.now)) 3)) }
{
    let command = command_bytes(alloc, options, found.run, found.failure.deciding())?;
    // The words of a command line are UTF-8, and what stands between them is ASCII: this refuses nothing.
    let Ok(replay) = str::from_utf8(command.as_slice()) else {
        return Err(AllocError);
    };
    let failure = Some(FailureObject {
        options,
        found,
        beside,
        replay,
    });
    line_of(
        alloc,
        &HuntObject {
            ended: search.ended,
            cut: search.cut,
            failure,
        },
    )
}

fn line_of(alloc: Global, object: &HuntObject<'_, '_>) -> Result<String, AllocError>
    ensures { IfOk result (λ line. string_bytes line ≡ object_text (object_value object.now)) }
{
    object_line(alloc, object)
}
