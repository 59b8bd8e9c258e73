//! What carries out the commands of tests, in memory: no input, no terminal, no progress.
//!
//! [`command_end`] is the call, by `elide_command`; [`carried_out`] makes any such call with an empty device, and gives
//! what it left there. Output that memory did not hold is not judged: it is refused. Of standard error what memory took
//! is kept, since it is only told.

ghost use Rattle.std.specs.Prelude.{◌≡◌, IfOk};
ghost use Rattle.std.specs.Option.{option_copied};
ghost use Rattle.elide_args.specs.Asked.{texts_of};
ghost use Rattle.elide_trial.specs.Came.{CameTo};

use crate::ending::CommandEnd;
use elide_command::{Streams, command};
use elide_device::{Silent, Surroundings};
use elide_test::{Ended, FolderPaths, SharedPaths};
use std::alloc::{AllocError, Global};
use std::sync::Wait;
use std::thread::Threads;
use text_out::{Failed, ToVec};
use tm_debug::In;

/// Carries out a command: its words without the program's name, the files that it reads, and the device that it writes
/// to. It has no input.
pub fn command_end<R: Threads + Wait + Sync + AllocGlobal, S: SharedPaths>(
    rt: &R,
    words: &[&str],
    files: FolderPaths<'_, S>,
    out: ToVec,
) -> CommandEnd {
    let mut err = ToVec::new(Vec::new(files.alloc));
    let mut files = files;
    let mut input = NoInput;
    let mut out = out;
    let mut progress = Silent;
    let mut streams = Streams::new(&mut files, &mut input, &mut out, &mut err, &mut progress);
    let status = command(rt, words, &mut streams, Surroundings::NONE);
    CommandEnd {
        status,
        out,
        errors: err.bytes,
    }
}

/// What a command of a test came to, which a call carries out: its relative paths are seen from a folder, or as they
/// are where there is none. Refused for want of memory alone.
pub fn carried_out<S: SharedPaths, C: Fn(&[&str], FolderPaths<'_, S>, ToVec) -> CommandEnd>(
    alloc: Global,
    folder: Option<&str>,
    words: &[&str],
    paths: &S,
    call: &C,
) -> Result<Ended, AllocError>
    requires { C.IsAlwaysCallable call.now }
    ensures { IfOk result (CameTo (C.post call.now) paths.now (option_copied folder.entry) (texts_of words.now)) }
{
    let files = FolderPaths {
        alloc,
        paths,
        folder,
    };
    let end = call(words, files, ToVec::new(Vec::new(alloc)));
    let ended = ended_of(end)?;
    Ok(ended)
}

// What a command came to, where its device has all that it wrote.
fn ended_of(end: CommandEnd) -> Result<Ended, AllocError>
    ensures whole { IfOk result (λ _. end.out.failures ≡ 0) }
    ensures status { IfOk result (λ ended. ended.status ≡ end.status) }
    ensures output { IfOk result (λ ended. ended.output ≡ end.out.bytes) }
    ensures errors { IfOk result (λ ended. ended.errors ≡ end.errors) }
{
    if end.out.failures != 0 {
        return Err(AllocError);
    }
    Ok(Ended {
        status: end.status,
        output: end.out.bytes,
        errors: end.errors,
    })
}

// An input that is at its end.
#[derive(Clone, Copy)]
struct NoInput;

impl In for NoInput {
    ghost failed = { λ _. 0 };

    fn get(&mut self, _buf: &mut [u8]) -> Result<usize, Failed> {
        Ok(0)
    }

    fn failures(&self) -> u64 {
        0
    }
}
