//! The command line: `test` is carried out here, and all else by `elide_command`.
//!
//! [`command`] reads the words first, and what makes no subcommand ends there. For `test` then come `--color` and
//! `--words`, that a file is named, `--jobs`, the names, the files. Its commands go to `elide_command` and never back
//! here, so that a test of `test` is refused and none runs for ever.

ghost use Rattle.std.specs.Prelude.{◌≤◌, IfOk};
ghost use Rattle.std.specs.Thread.{IsSync};
ghost use Rattle.elide_test.specs.Printed.{IsPrinted};
ghost use Rattle.elide_trial.specs.Came.{CameTo};

use crate::bench::try_all;
use crate::carrier::command_end;
use crate::ending::CommandEnd;
use elide_args::{CommandLine, Subcommand, TestOptions, command_line_of};
use elide_command::{Streams, carry_out, end_early, misused, refuse};
use elide_device::{Lent, Progress, Surroundings};
use elide_program::Paths;
use elide_setup::{Refusal, jobs_of};
use elide_test::{Answer, FolderPaths, SharedPaths, names_of, tell};
use std::sync::Wait;
use std::thread::Threads;
use text_out::{Out, ToVec};
use tm_debug::In;

/// Does what the words say, and gives the exit status, as `elide_command` does, but for `test`, which ends with 0 where
/// each test passes and with 3 where one fails.
pub fn command<
    R: Threads + Wait + Sync + AllocGlobal,
    P: Paths + SharedPaths + Sync,
    I: In,
    O: Out,
    E: Out,
    G: Progress + Send,
>(
    rt: &R,
    words: &[&str],
    streams: &mut Streams<'_, P, I, O, E, G>,
    surroundings: Surroundings,
) -> u8
    ensures { result ≤ 3 }
{
    match command_line_of(rt.alloc(), words, &mut *streams.out, &mut *streams.err) {
        Ok(line) => match &line.subcommand {
            Subcommand::Test(options) => {
                carry_out_tests(rt, &line, options, streams, surroundings)
            }
            _ => carry_out(rt, &line, streams, surroundings),
        },
        Err(end) => end_early(end, surroundings, &mut *streams.err),
    }
}

// Tries files with tests, and gives the exit status.
fn carry_out_tests<
    R: Threads + Wait + Sync + AllocGlobal,
    P: Paths + SharedPaths + Sync,
    I,
    O: Out,
    E: Out,
    G,
>(
    rt: &R,
    line: &CommandLine<'_>,
    options: &TestOptions<'_>,
    streams: &mut Streams<'_, P, I, O, E, G>,
    surroundings: Surroundings,
) -> u8
    ensures { result ≤ 3 }
{
    if let Some(option) = misused(line) {
        let refusal = Refusal::Usage(option);
        return refuse(rt.alloc(), line, refusal, streams, surroundings);
    }
    match try_files(rt, options, &*streams.paths, &mut *streams.out) {
        Ok(Answer::Passes) => 0,
        Ok(Answer::Fails) => 3,
        Err(refusal) => refuse(rt.alloc(), line, refusal, streams, surroundings),
    }
}

// Tries files whose commands are command lines of their own, prints what they came to, and answers whether each passed.
fn try_files<R: Threads + Wait + Sync + AllocGlobal, S: SharedPaths + Sync, O: Out>(
    rt: &R,
    options: &TestOptions<'_>,
    paths: &S,
    out: &mut O,
) -> Result<Answer, Refusal> {
    let call = |words: &[&str], files: FolderPaths<'_, S>, out: ToVec| -> CommandEnd
        requires { IsSync R.row }
    { command_end(rt, words, files, out) };
    let (answer, _) = test(rt, options, paths, &call, Lent::new(out))?;
    Ok(answer)
}

/// Tries files, each of whose commands is carried out by a call: with its words, the files as they are seen from the
/// folder that it stands in, and an empty device. Prints what they came to, and answers whether each passed. Gives the
/// device back. Up to a file that cannot be tried the others are told.
pub fn test<
    R: Threads + Sync + AllocGlobal,
    S: SharedPaths + Sync,
    C: Fn(&[&str], FolderPaths<'_, S>, ToVec) -> CommandEnd + Sync,
    O: Out + Drop,
>(rt: &R, options: &TestOptions<'_>, paths: &S, call: &C, out: O) -> Result<(Answer, O), Refusal>
    requires { C.IsAlwaysCallable call.now }
    ensures { IfOk result
        (λ r. IsPrinted (S.holds paths.now) (CameTo (C.post call.now) paths.now) options.now.is_json r.0
        (O.device out).contents (O.device r.1).contents) }
{
    if options.files.is_empty() && options.list.is_none() {
        return Err(Refusal::Usage("FILE"));
    }
    let alloc = rt.alloc();
    let jobs = jobs_of(rt, options.jobs)?;
    let names = names_of(alloc, options, paths)?;
    let trials = try_all(rt, alloc, paths, jobs, names.as_slice(), call)?;
    tell(alloc, options.is_json, names.as_slice(), &trials, out)
}
