//! A whole command, over devices that are handed in.
//!
//! [`command`] reads the words: help, and words that make no subcommand, end there. Then `--color` and `--words` are
//! looked at, before FILE; warnings are told when it is read, the command is obeyed (`obeying`), and a refusal
//! has its line and, where that is asked for, what is meant. `test` is not carried out here.

ghost use Rattle.std.specs.Prelude.{◌≤◌};

use crate::answer::Answer;
use crate::look::Look;
use crate::obeying::Job;
use crate::streams::Streams;
use crate::telling::tell;
use elide_advice::advise;
use elide_args::{CommandLine, NotASubcommand, Subcommand, command_line_of};
use elide_color::When;
use elide_device::{Progress, Surroundings};
use elide_program::{Paths, WarnedPaths};
use elide_setup::{Fault, Refusal};
use std::alloc::Global;
use std::sync::Wait;
use std::thread::Threads;
use text_out::Out;
use tm_debug::In;

/// Does what the words say, and gives the exit status: 0, 1 for a fault, 2 for a misused command line, 3 where a run
/// failed what was asked of it or a search was cut at its limit.
///
/// The words are the arguments without the program's name. A fault is one line on `err`, as `fault 23 BadCores`, or
/// with the line of a text as `fault 27 BadImageText line 3`; a misused option is `usage: ` and its name. Nothing is
/// written on `out` then, unless the fault came while writing there. Warnings of a source stand on `err` before.
/// Telling them takes no memory. `surroundings` tells which of these devices are a terminal's: where `err` is, or
/// `--words` asks for it, what is meant by a fault follows its line, and messages and listings are painted as `--color`
/// says. Long work tells `progress` how far it is. Waits only for `input` and for workers.
pub fn command<
    R: Threads + Wait + Sync + AllocGlobal,
    P: Paths,
    I: In,
    O: Out,
    E: Out,
    G: Progress + Send,
>(
    rt: &R,
    words: &[&str],
    streams: &mut Streams<'_, P, I, O, E, G>,
    surroundings: Surroundings,
) -> u8
    ensures { result ≤ 3 }
{
    match command_line_of(rt.alloc(), words, &mut *streams.out, &mut *streams.err) {
        Ok(line) => carry_out(rt, &line, streams, surroundings),
        Err(end) => end_early(end, surroundings, &mut *streams.err),
    }
}

/// Ends where words make no subcommand, and gives the exit status.
pub fn end_early<E: Out>(end: NotASubcommand, surroundings: Surroundings, err: &mut E) -> u8
    ensures { result ≤ 2 }
{
    match end {
        NotASubcommand::Helped => 0,
        NotASubcommand::Misused => 2,
        NotASubcommand::NotWritten => tell_early(Fault::Output, surroundings, err),
        NotASubcommand::NoMemory => tell_early(Fault::NoWords, surroundings, err),
    }
}

/// Does what a command line asks for, and gives the exit status. `test` is misused here, since `elide_trial` carries it
/// out.
pub fn carry_out<
    R: Threads + Wait + Sync + AllocGlobal,
    P: Paths,
    I: In,
    O: Out,
    E: Out,
    G: Progress + Send,
>(
    rt: &R,
    line: &CommandLine<'_>,
    streams: &mut Streams<'_, P, I, O, E, G>,
    surroundings: Surroundings,
) -> u8
    ensures { result ≤ 3 }
{
    let look = Look::new(line, surroundings);
    match obey_warned(rt, &line.subcommand, streams, look) {
        Ok(answer) => {
            if answer.is_unpaged() {
                let refusal = Refusal::Fault(Fault::PageTooLong);
                tell_refusal(rt.alloc(), line, refusal, streams, look);
            }
            answer.status()
        }
        Err(refusal) => tell_refusal(rt.alloc(), line, refusal, streams, look),
    }
}

/// The option of all commands whose value says nothing, if there is one: `--color` or `--words`.
pub fn misused(line: &CommandLine<'_>) -> Option<&'static str> {
    Look::new(line, Surroundings::NONE).misused
}

/// Tells why a command line was refused, where it is asked for with what is meant, and gives the exit status.
pub fn refuse<P: Paths, I, O, E: Out, G>(
    alloc: Global,
    line: &CommandLine<'_>,
    refusal: Refusal,
    streams: &mut Streams<'_, P, I, O, E, G>,
    surroundings: Surroundings,
) -> u8
    ensures { result ≤ 2 }
{
    tell_refusal(alloc, line, refusal, streams, Look::new(line, surroundings))
}

// Tells why a command line was refused, at a terminal with what is meant, and gives the exit status.
fn tell_refusal<P: Paths, I, O, E: Out, G>(
    alloc: Global,
    line: &CommandLine<'_>,
    refusal: Refusal,
    streams: &mut Streams<'_, P, I, O, E, G>,
    look: Look,
) -> u8
    ensures { result ≤ 2 }
{
    let is_painted = look.colors.errors;
    let status = tell(refusal, is_painted, &mut *streams.err);
    // Behind the line, which takes no memory and so stands in any case.
    if look.tells_words {
        let paths = &mut *streams.paths;
        let err = &mut *streams.err;
        advise(alloc, &line.subcommand, refusal, paths, is_painted, err);
    }
    status
}

// Tells a fault where `--color` is not read.
fn tell_early<E: Out>(fault: Fault, surroundings: Surroundings, err: &mut E) -> u8
    ensures { result ≤ 2 }
{
    let colors = surroundings.colors(When::Auto);
    tell(Refusal::Fault(fault), colors.errors, err)
}

// Does what is asked for, and tells the warnings of its program.
fn obey_warned<
    R: Threads + Wait + Sync + AllocGlobal,
    P: Paths,
    I: In,
    O: Out,
    E: Out,
    G: Progress + Send,
>(
    rt: &R,
    subcommand: &Subcommand<'_>,
    streams: &mut Streams<'_, P, I, O, E, G>,
    look: Look,
) -> Result<Answer, Refusal> {
    if let Some(option) = look.misused {
        return Err(Refusal::Usage(option));
    }
    let mut warned = WarnedPaths::new(&mut *streams.paths, &mut *streams.err, look.warnings());
    let mut job = Job::new(
        &mut warned,
        &mut *streams.input,
        &mut *streams.out,
        &mut *streams.progress,
        look,
    );
    job.obey(rt, subcommand)
}
