//! `elide` simulates a multicore IA-32 machine with Intel Restricted Transactional Memory.
//!
//! `main` hands in the arguments, the files, the standard streams and what the environment asks for; the rest is
//! [`elide_trial::command`].
#![tactic(auto)]

mod ahead;
mod arguments;
mod environment;
mod progress;

use ahead::ReadAhead;
use arguments::{USUAL_ROOM, Words, read_words};
use elide_command::Streams;
use elide_device::{Surroundings, Terminals};
use elide_program::Again;
use elide_test::SystemPaths;
use elide_trial::command;
use environment::{asks_for_no_colors, asks_for_words};
use progress::ProgressLine;
use std::io;
use std::io::IsTerminal;
use std::process::ExitCode;
use text_out::{Out, ToWriter};
use tm_debug::FromReader;

fn main(rt: HostRuntime) -> ExitCode {
    let stderr = rt.stderr();
    let mut err = ToWriter::new(Again::new(&stderr));
    let mut usual = [0; USUAL_ROOM];
    let mut long = Vec::new(rt.alloc());
    let mut words = Words::new();
    if let Err(not_words) = read_words(&rt, &mut usual, &mut long, &mut words) {
        // A failure here has no further place to be told.
        let _ = err.put(not_words.line());
        return ExitCode::from(not_words.status());
    }
    let mut paths = SystemPaths::new(&rt);
    let mut input = FromReader::new(ReadAhead::new(Again::new(rt.stdin())));
    let mut out = ToWriter::new(Again::new(io::writer(&rt)));
    let terminals = Terminals {
        input: rt.stdin().is_terminal(),
        output: rt.stdout().is_terminal(),
        errors: stderr.is_terminal(),
    };
    let surroundings = Surroundings {
        terminals,
        is_plain: asks_for_no_colors(&rt),
        tells_words: asks_for_words(&rt),
    };
    let told = ToWriter::new(Again::new(&stderr));
    let mut progress = ProgressLine::new(&rt, told, terminals.errors);
    let mut streams = Streams::new(&mut paths, &mut input, &mut out, &mut err, &mut progress);
    let status = command(&rt, words.as_slice(), &mut streams, surroundings);
    ExitCode::from(status)
}
