//! Texts beside refusals to which no command of the worked rows comes.

ghost use Rattle.std.specs.Prelude.{None};

use elide_advice::advise;
use elide_args::{ExplainOptions, Subcommand};
use elide_program::{Obstacle, Paths, ReadFault, Text};
use elide_setup::{Fault, Refusal};
use std::alloc::Global;
use std::process::Abort;
use text_out::{Failed, ToVec};

// Files of which none is there.
#[derive(Clone, Copy, Debug)]
struct NoFiles;

impl Paths for NoFiles {
    ghost content = { λ _ _. None };

    ghost are_one = { λ _ _ _. None };

    fn read(&mut self, _path: &str, _most: usize) -> Result<Vec<u8>, ReadFault> {
        Err(ReadFault::Failed(Obstacle::Missing))
    }

    fn write<T: Text>(&mut self, _path: &str, _text: &mut T) -> Result<(), Failed> {
        Err(Failed)
    }

    fn is_same_file(&mut self, _path: &str, _other: &str) -> bool {
        false
    }
}

// Beside this refusal stands this text.
fn tells(rt: &impl Abort, alloc: Global, refusal: Refusal, text: &[u8]) {
    let subcommand = Subcommand::Explain(ExplainOptions { fault: None });
    let mut out = ToVec::new(Vec::new(alloc));
    advise(alloc, &subcommand, refusal, &mut NoFiles, false, &mut out);
    assert_eq!(rt; out.bytes.as_slice(), text);
}

#[test]
fn a_thread_that_is_not_started_and_a_number_that_is_left_out(rt: HostRuntime) {
    let cases: [(Refusal, &[u8]); 2] = [
        (
            Refusal::Fault(Fault::SpawnRefused),
            b"the system refused a thread: it starts no further one (ulimit -u), or has no memory for its stack \
                (ulimit -v)\n",
        ),
        (
            Refusal::Usage("--budget"),
            b"--budget is wanted, with a number\n",
        ),
    ];
    for (refusal, text) in cases {
        tells(&rt, rt.alloc(), refusal, text);
    }
}
