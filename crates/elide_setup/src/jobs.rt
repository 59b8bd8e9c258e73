//! How many threads work side by side: [`jobs_of`] reads `--jobs`, before anything is made for them.
//!
//! The host is asked for its processors only where the option is not given; where it does not tell, it is one. No
//! thread starts here.

ghost use Rattle.std.specs.Prelude.{◌<◌, ◌≤◌, IfErr, IfOk, Some, codes};
ghost use Rattle.std.specs.Option.{option_copied};
ghost use Rattle.elide_setup.specs.Jobs.{AreJobs, AreNoJobs};
ghost use Rattle.elide_setup.specs.Misuse.{IsMisuse};

use crate::fault::Refusal;
use elide_program::number_of;
use std::thread::{Threads, available_parallelism};

/// The most threads.
const MOST_JOBS: u32 = 1024;

/// The threads that are asked for, or one a processor: 1 to 1024.
pub fn jobs_of<R: Threads>(rt: &R, text: Option<&str>) -> Result<usize, Refusal>
    ensures ok { IfOk result (AreJobs (option_copied text.entry)) }
    ensures some { IfOk result (λ jobs. 0 < jobs) }
    ensures err { IfErr result (λ why. AreNoJobs (option_copied text.entry) × IsMisuse (codes "--jobs") why) }
{
    match text {
        Some(text) => jobs_said(text),
        None => Ok(processors(rt)),
    }
}

// As many as the option says.
fn jobs_said(text: &str) -> Result<usize, Refusal>
    ensures ok { IfOk result (AreJobs (Some text.now)) }
    ensures some { IfOk result (λ jobs. 0 < jobs) }
    ensures err { IfErr result (λ why. AreNoJobs (Some text.now) × IsMisuse (codes "--jobs") why) }
{
    match number_of(Some(text), "--jobs")? {
        0 => Err(Refusal::Usage("--jobs")),
        jobs if jobs > MOST_JOBS => Err(Refusal::Usage("--jobs")),
        jobs => Ok(jobs as usize),
    }
}

// One a processor, as far as the host tells how many it has.
fn processors<R: Threads>(rt: &R) -> usize
    ensures some { 1 ≤ result }
    ensures few { result ≤ 1024 }
{
    match available_parallelism(rt) {
        Ok(processors) => processors.get().min(MOST_JOBS as usize),
        Err(_) => 1,
    }
}
