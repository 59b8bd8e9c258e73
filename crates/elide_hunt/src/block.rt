//! Runs that are made side by side, each thread some of them with numbers in a row.
//!
//! [`Block::made`] waits for all threads, and joins their shares in the order of the numbers: up to the first run that
//! failed, or a refusal before it. What lies behind that is dropped, so that it does not depend on the threads which
//! run is told. A run's schedule is not kept: `searching` makes the one that failed once more.

ghost use Rattle.std.specs.Prelude.{◌≡◌, ℕ, ◌+◌, ◌^◌, ◌<◌, ◌≤◌, IfErr, IfOk, length, option_map};
ghost use Rattle.std.specs.List.{slice_index_or};
ghost use Rattle.tm_hunt.specs.Attempts.{IsRefusal};
ghost use Rattle.tm_hunt.specs.Sources.{IsPlannedRun};
ghost use Rattle.elide_hunt.specs.Refused.{IsNotHunted};
ghost use Rattle.elide_hunt.specs.Shares.{IsShare, share_start};

use crate::fault::fault_of;
use elide_setup::{Fault, Refusal};
use std::alloc::Global;
use std::thread;
use std::thread::Threads;
use tm_hunt::{HuntFault, PlannedRuns, Search, Trial, first_failing};
use tm_pick::Plan;

/// What some runs came to: the first that failed, and how many before it passed.
#[derive(Clone, Copy)]
pub struct Share {
    /// The number of the first run that failed, if any.
    pub failed: Option<u32>,
    /// How many runs before it passed in which each core stopped.
    pub ended: u32,
    /// How many runs before it passed that reached the limit on steps.
    pub cut: u32,
}

impl Share {
    // With the runs behind them.
    fn then(self, next: &Share) -> Share
        requires { self.ended + self.cut + (next.now.ended + next.now.cut) < 2 ^ 32 }
        ensures failed { result.failed ≡ next.now.failed }
        ensures ended { result.ended ≡ self.ended + next.now.ended }
        ensures cut { result.cut ≡ self.cut + next.now.cut }
    {
        Share {
            failed: next.failed,
            ended: self.ended + next.ended,
            cut: self.cut + next.cut,
        }
    }
}

/// Runs from one number up to another, a share a thread.
#[derive(Clone, Copy)]
pub struct Block<'a> {
    /// What is tried.
    pub trial: Trial<'a>,
    /// What the runs are drawn by.
    pub plan: Plan,
    /// The number of the first run.
    pub first: u32,
    /// The number behind that of the last run.
    pub end: u32,
    /// How many threads make them.
    pub jobs: u32,
}

impl Block<'_> {
    /// Makes the runs.
    pub fn make_runs<R: Threads + Sync + AllocGlobal>(&self, rt: &R) -> Result<Share, Refusal>
        requires some { 0 < self.now.jobs }
        requires ordered { self.now.first ≤ self.now.end }
        requires short { self.now.end < 2 ^ 32 }
        ensures made { IfOk result (IsShare self.now.trial (IsPlannedRun self.now.plan) self.now.first self.now.end) }
        ensures refused { IfErr result (IsNotHunted self.now.trial) }
    {
        let alloc = rt.alloc();
        let shares = thread::map_indices(
            rt,
            alloc,
            self.jobs as usize,
            &|job| self.share(alloc, job),
        );
        match shares {
            Ok(shares) => self.join(shares.as_slice()),
            Err(_) => Err(Refusal::Fault(Fault::NoWorkers)),
        }
    }

    // Makes those of a thread.
    fn share(&self, alloc: Global, job: usize) -> Result<Share, HuntFault>
        requires within { job < self.now.jobs }
        requires ordered { self.now.first ≤ self.now.end }
        ensures made { IfOk result (IsShare self.now.trial (IsPlannedRun self.now.plan)
            (share_start self.now.first self.now.end self.now.jobs job)
            (share_start self.now.first self.now.end self.now.jobs (job + 1))) }
        ensures refused { IfErr result (IsRefusal self.now.trial) }
    {
        let first = self.start_of(job);
        let end = self.start_of(job + 1);
        let search = first_failing(alloc, &self.trial, &PlannedRuns, self.plan, first, end)?;
        Ok(share_of(&search))
    }

    // Where the share of a thread begins.
    fn start_of(&self, job: usize) -> u32
        requires { self.now.first ≤ self.now.end }
        ensures { result ≡ share_start self.now.first self.now.end self.now.jobs job }
    {
        let jobs = self.jobs as usize;
        if job >= jobs {
            return self.end;
        }
        let runs = u64::from(self.end - self.first);
        self.first + (job as u64 * runs / u64::from(self.jobs)) as u32
    }

    // The shares as one, up to the first run that failed.
    fn join(&self, shares: &[Result<Share, HuntFault>]) -> Result<Share, Refusal>
        requires some { 0 < self.now.jobs }
        requires ordered { self.now.first ≤ self.now.end }
        requires short { self.now.end < 2 ^ 32 }
        requires counted { length shares.now ≡ self.now.jobs }
        requires each { (job : ℕ) (other : _) → job < self.now.jobs → IfOk (slice_index_or shares.now job other)
            (IsShare self.now.trial (IsPlannedRun self.now.plan)
            (share_start self.now.first self.now.end self.now.jobs job)
            (share_start self.now.first self.now.end self.now.jobs (job + 1))) }
        requires refused { (job : ℕ) (other : _) → job < self.now.jobs → IfErr (slice_index_or shares.now job other)
            (IsRefusal self.now.trial) }
        ensures made { IfOk result (IsShare self.now.trial (IsPlannedRun self.now.plan) self.now.first self.now.end) }
        ensures refused { IfErr result (IsNotHunted self.now.trial) }
    {
        let mut all = Share {
            failed: None,
            ended: 0,
            cut: 0,
        };
        for share in shares {
            match share {
                Ok(next) => {
                    all = all.then(next);
                    if all.failed.is_some() {
                        return Ok(all);
                    }
                }
                Err(fault) => return Err(Refusal::Fault(fault_of(*fault))),
            }
        }
        Ok(all)
    }
}

// What a search came to, without the schedule.
fn share_of(search: &Search) -> Share
    ensures failed { result.failed ≡ option_map (λ found. found.run) search.now.found }
    ensures ended { result.ended ≡ search.now.ended }
    ensures cut { result.cut ≡ search.now.cut }
{
    let failed = match &search.found {
        Some(found) => Some(found.run),
        None => None,
    };
    Share {
        failed,
        ended: search.ended,
        cut: search.cut,
    }
}
