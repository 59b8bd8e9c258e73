//! Runs on several threads, until one fails: block after block, each up to twice as long as the last.
//!
//! [`search_runs`] begins with few runs, so that a failure among the first costs no more, and ends with many, so that
//! threads seldom wait. A block is joined before the next begins, and progress told between them. The run that failed
//! is made once more, on this thread, for its schedule. Shortening is not done here, but in `command`.

ghost use Rattle.std.specs.Prelude.{◌^◌, ◌<◌, ◌≤◌, IfErr, IfOk};
ghost use Rattle.tm_hunt.specs.Attempts.{IsSearch};
ghost use Rattle.tm_hunt.specs.Sources.{IsPlannedRun};
ghost use Rattle.elide_hunt.specs.Refused.{IsNotHunted};

use crate::block::Block;
use crate::fault::fault_of;
use elide_checks::Orders;
use elide_device::Progress;
use elide_setup::Refusal;
use std::thread::Threads;
use tm_hunt::{PlannedRuns, Search, Trial, first_failing};
use tm_pick::Plan;

/// How many runs a thread makes before it is joined, at first and at most.
const FIRST_SHARE: u32 = 16;

const MOST_SHARE: u32 = 4096;

/// Makes the runs that are asked for by a plan until one fails, each thread a share of runs side by side. Of the runs
/// that fail the one with the lowest number is told, and those with a lower one are counted, so that the answer does
/// not depend on the threads. What is told is what that run comes to when it is made once more.
pub fn search_runs<R: Threads + Sync + AllocGlobal, G: Progress>(
    rt: &R,
    trial: &Trial<'_>,
    plan: Plan,
    orders: &Orders,
    progress: &mut G,
) -> Result<Search, Refusal>
    ensures made { IfOk result (IsSearch trial.now (IsPlannedRun plan)
        orders.now.first orders.now.end) }
    ensures refused { IfErr result (IsNotHunted trial.now) }
{
    let mut ended: u32 = 0;
    let mut cut: u32 = 0;
    let mut first = orders.first;
    let mut size = FIRST_SHARE;
    'turns: while first < orders.end {
        tell(orders, first, progress);
        let jobs = u32::try_from(orders.jobs).unwrap_or(1).max(1);
        let end = block_end(first, size, jobs, orders);
        let block = Block {
            trial: *trial,
            plan,
            first,
            end,
            jobs,
        };
        let search = search_block(rt, &block)?;
        ended += search.ended;
        cut += search.cut;
        if search.found.is_some() {
            let found = search.found;
            return Ok(Search { found, ended, cut });
        }
        first = end;
        size = size.saturating_mul(2).min(MOST_SHARE);
    }
    Ok(Search {
        found: None,
        ended,
        cut,
    })
}

// Tells that the runs below this number are made.
fn tell<G: Progress>(orders: &Orders, first: u32, progress: &mut G) {
    let done = first.saturating_sub(orders.first);
    let most = orders.end.saturating_sub(orders.first);
    progress.tell(u64::from(done), u64::from(most), "runs");
}

// Where the runs of one block end.
fn block_end(first: u32, size: u32, jobs: u32, orders: &Orders) -> u32
    requires { first < orders.now.end }
    ensures more { first < result }
    ensures within { result ≤ orders.now.end }
{
    let runs = size.saturating_mul(jobs).max(1);
    if orders.end - first <= runs {
        orders.end
    } else {
        first + runs
    }
}

// Makes the runs of a block, and the one that failed once more, on this thread.
fn search_block<R: Threads + Sync + AllocGlobal>(
    rt: &R,
    block: &Block<'_>,
) -> Result<Search, Refusal>
    requires some { 0 < block.now.jobs }
    requires ordered { block.now.first ≤ block.now.end }
    requires short { block.now.end < 2 ^ 32 }
    ensures made { IfOk result (IsSearch block.now.trial (IsPlannedRun block.now.plan)
        block.now.first block.now.end) }
    ensures refused { IfErr result (IsNotHunted block.now.trial) }
{
    let share = block.make_runs(rt)?;
    let Some(failing) = share.failed else {
        return Ok(Search {
            found: None,
            ended: share.ended,
            cut: share.cut,
        });
    };
    // Made again for its schedule, which the threads do not keep. It is the first of these.
    match first_failing(
        rt.alloc(),
        &block.trial,
        &PlannedRuns,
        block.plan,
        failing,
        block.end,
    ) {
        Ok(again) => Ok(Search {
            found: again.found,
            ended: share.ended + again.ended,
            cut: share.cut + again.cut,
        }),
        Err(fault) => Err(Refusal::Fault(fault_of(fault))),
    }
}
