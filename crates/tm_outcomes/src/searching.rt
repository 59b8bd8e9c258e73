//! The search: [`outcomes`], and [`outcomes_watched`], which tells how far it is.
//!
//! States are gone on from in the order in which they were met. Of each, what it shows is taken up (`findings`);
//! then each core makes its next step, under none and under each event that befalls it, with the unseen steps behind
//! it (`rest`), and the state there is looked for among those of its digest before it counts as new. A new one above
//! the limit cuts the search; otherwise its links are judged (`verdict`).

ghost use Rattle.std.specs.Prelude.{◌≡◌, ◌<◌, ◌≤◌, ◌+◌, ◌++◌, ◌∷◌, ◌^◌, [], All, IfErr, IfOk, OnOk, false};
ghost use Rattle.std.specs.Prelude.{length};
ghost use Rattle.std.specs.HashMap.{Updates};
ghost use Rattle.std.specs.Prelude.{None, Option, Some, nat_eq, true};
ghost use Rattle.tm_model.specs.declared.outcome.Event.{Event};
ghost use Rattle.tm_model.specs.declared.outcome.Pick.{Pick};
ghost use Rattle.tm_outcomes.specs.Following.{AreKnownAt, GoesOnFrom, HasBench, HasFollowed, IsNeededAt, IsNewBench};
ghost use Rattle.tm_outcomes.specs.Following.{befalls};
ghost use Rattle.tm_outcomes.specs.Kept.{AreNewest, AreOlder, digest_at};
ghost use Rattle.tm_outcomes.specs.Links.{LiesWithin};
ghost use Rattle.tm_outcomes.specs.Nodes.{AreNodesOf, IsPickOf, StandsAtNode};
ghost use Rattle.tm_outcomes.specs.Outcomes.{AreThere, IsAllowed, IsNoneOrOneOf, IsRefusal, IsSearch, usual_event};
ghost use Rattle.tm_outcomes.specs.Searching.{AreFindings, HaveDone, IsCutOf, IsOver, IsThis};
ghost use Rattle.tm_outcomes.specs.Searching.{IsWholeOf};
ghost use Rattle.tm_outcomes.specs.Verdicts.{IsVerdict};
ghost use Rattle.tm_outcomes.specs.Written.{IsBenchOf};
ghost use Rattle.tm_outcomes.specs.declared.links.Link.{Link};
ghost use Rattle.tm_outcomes.specs.declared.trial.Trial.{Trial};

use crate::bench::Bench;
use crate::cycle::Cycle;
use crate::fault::SearchFault;
use crate::findings::Findings;
use crate::links::Link;
use crate::nodes::Node;
use crate::stops::ReachedStop;
use crate::stuck::Stuck;
use crate::table::FoundOutcome;
use crate::task::Task;
use crate::trial::{Events, Trial};
use crate::verdict::{Judged, Verdict, verdict_of};
use crate::violations::Violation;
use crate::watching::{Unwatched, Watching};
use std::alloc::{AllocError, Global};
use std::collections::HashMap;
use tm_model::{Event, Pick};

/// How many states are followed from one call of [`Watching::at`] to the next.
const STATES_BETWEEN: u32 = 256;

/// What a search came to.
#[derive(Debug, Drop)]
pub struct Search {
    /// The outcomes, in the order in which they were found.
    pub outcomes: Vec<FoundOutcome>,
    /// How many states were found.
    pub states: u32,
    /// Whether the search ended at its limit on states.
    pub is_cut: bool,
    /// The states from which no schedule leads to an end, where there are such. None is told of a search that was cut.
    pub stuck: Option<Stuck>,
    /// A cycle that can be made for ever though it need not, where one was found. None is told of a search that was
    /// cut.
    pub cycle: Option<Cycle>,
    /// The stops that were looked for and found, in the order in which they were.
    pub stops: Vec<ReachedStop>,
    /// The checks that an end violates, in the order in which they were found, each once.
    pub violations: Vec<Violation>,
    /// Whether somewhere a step waits for room, since as many stores of its core are pending as may be: where more may
    /// be, other outcomes may follow.
    pub waited: bool,
}

/// The states that were met so far, and what was found at them.
#[derive(Drop)]
pub struct Searching {
    pub nodes: Vec<Node>,
    /// Of each digest the newest node.
    pub newest: HashMap<u64, u32>,
    /// The steps that were followed.
    pub links: Vec<Link>,
    /// Of each the core whose step it is.
    pub cores: Vec<u8>,
    pub found: Findings,
}

/// Whether a search goes on.
#[derive(Clone, Copy, PartialEq, Eq, Debug)]
pub enum Progress {
    /// It goes on.
    GoesOn,
    /// There is a state more than the limit.
    IsCut,
}

/// What following a pick came to.
#[derive(Clone, Copy, PartialEq, Eq, Debug)]
pub struct Followed {
    /// Whether the search goes on.
    pub progress: Progress,
    /// Whether the core was in a transaction that was not doomed, which an abort from outside of the program befalls.
    pub was_open: bool,
    /// Whether a drain was another step of the core than its own: a store of it was pending, and it did not wait.
    pub drains_apart: bool,
}

impl Followed {
    // Whether an event befell the core. Where not, the core's step is under it what it is under none: so under a drain
    // too where the core waited, since its own step was that drain.
    fn befalls(&self, event: Event) -> bool
        ensures { result ≡ befalls self.now event }
    {
        match event {
            Event::Abort(_) => self.was_open,
            Event::Drain => self.drains_apart,
        }
    }
}

impl Searching {
    // The opening state, which has this digest.
    fn opening(alloc: Global, digest: u64) -> Result<Searching, AllocError>
        ensures done { IfOk result (λ search. (trial : Trial) → HaveDone trial 1 search 0) }
        ensures newest { IfOk result AreNewest }
        ensures older { IfOk result (λ search. AreOlder search.nodes.items) }
        ensures digest { IfOk result (λ search. digest_at search.nodes.items 0 ≡ digest) }
    {
        let mut search = Searching {
            nodes: Vec::new(alloc),
            newest: HashMap::new(alloc),
            links: Vec::new(alloc),
            cores: Vec::new(alloc),
            found: Findings::new(alloc),
        };
        search.add(Node {
            parent: 0,
            steps: Vec::new(alloc),
            digest,
            older: None,
        })?;
        Ok(search)
    }

    // Adds a node, which is then the newest of its digest.
    fn add(&mut self, node: Node) -> Result<(), AllocError>
        requires { length self.old.nodes.items < 2 ^ 32 }
        ensures nodes { IfOk result (λ _. self.new.nodes.items ≡ self.old.nodes.items ++ node ∷ []) }
        ensures newest { IfOk result (λ _. Updates nat_eq self.old.newest self.new.newest node.digest
            (Some (length self.old.nodes.items))) }
        ensures links { self.new.links ≡ self.old.links }
        ensures found { self.new.found ≡ self.old.found }
    {
        let number = self.nodes.len() as u32;
        let digest = node.digest;
        self.nodes.push(node)?;
        self.newest.insert(digest, number)?;
        Ok(())
    }

    // Adds a link, a step of this core.
    fn join(&mut self, from: usize, to: usize, core: u8) -> Result<(), AllocError>
        requires from { from < 2 ^ 32 }
        requires to { to < 2 ^ 32 }
        ensures links { IfOk result (λ _. self.new.links.items
            ≡ self.old.links.items ++ record { from = from; to = to } ∷ []) }
        ensures nodes { self.new.nodes ≡ self.old.nodes }
        ensures newest { self.new.newest ≡ self.old.newest }
        ensures found { self.new.found ≡ self.old.found }
    {
        self.links.push(Link {
            from: from as u32,
            to: to as u32,
        })?;
        self.cores.push(core)?;
        Ok(())
    }

    // Takes up the state after a pick and the steps behind it that no other core sees, where it is new.
    fn follow(
        &mut self,
        task: &Task<'_>,
        bench: &mut Bench,
        index: usize,
        pick: Pick,
    ) -> Result<Followed, SearchFault>
        requires from { GoesOnFrom task.now.trial task.now.most self.old bench.old index }
        requires is_pick { IsPickOf task.now.trial pick }
        requires needed { IsNeededAt task.now.trial self.old.nodes.items index pick }
        ensures found { self.new.found ≡ self.old.found }
        ensures followed { IfOk result (λ r. HasFollowed task.now.trial task.now.most self.old self.new bench.new
            index pick.core (IsThis pick.event) r.progress) }
        ensures known { IfOk result (AreKnownAt task.now.trial self.old.nodes.items index pick.core) }
        ensures err { IfErr result (IsRefusal task.now.trial) }
    {
        bench.come_to(task, self.nodes.as_slice(), index)?;
        if bench.start.has_stopped(pick.core) && !bench.start.has_pending(pick.core) {
            // It stays where it is.
            self.join(index, index, pick.core)?;
            return Ok(Followed {
                progress: Progress::GoesOn,
                was_open: false,
                drains_apart: false,
            });
        }
        bench.set_out(task, self.nodes.as_slice(), index)?;
        self.follow_here(task, bench, index, pick)
    }

    // [`Searching::follow`], where the state that goes on stands at the node already.
    fn follow_here(
        &mut self,
        task: &Task<'_>,
        bench: &mut Bench,
        index: usize,
        pick: Pick,
    ) -> Result<Followed, SearchFault>
        requires from { GoesOnFrom task.now.trial task.now.most self.old bench.old index }
        requires here { StandsAtNode task.now.trial self.old.nodes.items bench.old.here index }
        requires is_pick { IsPickOf task.now.trial pick }
        requires needed { IsNeededAt task.now.trial self.old.nodes.items index pick }
        ensures found { self.new.found ≡ self.old.found }
        ensures followed { IfOk result (λ r. HasFollowed task.now.trial task.now.most self.old self.new bench.new
            index pick.core (IsThis pick.event) r.progress) }
        ensures known { IfOk result (AreKnownAt task.now.trial self.old.nodes.items index pick.core) }
        ensures err { IfErr result (IsRefusal task.now.trial) }
    {
        let was_open = bench.here.is_open(pick.core);
        let drains_apart = bench.here.drains_apart(pick.core);
        // Before the step: behind it the machine tells no more what it could store to.
        bench
            .noted
            .note(task.alloc, &bench.here.machine, pick.core)?;
        let steps = bench.here.advance(task.alloc, &task.trial, pick)?;
        let digest = bench.here.digest(&bench.noted);
        let old = self.newest.get(&digest).copied();
        if let Some(known) = bench.find(task, self.nodes.as_slice(), old)? {
            self.join(index, known, pick.core)?;
            return Ok(Followed {
                progress: Progress::GoesOn,
                was_open,
                drains_apart,
            });
        }
        // Only a state that is new counts against the limit.
        let most = task.most as usize;
        if self.nodes.len() >= most {
            return Ok(Followed {
                progress: Progress::IsCut,
                was_open,
                drains_apart,
            });
        }
        let number = self.nodes.len();
        self.join(index, number, pick.core)?;
        self.add(Node {
            parent: index as u32,
            steps,
            digest,
            older: old,
        })?;
        Ok(Followed {
            progress: Progress::GoesOn,
            was_open,
            drains_apart,
        })
    }
}

impl Searching {
    // Takes up the states after the next step of a core: one under none of these events, and one under each that
    // befalls it, but for a drain that its step is already. Under any other its step is what it is under none, and
    // leads nowhere else.
    fn follow_any(
        &mut self,
        task: &Task<'_>,
        bench: &mut Bench,
        index: usize,
        core: u8,
        events: &[Event],
    ) -> Result<Progress, SearchFault>
        requires from { GoesOnFrom task.now.trial task.now.most self.old bench.old index }
        requires is_core { core < length task.now.trial.program.now.entries }
        requires usual { usual_event task.now.trial.events ≡ None }
        requires allowed { (event : Option Event) → IsNoneOrOneOf events.now event →
            IsAllowed task.now.trial.events event }
        ensures found { self.new.found ≡ self.old.found }
        ensures followed { IfOk result (HasFollowed task.now.trial task.now.most self.old self.new bench.new
            index core (IsNoneOrOneOf events.now)) }
        ensures err { IfErr result (IsRefusal task.now.trial) }
    {
        let alone = Pick { core, event: None };
        let first = self.follow(task, bench, index, alone)?;
        let Progress::GoesOn = first.progress else {
            return Ok(Progress::IsCut);
        };
        for event in events {
            if first.befalls(*event) {
                let pick = Pick {
                    core,
                    event: Some(*event),
                };
                let followed = self.follow(task, bench, index, pick)?;
                let Progress::GoesOn = followed.progress else {
                    return Ok(Progress::IsCut);
                };
            }
        }
        Ok(Progress::GoesOn)
    }

    // Takes up the states after the next step of a core, under all that the trial says.
    fn follow_core(
        &mut self,
        task: &Task<'_>,
        bench: &mut Bench,
        index: usize,
        core: u8,
    ) -> Result<Progress, SearchFault>
        requires from { GoesOnFrom task.now.trial task.now.most self.old bench.old index }
        requires is_core { core < length task.now.trial.program.now.entries }
        ensures found { self.new.found ≡ self.old.found }
        ensures followed { IfOk result (HasFollowed task.now.trial task.now.most self.old self.new bench.new
            index core (IsAllowed task.now.trial.events)) }
        ensures err { IfErr result (IsRefusal task.now.trial) }
    {
        match task.trial.events {
            Events::Never => {
                let alone = Pick { core, event: None };
                Ok(self.follow(task, bench, index, alone)?.progress)
            }
            Events::May(events) => self.follow_any(task, bench, index, core, events),
            Events::Always(event) => {
                let under = Pick {
                    core,
                    event: Some(event),
                };
                Ok(self.follow(task, bench, index, under)?.progress)
            }
        }
    }
}

impl Searching {
    // Takes up what a state shows, and the states after the next step of each core.
    fn expand(
        &mut self,
        task: &Task<'_>,
        bench: &mut Bench,
        index: usize,
    ) -> Result<Progress, SearchFault>
        requires has_bench { HasBench task.now.trial self.old bench.old }
        requires within { index < length self.old.nodes.items }
        requires there { AreThere task.now.trial }
        requires done { HaveDone task.now.trial task.now.most self.old index }
        ensures goes_on { IfOk result (λ progress. progress ≡ Progress.GoesOn →
            HaveDone task.now.trial task.now.most self.new (index + 1)) }
        ensures cut { IfOk result (λ progress. progress ≡ Progress.IsCut →
            (length self.new.nodes.items ≡ task.now.most) × AreFindings task.now.trial self.new.found) }
        ensures has_bench { OnOk result (HasBench task.now.trial self.new bench.new) }
        ensures err { IfErr result (IsRefusal task.now.trial) }
    {
        self.found.show(task, bench, self.nodes.as_slice(), index)?;
        for core in 0..task.trial.program.cores() {
            let Progress::GoesOn = self.follow_core(task, bench, index, core)? else {
                return Ok(Progress::IsCut);
            };
        }
        Ok(Progress::GoesOn)
    }

    // What it came to where it is over. The map, which takes most of its memory, goes before the marks come.
    fn whole(self, task: &Task<'_>, bench: &mut Bench) -> Result<Search, SearchFault>
        requires nodes { AreNodesOf task.now.trial self.nodes.items }
        requires bench { IsBenchOf task.now.trial self.nodes.items bench.old }
        requires links { All (LiesWithin (length self.nodes.items)) self.links.items }
        requires ends { All (λ node. node < length self.nodes.items) self.found.ends.items }
        ensures ok { IfOk result (IsWholeOf task.now.trial self) }
        ensures err { IfErr result (IsRefusal task.now.trial) }
    {
        let Searching {
            nodes,
            newest,
            links,
            cores,
            found,
        } = self;
        drop(newest);
        let Findings {
            outcomes,
            ends,
            stops,
            violations,
            waited,
        } = found;
        let judged = Judged {
            nodes: nodes.as_slice(),
            links: links.as_slice(),
            cores: cores.as_slice(),
            ends: ends.as_slice(),
        };
        let verdict = verdict_of(task, bench, &judged)?;
        let Verdict { stuck, cycle } = verdict;
        Ok(Search {
            outcomes,
            states: nodes.len() as u32,
            is_cut: false,
            stuck,
            cycle,
            stops,
            violations,
            waited,
        })
    }

    // As [`Searching::whole`], where it was cut: its links are not judged.
    fn cut(self) -> Search
        requires { length self.nodes.items < 2 ^ 32 }
        ensures { IsCutOf self result }
    {
        let Searching {
            nodes,
            newest,
            links,
            cores,
            found,
        } = self;
        drop(newest);
        drop(links);
        drop(cores);
        let Findings {
            outcomes,
            ends,
            stops,
            violations,
            waited,
        } = found;
        drop(ends);
        Search {
            outcomes,
            states: nodes.len() as u32,
            is_cut: true,
            stuck: None,
            cycle: None,
            stops,
            violations,
            waited,
        }
    }
}

// A search that went on as far as it does, and whether it was cut.
struct Explored {
    search: Searching,
    progress: Progress,
}

// Takes up one state after another.
fn explore<W: Watching>(
    task: &Task<'_>,
    bench: &mut Bench,
    watching: &mut W,
) -> Result<Explored, SearchFault>
    requires bench { IsNewBench task.now.trial bench.old }
    requires there { AreThere task.now.trial }
    requires some { 1 ≤ task.now.most }
    ensures whole { IfOk result
        (λ explored. explored.progress ≡ Progress.GoesOn → IsOver task.now.trial task.now.most explored.search) }
    ensures cut { IfOk result (λ explored. explored.progress ≡ Progress.IsCut →
        (length explored.search.nodes.items ≡ task.now.most) × AreFindings task.now.trial explored.search.found) }
    ensures has_bench { IfOk result (λ explored. HasBench task.now.trial explored.search bench.new) }
    ensures err { IfErr result (IsRefusal task.now.trial) }
{
    let mut search = Searching::opening(task.alloc, bench.here.digest(&bench.noted))?;
    for index in 0..task.most {
        if index as usize >= search.nodes.len() {
            return Ok(Explored {
                search,
                progress: Progress::GoesOn,
            });
        }
        if index % STATES_BETWEEN == 0 {
            watching.at(search.nodes.len() as u32, index);
        }
        let Progress::GoesOn = search.expand(task, bench, index as usize)? else {
            return Ok(Explored {
                search,
                progress: Progress::IsCut,
            });
        };
    }
    Ok(Explored {
        search,
        progress: Progress::GoesOn,
    })
}

/// Searches all schedules whose steps come under what the trial says, breadth first, each state once, up to a limit on
/// states: 1 or more. Of a search that is not cut it is also known which states have no way to an end, and a cycle may
/// be told.
pub fn outcomes(alloc: Global, trial: &Trial<'_>, most: u32) -> Result<Search, SearchFault>
    requires there { AreThere trial.now }
    requires some { 1 ≤ most }
    ensures ok { IfOk result (IsSearch trial.now most) }
    ensures verdict { IfOk result (IsVerdict trial.now) }
    ensures err { IfErr result (IsRefusal trial.now) }
{
    outcomes_watched(alloc, trial, most, &mut Unwatched)
}

/// [`outcomes`], which tells on its way how far it is.
pub fn outcomes_watched<W: Watching>(
    alloc: Global,
    trial: &Trial<'_>,
    most: u32,
    watching: &mut W,
) -> Result<Search, SearchFault>
    requires there { AreThere trial.now }
    requires some { 1 ≤ most }
    ensures ok { IfOk result (IsSearch trial.now most) }
    ensures verdict { IfOk result (IsVerdict trial.now) }
    ensures err { IfErr result (IsRefusal trial.now) }
{
    let task = Task {
        alloc,
        trial: *trial,
        most,
    };
    let mut bench = Bench::new(alloc, trial)?;
    let explored = explore(&task, &mut bench, watching)?;
    let Explored { search, progress } = explored;
    let Progress::GoesOn = progress else {
        return Ok(search.cut());
    };
    let told = search.whole(&task, &mut bench)?;
    Ok(told)
}
