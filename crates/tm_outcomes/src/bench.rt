//! The machines that a search works with: three, made once.
//!
//! [`Bench::come_to`] brings `start` to the node that is gone on from, once for all of its steps, and
//! [`Bench::set_out`] copies it to `here`, which makes one of them. [`Bench::find`] then brings `other` to each
//! node of the same digest, until one is alike. The list of lines that may differ belongs to all three.

ghost use Rattle.std.specs.Prelude.{◌≡◌, ◌<◌, ℕ, IfErr, IfOk, IfSome, IsTrue, None, OnOk, false, length};
ghost use Rattle.tm_outcomes.specs.Digests.{digest_by};
ghost use Rattle.tm_outcomes.specs.Following.{IsNewBench};
ghost use Rattle.tm_outcomes.specs.Kept.{AreApart, IsNewest, IsOther};
ghost use Rattle.tm_outcomes.specs.Nodes.{AreNodesOf, IsFound, StandsAtNode};
ghost use Rattle.tm_outcomes.specs.Outcomes.{IsRefusal};
ghost use Rattle.tm_outcomes.specs.Written.{IsBenchOf};

use crate::fault::SearchFault;
use crate::nodes::{Node, place_of};
use crate::place::Place;
use crate::task::Task;
use crate::trial::Trial;
use crate::written::Written;
use std::alloc::Global;

/// Three places, which are taken back before the first step in place of a new one for each state that is looked at.
#[derive(Drop)]
pub struct Bench {
    /// The state of a node.
    pub start: Place,
    /// The node at which it stands, where that is known.
    pub at: Option<usize>,
    /// The state that goes on from there.
    pub here: Place,
    /// A state that may be the same.
    pub other: Place,
    /// The lines that steps store to.
    pub noted: Written,
}

impl Bench {
    /// Three places of a trial before its first step.
    pub fn new(alloc: Global, trial: &Trial<'_>) -> Result<Bench, SearchFault>
        ensures ok { IfOk result (IsNewBench trial.now) }
        ensures err { IfErr result (IsRefusal trial.now) }
    {
        let start = Place::opening(alloc, trial)?;
        let here = Place::opening(alloc, trial)?;
        let other = Place::opening(alloc, trial)?;
        let noted = Written::new(alloc, trial)?;
        Ok(Bench {
            start,
            at: None,
            here,
            other,
            noted,
        })
    }

    /// Brings the state of a node to this one, where it is not there.
    pub fn come_to(
        &mut self,
        task: &Task<'_>,
        nodes: &[Node],
        index: usize,
    ) -> Result<(), SearchFault>
        requires bench { IsBenchOf task.now.trial nodes.now self.old }
        requires within { index < length nodes.now }
        requires nodes { AreNodesOf task.now.trial nodes.now }
        ensures bench { OnOk result (IsBenchOf task.now.trial nodes.now self.new) }
        ensures start { OnOk result (StandsAtNode task.now.trial nodes.now self.new.start index) }
        ensures noted { self.new.noted ≡ self.old.noted }
        ensures err { IfErr result (IsRefusal task.now.trial) }
    {
        if self.at == Some(index) {
            return Ok(());
        }
        place_of(task, nodes, index, &self.noted, &mut self.start)?;
        self.at = Some(index);
        Ok(())
    }

    /// Brings the state that goes on to the node at which that of a node stands: by a copy, which costs a small part of
    /// what a run of the node's schedule does.
    pub fn set_out(
        &mut self,
        task: &Task<'_>,
        nodes: &[Node],
        index: usize,
    ) -> Result<(), SearchFault>
        requires bench { IsBenchOf task.now.trial nodes.now self.old }
        requires start { StandsAtNode task.now.trial nodes.now self.old.start index }
        requires within { index < length nodes.now }
        requires nodes { AreNodesOf task.now.trial nodes.now }
        ensures bench { OnOk result (IsBenchOf task.now.trial nodes.now self.new) }
        ensures here { OnOk result (StandsAtNode task.now.trial nodes.now self.new.here index) }
        ensures noted { self.new.noted ≡ self.old.noted }
        ensures err { IfErr result (IsRefusal task.now.trial) }
    {
        if self.here.copy(&self.start, &self.noted) {
            return Ok(());
        }
        place_of(task, nodes, index, &self.noted, &mut self.here)?;
        Ok(())
    }
}

impl Bench {
    // Whether a node goes on as the state does that went on.
    fn is_there(
        &mut self,
        task: &Task<'_>,
        nodes: &[Node],
        index: usize,
    ) -> Result<bool, SearchFault>
        requires bench { IsBenchOf task.now.trial nodes.now self.old }
        requires within { index < length nodes.now }
        requires nodes { AreNodesOf task.now.trial nodes.now }
        ensures bench { IsBenchOf task.now.trial nodes.now self.new }
        ensures here { self.new.here ≡ self.old.here }
        ensures noted { self.new.noted ≡ self.old.noted }
        ensures ok { IfOk result (λ is_there. IsTrue is_there → IsFound task.now.trial nodes.now self.old.here index) }
        ensures other { IfOk result (λ is_there. is_there ≡ false →
            IsOther task.now.trial nodes.now self.old.here index) }
        ensures err { IfErr result (IsRefusal task.now.trial) }
    {
        if self.at == Some(index) {
            return Ok(self.here.is_alike(&self.start, &self.noted));
        }
        place_of(task, nodes, index, &self.noted, &mut self.other)?;
        Ok(self.here.is_alike(&self.other, &self.noted))
    }

    /// The node that goes on as the state does that went on, where there is one. It is looked for among those with this
    /// digest, which are reached from the newest of them.
    pub fn find(
        &mut self,
        task: &Task<'_>,
        nodes: &[Node],
        newest: Option<u32>,
    ) -> Result<Option<usize>, SearchFault>
        requires bench { IsBenchOf task.now.trial nodes.now self.old }
        requires nodes { AreNodesOf task.now.trial nodes.now }
        requires apart { AreApart task.now.trial nodes.now self.old.noted }
        requires newest { IsNewest nodes.now (digest_by self.old.noted self.old.here) (length nodes.now) newest }
        ensures bench { IsBenchOf task.now.trial nodes.now self.new }
        ensures here { self.new.here ≡ self.old.here }
        ensures noted { self.new.noted ≡ self.old.noted }
        ensures ok { IfOk result (λ found. IfSome found (IsFound task.now.trial nodes.now self.old.here)) }
        ensures none { IfOk result (λ found. found ≡ None → (index : ℕ) → index < length nodes.now →
            IsOther task.now.trial nodes.now self.old.here index) }
        ensures err { IfErr result (IsRefusal task.now.trial) }
    {
        let mut candidate = newest;
        'nodes: while let Some(index) = candidate {
            let index = index as usize;
            if self.is_there(task, nodes, index)? {
                return Ok(Some(index));
            }
            candidate = nodes[index].older;
        }
        Ok(None)
    }
}
