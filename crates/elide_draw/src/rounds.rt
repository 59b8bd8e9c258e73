//! Steps in which cores wait: PAUSE, and rounds of a loop that change no register and no memory.
//!
//! [`Rounds::tell`] comes behind each step that is described, once the timeline was told it. A round ends with a step
//! that goes back, and is forgotten at a step that stores or is not a plain one. Steps are told as waiting, and none is
//! left out: how they look is the timeline's.

ghost use Rattle.tm_timeline.specs.Told.{SameSteps};

use ia_insn::Op;
use ia_regs::Regs;
use ia_word::BareOp;
use tm_core::Machine;
use tm_model::{Outcome, Pick};
use tm_timeline::Timeline;
use tm_trace::{Before, Deed};

/// The most cores of a machine.
const CORES: usize = 64;

/// Where the round of a loop began that a core goes: its registers there, and the number of its step.
#[derive(Clone, Copy)]
struct Round {
    regs: Regs,
    step: u32,
}

/// A step that was made, with what was known of it before.
#[derive(Clone, Copy)]
pub struct MadeStep {
    /// Of which core, and under which event.
    pub pick: Pick,
    /// What it came to.
    pub outcome: Outcome,
    /// What was known before it, where it is described.
    pub before: Option<Before>,
}

/// The round of each core, while it stores nothing.
#[derive(Drop)]
pub struct Rounds {
    list: [Option<Round>; CORES],
}

impl Rounds {
    /// Of cores that have made no step.
    pub fn new() -> Rounds {
        Rounds {
            list: [None; CORES],
        }
    }

    /// Tells a timeline in which steps a core waited, behind a step that it was told: on PAUSE outside of transactions,
    /// and in each round of a loop outside of them that ended with the registers which it began with, and stored
    /// nothing.
    #[tactic(auto, using(crate::proofs::Telling::same_self, crate::proofs::Telling::same_more))]
    pub fn tell(&mut self, machine: &Machine, step: &MadeStep, deed: &Deed, timeline: &mut Timeline)
        ensures { SameSteps timeline.old timeline.new }
    {
        let core = step.pick.core;
        let index = usize::from(core);
        let Ok(regs) = machine.regs(core) else {
            return;
        };
        if index >= CORES {
            return;
        }
        if step.outcome != Outcome::Plain || deed.stored.is_some() {
            self.list[index] = None;
            return;
        }
        let next = timeline.next();
        tell_pause(core, deed, timeline);
        if regs.eip > deed.eip {
            return;
        }
        tell_round(core, self.list[index], &regs, timeline);
        self.list[index] = Some(Round { regs, step: next });
    }
}

// Tells that a core waited in its last step, where that was PAUSE.
#[tactic(auto, using(crate::proofs::Telling::same_self))]
fn tell_pause(core: u8, deed: &Deed, timeline: &mut Timeline)
    ensures { SameSteps timeline.old timeline.new }
{
    if is_pause(deed) {
        let next = timeline.next();
        timeline.waited(core, next.saturating_sub(1));
    }
}

// Tells that a core waited in a round that ends with these registers, where it began with them.
#[tactic(auto, using(crate::proofs::Telling::same_self))]
fn tell_round(core: u8, begun: Option<Round>, regs: &Regs, timeline: &mut Timeline)
    ensures { SameSteps timeline.old timeline.new }
{
    match begun {
        Some(round) if round.regs == *regs => timeline.waited(core, round.step),
        _ => {}
    }
}

fn is_pause(deed: &Deed) -> bool {
    match deed.insn {
        Some(insn) => matches!(insn.op, Op::Bare(BareOp::Pause)),
        None => false,
    }
}
