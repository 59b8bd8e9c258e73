//! The stores of each core that are pending, the oldest first.
//!
//! [`Stores::oldest`] is asked before a step, of the store that a drain in its place would make others see;
//! [`Stores::record`] comes behind it.

ghost use Rattle.std.specs.Prelude.{◌≡◌, ◌↔◌, ◌<◌, ℕ, [], IfOk, IsTrue, if◌then◌else◌, length, nat_eq, slice_set};
ghost use Rattle.std.specs.List.{slice_get};

use crate::change::{Change, MadeStore};
use crate::queues::{change_queue, start_queues};
use std::alloc::{AllocError, Global};
use std::marker::Model;

/// Of each core, the steps that made its pending stores.
#[derive(Drop)]
pub struct Stores {
    most: usize,
    // A queue for each core; where none may be pending, there is no queue.
    queues: Vec<Vec<MadeStore>>,
}

impl Model for Stores {
    ghost use Rattle.tm_stores.specs.Queues.{HaveRoom, ShownStores, queues_in};

    ghost Value = { ShownStores };

    ghost view = { λ stores. record { most = stores.most; queues = queues_in stores.queues.items } };

    ghost invariant = { λ stores. HaveRoom stores.most stores.queues.items };
}

impl Stores {
    ghost use Rattle.tm_stores.specs.Queues.{queue_at};
    ghost use Rattle.tm_stores.specs.Stores.{queue_after};

    /// Those of so many cores, of which none has a store pending. At most so many of a core may be; where that is none,
    /// nothing is reserved.
    pub fn new(alloc: Global, cores: u8, most: u32) -> Result<Stores, AllocError>
        ensures most { IfOk result (λ stores. stores.most ≡ most) }
        ensures count { IfOk result (λ stores. length stores.queues ≡ (if nat_eq most 0 then 0 else cores)) }
        ensures none { IfOk result (λ stores. (core : ℕ) → queue_at stores core ≡ []) }
    {
        let count = if most == 0 { 0 } else { cores };
        let queues = start_queues(alloc, count, most as usize)?;
        Ok(Stores {
            most: most as usize,
            queues,
        })
    }

    /// Whether a store may be pending at all.
    #[inline(always)]
    pub fn may_pend(&self) -> bool
        ensures { IsTrue result ↔ (0 < self.now.most) }
    {
        self.most != 0
    }

    /// The oldest store of a core that is pending, if one is.
    pub fn oldest(&self, core: u8) -> Option<MadeStore>
        ensures { result ≡ slice_get (queue_at self.now core) 0 }
    {
        match self.queues.get(usize::from(core)) {
            Some(queue) => queue.first().copied(),
            None => None,
        }
    }

    /// Takes in a step of a core. Takes no memory.
    pub fn record(&mut self, core: u8, change: Change)
        ensures { self.new ≡ record self.old {
          queues = slice_set self.old.queues core (queue_after self.old.most change (queue_at self.old core));
        } }
    {
        change_queue(&mut self.queues, self.most, core, change);
    }
}
