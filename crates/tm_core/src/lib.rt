//! The machine: IA-32 cores over one flat memory, with Intel's restricted transactional memory.
//!
//! What it promises stands on one page, `specs/Theorem.antt`, in the words of `tm_model`: it stands for a state of
//! one flat memory with its doomed cores, and each step is the owed one of that memory, on which each committed
//! transaction ran alone at its XEND. `Machine` is that promise's type, over any sets that keep the laws of
//! `tm_sets`. What serves the proofs alone is named for it: `specs/StepRefinement.antt` (a step on what is shown),
//! `specs/Representation.antt` (how a core's parts show it), `specs/ExplainedViews.antt` (the same of a hit, of the
//! reason of an abort and of the bytes of a step), `specs/AtOnce.antt` (a transaction that runs at once),
//! `specs/Machine.antt` (the machine as one value) and `specs/Stepping.antt` (what the calls that make a step ask of
//! each other).
//!
//! A step is explained by calls that are asked before it, and that change nothing: `Machine::preview` (which bytes it
//! loads and stores, and why it is an abort), `Machine::hit_by` (whom a previewed step hits, on which line),
//! `Machine::hit_by_drain` (whom the drain of a core's oldest store hits),
//! `Machine::may_hit` (whether it may hit anybody) and `Machine::counts` (how large the sets are). `Machine::seen`
//! tells a byte of memory as a core sees it, `Machine::kept` the value between the two steps of an instruction, and
//! `Machine::is_core_alike` whether another machine shows a core as this one.
//!
//! `Machine::step_under` makes a step under an event: an abort from outside of the program, which hardware may do at
//! any time. All other calls make steps under none, and promise that they tell of no such abort; and what is asked
//! before a step speaks of the step under none.
//!
//! `Machine::transact` makes the steps of a whole transaction as one, where no other core steps between: on memory in
//! place where no core is open (`tm_whole`), and else its instructions run on registers alone, and its stores go to
//! memory at its XEND. Its proof goes by the isolated body of `tm_model`, which is what it runs (`specs/AtOnce.antt`).
//! `Machine::steps_on_registers` makes as many steps outside of transactions as touch no memory, which no other core
//! sees. `Machine::steps_alone` makes steps of any kind of one core, one behind the other, as one call: in place where
//! no other core sees them (`specs/InPlace.antt`), and else as the two calls above and as `Machine::step`.
//!
//! Each core has a store buffer, of which a machine is first looked at without (`unbuffered`). Where stores may be
//! pending, a step goes by what it comes to on memory as its core sees it (`ahead`): it is made on that memory, over
//! which the pending stores are laid for its time (`laid`), or its store is pending from then on, or it waits and is
//! the drain of the oldest (`store_buffer`, `specs/StoreBuffers.antt`, `specs/Buffered.antt`). `Machine::pending` tells
//! the stores of a core that are pending, and `Machine::ahead` what its next step does with them (`buffering`).
//!
//! Stands on `tm_rule` (one instruction), `tm_status`, `tm_sets` (read and write sets), `tm_buffer` (a transaction's
//! bytes) and `ia_image` (programs). Memory is asked for only where a machine is made and by the answers of `run` and
//! `sets`; `Machine::reopen` takes a machine back before its first step in place of a new one, and
//! `Machine::reopen_lines` by the lines of memory that may have changed (`specs/Reopening.antt`). `Machine::copy_lines`
//! makes it as another machine of the same program is.
#![tactic(auto)]

mod ahead;
mod alike;
mod alone;
mod body;
mod boundary;
mod buffered_steps;
mod buffering;
mod conflict;
mod copy_lines;
mod counts;
mod cpu;
mod explain_hit;
mod explain_laws;
mod explain_reason;
mod fault;
mod fences;
mod foretell;
mod foretell_line;
mod foretell_pending;
mod in_place;
mod laid;
mod laws;
mod limits;
mod machine;
mod on_registers;
mod opening;
mod pending;
mod preview;
mod reopen;
mod reopen_lines;
mod seen;
mod seen_memory;
mod start;
mod step;
mod steps_alone;
mod store_buffer;
mod store_rows;
mod touches;
mod transact;
mod transaction;
mod two_steps;
mod unbuffered;
mod under;
mod usual;

pub use buffering::{Buffering, Wait};
pub use explain_laws::{hits_condemn, reasons_are_of_aborts};
pub use fault::{MachineFault, NoSuchCore, RunFault};
pub use laws::transactions_are_as_they_went;
pub use limits::Limits;
pub use machine::Machine;
pub use opening::MachineMemory;
pub use preview::Preview;
pub use start::{opening_memory, start_regs};
pub use two_steps::takes_two_steps;
