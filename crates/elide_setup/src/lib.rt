//! What the commands that make a machine have in common: its program, its schedule, a board, and how they are
//! shown.
//!
//! Promised: the number and line of each fault and the exit status of a refusal; that the machine of a command is
//! that of a file with the cores, the memory and the limits of its options, what is printed of its memory is what
//! they ask for, and the steps of a run that a picture or a page takes are those of `--from` and `--to`; that the
//! steps of a listed schedule are those that the options or their file state, and that a walk makes them one after
//! another; that what is recorded of a walk is the list, or the schedule of the steps that were drawn as their
//! outcomes tell them; and what `show` writes of a machine. The order of faults is compared by `doc_tests`. Stands
//! on `elide_program`, and on the machine and its history (`tm_core`, `tm_hist`), whose clauses say what a machine
//! comes to.
#![tactic(auto)]

mod events;
mod extent;
mod fault;
mod history;
mod jobs;
mod keeper;
mod loaded;
mod machine;
mod opened;
mod own_drains;
mod paged;
mod picking;
mod plan;
mod recorded;
mod recording;
mod shown;
mod side_by_side;
mod told;
mod walk;

pub use events::{events_of, kinds_of};
pub use extent::Extent;
pub use fault::{Fault, Refusal};
pub use history::walk_history;
pub use jobs::jobs_of;
pub use loaded::LoadedFile;
pub use machine::{Setup, machine_like, new_board, new_machine, planned};
pub use opened::Opened;
pub use paged::{Paged, Pages, page_path};
pub use plan::{Course, Drawn, Plan, limit_of};
pub use recorded::{record, record_path};
pub use shown::{ShownMemory, show, shown_memory};
pub use told::{push_back, push_front, push_name};
pub use walk::{PORTION, StepMaker};
