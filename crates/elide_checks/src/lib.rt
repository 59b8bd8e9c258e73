//! What is asked of a search for a bad schedule: its checks, and which runs it makes.
//!
//! Promised: the checks are those that the options say, in their order (`specs/Checks.antt`): each condition the
//! comparisons and bytes of its text (`specs/Conditions.antt`), each side of a comparison the item of its words
//! (`specs/Items.antt`, `specs/Counts.antt`), in which the names that a source gives by `equ` are numbers and all
//! others labels (`specs/Constants.antt`); those of a search over all schedules are such, but for the counts of a run,
//! which are refused (`specs/Ends.antt`); and the runs, their events, the method and the threads are those that the
//! options say (`specs/Runs.antt`). A text is refused only where it says nothing by these rules, as a text does whose
//! parts are no clauses and whose words no items (`specs/Misread.antt`; that none is both is proved where each sum says
//! one thing); an option only where it is misread, and by its name (`specs/Refused.antt`). Which of several faults is
//! told, and where a text that is no condition is at fault, is compared by `doc_tests`. Stands on `elide_setup`, on
//! `ia_source`, which reads a source's names once more, and on `tm_check`, whose checks it makes.
#![tactic(auto)]

mod adding;
mod bytes;
mod conditions;
mod constants;
mod counts;
mod cut;
mod demands;
mod ends;
mod items;
mod misread;
mod orders;
mod reach;

pub use counts::core_of;
pub use demands::{Demands, stop_of};
pub use ends::EndChecks;
pub use items::register_named;
pub use misread::{Misread, Wanted, first_misread};
pub use orders::Orders;
