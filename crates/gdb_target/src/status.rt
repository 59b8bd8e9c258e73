//! The status of a core's last abort: [`last_status`].
//!
//! The history is gone through from its end, so that the time is that of the steps since then; a core that never
//! aborted costs the whole of it. What EAX holds now does not matter.

ghost use Rattle.std.specs.Prelude.{◌≡◌};
ghost use Rattle.std.specs.List.{slice_get};
ghost use Rattle.std.specs.Option.{option_and_then};
ghost use Rattle.tm_hist.specs.History.{pairs_of};
ghost use Rattle.gdb_target.specs.Shown.{last_status, own_status};

use tm_hist::{History, status_of};

// The status of the step at an index, where it is an abort of this core.
fn status_at(history: History, index: usize, core: u8) -> Option<u32>
    ensures { result ≡ option_and_then (own_status core) (slice_get (pairs_of history.entry) index) }
{
    match history.get(index) {
        Some((owner, outcome)) => {
            if owner == core {
                status_of(outcome)
            } else {
                None
            }
        }
        None => None,
    }
}

/// The status of a core's last abort in a history, and 0 before its first.
pub fn last_status(history: History, core: u8) -> u32
    ensures { result ≡ last_status core (pairs_of history.entry) }
{
    let mut index = history.len();
    'steps: while index > 0 {
        index -= 1;
        if let Some(status) = status_at(history, index, core) {
            return status;
        }
    }
    0
}
