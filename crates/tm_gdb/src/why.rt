//! The answer to `monitor why`: a line for each core whose next step is an abort.
//!
//! The history is made once more for a watch (`tm_why`), once for all cores; the board is not stepped. A line that
//! the text has no room for is left out.

use itoa::Buffer;
use std::alloc::{AllocError, Global};
use text_out::{Out, WriteFault};
use tm_hist::Board;
use tm_why::{reason_of, watched, write_reason};

/// Writes of each core whose next step is an abort why it is one, which hit doomed its transaction, and when that
/// began; steps are counted from 1. `AllocError`, where there was no memory to make the history once more.
pub fn write_reasons<O: Out>(alloc: Global, board: &Board, out: &mut O) -> Result<(), AllocError> {
    let watch = watched(alloc, board)?;
    'cores: for core in 0..board.machine().cores() {
        if let Some(reason) = reason_of(board, &watch, core) {
            let _ = write_reason(core, &reason, out);
        }
    }
    Ok(())
}

/// Writes a core's number.
pub fn write_core<O: Out>(core: u8, out: &mut O) -> Result<(), WriteFault> {
    out.put(b"core ")?;
    out.put(Buffer::new().format(core).as_bytes())?;
    Ok(())
}
