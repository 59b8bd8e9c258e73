//! gdb's remote serial protocol: the framing of its packets, a reader that takes a byte at a time, and the commands
//! that packets tell.
//!
//! Promised: what [`write_packet`] writes is `$`, the escaped bytes, `#` and the two digits of the checksum; and what
//! [`Reader::hear`] tells partitions the bytes that it heard. It tells a packet only where the bytes since its `$` are
//! the packet of a text that stands for just these bytes, tells each other packet as damaged or too long, and drops
//! nothing. What [`read_command`] tells of a packet is what its letters write, by `IsToldBy` of `specs/Commands`: of
//! the letters `? g p m T D k G P M X s c b H Z z`, and of `vCont` with its actions. [`Actions::of`] gives the leftmost
//! action that names a thread, else the leftmost one without a thread. Each other packet is a question, of which
//! nothing more is promised. Stands on `text_out` (devices that are written to), `hex` and `tm_model` (events); takes
//! no memory.
#![tactic(auto)]

mod command;
mod framing;
mod heard;
mod monitor;
mod number;
mod parts;
mod query;
mod read;
mod reader;
mod resume;
mod settings;
mod unescape;

pub use command::{
    Action, Actions, Command, MOST_ACTIONS, Monitor, Move, Point, PointKind, Question, Setting,
    Span, ThreadAction,
};
pub use framing::{MOST_BYTES, write_packet};
pub use heard::{Bytes, Heard};
pub use read::read_command;
pub use reader::Reader;
