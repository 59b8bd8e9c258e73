//! What `monitor` tells: [`monitor_text`], a text of fixed room.
//!
//! What has no room is left out, so that no answer is refused for its length; want of memory for the sets or the
//! history's reasons is handed on. An event is only told here: `answer` notes it for the next step. The words are
//! not promised.

use crate::target::Target;
use crate::text::Text;
use crate::why::{write_core, write_reasons};
use gdb_packet::Monitor;
use itoa::Buffer;
use std::alloc::{AllocError, Global};
use text_out::page::{Page, push, push_hex};
use text_out::{Out, WriteFault};
use tm_core::Machine;
use tm_hist::{interference_text, write_outcome, write_pending};
use tm_model::Event;
use tm_sets::Kind;

/// The text of a command of `monitor`, which ends where 8000 bytes are full. `AllocError`, where there was no memory
/// for the lines of a set, or to make the history once more.
pub fn monitor_text(alloc: Global, target: &Target, asked: Monitor) -> Result<Text, AllocError> {
    let mut text = Text::new();
    match asked {
        Monitor::Help => write_words(&mut text),
        Monitor::Why => write_reasons(alloc, &target.board, &mut text)?,
        Monitor::Sets => write_sets(alloc, target.board.machine(), &mut text)?,
        Monitor::Pending => {
            let _ = write_stores(target.board.machine(), &mut text);
        }
        Monitor::History(count) => {
            let _ = write_history(target, count, &mut text);
        }
        Monitor::Event(event) => {
            let _ = write_event(event, &mut text);
        }
        Monitor::Other => write_words(&mut text),
    }
    Ok(text)
}

// The words that there are, one a line.
fn write_words(text: &mut Text) {
    let _ = text.put(
        b"help             these lines\n\
why              why the next step of a core is an abort, where it is one\n\
sets             the lines that each core has read and written in its transaction\n\
pending          the stores of each core that are not in memory yet\n\
history N        the last N steps, 10 where N is left out\n\
event KIND       the next step comes under an interrupt, an eviction or a snoop\n\
drain            the next step is the drain of its core's oldest pending store\n",
    );
}

// The event that the next step comes under.
fn write_event<O: Out>(event: Event, out: &mut O) -> Result<(), WriteFault> {
    out.put(b"the next step comes under: ")?;
    out.put(event_text(event))?;
    out.put(b"\n")?;
    Ok(())
}

fn event_text(event: Event) -> &'static [u8] {
    match event {
        Event::Abort(by) => interference_text(by),
        Event::Drain => b"drain",
    }
}

// The stores of each core that are pending, a line each, or that there is none.
fn write_stores<O: Out>(machine: &Machine, out: &mut O) -> Result<(), WriteFault> {
    let mut has_none = true;
    for core in 0..machine.cores() {
        has_none = has_none && machine.pending(core).unwrap().is_empty();
        write_pending(machine, core, out)?;
    }
    if has_none {
        out.put(b"no store is pending\n")?;
    }
    Ok(())
}

// The lines of the sets of each core, by their addresses.
fn write_sets<O: Out>(alloc: Global, machine: &Machine, out: &mut O) -> Result<(), AllocError> {
    for core in 0..machine.cores() {
        let _ = write_core(core, out);
        write_set(alloc, machine, core, Kind::Read, out)?;
        write_set(alloc, machine, core, Kind::Write, out)?;
        let _ = out.put(b"\n");
    }
    Ok(())
}

fn write_set<O: Out>(
    alloc: Global,
    machine: &Machine,
    core: u8,
    kind: Kind,
    out: &mut O,
) -> Result<(), AllocError> {
    let Ok(lines) = machine.sets(alloc, core, kind) else {
        return Err(AllocError);
    };
    let _ = out.put(match kind {
        Kind::Read => b" reads",
        Kind::Write => b" writes",
    });
    let _ = write_lines(lines.as_slice(), out);
    Ok(())
}

fn write_lines<O: Out>(lines: &[u32], out: &mut O) -> Result<(), WriteFault> {
    if lines.is_empty() {
        out.put(b" -")?;
    }
    for line in lines {
        let mut digits = Page::new();
        push(&mut digits, b" ");
        push_hex(&mut digits, line.wrapping_mul(64));
        out.put(digits.as_slice())?;
    }
    Ok(())
}

// The last so many steps, each behind its number, 1 for the first.
fn write_history<O: Out>(target: &Target, count: u32, out: &mut O) -> Result<(), WriteFault> {
    let history = target.board.history();
    let made = history.len();
    for index in made.saturating_sub(count as usize)..made {
        if let Some((core, outcome)) = history.get(index) {
            out.put(
                Buffer::new()
                    .format((index as u64).saturating_add(1))
                    .as_bytes(),
            )?;
            out.put(b": ")?;
            write_outcome(core, &outcome, out)?;
        }
    }
    Ok(())
}
