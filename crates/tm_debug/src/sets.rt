//! The answer to `sets`: the lines of a core's read set and write set.
//!
//! The whole line is made in memory before a byte of it is written, so that want of memory leaves no half of it.
//! Lines are told by their numbers, ascending; a core in no transaction has none.

ghost use Rattle.std.specs.Prelude.{◌≡◌, ◌∷◌, ◌++◌, ◌<◌, [], IfOk, OnOk, length};
ghost use Rattle.std.specs.FinSet as set;
ghost use Rattle.std.specs.List.Sorted.{IsStrictlyIncreasing};
ghost use Rattle.arrayvec.specs.ArrayVec.{array_vec_len};
ghost use Rattle.text_out.specs.Number.{hex_digits};
ghost use Rattle.text_out.specs.Writing.{Writes};
ghost use Rattle.tm_core.specs.Theorem.{lines_shown, view_at};
ghost use Rattle.tm_debug.specs.Session.{EndsAnswer, SetsAnswer, SetsOf, lines_text, value_of, sets_head};

use crate::answer::{core_of, refuse_core};
use crate::interruption::{Interruption, answer_result};
use crate::state::SessionState;
use std::alloc::{AllocError, Global};
use text_out::page::{Page, push, push_hex};
use text_out::text_line::{TextLine, push_number};
use text_out::{Out, WriteFault};
use tm_core::Machine;
use tm_hist::push_state;
use tm_model::CoreState;
use tm_sets::Kind;

// Adds the number of a line in hex, behind a space.
fn add_line(text: &mut Vec<u8>, line: u32) -> Result<(), AllocError>
    ensures { OnOk result (text.new.items ≡ text.old.items ++ (32 ∷ hex_digits line)) }
{
    let mut digits = Page::new();
    push_hex(&mut digits, line);
    text.extend_from_slice(b" ")?;
    text.extend_from_slice(digits.as_slice())
}

// Adds the numbers of lines, and a hyphen where there are none.
fn add_lines(text: &mut Vec<u8>, lines: &[u32]) -> Result<(), AllocError>
    ensures { OnOk result (text.new.items ≡ text.old.items ++ lines_text lines.now) }
{
    if lines.is_empty() {
        return text.extend_from_slice(b" -");
    }
    'lines: for index in 0..lines.len() {
        add_line(text, lines[index])?;
    }
    Ok(())
}

// What stands before the lines.
#[tactic(auto, unfolding(crate::specs::Session::sets_head))]
fn push_head(row: &mut TextLine, core: u8, state: CoreState)
    requires { array_vec_len row.old ≡ 0 }
    ensures { row.new.items ≡ row.old.items ++ sets_head core state }
{
    push(row, b"sets ");
    push_number(row, core);
    push(row, b" ");
    push_state(row, state);
    push(row, b" reads");
}

// The lines of one set, ascending.
fn lines_of(alloc: Global, machine: &Machine, core: u8, kind: Kind) -> Result<Vec<u32>, AllocError>
    requires { core < length machine.now.views }
    ensures ascending { IfOk result (λ lines. IsStrictlyIncreasing lines.items) }
    ensures shown { IfOk result (λ lines. set.from_list lines.items ≡ lines_shown (view_at machine.now core) kind) }
{
    match machine.sets(alloc, core, kind) {
        Ok(lines) => Ok(lines),
        Err(_) => Err(AllocError),
    }
}

// The whole line.
fn sets_line(alloc: Global, machine: &Machine, core: u8) -> Result<Vec<u8>, AllocError>
    requires { core < length machine.now.views }
    ensures { IfOk result (λ text. SetsOf machine.now core text.items) }
{
    let reads = lines_of(alloc, machine, core, Kind::Read)?;
    let writes = lines_of(alloc, machine, core, Kind::Write)?;
    let mut head = TextLine::new();
    push_head(&mut head, core, machine.state(core).unwrap());
    let mut text = Vec::from_slice(alloc, head.as_slice())?;
    add_lines(&mut text, reads.as_slice())?;
    text.extend_from_slice(b" writes")?;
    add_lines(&mut text, writes.as_slice())?;
    text.extend_from_slice(b"\n")?;
    Ok(text)
}

fn put_line<O: Out>(text: &[u8], out: &mut O) -> Result<(), WriteFault>
    ensures { Writes (O.device out.old) (O.device out.new) text.now result }
{
    out.put(text)?;
    Ok(())
}

/// The read set and the write set of a core.
pub fn sets<O: Out>(
    alloc: Global,
    state: &SessionState,
    core: u64,
    out: &mut O,
) -> Result<(), Interruption>
    ensures { EndsAnswer (SetsAnswer (value_of state.now) core) (O.device out.old) (O.device out.new)
        (value_of state.now) (value_of state.now) result }
{
    let Some(core) = core_of(state, core) else {
        return answer_result(refuse_core(state, out));
    };
    let text = sets_line(alloc, state.board.machine(), core)?;
    answer_result(put_line(text.as_slice(), out))
}
