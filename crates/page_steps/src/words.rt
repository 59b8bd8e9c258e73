//! What a step was, and what a core does, in words: [`kind_letter`] and [`write_state`].
//!
//! A letter says no more than the kind of an outcome: why a core stopped is part of its state, and what aborted
//! from outside a member of its own. The words of states are those of `tm_hist`, as the debugger prints them.

ghost use Rattle.std.specs.Prelude.{◌≡◌, OnOk};
ghost use Rattle.text_out.specs.Writing.{Wrote};
ghost use Rattle.page_steps.specs.Words.{letter_of, quoted_state};

use text_out::page::push;
use text_out::text_line::TextLine;
use text_out::{Out, WriteFault};
use tm_hist::push_state;
use tm_model::{CoreState, Outcome};

/// The letter of what a step was.
pub fn kind_letter(outcome: Outcome) -> &'static [u8]
    ensures { result.now ≡ letter_of outcome }
{
    match outcome {
        Outcome::Plain => b"p",
        Outcome::Loaded => b"l",
        Outcome::Stopped(_) => b"s",
        Outcome::Idle => b"z",
        Outcome::Begun => b"b",
        Outcome::Inside => b"i",
        Outcome::Committed => b"c",
        Outcome::Aborted(_) => b"a",
        Outcome::AbortedBy(_, _) => b"e",
        Outcome::Drained => b"d",
    }
}

/// Writes what a core does, as the debugger prints it, as a string. On 5 `Write` a beginning of it was written.
pub fn write_state<O: Out>(state: CoreState, out: &mut O) -> Result<(), WriteFault>
    ensures { OnOk result (Wrote (O.device out.old) (O.device out.new) (quoted_state state)) }
{
    let mut row = TextLine::new();
    push(&mut row, b"\"");
    push_state(&mut row, state);
    push(&mut row, b"\"");
    out.put(row.as_slice())?;
    Ok(())
}
