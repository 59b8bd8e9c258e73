//! The loop that a run comes to, as a line of its own: how long it is, where it begins, and its steps.
//!
//! [`put_cycle`] writes nothing where none was found, and no steps where they are more than 64. It was found by
//! `tm_hunt`, in `command`; in an object it is `sending`'s.

ghost use Rattle.std.specs.Prelude.{◌≡◌, ◌≤◌, ◌++◌, OnOk};
ghost use Rattle.std.specs.List.{flat_map};
ghost use Rattle.arrayvec.specs.ArrayVec.{array_vec_len};
ghost use Rattle.text_out.specs.Writing.{Wrote};
ghost use Rattle.elide_hunt.specs.Cycles.{cycle_front, cycle_text, from_text, loop_text, told_loop, word_text};
ghost use Rattle.tm_hunt.specs.Cycle.{loop_of};

use crate::report::HuntLine;
use elide_shell::step_word;
use text_out::page::{push, push_decimal};
use text_out::{Failed, Out};
use tm_hunt::Cycle;
use tm_model::Pick;

/// The most steps of a loop that are told.
pub const MOST_TOLD: usize = 64;

/// Writes the loop of a run of these steps on a line of its own, where there is one.
pub fn put_cycle<O: Out>(cycle: Option<Cycle>, picks: &[Pick], out: &mut O) -> Result<(), Failed>
    ensures { OnOk result (Wrote (O.device out.old) (O.device out.new) (cycle_text picks.now cycle)) }
{
    match cycle {
        Some(cycle) => put_told(cycle, picks, out),
        None => Ok(()),
    }
}

// Writes the line of a loop.
fn put_told<O: Out>(cycle: Cycle, picks: &[Pick], out: &mut O) -> Result<(), Failed>
    ensures { OnOk result (Wrote (O.device out.old) (O.device out.new) (told_loop cycle (loop_of picks.now cycle))) }
{
    put_front(cycle, out)?;
    put_steps(cycle.steps_of(picks), out)?;
    out.put(b"\n")
}

// Writes how many steps it has, and how many come before it.
fn put_front<O: Out>(cycle: Cycle, out: &mut O) -> Result<(), Failed>
    ensures { OnOk result (Wrote (O.device out.old) (O.device out.new) (cycle_front cycle)) }
{
    let mut line = HuntLine::new();
    push_cycle(&mut line, cycle);
    out.put(line.as_slice())
}

#[tactic(auto, unfolding(crate::specs::Cycles::cycle_front))]
fn push_cycle(line: &mut HuntLine, cycle: Cycle)
    requires { array_vec_len line.old ≡ 0 }
    ensures { line.new.items ≡ line.old.items ++ cycle_front cycle }
{
    push(line, b"cycle of ");
    push_decimal(line, cycle.steps as u64);
    push(line, b" steps ");
    push_from(line, cycle.start);
}

// Adds where it begins.
fn push_from(line: &mut HuntLine, start: usize)
    requires { array_vec_len line.old ≤ 64 }
    ensures { line.new.items ≡ line.old.items ++ from_text start }
{
    if start == 0 {
        push(line, b"from the start");
    } else {
        push(line, b"behind the first ");
        push_decimal(line, start as u64);
    }
}

// Writes the steps, where they are few.
fn put_steps<O: Out>(steps: &[Pick], out: &mut O) -> Result<(), Failed>
    ensures { OnOk result (Wrote (O.device out.old) (O.device out.new) (loop_text steps.now)) }
{
    if steps.len() > MOST_TOLD {
        return Ok(());
    }
    out.put(b":")?;
    put_words(steps, out)
}

// Writes their words, each behind a space.
fn put_words<O: Out>(steps: &[Pick], out: &mut O) -> Result<(), Failed>
    ensures { OnOk result (Wrote (O.device out.old) (O.device out.new) (flat_map word_text steps.now)) }
{
    for pick in steps {
        put_word(*pick, out)?;
    }
    Ok(())
}

fn put_word<O: Out>(pick: Pick, out: &mut O) -> Result<(), Failed>
    ensures { OnOk result (Wrote (O.device out.old) (O.device out.new) (word_text pick)) }
{
    let word = step_word(pick);
    out.put(b" ")?;
    out.put(word.as_str().as_bytes())
}
