//! The option that says a schedule.

ghost use Rattle.std.specs.Prelude.{◌++◌, ◌∷◌, OnOk};
ghost use Rattle.std.specs.List.{flat_map};
ghost use Rattle.text_out.specs.Writing.{Wrote};
ghost use Rattle.tm_schedule.specs.Picks.{pick_word};
ghost use Rattle.elide_shell.specs.Options.{schedule_text, steps_option, steps_text};

use crate::step::step_word;
use crate::words::put_path;
use text_out::{Failed, Out};
use tm_model::Pick;

/// The most steps of a schedule that is printed in a command line.
pub const MOST_SHOWN: usize = 1000;

/// Writes the option that says a schedule, behind a space: its file, where it was recorded, and else its steps. Those
/// of more than 1,000 steps are told by the words that say how it is recorded.
pub fn put_schedule<O: Out>(path: Option<&str>, picks: &[Pick], out: &mut O) -> Result<(), Failed>
    ensures { OnOk result (Wrote (O.device out.old) (O.device out.new) (schedule_text path.entry picks.now)) }
{
    match path {
        Some(path) => {
            out.put(b" --schedule ")?;
            put_path(path, out)
        }
        None => put_steps(picks, out),
    }
}

// `put_schedule` of a schedule that was not recorded.
fn put_steps<O: Out>(picks: &[Pick], out: &mut O) -> Result<(), Failed>
    ensures { OnOk result (Wrote (O.device out.old) (O.device out.new) (steps_option picks.now)) }
{
    if picks.len() > MOST_SHOWN {
        return out.put(b" --schedule PATH, with the schedule that --record PATH writes");
    }
    out.put(b" --steps \"")?;
    put_words(picks, out)?;
    out.put(b"\"")
}

// Writes the words of the steps, with spaces between.
fn put_words<O: Out>(picks: &[Pick], out: &mut O) -> Result<(), Failed>
    ensures { OnOk result (Wrote (O.device out.old) (O.device out.new) (steps_text picks.now)) }
{
    let Some((first, rest)) = picks.split_first() else {
        return Ok(());
    };
    put_pick(b"", *first, out)?;
    put_more(rest, out)
}

// Writes them behind another one.
fn put_more<O: Out>(picks: &[Pick], out: &mut O) -> Result<(), Failed>
    ensures { OnOk result (Wrote (O.device out.old) (O.device out.new)
        (flat_map (λ pick. 32 ∷ pick_word pick) picks.now)) }
{
    for pick in picks {
        put_pick(b" ", *pick, out)?;
    }
    Ok(())
}

// Writes the word of a step.
fn put_pick<O: Out>(between: &[u8], pick: Pick, out: &mut O) -> Result<(), Failed>
    ensures { OnOk result (Wrote (O.device out.old) (O.device out.new) (between.now ++ pick_word pick)) }
{
    let word = step_word(pick);
    out.put(between)?;
    out.put(word.as_str().as_bytes())
}
