//! What is printed of a search over all schedules, as lines; `object` has the same as JSON.
//!
//! [`sort`] comes first, and then [`tell`]: the words of `--show`, the outcomes, the checks that are violated, the
//! stops, states without a way to an end, a cycle, and the counts, which say whether the search was cut. All but
//! the counts are left out where they are not asked for or not there. Where it was not cut, and a step waited for room
//! among the stores that are pending, a last line says so.

ghost use Rattle.std.specs.Prelude.{◌≡◌, ◌++◌, OnOk, codes, length, true};
ghost use Rattle.std.specs.List.{flat_map};
ghost use Rattle.arrayvec.specs.ArrayVec.{array_vec_len};
ghost use Rattle.text_out.specs.Number.{eight_digits};
ghost use Rattle.text_out.specs.Writing.{Wrote, Writes};
ghost use Rattle.std.specs.Fmt.{decimal};
ghost use Rattle.elide_args.specs.Asked.{texts_of};
ghost use Rattle.elide_outcomes.specs.Lines.{AreInOrder, count_line, counts_text, cut_text, cycle_line, cycle_lines};
ghost use Rattle.elide_outcomes.specs.Lines.{cycle_text};
ghost use Rattle.elide_outcomes.specs.Lines.{ends_text, has_words};
ghost use Rattle.elide_outcomes.specs.Lines.{item_text, outcome_line, outcome_lines, room_line, search_text};
ghost use Rattle.elide_outcomes.specs.Lines.{shown_lines, states_text, step_text, stop_line};
ghost use Rattle.elide_outcomes.specs.Lines.{stop_lines, stuck_line, stuck_lines, stuck_text, wayless_text};

use crate::names::label_at;
use crate::naming::{tell_items, tell_name};
use crate::violated::tell_violations;
use elide_args::OutcomesOptions;
use elide_shell::step_word;
use itoa::Buffer;
use symbols::Symbol;
use text_out::page::{push, push_eight};
use text_out::text_line::TextLine;
use text_out::{Out, WriteFault};
use tm_hist::stop_text;
use tm_model::Pick;
use tm_outcomes::{Cycle, FoundOutcome, ReachedStop, Search, Stuck};

/// Puts outcomes in the order of their values.
pub fn sort(outcomes: &mut Vec<FoundOutcome>)
    ensures { AreInOrder outcomes.old.items outcomes.new.items }
{
    outcomes.sort_unstable_by(|left, right| left.values.cmp(&right.values));
}

/// Prints the outcomes of a search, a line each, below them what is wrong, and then how many there are. Outcomes are
/// told where something is shown of them, by the words of `--show`; labels by the names of their addresses.
pub fn tell<O: Out>(
    options: &OutcomesOptions<'_>,
    words: &[&str],
    labels: &[Symbol],
    search: &Search,
    out: &mut O,
) -> Result<(), WriteFault>
    ensures { OnOk result (Wrote (O.device out.old) (O.device out.new)
        (search_text options.now (texts_of words.now) labels.now search.now)) }
{
    let shows = has_words(words);
    tell_items(options.shows_names, words, out)?;
    tell_shown(shows, labels, search.outcomes.as_slice(), out)?;
    tell_violations(options, search.violations.as_slice(), out)?;
    tell_stops(search.stops.as_slice(), out)?;
    tell_stuck(options.asks_stuck, &search.stuck, out)?;
    tell_cycle(options.asks_stuck, &search.cycle, out)?;
    tell_counts(shows, search, out)?;
    out.put(room_words(search.is_cut, search.waited))?;
    Ok(())
}

// Whether something is shown.
fn has_words(words: &[&str]) -> bool
    ensures { result ≡ has_words (texts_of words.now) }
{
    match words {
        [] => false,
        [_, ..] => true,
    }
}

// The line of each outcome, where something is shown of them.
fn tell_shown<O: Out>(
    shows: bool,
    labels: &[Symbol],
    outcomes: &[FoundOutcome],
    out: &mut O,
) -> Result<(), WriteFault>
    ensures { OnOk result (Wrote (O.device out.old) (O.device out.new)
        (shown_lines shows labels.now outcomes.now)) }
{
    if shows {
        tell_outcomes(labels, outcomes, out)
    } else {
        Ok(())
    }
}

// The line of each outcome.
fn tell_outcomes<O: Out>(
    labels: &[Symbol],
    outcomes: &[FoundOutcome],
    out: &mut O,
) -> Result<(), WriteFault>
    ensures { OnOk result (Wrote (O.device out.old) (O.device out.new) (outcome_lines labels.now outcomes.now)) }
{
    for told in outcomes {
        tell_outcome(labels, told, out)?;
    }
    Ok(())
}

// The values, how many states show them, and the steps of a schedule.
fn tell_outcome<O: Out>(
    labels: &[Symbol],
    told: &FoundOutcome,
    out: &mut O,
) -> Result<(), WriteFault>
    ensures { OnOk result (Wrote (O.device out.old) (O.device out.new) (outcome_line labels.now told.now)) }
{
    tell_values(labels, told.values.as_slice(), out)?;
    tell_ends(told.ends, out)?;
    tell_steps(told.schedule.as_slice(), out)?;
    out.put(b"\n")?;
    Ok(())
}

fn tell_values<O: Out>(labels: &[Symbol], values: &[u32], out: &mut O) -> Result<(), WriteFault>
    ensures { OnOk result (Wrote (O.device out.old) (O.device out.new) (flat_map (item_text labels.now) values.now)) }
{
    for value in values {
        tell_value(labels, *value, out)?;
    }
    Ok(())
}

// A value, with the name of the label at it where there is one, and a space.
fn tell_value<O: Out>(labels: &[Symbol], value: u32, out: &mut O) -> Result<(), WriteFault>
    ensures { OnOk result (Wrote (O.device out.old) (O.device out.new) (item_text labels.now value)) }
{
    tell_digits(value, out)?;
    tell_name(label_at(labels, value), out)?;
    out.put(b" ")?;
    Ok(())
}

fn tell_digits<O: Out>(value: u32, out: &mut O) -> Result<(), WriteFault>
    ensures { Writes (O.device out.old) (O.device out.new) (eight_digits value) result }
{
    let mut row = TextLine::new();
    push_eight(&mut row, value);
    out.put(row.as_slice())?;
    Ok(())
}

fn tell_ends<O: Out>(ends: u32, out: &mut O) -> Result<(), WriteFault>
    ensures { Writes (O.device out.old) (O.device out.new) (ends_text ends) result }
{
    let mut digits = Buffer::new();
    let mut row = TextLine::new();
    push(&mut row, b" ");
    push(&mut row, digits.format(ends).as_bytes());
    push(&mut row, b" ");
    out.put(row.as_slice())?;
    Ok(())
}

/// The steps of a schedule, with a space before each.
pub fn tell_steps<O: Out>(picks: &[Pick], out: &mut O) -> Result<(), WriteFault>
    ensures { OnOk result (Wrote (O.device out.old) (O.device out.new) (flat_map step_text picks.now)) }
{
    for pick in picks {
        tell_step(*pick, out)?;
    }
    Ok(())
}

fn tell_step<O: Out>(pick: Pick, out: &mut O) -> Result<(), WriteFault>
    ensures { OnOk result (Wrote (O.device out.old) (O.device out.new) (step_text pick)) }
{
    let word = step_word(pick);
    out.put(b" ")?;
    out.put(word.as_str().as_bytes())?;
    Ok(())
}

// The line of each stop that was looked for and found.
fn tell_stops<O: Out>(stops: &[ReachedStop], out: &mut O) -> Result<(), WriteFault>
    ensures { OnOk result (Wrote (O.device out.old) (O.device out.new) (stop_lines stops.now)) }
{
    for told in stops {
        tell_stop(told, out)?;
    }
    Ok(())
}

// The reason, and the steps of a schedule.
fn tell_stop<O: Out>(told: &ReachedStop, out: &mut O) -> Result<(), WriteFault>
    ensures { OnOk result (Wrote (O.device out.old) (O.device out.new) (stop_line told.now)) }
{
    out.put(b"stop  ")?;
    out.put(stop_text(told.why))?;
    out.put(b" ")?;
    tell_steps(told.schedule.as_slice(), out)?;
    out.put(b"\n")?;
    Ok(())
}

// The line of states without a way to an end, where it is asked for.
fn tell_stuck<O: Out>(
    asks_stuck: bool,
    stuck: &Option<Stuck>,
    out: &mut O,
) -> Result<(), WriteFault>
    ensures { OnOk result (Wrote (O.device out.old) (O.device out.new) (stuck_lines asks_stuck stuck.now)) }
{
    if asks_stuck {
        tell_stuck_states(stuck, out)
    } else {
        Ok(())
    }
}

// That line, where there are such.
fn tell_stuck_states<O: Out>(stuck: &Option<Stuck>, out: &mut O) -> Result<(), WriteFault>
    ensures { OnOk result (Wrote (O.device out.old) (O.device out.new) (stuck_text stuck.now)) }
{
    match stuck {
        Some(stuck) => tell_stuck_line(stuck, out),
        None => Ok(()),
    }
}

// How many there are, and the steps of a schedule.
fn tell_stuck_line<O: Out>(stuck: &Stuck, out: &mut O) -> Result<(), WriteFault>
    ensures { OnOk result (Wrote (O.device out.old) (O.device out.new) (stuck_line stuck.now)) }
{
    out.put(b"stuck ")?;
    tell_ends(stuck.states, out)?;
    tell_steps(stuck.schedule.as_slice(), out)?;
    out.put(b"\n")?;
    Ok(())
}

// The line of states from which all cores can go on for ever though they need not, where it is asked for.
fn tell_cycle<O: Out>(
    asks_stuck: bool,
    cycle: &Option<Cycle>,
    out: &mut O,
) -> Result<(), WriteFault>
    ensures { OnOk result (Wrote (O.device out.old) (O.device out.new) (cycle_lines asks_stuck cycle.now)) }
{
    if asks_stuck {
        tell_cycle_states(cycle, out)
    } else {
        Ok(())
    }
}

// That line, where there are such.
fn tell_cycle_states<O: Out>(cycle: &Option<Cycle>, out: &mut O) -> Result<(), WriteFault>
    ensures { OnOk result (Wrote (O.device out.old) (O.device out.new) (cycle_text cycle.now)) }
{
    match cycle {
        Some(cycle) => tell_cycle_line(cycle, out),
        None => Ok(()),
    }
}

// How many there are, the steps of a schedule, and behind a bar the steps that can be made for ever.
fn tell_cycle_line<O: Out>(cycle: &Cycle, out: &mut O) -> Result<(), WriteFault>
    ensures { OnOk result (Wrote (O.device out.old) (O.device out.new) (cycle_line cycle.now)) }
{
    out.put(b"cycle ")?;
    tell_ends(cycle.states, out)?;
    tell_steps(cycle.schedule.as_slice(), out)?;
    out.put(b" |")?;
    tell_steps(cycle.steps.as_slice(), out)?;
    out.put(b"\n")?;
    Ok(())
}

// The line of the counts. Outcomes are counted where something is shown of them.
fn tell_counts<O: Out>(shows: bool, search: &Search, out: &mut O) -> Result<(), WriteFault>
    ensures { OnOk result (Wrote (O.device out.old) (O.device out.new) (count_line shows
        (length search.now.outcomes.items) search.now.states search.now.stuck search.now.is_cut)) }
{
    tell_numbers(shows, search.outcomes.as_slice().len(), search.states, out)?;
    tell_wayless(&search.stuck, out)?;
    out.put(cut_words(search.is_cut))?;
    out.put(b"\n")?;
    Ok(())
}

// How many outcomes and how many states.
fn tell_numbers<O: Out>(
    shows: bool,
    outcomes: usize,
    states: u32,
    out: &mut O,
) -> Result<(), WriteFault>
    ensures { Writes (O.device out.old) (O.device out.new) (counts_text shows outcomes states) result }
{
    let mut row = TextLine::new();
    push_counts(&mut row, shows, outcomes, states);
    out.put(row.as_slice())?;
    Ok(())
}

// Adds the counts.
fn push_counts(row: &mut TextLine, shows: bool, outcomes: usize, states: u32)
    requires { array_vec_len row.old ≡ 0 }
    ensures { row.new.items ≡ row.old.items ++ counts_text shows outcomes states }
{
    if shows {
        push_outcomes(row, outcomes, states);
    } else {
        push_states(row, states);
    }
}

fn push_outcomes(row: &mut TextLine, outcomes: usize, states: u32)
    requires { array_vec_len row.old ≡ 0 }
    ensures { row.new.items ≡ row.old.items ++ counts_text true outcomes states }
{
    let mut digits = Buffer::new();
    push(row, digits.format(outcomes).as_bytes());
    push(row, b" outcomes in ");
    push(row, digits.format(states).as_bytes());
    push(row, b" states");
}

fn push_states(row: &mut TextLine, states: u32)
    requires { array_vec_len row.old ≡ 0 }
    ensures { row.new.items ≡ row.old.items ++ states_text states }
{
    let mut digits = Buffer::new();
    push(row, digits.format(states).as_bytes());
    push(row, b" states");
}

// How many of these have no way to an end, where there are such.
fn tell_wayless<O: Out>(stuck: &Option<Stuck>, out: &mut O) -> Result<(), WriteFault>
    ensures { OnOk result (Wrote (O.device out.old) (O.device out.new) (wayless_text stuck.now)) }
{
    match stuck {
        Some(stuck) => tell_wayless_count(stuck.states, out),
        None => Ok(()),
    }
}

fn tell_wayless_count<O: Out>(states: u32, out: &mut O) -> Result<(), WriteFault>
    ensures { OnOk result (Wrote (O.device out.old) (O.device out.new) (codes ", " ++ decimal states
        ++ codes " of them without a way to an end")) }
{
    let mut digits = Buffer::new();
    out.put(b", ")?;
    out.put(digits.format(states).as_bytes())?;
    out.put(b" of them without a way to an end")?;
    Ok(())
}

// The line behind the counts, of a search that was not cut, where a step waited for room.
fn room_words(is_cut: bool, waited: bool) -> &'static [u8]
    ensures { result.now ≡ room_line is_cut waited }
{
    if waited && !is_cut {
        b"a store waited for room: a larger store buffer may show more\n"
    } else {
        b""
    }
}

// What is said behind the counts where the search was cut.
fn cut_words(is_cut: bool) -> &'static [u8]
    ensures { result.now ≡ cut_text is_cut }
{
    if is_cut {
        b": cut at the limit, there may be more"
    } else {
        b""
    }
}
