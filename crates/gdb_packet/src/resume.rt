//! The actions of `vCont`.
//!
//! [`read_actions`] is the one call: each action is cut off and read in its turn, from the left, and added to those
//! before it.

ghost use Rattle.std.specs.Prelude.{◌≡◌, ◌==◌, ◌+◌, ◌^◌, ◌<◌, ◌≤◌, ◌∷◌, ℕ, List, [], None, Some, drop, length};
ghost use Rattle.std.specs.List.{position_or_len};
ghost use Rattle.gdb_packet.specs.Actions.{IsAdded, IsAddedOne, IsToldMove, action_in, actions_in, alone, entry_says};
ghost use Rattle.gdb_packet.specs.Actions.{leftmost, or_else, thread_named, thread_numbered, told_action};
ghost use Rattle.gdb_packet.specs.Actions.{told_actions, with_signal};
ghost use Rattle.gdb_packet.specs.Numbers.{number_in};

use crate::command::{Action, Actions, Command, MOST_ACTIONS, Move, Question, ThreadAction};
use crate::number::number_in;
use crate::parts::{place_of, split_at};

/// What one action tells.
#[derive(Clone, Copy, PartialEq, Eq, Debug)]
pub struct ToldAction {
    /// The thread that it names, if any.
    pub thread: Option<u32>,
    /// What is to be done.
    pub action: Action,
}

fn with_signal(action: Action, signal: &[u8]) -> Result<Action, Question>
    ensures { result ≡ with_signal action (number_in signal.now) }
{
    match number_in(signal) {
        Some(_signal) => Ok(action),
        None => Err(Question::Malformed),
    }
}

fn alone(action: Action, text: &[u8]) -> Result<Action, Question>
    ensures { result ≡ alone action text.now }
{
    if text.is_empty() {
        Ok(action)
    } else {
        Err(Question::Unknown)
    }
}

fn action_in(word: &[u8]) -> Result<Action, Question>
    ensures { result ≡ action_in word.now }
{
    if word.is_empty() {
        return Err(Question::Unknown);
    }
    let letter = word[0];
    let signal = &word[1..];
    if letter == b'S' {
        with_signal(Action::Step, signal)
    } else if letter == b'C' {
        with_signal(Action::Continue, signal)
    } else if letter == b's' {
        alone(Action::Step, signal)
    } else if letter == b'c' {
        alone(Action::Continue, signal)
    } else {
        Err(Question::Unknown)
    }
}

fn thread_numbered(number: Option<u32>) -> Result<Option<u32>, Question>
    ensures { result ≡ thread_numbered number }
{
    match number {
        None => Err(Question::Malformed),
        Some(number) => Ok(if number == 0 { None } else { Some(number) }),
    }
}

fn thread_named(text: &[u8]) -> Result<Option<u32>, Question>
    ensures { result ≡ thread_named text.now }
{
    if text.is_empty() || text == b"-1".as_slice() {
        Ok(None)
    } else {
        thread_numbered(number_in(text))
    }
}

// What one action tells: `s`, `c`, `S sig` or `C sig`, and maybe a thread behind a colon.
#[tactic(auto, unfolding(crate::specs::Actions::told_action))]
fn told_action(text: &[u8]) -> Result<ToldAction, Question>
    ensures { result ≡ told_action text.now }
{
    let (word, thread) = split_at(b':', text);
    let action = action_in(word)?;
    let thread = thread_named(thread)?;
    Ok(ToldAction { thread, action })
}

// Adds an action behind so many that name a thread, where there is room.
fn add_named(actions: &mut Actions, count: usize, entry: ThreadAction)
    requires few { count + 1 < 2 ^ 64 }
    requires room { (thread : ℕ) → leftmost (entry_says thread) (drop count actions.old.chosen) ≡ None }
    ensures room { (thread : ℕ) → leftmost (entry_says thread) (drop (count + 1) actions.new.chosen) ≡ None }
    ensures chosen { count < 64 → (thread : ℕ) → leftmost (entry_says thread) actions.new.chosen
        ≡ or_else (leftmost (entry_says thread) actions.old.chosen) (entry_says thread (Some entry)) }
    ensures others { actions.new.others ≡ actions.old.others }
{
    if count >= MOST_ACTIONS {
        return;
    }
    actions.chosen[count] = Some(entry);
}

// Adds what one action tells, behind so many that name a thread, and tells how many do then. For more than
// `MOST_ACTIONS` there is no room: they are counted.
fn add_told(actions: &mut Actions, count: usize, told: ToldAction) -> usize
    requires few { count + 1 < 2 ^ 64 }
    requires room { (thread : ℕ) → leftmost (entry_says thread) (drop count actions.old.chosen) ≡ None }
    ensures { IsAddedOne told count actions.old actions.new result }
{
    let action = told.action;
    match told.thread {
        Some(thread) => {
            add_named(actions, count, ThreadAction { thread, action });
            count + 1
        }
        None => {
            if actions.others.is_none() {
                actions.others = Some(action);
            }
            count
        }
    }
}

// Where the first action of a text ends.
#[tactic(auto, using(crate::proofs::Told::end_found, crate::proofs::Told::end_missing))]
fn end_of(text: &[u8]) -> usize
    ensures end { result ≡ position_or_len (λ byte. byte == 59) text.now }
    ensures within { result ≤ length text.now }
{
    match place_of(b';', text) {
        Some(place) => place,
        None => text.len(),
    }
}

// Adds the actions of a text behind so many that name a thread, and tells how many do then. The first that is wrong is
// told as it is to be refused.
fn add_actions(actions: &mut Actions, count: usize, text: &[u8]) -> Result<usize, Question>
    requires few { count + length text.now + 1 < 2 ^ 64 }
    requires room { (thread : ℕ) → leftmost (entry_says thread) (drop count actions.old.chosen) ≡ None }
    ensures { IsAdded (told_actions (actions_in text.now)) count actions.old actions.new result }
{
    let end = end_of(text);
    match told_action(&text[..end]) {
        Ok(told) => {
            let more = add_told(actions, count, told);
            if end == text.len() {
                Ok(more)
            } else {
                add_actions(actions, more, &text[end + 1..])
            }
        }
        Err(asked) => Err(asked),
    }
}

// No actions.
fn nothing() -> Actions
    ensures chosen { (thread : ℕ) → leftmost (entry_says thread) result.chosen ≡ None }
    ensures others { result.others ≡ None }
{
    Actions {
        chosen: [None; MOST_ACTIONS],
        others: None,
    }
}

// The command of so many actions that name a thread.
fn resume(actions: Actions, count: usize) -> Command
    ensures few { count ≤ 64 → result ≡ Command.Move (Move.Resume actions) }
    ensures many { 64 < count → result ≡ Command.Ask Question.Malformed }
{
    if count <= MOST_ACTIONS {
        Command::Move(Move::Resume(actions))
    } else {
        Command::Ask(Question::Malformed)
    }
}

/// The command of `vCont;` and the text behind it: actions, with semicolons between them.
pub fn read_actions(text: &[u8]) -> Command
    requires few { length text.now + 1 < 2 ^ 64 }
    ensures { IsToldMove (told_actions (actions_in text.now)) result }
{
    let mut actions = nothing();
    match add_actions(&mut actions, 0, text) {
        Ok(count) => resume(actions, count),
        Err(asked) => Command::Ask(asked),
    }
}
