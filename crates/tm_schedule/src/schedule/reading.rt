//! Reading words that say runs of steps.

ghost use Rattle.std.specs.Prelude.{◌≡◌, ◌+◌, ◌<◌, ◌≤◌, ◌++◌, ◌⊎◌, [], true, Ok, Err, Some, None, IfOk, IfErr, OnOk};
ghost use Rattle.std.specs.Prelude.{length, unwrap_or};
ghost use Rattle.std.specs.Char.{is_ascii_digit, digit_value};
ghost use Rattle.std.specs.List.{flat_map, list_all};
ghost use Rattle.std.specs.Str.Parse.{digits_value};
ghost use Rattle.tm_schedule.specs.ScheduleRuns.{most_steps, is_count, count_number, run_from, word_run, word_steps};
ghost use Rattle.tm_schedule.specs.ScheduleWords.{steps_fault, steps_said, first_fault, words_read};
ghost use Rattle.tm_schedule.specs.Unread.{unread_words};

use super::ScheduleFault;
use super::picks::Form;
use super::runs::{MOST_STEPS, Run};
use super::words::Unread;
use crate::pieces::find;
use std::alloc::{AllocError, Global};
use tm_model::Pick;

fn are_digits(text: &[u8]) -> bool
    ensures { result ≡ list_all is_ascii_digit text.now }
{
    text.iter().all(|b| b.is_ascii_digit())
}

// Whether these are decimal digits, one to eight of them.
fn is_count(text: &[u8]) -> bool
    ensures { result ≡ is_count text.now }
{
    if text.is_empty() {
        return false;
    }
    if text.len() > 8 {
        return false;
    }
    are_digits(text)
}

fn digit_of(byte: u8) -> u32
    requires { is_ascii_digit byte ≡ true }
    ensures digit { result ≡ digit_value byte }
    ensures small { result < 10 }
{
    u32::from(byte - b'0')
}

// The number of decimal digits.
#[tactic(auto, using(crate::proofs::Counts::value_steps))]
fn value(digits: &[u8]) -> u32
    requires { is_count digits.now ≡ true }
    ensures { result ≡ digits_value 10 digits.now }
{
    let mut number: u32 = 0;
    for digit in digits {
        number = number * 10 + digit_of(*digit);
    }
    number
}

// How often: one to eight decimal digits, from 1 to `MOST_STEPS`.
fn count_of(digits: &[u8]) -> Option<u32>
    ensures { result ≡ count_number digits.now }
{
    if !is_count(digits) {
        return None;
    }
    let count = value(digits);
    if count == 0 || count > MOST_STEPS {
        return None;
    }
    Some(count)
}

fn run_from(pick: Option<Pick>, count: Option<u32>) -> Option<Run>
    ensures { result ≡ run_from pick count }
{
    match (pick, count) {
        (Some(pick), Some(count)) => Some(Run { pick, count }),
        _ => None,
    }
}

// The run that a word says.
fn run_of(form: Form, word: &[u8]) -> Option<Run>
    ensures { result ≡ word_run form word.now }
{
    match find(word, b'*') {
        None => run_from(form.pick_in(word), Some(1)),
        Some(star) => run_from(form.pick_in(&word[..star]), count_of(&word[star + 1..])),
    }
}

// How many steps there are with those of a word, so many standing before it.
#[tactic(auto, unfolding(crate::specs::ScheduleRuns::word_steps))]
fn count_word(form: Form, word: &[u8], line: usize, before: usize) -> Result<usize, ScheduleFault>
    requires { before ≤ 16777216 }
    ensures ok { IfOk result (λ count. (steps_fault (Some most_steps) before line (word_steps form word.now) ≡ None)
        × (count ≡ before + length (unwrap_or (word_steps form word.now) [])) × (count ≤ 16777216)) }
    ensures err { IfErr result
        (λ fault. steps_fault (Some most_steps) before line (word_steps form word.now) ≡ Some fault) }
{
    if word.is_empty() {
        return Ok(before);
    }
    let Some(run) = run_of(form, word) else {
        return Err(ScheduleFault::BadSchedule(line));
    };
    let count = before + run.count as usize;
    if count > MOST_STEPS as usize {
        return Err(ScheduleFault::TooManySteps(line));
    }
    Ok(count)
}

// How many steps words say.
fn count_steps(form: Form, words: Unread) -> Result<usize, ScheduleFault>
    ensures ok { OnOk result (first_fault (word_steps form) (Some most_steps) 0 (unread_words words.entry) ≡ None) }
    ensures err { IfErr result (λ fault.
        first_fault (word_steps form) (Some most_steps) 0 (unread_words words.entry) ≡ Some fault) }
{
    let mut unread = words;
    let mut count = 0;
    'words: while let Some((word, rest)) = unread.next() {
        count = count_word(form, word, rest.line, count)?;
        unread = rest;
    }
    Ok(count)
}

// Adds the steps of a word, and none where it says none.
#[tactic(auto, unfolding(crate::specs::ScheduleRuns::word_steps))]
fn push_word(form: Form, word: &[u8], steps: &mut Vec<Pick>) -> Result<(), AllocError>
    ensures { OnOk result (steps.new.items ≡ steps.old.items ++ unwrap_or (word_steps form word.now) []) }
{
    if word.is_empty() {
        return Ok(());
    }
    if let Some(run) = run_of(form, word) {
        steps.resize(steps.len() + run.count as usize, run.pick)?;
    }
    Ok(())
}

// The steps that words say, so many being expected.
fn list_steps(
    alloc: Global,
    form: Form,
    words: Unread,
    count: usize,
) -> Result<Vec<Pick>, AllocError>
    ensures { IfOk result (λ steps.
        steps.items ≡ flat_map (steps_said (word_steps form)) (unread_words words.entry)) }
{
    let mut steps = Vec::with_capacity(alloc, count)?;
    let mut unread = words;
    'words: while let Some((word, rest)) = unread.next() {
        push_word(form, word, &mut steps)?;
        unread = rest;
    }
    Ok(steps)
}

/// The steps that words say, in this form. They are counted first, so that a text with too many takes no memory.
pub fn read_runs(alloc: Global, form: Form, words: Unread) -> Result<Vec<Pick>, ScheduleFault>
    ensures ok { IfOk result (λ picks.
        words_read (word_steps form) (Some most_steps) (unread_words words.entry) ≡ Ok picks.items) }
    ensures err { IfErr result (λ fault. (fault ≡ ScheduleFault.NoMemory)
        ⊎ (words_read (word_steps form) (Some most_steps) (unread_words words.entry) ≡ Err fault)) }
{
    let count = count_steps(form, words)?;
    match list_steps(alloc, form, words, count) {
        Ok(steps) => Ok(steps),
        Err(_) => Err(ScheduleFault::NoMemory),
    }
}
