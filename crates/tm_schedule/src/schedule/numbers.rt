//! Words that say one step each.

ghost use Rattle.std.specs.Prelude.{◌≡◌, ◌+◌, ◌/◌, ◌^◌, ◌<◌, ◌≤◌, ◌++◌, ◌⊎◌, [], Ok, Err, Some, None, IfOk, IfErr};
ghost use Rattle.std.specs.Prelude.{IfSome, OnOk, length, unwrap_or, vec_capacity};
ghost use Rattle.std.specs.List.{flat_map};
ghost use Rattle.ia_lex.specs.Lines.{lines_of};
ghost use Rattle.tm_schedule.specs.Picks.{single_steps};
ghost use Rattle.tm_schedule.specs.ScheduleNumbers.{BeginsWithDigit, three_digits, core_number};
ghost use Rattle.tm_schedule.specs.ScheduleWords.{first_fault, steps_fault, steps_said, words_from, words_read};

use super::ScheduleFault;
use super::picks::Form;
use super::words::Unread;
use std::alloc::Global;
use tm_model::Pick;

// The number of three decimal digits, at most 255.
fn number_of(a: u8, b: u8, c: u8) -> Option<u8>
    ensures { result ≡ three_digits a b c }
{
    if a.is_ascii_digit() && b.is_ascii_digit() && c.is_ascii_digit() {
        let value = u16::from(a - b'0') * 100 + u16::from(b - b'0') * 10 + u16::from(c - b'0');
        u8::try_from(value).ok()
    } else {
        None
    }
}

/// The number of a core: one to three decimal digits.
#[tactic(auto, unfolding(crate::specs::ScheduleNumbers::core_number))]
pub fn core_of(word: &[u8]) -> Option<u8>
    ensures { result ≡ core_number word.now }
{
    match word {
        [c] => number_of(b'0', b'0', *c),
        [b, c] => number_of(b'0', *b, *c),
        [a, b, c] => number_of(*a, *b, *c),
        _ => None,
    }
}

// Adds the step of a word, and none for an empty word.
#[tactic(auto, unfolding(crate::specs::Picks::single_steps))]
fn read_word(
    form: Form,
    word: &[u8],
    line: usize,
    picks: &mut Vec<Pick>,
) -> Result<(), ScheduleFault>
    ensures fine { OnOk result (steps_fault None (length picks.old.items) line (single_steps form word.now) ≡ None) }
    ensures steps { OnOk result (picks.new.items ≡ picks.old.items ++ unwrap_or (single_steps form word.now) []) }
    ensures err { IfErr result (λ fault. (fault ≡ ScheduleFault.NoMemory)
        ⊎ (steps_fault None (length picks.old.items) line (single_steps form word.now) ≡ Some fault)) }
{
    if word.is_empty() {
        return Ok(());
    }
    let Some(pick) = form.pick_in(word) else {
        return Err(ScheduleFault::BadSchedule(line));
    };
    if picks.push(pick).is_err() {
        return Err(ScheduleFault::NoMemory);
    }
    Ok(())
}

// The core of one digit with a line end or a space behind it, whether it is a line end, and the rest of the text.
#[inline(always)]
fn short_word(text: &[u8]) -> Option<(u8, bool, &[u8])>
    ensures { IfSome result (λ word. BeginsWithDigit text.now word.0 word.1 word.2.now) }
{
    if text.len() < 2 {
        return None;
    }
    let digit = text[0];
    let behind = text[1];
    if !digit.is_ascii_digit() {
        return None;
    }
    if behind != b' ' && behind != b'\n' {
        return None;
    }
    Some((digit - b'0', behind == b'\n', &text[2..]))
}

// Adds the steps of the words at the front of a text that have one digit, up to the first that is not so; the text
// below a line of this number. What is left is answered, and the number of the line above it. Such a word says the same
// in each form.
fn read_short<'a>(picks: &mut Vec<Pick>, above: usize, text: &'a [u8]) -> (usize, &'a [u8])
    requires room { length picks.old.items + length text.now / 2 ≤ vec_capacity picks.old }
    requires few { above + length text.now < 2 ^ 64 }
    ensures fault { (form : Form) → first_fault (single_steps form) None (length picks.old.items)
        (words_from (above + 1) (lines_of text.now))
        ≡ first_fault (single_steps form) None (length picks.new.items)
        (words_from (result.0 + 1) (lines_of result.1.now)) }
    ensures steps { (form : Form) → picks.old.items
        ++ flat_map (steps_said (single_steps form)) (words_from (above + 1) (lines_of text.now))
        ≡ picks.new.items
        ++ flat_map (steps_said (single_steps form)) (words_from (result.0 + 1) (lines_of result.1.now)) }
    ensures few { result.0 + length result.1.now < 2 ^ 64 }
{
    let mut line = above;
    let mut left = text;
    'words: while let Some((core, ends, rest)) = short_word(left) {
        picks.push_reserved(Pick { core, event: None });
        line += usize::from(ends);
        left = rest;
    }
    (line, left)
}

/// The steps that a text says below a line of this number, where each word of it says one step, in this form.
pub fn read_numbers(
    alloc: Global,
    form: Form,
    above: usize,
    text: &[u8],
) -> Result<Vec<Pick>, ScheduleFault>
    requires { above + length text.now < 2 ^ 64 }
    ensures ok { IfOk result (λ picks.
        words_read (single_steps form) None (words_from (above + 1) (lines_of text.now)) ≡ Ok picks.items) }
    ensures err { IfErr result (λ fault. (fault ≡ ScheduleFault.NoMemory)
        ⊎ (words_read (single_steps form) None (words_from (above + 1) (lines_of text.now)) ≡ Err fault)) }
{
    let Ok(mut picks) = Vec::with_capacity(alloc, text.len() / 2) else {
        return Err(ScheduleFault::NoMemory);
    };
    let (line, left) = read_short(&mut picks, above, text);
    let mut unread = Unread::below(line, left);
    'words: while let Some((word, rest)) = unread.next() {
        read_word(form, word, rest.line, &mut picks)?;
        unread = rest;
    }
    Ok(picks)
}
