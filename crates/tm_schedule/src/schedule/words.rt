//! The words of lines, one after another.

ghost use Rattle.std.specs.Prelude.{◌≡◌, ◌+◌, ◌<◌, ◌^◌, length};

use crate::pieces::cut;
use ia_lex::first_line;

/// What is not read yet of lines of words.
#[derive(Clone, Copy)]
pub struct Unread<'a> {
    // The rest of a line, where there is one.
    rest: Option<&'a [u8]>,
    // The lines below it.
    below: &'a [u8],
    /// The number of that line.
    pub line: usize,
    ghost few_lines: { line + length below.now < 2 ^ 64 },
}

impl<'a> Unread<'a> {
    ghost use Rattle.ia_lex.specs.Lines.{lines_of};
    ghost use Rattle.tm_schedule.specs.ScheduleWords.{words_from};
    ghost use Rattle.tm_schedule.specs.Unread.{unread_words, IsFirstWord, IsNextWord};

    /// The lines of a text below a line of this number.
    pub fn below(line: usize, text: &'a [u8]) -> Unread<'a>
        requires { line + length text.now < 2 ^ 64 }
        ensures { unread_words result ≡ words_from (line + 1) (lines_of text.now) }
    {
        Unread {
            rest: None,
            below: text,
            line,
        }
    }

    /// The next word, and what is not read then. The word is empty where it stands between two spaces side by side, at
    /// an end of a line or on an empty line.
    pub fn next(self) -> Option<(&'a [u8], Unread<'a>)>
        ensures { IsNextWord self.entry result }
    {
        if let Some(rest) = self.rest {
            return Some(Unread::first_word(rest, self.below, self.line));
        }
        if self.below.is_empty() {
            return None;
        }
        let (words, size) = first_line(self.below);
        Some(Unread::first_word(words, &self.below[size..], self.line + 1))
    }

    // The first word of a line, and what is not read then.
    fn first_word(words: &'a [u8], below: &'a [u8], line: usize) -> (&'a [u8], Unread<'a>)
        requires { line + length below.now < 2 ^ 64 }
        ensures { IsFirstWord words.now below.now line result }
    {
        let (word, rest) = cut(words, b' ');
        (word, Unread { rest, below, line })
    }
}
