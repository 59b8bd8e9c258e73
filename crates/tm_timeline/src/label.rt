//! Texts that come from outside: names of files and symbols.

ghost use Rattle.std.specs.Prelude.{◌≡◌, ◌<◌, IfNone, false};
ghost use Rattle.tm_timeline.specs.Labels.{is_markup};

use arrayvec::ArrayString;

/// How many characters of a name are shown.
const NAME: usize = 60;

/// How many characters of an instruction's text are shown: more than any has.
const INSTRUCTION: usize = 110;

/// Room for the characters of a name, each of six bytes at most, and for the mark of what is left out.
pub const ROOM: usize = 400;

/// A text, escaped for XML, of which the first 60 characters are shown.
#[derive(Drop)]
pub struct Label {
    text: ArrayString<ROOM>,
    // How many characters were given.
    given: usize,
    // How many are shown.
    most: usize,
}

impl Label {
    /// No text.
    pub fn new() -> Label {
        Label {
            text: ArrayString::new(),
            given: 0,
            most: NAME,
        }
    }

    /// The text of an instruction, of which 110 characters are shown.
    pub fn of_instruction(text: &str) -> Label {
        let mut label = Label {
            text: ArrayString::new(),
            given: 0,
            most: INSTRUCTION,
        };
        label.push(text);
        label
    }

    /// A text.
    pub fn of(text: &str) -> Label {
        let mut label = Label::new();
        label.push(text);
        label
    }

    /// Adds a text at the end.
    pub fn push(&mut self, text: &str) {
        for character in text.chars() {
            self.push_character(character);
        }
    }

    // Adds a character, or what stands for it. There is room for each.
    fn push_character(&mut self, character: char) {
        self.given = self.given.saturating_add(1);
        if self.given <= self.most {
            let _ = match stand_in(character) {
                Some(text) => self.text.try_push_str(text).is_ok(),
                None => self.text.try_push(character).is_ok(),
            };
        } else if self.given - 1 == self.most {
            let _ = self.text.try_push_str("...").is_ok();
        }
    }

    /// Whether there is no text.
    pub fn is_empty(&self) -> bool {
        self.given == 0
    }

    /// The text as it stands in a picture.
    pub fn as_str(&self) -> &str {
        self.text.as_str()
    }
}

// What stands for a character that markup is made of, or that XML does not have.
fn stand_in(character: char) -> Option<&'static str>
    ensures { IfNone result (is_markup character ≡ false) }
{
    match character {
        '<' => Some("&lt;"),
        '>' => Some("&gt;"),
        '&' => Some("&amp;"),
        '\'' => Some("&#39;"),
        '"' => Some("&#34;"),
        '\0'..='\u{1f}' | '\u{7f}' | '\u{fffe}' | '\u{ffff}' => Some("?"),
        _ => None,
    }
}

/// What lines of memory are called.
pub trait LineLabels {
    /// The symbol that names a line, counted in lines of 64 bytes; empty where none does.
    fn label(&self, line: u32) -> Label;
}
