//! The values in the texts of a picture.

use std::fmt;

/// What stands at a `{}` of a text.
#[derive(Clone, Copy)]
pub enum Value<'a> {
    /// A word, or a text that is escaped.
    Word(&'a str),
    /// A number.
    Number(u32),
    /// The number of a core.
    Core(u8),
    /// A length.
    Length(Tenths),
    /// A status, in eight hexadecimal digits.
    Status(u32),
    /// The number of a line of memory, in hexadecimal digits.
    Line(u32),
}

impl fmt::Display for Value<'_> {
    fn fmt<W: fmt::Write>(&self, f: &mut fmt::Formatter<W>) -> fmt::Result {
        match *self {
            Value::Word(word) => f.write_str(word),
            Value::Number(number) => write!(f, "{number}"),
            Value::Core(core) => write!(f, "{core}"),
            Value::Length(tenths) => write!(f, "{tenths}"),
            Value::Status(status) => write!(f, "{status:08x}"),
            Value::Line(line) => write!(f, "{line:x}"),
        }
    }
}

/// A length in tenths of a pixel, printed in pixels.
#[derive(Clone, Copy)]
pub struct Tenths(pub u32);

impl Tenths {
    /// The width of a step without a pixel that parts it from the next one, and a pixel at least.
    pub fn less_gap(self) -> Tenths {
        Tenths(self.0.saturating_sub(10).max(10))
    }

    /// So many tenths of a pixel more.
    pub fn plus(self, tenths: u32) -> Tenths {
        Tenths(self.0.saturating_add(tenths))
    }

    /// How far it is from another place on, 0 where that lies behind.
    pub fn past(self, other: Tenths) -> Tenths {
        Tenths(self.0.saturating_sub(other.0))
    }
}

impl fmt::Display for Tenths {
    fn fmt<W: fmt::Write>(&self, f: &mut fmt::Formatter<W>) -> fmt::Result {
        let whole = self.0 / 10;
        let part = self.0 % 10;
        if part == 0 {
            write!(f, "{whole}")
        } else {
            write!(f, "{whole}.{part}")
        }
    }
}
