//! The device that advice is written on, gathered, with painted parts or without.
//!
//! [`Page::put_shown`], and the calls that go through it, write a text from outside so that it drives no terminal; all
//! others hand on what they are given. [`Page::finish`] comes last: a page that is dropped before it writes no more.

use elide_color::{ENDING, Style};
use elide_device::{Gathered, Lent};
use elide_shell::{Mark, put_escaped};
use std::fmt;
use std::fmt::{Display, Write};
use text_out::Out;

/// A device that text is formatted to, painted or not.
#[derive(Drop)]
pub struct Page<'o, O> {
    out: Gathered<Lent<'o, O>>,
    is_painted: bool,
}

impl<'o, O: Out> Page<'o, O> {
    /// Writes to this device.
    pub fn new(out: &'o mut O, is_painted: bool) -> Page<'o, O> {
        Page {
            out: Gathered::new(Lent::new(out)),
            is_painted,
        }
    }

    /// Begins text of a style, which [`Page::end`] ends.
    pub fn begin(&mut self, style: Style) -> fmt::Result {
        if self.is_painted {
            self.put(style.beginning())
        } else {
            Ok(())
        }
    }

    /// Ends text of a style.
    pub fn end(&mut self) -> fmt::Result {
        if self.is_painted {
            self.put(ENDING)
        } else {
            Ok(())
        }
    }

    /// Writes bytes.
    pub fn put(&mut self, bytes: &[u8]) -> fmt::Result {
        self.out.put(bytes).map_err(|_| fmt::Error)
    }

    /// Writes a text of the command line or of a file, so that it drives no terminal and ends no line.
    pub fn put_shown(&mut self, text: &str) -> fmt::Result {
        put_escaped(text, Mark::Backslash, &mut self.out).map_err(|_| fmt::Error)
    }

    /// Writes the name of a file: two quotes where it is empty.
    pub fn put_name(&mut self, name: &str) -> fmt::Result {
        if name.is_empty() {
            self.put(b"''")
        } else {
            self.put_shown(name)
        }
    }

    /// Writes what is wrong with a file, behind its name.
    pub fn put_wrong<M: Display>(&mut self, name: &str, meaning: &M) -> fmt::Result {
        self.put_name(name)?;
        writeln!(self, ": {meaning}")
    }

    /// Writes what is wrong with the value of an option, behind both.
    pub fn put_value<M: Display>(&mut self, option: &str, value: &str, meaning: &M) -> fmt::Result {
        write!(self, "{option} ")?;
        self.put_shown(value)?;
        writeln!(self, ": {meaning}")
    }

    /// Writes a byte so many times.
    pub fn put_times(&mut self, byte: u8, count: usize) -> fmt::Result {
        for _ in 0..count {
            self.put(&[byte])?;
        }
        Ok(())
    }

    /// Hands on what was written.
    pub fn finish(self) -> fmt::Result {
        let Page { out, .. } = self;
        match out.finish() {
            Ok(_) => Ok(()),
            Err(_) => Err(fmt::Error),
        }
    }
}

impl<O: Out> fmt::Write for Page<'_, O> {
    fn write_str(&mut self, text: &str) -> fmt::Result {
        self.put(text.as_bytes())
    }
}
