//! The device that a picture is written to.

use crate::value::Value;
use std::fmt::{self, Write};
use text_out::{Out, WriteFault};

/// A picture in the making, which takes no memory. Once its device has failed nothing more is written, so that what
/// draws need not ask, and the failure is told at the end.
#[derive(Drop)]
pub struct Svg<'o, O> {
    out: &'o mut O,
    has_failed: bool,
}

impl<'o, O: Out> Svg<'o, O> {
    /// Writes to this device.
    pub fn new(out: &'o mut O) -> Svg<'o, O> {
        Svg {
            out,
            has_failed: false,
        }
    }

    /// Writes a text as it stands.
    pub fn text(&mut self, text: &str) {
        if !self.has_failed {
            self.has_failed = self.out.put(text.as_bytes()).is_err();
        }
    }

    /// Writes a text with these values where it has `{}`, one after another. All of an element in one call is proved
    /// much sooner than by `write!`, which is a call for each part.
    pub fn put(&mut self, text: &str, values: &[Value<'_>]) {
        let mut rest = text;
        for value in values {
            if let Some((before, behind)) = rest.split_once("{}") {
                self.text(before);
                self.put_value(*value);
                rest = behind;
            }
        }
        self.text(rest);
    }

    // Writes a value. That the device has failed is noted there.
    fn put_value(&mut self, value: Value<'_>) {
        let _ = write!(self, "{value}");
    }

    /// Ends the picture: whether all of it was written.
    pub fn finish(self) -> Result<(), WriteFault> {
        if self.has_failed {
            Err(WriteFault::Write)
        } else {
            Ok(())
        }
    }
}

impl<O: Out> Write for Svg<'_, O> {
    fn write_str(&mut self, text: &str) -> fmt::Result {
        self.text(text);
        Ok(())
    }
}
