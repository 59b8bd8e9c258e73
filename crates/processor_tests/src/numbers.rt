//! The numbers of a table that a processor wrote, one behind the other, in hex.

/// What is left of a text of numbers in hex, each with a blank behind it.
#[derive(Drop)]
pub struct Numbers<'a> {
    text: &'a str,
}

impl<'a> Numbers<'a> {
    /// All the numbers of a text.
    pub fn new(text: &'a str) -> Numbers<'a> {
        Numbers { text }
    }

    /// The next number, or `None` where there is none or what stands there is no number.
    pub fn take(&mut self) -> Option<u32> {
        let (digits, rest) = self.text.split_once(' ')?;
        self.text = rest;
        u32::from_str_radix(digits, 16).ok()
    }

    /// The next two numbers.
    pub fn take_two(&mut self) -> Option<(u32, u32)> {
        Some((self.take()?, self.take()?))
    }

    /// The next three.
    pub fn take_three(&mut self) -> Option<(u32, u32, u32)> {
        Some((self.take()?, self.take()?, self.take()?))
    }

    /// Whether no number is left.
    pub fn is_empty(&self) -> bool {
        self.text.is_empty()
    }
}
