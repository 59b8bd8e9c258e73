//! What lines of memory are called in pictures: [`LineNames`] answers a line's number with the labels on it.
//!
//! Names are handed on as they are, since a picture escapes them; what is no text is left out. Where no label stands on
//! a line, the nearest below is told, as `elide_places` does.

use elide_places::{Naming, Places, SymbolText, push_symbols};
use std::str;
use tm_timeline::{Label, LineLabels};

/// The labels of a program, by lines.
#[derive(Clone, Copy)]
pub struct LineNames<'a> {
    /// Where they stand.
    pub places: &'a Places,
}

impl LineLabels for LineNames<'_> {
    fn label(&self, line: u32) -> Label {
        let mut row = SymbolText::new();
        // A picture has escapes of its own.
        push_symbols(&mut row, self.places, line, Naming::Raw);
        // A source has names in ASCII alone.
        Label::of(str::from_utf8(row.as_slice()).unwrap_or(""))
    }
}
