//! The lines of a source: [`write_lines`], and [`line_count`], which counts what that writes.
//!
//! A line ends at a line feed, and a carriage return before it is left out; what stands behind the last line feed
//! is a line if it is not empty. What a string of the data escapes and how much of it there is, is `page_text`'s.

ghost use Rattle.std.specs.Prelude.{◌<◌, ◌≤◌, length};

use page_text::{LINE, write_string};
use text_out::{Out, WriteFault};

/// Writes the lines of a source, each a string.
pub fn write_lines<O: Out>(text: &[u8], out: &mut O) -> Result<(), WriteFault> {
    let mut place = 0;
    'lines: while place < text.len() {
        if place > 0 {
            out.put(b",\n")?;
        }
        let length = line_length(&text[place..]);
        write_string(without_return(&text[place..place + length]), LINE, out)?;
        place = behind_line(place, length);
    }
    Ok(())
}

/// How many lines that are.
pub fn line_count(text: &[u8]) -> u64 {
    let mut count: u64 = 0;
    let mut place = 0;
    'lines: while place < text.len() {
        count = count.saturating_add(1);
        place = behind_line(place, line_length(&text[place..]));
    }
    count
}

// Where the line behind one of this length begins.
fn behind_line(place: usize, length: usize) -> usize
    requires { place < 18446744073709551615 }
    ensures { place < result }
{
    place.saturating_add(length).saturating_add(1)
}

// How many bytes stand before the first line feed.
fn line_length(text: &[u8]) -> usize
    ensures { result ≤ length text.now }
{
    match text.iter().position(|byte| *byte == b'\n') {
        Some(place) => place,
        None => text.len(),
    }
}

// A line without a carriage return at its end.
fn without_return(line: &[u8]) -> &[u8] {
    match line {
        [front @ .., b'\r'] => front,
        line => line,
    }
}
