//! A line of a text with a part that is marked, in four lines: the place, a gap, the text, the marks with the meaning.
//!
//! [`write_excerpt`] shows 100 bytes at most, around the part where the line has more, and one character a byte, so
//! that the marks stand below what they mark. Which line it is, and of which text, was found by `source` or `steps`.

use crate::page::Page;
use elide_color::Style;
use std::fmt;
use std::fmt::{Display, Write};
use text_out::Out;

/// The most bytes of a line that are shown.
const WIDTH: usize = 100;

/// How many of them stand before the part, where a long line is cut.
const BEFORE: usize = 40;

/// A part of a line.
#[derive(Clone, Copy, Debug)]
pub struct Excerpt<'a> {
    /// The path of the text.
    pub path: &'a str,
    /// The line's number, from 1.
    pub number: usize,
    /// The line.
    pub text: &'a [u8],
    /// Where the part begins, in bytes, from 1.
    pub column: usize,
    /// How many bytes it has.
    pub length: usize,
}

// What is shown of a line, in bytes.
#[derive(Clone, Copy, Debug)]
struct Window {
    start: usize,
    end: usize,
    // Where the part begins within it, and how many of its bytes it has.
    mark: usize,
    marked: usize,
}

// What is shown of a line: all of it, or so many bytes around the part.
fn window_of(excerpt: &Excerpt<'_>) -> Window {
    let long = excerpt.text.len();
    let at = excerpt.column.saturating_sub(1).min(long);
    let start = if at.saturating_add(excerpt.length) <= WIDTH {
        0
    } else {
        at.saturating_sub(BEFORE)
    };
    let end = start.saturating_add(WIDTH).min(long);
    Window {
        start,
        end,
        mark: at.saturating_sub(start),
        marked: excerpt.length.min(end.saturating_sub(at)).max(1),
    }
}

// A byte as a terminal shows it at one place.
fn shown(byte: u8) -> u8 {
    match byte {
        b'\t' => b' ',
        b' '..=b'~' => byte,
        _ => b'?',
    }
}

// How many digits a number has.
fn digits(number: usize) -> usize {
    match number.checked_ilog10() {
        Some(log) => (log as usize).saturating_add(1),
        None => 1,
    }
}

/// Writes a line with its place, the part of it that is marked, and what is meant.
pub fn write_excerpt<O: Out, M: Display>(
    excerpt: &Excerpt<'_>,
    meaning: &M,
    page: &mut Page<'_, O>,
) -> fmt::Result {
    let gutter = digits(excerpt.number);
    let window = window_of(excerpt);
    page.put_times(b' ', gutter)?;
    write_place(b"-->", page)?;
    page.put(b" ")?;
    page.put_name(excerpt.path)?;
    writeln!(page, ":{}:{}", excerpt.number, excerpt.column)?;
    page.put_times(b' ', gutter)?;
    write_place(b" |", page)?;
    page.put(b"\n")?;
    write_number(excerpt.number, page)?;
    write_window(excerpt.text, window, page)?;
    page.put_times(b' ', gutter)?;
    write_place(b" |", page)?;
    page.put(b" ")?;
    write_mark(window, page)?;
    writeln!(page, " {meaning}")
}

// A part of the frame.
fn write_place<O: Out>(part: &[u8], page: &mut Page<'_, O>) -> fmt::Result {
    page.begin(Style::Place)?;
    page.put(part)?;
    page.end()
}

// The number of the line.
fn write_number<O: Out>(number: usize, page: &mut Page<'_, O>) -> fmt::Result {
    page.begin(Style::Place)?;
    write!(page, "{number} |")?;
    page.end()?;
    page.put(b" ")
}

// The bytes that are shown.
fn write_window<O: Out>(text: &[u8], window: Window, page: &mut Page<'_, O>) -> fmt::Result {
    if window.start > 0 {
        page.put(b"...")?;
    }
    for byte in text.get(window.start..window.end).unwrap_or(b"") {
        page.put(&[shown(*byte)])?;
    }
    if window.end < text.len() {
        page.put(b"...")?;
    }
    page.put(b"\n")
}

// The marks below the part.
fn write_mark<O: Out>(window: Window, page: &mut Page<'_, O>) -> fmt::Result {
    if window.start > 0 {
        page.put(b"   ")?;
    }
    page.put_times(b' ', window.mark)?;
    page.begin(Style::Fault)?;
    page.put_times(b'^', window.marked)?;
    page.end()
}
