//! A line on a terminal that tells how far long work is, and hints that stay there.
//!
//! [`ProgressLine`] writes nothing of the work in the program's first two seconds, then five times a second at most,
//! and clears the line when the work ends, so that an answer stands on a line of its own. A hint is a line that stays.
//! Without a terminal it stays silent, and without a clock it tells no work. A failure of the device is passed over.
//! When it is told is up to the commands.

use arrayvec::ArrayString;
use elide_device::Progress;
use std::fmt::Write;
use std::time::{Clock, Duration, Instant};
use text_out::Out;

/// Work of fewer milliseconds tells nothing.
const LONG: u64 = 2000;

/// For how many milliseconds a line stands at least.
const PAUSE: u64 = 200;

/// Clears the line of a terminal on which the cursor is (ECMA-48, EL).
const CLEAR: &[u8] = b"\r\x1b[K";

// The longest line has some 100 bytes.
type Line = ArrayString<160>;

/// A line of a terminal, written anew while work goes on, and gone at its end. Where there is no terminal nothing is
/// written.
#[derive(Drop)]
pub struct ProgressLine<'a, C, E> {
    clock: &'a C,
    err: E,
    is_terminal: bool,
    // When the work began and the line was last written; none where it is no terminal, or the clock cannot be read.
    begun: Option<Instant>,
    written: Option<Instant>,
}

impl<'a, C: Clock, E: Out> ProgressLine<'a, C, E> {
    /// The line of a terminal.
    pub fn new(clock: &'a C, err: E, is_terminal: bool) -> ProgressLine<'a, C, E> {
        let begun = if is_terminal {
            Instant::now(clock).ok()
        } else {
            None
        };
        ProgressLine {
            clock,
            err,
            is_terminal,
            begun,
            written: None,
        }
    }

    // For how many milliseconds the work has gone on, and the time now, where a line is due.
    fn due(&self) -> Option<(u64, Instant)> {
        let begun = self.begun?;
        let now = Instant::now(self.clock).ok()?;
        let gone = millis_of(now.duration_since(begun));
        let is_fresh = match self.written {
            Some(written) => millis_of(now.duration_since(written)) < PAUSE,
            None => false,
        };
        if gone < LONG || is_fresh {
            return None;
        }
        Some((gone, now))
    }
}

impl<C: Clock, E: Out> Progress for ProgressLine<'_, C, E> {
    fn tell(&mut self, done: u64, most: u64, things: &str) {
        let Some((gone, now)) = self.due() else {
            return;
        };
        self.written = Some(now);
        let mut line = Line::new();
        // There is room for the line, and one that is not written whole is written anew.
        let _ = write_line(done, most, things, gone, &mut line);
        let _ = self.err.put(CLEAR);
        let _ = self.err.put(line.as_str().as_bytes());
    }

    fn end(&mut self) {
        if self.written.is_some() {
            let _ = self.err.put(CLEAR);
        }
        self.written = None;
    }

    fn hint(&mut self, line: &str) {
        if !self.is_terminal {
            return;
        }
        // Where a line of the work stands, it goes.
        self.end();
        let _ = self.err.put(b"elide: hint: ");
        let _ = self.err.put(line.as_bytes());
        let _ = self.err.put(b"\n");
    }
}

// How far the work is, how fast, and how long it will take at most.
fn write_line(done: u64, most: u64, things: &str, gone: u64, line: &mut Line) -> std::fmt::Result {
    let rate = rate_of(done, gone);
    let left = most.saturating_sub(done) / rate.max(1);
    write!(
        line,
        "{done} of at most {most} {things}, {rate} a second, at most {left} s left"
    )
}

// How many things are done a second, where so many are in so many milliseconds.
fn rate_of(done: u64, gone: u64) -> u64 {
    done.saturating_mul(1000) / gone.max(1)
}

fn millis_of(duration: Duration) -> u64 {
    u64::try_from(duration.as_millis()).unwrap_or(u64::MAX)
}
