//! The warnings of a source: its lines that are a label alone, without a colon.

ghost use Rattle.std.specs.Prelude.{◌≡◌, option_map};
ghost use Rattle.ia_source.specs.Warnings.{line_warning, lone_label, warning, warnings};
ghost use Rattle.text_out.specs.Writing.{Writes};

use crate::head::is_label;
use ia_lex::{first_line, only_word};
use itoa::Buffer;
use text_out::{Failed, Out};

// The label that stands alone on a line, without a colon.
fn lone_label(line: &[u8]) -> Option<&[u8]>
    ensures { option_map (λ label. label.now) result ≡ lone_label line.now }
{
    let word = only_word(line)?;
    if is_label(word) { Some(word) } else { None }
}

fn write_warning<O: Out>(number: usize, label: &[u8], out: &mut O) -> Result<(), Failed>
    ensures { Writes (O.device out.old) (O.device out.new) (warning number label.now) result }
{
    let mut digits = Buffer::new();
    out.put(b"warning line ")?;
    out.put(digits.format(number).as_bytes())?;
    out.put(b": label '")?;
    out.put(label)?;
    out.put(b"' alone on a line without a colon\n")
}

// Tells of a line, by its number.
fn warn_of<O: Out>(number: usize, line: &[u8], out: &mut O) -> Result<(), Failed>
    ensures { Writes (O.device out.old) (O.device out.new) (line_warning number (lone_label line.now)) result }
{
    match lone_label(line) {
        Some(label) => write_warning(number, label, out),
        None => Ok(()),
    }
}

/// Tells of each line of a source that is a label alone, without a colon: `warning line`, the line's number from 1, and
/// the label whole. Where the device fails, a beginning of that text was written.
pub fn warn<O: Out>(source: &[u8], out: &mut O) -> Result<(), Failed>
    ensures { Writes (O.device out.old) (O.device out.new) (warnings source.now) result }
{
    let mut place = 0;
    let mut above = 0;
    'lines: while place < source.len() {
        let (line, taken) = first_line(&source[place..]);
        warn_of(above + 1, line, out)?;
        place += taken;
        above += 1;
    }
    Ok(())
}
