//! `elide explain`: from FAULT to the texts of the faults that have this number or name.
//!
//! [`explain`] looks whether there is one before it prints, so that a misused FAULT leaves the output empty. With none
//! asked for, the first line of each entry is printed. No file is read: the texts are those of `faults`.

use crate::entry::{head_of, is_asked};
use crate::faults::FAULTS;
use elide_args::ExplainOptions;
use elide_device::{Gathered, Lent};
use elide_setup::Refusal;
use text_out::{Out, WriteFault};

/// Prints what a fault means, by its number or its name; of several of one name, each. Where none is asked for it
/// prints the numbers and names of all.
pub fn explain<O: Out>(options: &ExplainOptions<'_>, out: &mut O) -> Result<(), Refusal> {
    let mut page = Gathered::new(Lent::new(out));
    match options.fault {
        None => put_heads(&mut page)?,
        Some(what) if is_told(what) => put_entries(what, &mut page)?,
        Some(_) => return Err(Refusal::Usage("FAULT")),
    }
    page.finish()?;
    Ok(())
}

// Whether there is a fault of this number or name.
fn is_told(what: &str) -> bool {
    FAULTS
        .iter()
        .any(|text| text.split('\n').any(|line| is_head(line, what)))
}

fn is_head(line: &str, what: &str) -> bool {
    match head_of(line) {
        Some(head) => is_asked(head, what),
        None => false,
    }
}

fn put_heads<O: Out>(out: &mut O) -> Result<(), WriteFault> {
    for text in &FAULTS {
        put_heads_of(text, out)?;
    }
    Ok(())
}

fn put_heads_of<O: Out>(text: &str, out: &mut O) -> Result<(), WriteFault> {
    for line in text.split('\n') {
        if head_of(line).is_some() {
            put_line(line, out)?;
        }
    }
    Ok(())
}

fn put_entries<O: Out>(what: &str, out: &mut O) -> Result<(), WriteFault> {
    for text in &FAULTS {
        put_entries_of(text, what, out)?;
    }
    Ok(())
}

// Prints the entries of a text that are asked for.
fn put_entries_of<O: Out>(text: &str, what: &str, out: &mut O) -> Result<(), WriteFault> {
    let mut is_shown = false;
    for line in text.split('\n') {
        if let Some(head) = head_of(line) {
            is_shown = is_asked(head, what);
        }
        if is_shown && !line.is_empty() {
            put_line(line, out)?;
        }
    }
    Ok(())
}

fn put_line<O: Out>(line: &str, out: &mut O) -> Result<(), WriteFault> {
    out.put(line.as_bytes())?;
    out.put(b"\n")?;
    Ok(())
}
