//! The faults of a source: where each stands, and what is meant.
//!
//! [`advise_source`] reads FILE again, and writes only where its first fault is the one that was told. Of that one the
//! place follows, since its line stands already; each further one has such a line first. They are found by
//! `ia_diagnosis`, which also says whether there are more.

use crate::excerpt::{Excerpt, write_excerpt};
use crate::page::Page;
use elide_color::Style;
use elide_program::{MOST_BYTES, Paths};
use ia_asm::AsmFault;
use ia_diagnosis::{Diagnosis, diagnose};
use std::alloc::Global;
use std::fmt;
use std::fmt::Write;
use text_out::Out;

/// Writes where the faults of a source stand and what is meant. The first one was told.
pub fn advise_source<P: Paths, O: Out>(
    alloc: Global,
    path: &str,
    fault: AsmFault,
    paths: &mut P,
    page: &mut Page<'_, O>,
) -> fmt::Result {
    let Ok(text) = paths.read(path, MOST_BYTES) else {
        return Ok(());
    };
    let Ok(found) = diagnose(alloc, text.as_slice()) else {
        return Ok(());
    };
    // The file may be another one by now.
    match found.told.first() {
        Some(first) if first.fault == fault => {}
        _ => return Ok(()),
    }
    for (index, diagnosis) in found.told.iter().enumerate() {
        if index > 0 {
            write_fault(diagnosis.fault, page)?;
        }
        write_diagnosis(path, diagnosis, page)?;
    }
    if found.more {
        page.put(b"there are more faults\n")?;
    }
    Ok(())
}

// The line that tells a fault.
fn write_fault<O: Out>(fault: AsmFault, page: &mut Page<'_, O>) -> fmt::Result {
    page.begin(Style::Fault)?;
    write!(page, "fault {} ", fault.code())?;
    page.end()?;
    match fault.line() {
        Some(line) => writeln!(page, "{fault} line {line}"),
        None => writeln!(page, "{fault}"),
    }
}

fn write_diagnosis<O: Out>(
    path: &str,
    diagnosis: &Diagnosis<'_>,
    page: &mut Page<'_, O>,
) -> fmt::Result {
    let number = match diagnosis.fault.line() {
        Some(line) => line as usize,
        None => 0,
    };
    let excerpt = Excerpt {
        path,
        number,
        text: diagnosis.text,
        column: diagnosis.column,
        length: diagnosis.length,
    };
    write_excerpt(&excerpt, &diagnosis.meaning, page)
}
