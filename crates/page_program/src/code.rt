//! The instructions of a program, as a listing has them.
//!
//! They are asked for by their distance from the first byte of the code, as what ran is noted by it; [`address_of`]
//! gives the address. Where no instruction stands there is a byte, `db`, of length 1. Which of them make the rows
//! of a listing is said in `listing`.

use elide_places::Places;
use elide_setup::Setup;
use ia_insn::Insn;
use ia_text::write_insn;
use page_text::{LINE, write_string};
use std::alloc::Global;
use text_out::page::{Page, push, push_number};
use text_out::{Out, ToVec, WriteFault};

/// A program, and what is known of its places.
#[derive(Clone, Copy)]
pub struct Loaded<'a> {
    /// For texts.
    pub alloc: Global,
    /// The program and its machine.
    pub setup: &'a Setup,
    /// Where its instructions and labels stand.
    pub places: &'a Places,
}

/// The instruction of a program at a distance from the first byte of its code, where there is one.
pub fn insn_at(setup: &Setup, offset: usize) -> Option<Insn> {
    match setup.program.insn_at(u32::try_from(offset).ok()?) {
        Ok((insn, _length)) => Some(insn),
        Err(_) => None,
    }
}

/// How many bytes the instruction there has; one, where there is none.
pub fn length_at(setup: &Setup, offset: usize) -> usize {
    let Ok(offset) = u32::try_from(offset) else {
        return 1;
    };
    match setup.program.insn_at(offset) {
        Ok((_insn, length)) => usize::from(length).max(1),
        Err(_) => 1,
    }
}

/// The text of what stands there, as `dis` prints it.
pub fn text_at(alloc: Global, setup: &Setup, offset: usize) -> Result<Vec<u8>, WriteFault> {
    let address = address_of(setup, offset);
    let mut line = ToVec::new(Vec::new(alloc));
    match insn_at(setup, offset) {
        Some(insn) => write_insn(&insn, address, &mut line)?,
        None => write_byte(setup, offset, &mut line)?,
    }
    Ok(line.bytes)
}

fn write_byte<O: Out>(setup: &Setup, offset: usize, out: &mut O) -> Result<(), WriteFault> {
    let mut page = Page::new();
    push(&mut page, b"db ");
    if let Some(byte) = setup.program.code().get(offset) {
        push_number(&mut page, u32::from(*byte));
    }
    out.put(page.as_slice())?;
    Ok(())
}

/// The address at a distance from the first byte of the code.
pub fn address_of(setup: &Setup, offset: usize) -> u32 {
    setup
        .program
        .base()
        .wrapping_add(u32::try_from(offset).unwrap_or(0))
}

/// Writes the text of what stands there, as a string.
pub fn write_text_at<O: Out>(
    alloc: Global,
    setup: &Setup,
    offset: usize,
    out: &mut O,
) -> Result<(), WriteFault> {
    let text = text_at(alloc, setup, offset)?;
    write_string(text.as_slice(), LINE, out)
}
