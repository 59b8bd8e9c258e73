//! What the rows of several tables begin with: an instruction, as bytes in hex and as it is printed at address 0.

use ia_decode::decode;
use ia_insn::Insn;
use ia_text::write_insn;
use std::alloc::Global;
use text_out::ToVec;

/// Whether an instruction is printed like this at address 0.
pub(crate) fn is_printed(alloc: Global, insn: &Insn, text: &str) -> bool {
    let mut out = ToVec::new(Vec::new(alloc));
    write_insn(insn, 0, &mut out).is_ok() && out.bytes.as_slice() == text.as_bytes()
}

/// The instruction that bytes in hex are, all of them, if it is printed like this.
pub(crate) fn instruction(alloc: Global, digits: &str, text: &str) -> Option<Insn> {
    let bytes = hex::decode(alloc, digits).ok()?;
    let (insn, length) = decode(bytes.as_slice()).ok()?;
    if usize::from(length) == bytes.len() && is_printed(alloc, &insn, text) {
        Some(insn)
    } else {
        None
    }
}

/// The instruction of a row, and what stands in its third field. Semicolons part the fields.
pub(crate) fn row_of(alloc: Global, row: &str) -> Option<(Insn, &str)> {
    let (digits, rest) = row.split_once("; ")?;
    let (text, wanted) = rest.split_once("; ")?;
    Some((instruction(alloc, digits, text)?, wanted))
}
