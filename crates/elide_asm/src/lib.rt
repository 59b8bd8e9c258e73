//! `elide asm` and `elide dis`.
//!
//! Promised: what `asm` prints, where the device tells its bytes, is the image text of what FILE's source assembles to,
//! or its listing; a source is refused as the assembler refuses it, and nothing is written then. What `dis` prints
//! without labels is the listing of the code of the program that FILE is read as (`specs/Printed.antt`). With labels it
//! has a line for each instruction of the subset, and of other code a line with the bytes of the whole instruction, one
//! behind the other without a gap, each below the labels at its address (`specs/Labelled.antt`). Which labels there are
//! and where they stand, and the words for code outside of the subset, is compared by `doc_tests`. Stands on
//! `elide_program`, on `ia_asm`, `ia_image`, `ia_text` and `ia_foreign`, and on `elide_places` for the labels.
#![tactic(auto)]

mod assembler;
mod disassembler;
mod foreign;
mod labels;
mod listing;

pub use assembler::asm;
pub use disassembler::dis;
