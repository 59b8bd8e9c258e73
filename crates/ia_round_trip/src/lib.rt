//! Laws of the printed text of instructions: it reads back as the instruction that was printed, and assembles to its
//! bytes.
//!
//! Each function does nothing: its contract is the law. The main one is `source_assembles_to_its_bytes`; the others say
//! the same of each step on the way, from the text's tokens over its operands and its form to the bytes of the item.
//!
//! It stands on `ia_text`, which prints, on `ia_lex` and `ia_source`, which read, and on `ia_asm`, which places.
#![tactic(auto)]

mod laws;

pub use laws::{
    expressions_agree, form_reads_back, head_reads_back, instruction_reads_back,
    line_assembles_to_its_bytes, operand_reads_back, operands_read_back,
    source_assembles_to_its_bytes, source_reads_back, text_has_its_tokens, text_is_one_line,
};
