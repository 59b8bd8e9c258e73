//! Reading a source: from its bytes to the items that its lines ask for.
//!
//! The syntax is NASM's (NASM manual, chapter 3, "The NASM Language"), as far as the subset goes.
//!
//! Promised by `entries`: exactly the entries that the lines of the source ask for, in their order, each of which can
//! be placed; or the first line that is wrong and the first thing that is wrong with it; or that no memory was left.
//! By `Reader`, the same a part of the source at a time, as often as wanted, to what goes over entries
//! (`ia_item::Walk`). How much memory a reader takes is bounded by the source's length (`budget.rt`); no clause says
//! so. A memory operand reads as the sum of its addends, in whichever order they stand. By `is_label`, which first
//! words of lines are labels. By `warn`, what a source that assembles is warned of: a first word that is no mnemonic is
//! a label, and its colon may be left out (NASM manual, "Layout of a NASM Source Line"), so a misspelt mnemonic without
//! operands is a label too. It tells of each line that is a label alone without a colon, and of no other, in the order
//! of the lines, and takes no memory. Reading refuses none of these lines, and warning reads none of their items: each
//! goes over the source by itself.
//!
//! It stands on `ia_lex` for lines, tokens and expressions, on `ia_names` for the numbers of names, on `ia_item` for
//! what it gives, and on `text_out` for the device that warnings are told on.
#![tactic(auto)]

mod budget;
mod comma;
mod directive;
mod expression;
mod fault;
mod head;
mod keyword;
mod laws;
mod line;
mod list;
mod memory;
mod operand;
mod reader;
mod rest;
mod source;
mod state;
mod statement;
mod sum;
mod values;
mod warning;

pub use fault::{SourceFault, Why};
pub use head::is_label;
pub use laws::places_are_sums;
pub use reader::Reader;
pub use source::entries;
pub use warning::warn;
