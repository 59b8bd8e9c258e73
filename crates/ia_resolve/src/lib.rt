//! The values of expressions, and the instructions and fields that they go into.
//!
//! `expression_value` adds up an expression by the values of the symbols, exactly, however far these lie.
//! `resolve_field` gives what goes into a field for it (SDM volume 2, "Immediate", "Displacement"; a jump's target goes
//! as a distance), and `resolve_template` the instruction with its number and its displacement filled in. Each also
//! says what is wrong.
//!
//! Promised: the value, the number and the fault are those that the definitions in `specs/Values` and `specs/Items`
//! say; the instruction stays encodable; by the laws, its bytes spell it, and how many they are depends on no symbol.
//!
//! It stands on `ia_item` for expressions and fields, and on `ia_insn` for instructions.
#![tactic(auto)]

mod exact;
mod expression;
mod field;
mod laws;
mod place_fault;
mod resolve;
mod symbols;

pub use expression::{ExpressionValue, expression_value, wide};
pub use field::modulo_long;
pub use laws::{code_is_spelt, sizes_need_no_symbol};
pub use place_fault::{PlaceFault, first_of};
pub use resolve::{FieldValue, ResolvedInsn, resolve_field, resolve_template};
pub use symbols::{NoSymbols, SymbolValues, Table};
