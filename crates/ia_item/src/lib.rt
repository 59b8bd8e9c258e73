//! What the lines of a source ask for: the items between reading a source and placing it.
//!
//! An item is a label, an `equ`, an instruction, data or a directive. An expression in it is one of `ia_lex`, its
//! symbols by the numbers of their whole names: `ScopedExpression` of `ScopedTerm`s of `ScopedAtom`s. The syntax that
//! they come from is NASM's (NASM manual, chapter 3, "The NASM Language").
//!
//! Promised here: names are equal where their whole names are, and hash alike. The definitions say what an expression
//! adds up to, what a field takes and holds, and which items can be placed.
//!
//! It stands on `ia_insn`, whose instructions it has, and `ia_word`.
#![tactic(auto)]

mod expression;
mod item;
mod name;
mod naming;
mod symbol;
mod walk;

pub use expression::{ScopedAtom, ScopedExpression, ScopedTerm};
pub use item::{Entry, Field, Item, Section, Template};
pub use name::{Name, Scope};
pub use symbol::{Definition, Symbol};
pub use walk::Walk;
