//! Items, which are what a source asks for, line by line: instructions whose numbers are still expressions, data, room,
//! sections, labels. Each line is read alone; values come later.

use crate::expression::ScopedExpression;
use crate::symbol::Definition;
use ia_insn::Insn;

/// What the number of an instruction goes into.
#[derive(Clone, Copy, PartialEq, Eq)]
pub enum Field {
    /// A byte: an immediate, a count of a shift, a bit's number or the code of XABORT.
    Byte,
    /// The two bytes that RET takes from the stack.
    Half,
    /// 32 bits.
    Long,
    /// A jump's target, which goes as a distance of 32 bits, counted from so many bytes behind the jump's address.
    Near(u8),
    /// A jump's target, which goes as a distance of one signed byte, counted from so many bytes behind the jump's
    /// address.
    Short(u8),
}

/// An instruction, and the expressions that its number and its displacement are written as. In `insn` both stand as 0,
/// or as what makes the instruction encodable.
#[derive(Drop)]
pub struct Template {
    /// The instruction.
    pub insn: Insn,
    /// Its immediate, count or target, where one is written.
    pub number: Option<ScopedExpression>,
    /// Its displacement, where one is written.
    pub displacement: Option<ScopedExpression>,
}

/// What a line, or a part of it, asks for.
#[derive(Drop)]
pub enum Item<'a> {
    /// A symbol whose value is the address of what follows.
    Label(Definition<'a>),
    /// A symbol whose value is an expression of numbers and of such symbols from above.
    Equ(Definition<'a>, ScopedExpression),
    /// An instruction.
    Code(Template),
    /// One byte.
    Byte(ScopedExpression),
    /// Bytes between quotes.
    Text(&'a [u8]),
    /// The bytes of numbers that stand one behind the other on a line of `db` or `dd`.
    Numbers(Vec<u8>),
    /// 32 bits.
    Long(ScopedExpression),
    /// So many bytes that are 0.
    Reserve(ScopedExpression),
    /// Bytes up to the next multiple of this power of two, 1 to 4096.
    Align(u32),
    /// The base; none where the number is above u64::MAX.
    Org(Option<u64>),
}

/// A part of the image.
#[derive(Clone, Copy, PartialEq, Eq)]
pub enum Section {
    /// The code, from the base on.
    Text,
    /// The data behind it.
    Data,
}

/// An item, the section in force, and its line, counted from 1.
#[derive(Drop)]
pub struct Entry<'a> {
    /// Its line.
    pub line: u32,
    /// The section that it goes to.
    pub section: Section,
    /// What it asks for.
    pub item: Item<'a>,
}
