//! What is meant by a fault.

use crate::sentence::Sentence;
use std::fmt;

/// What is meant by a fault of a source. The texts are parts of the source, or names that stand for what is wanted.
#[derive(Clone, Copy)]
pub enum Meaning<'a> {
    /// A byte that is no character of a source.
    NoCharacter,
    /// A number that is none.
    NoNumber(&'a [u8]),
    /// A quote without its end.
    NoQuote,
    /// A directive of a preprocessor.
    NoPreprocessor(&'a [u8]),
    /// A word that names no instruction; and one that is near.
    NoInstruction(&'a [u8], Option<&'a [u8]>),
    /// A directive of other assemblers; and what is read here.
    NotRead(&'a [u8], &'a [u8]),
    /// Something else than a word stands where an instruction belongs.
    NoStatement,
    /// A symbol is defined above, on this line.
    SymbolTwice(&'a [u8], u32),
    /// A symbol that is not defined; and one that is near.
    UnknownSymbol(&'a [u8], Option<&'a [u8]>),
    /// A symbol of `equ` or `resb` that is no `equ` name from above.
    NotAbove(&'a [u8]),
    /// A register of 16 bits.
    SixteenBits(&'a [u8]),
    /// A register that is none of the 16.
    NoRegister(&'a [u8]),
    /// A size that is neither byte nor dword.
    NoSize(&'a [u8]),
    /// A word of other assemblers before a bracket.
    NoPointer(&'a [u8]),
    /// Nothing says the size of a memory operand.
    SizeNotSpecified,
    /// LOCK before an instruction or a destination that does not take it.
    NoLock,
    /// A bracket that is not closed.
    NoBracket,
    /// A scale of an index that is none.
    NoScale,
    /// A register or a size word of 8 bits where one of 32 belongs.
    TooNarrow(&'a [u8]),
    /// A register or a size word of 32 bits where one of 8 belongs.
    TooWide(&'a [u8]),
    /// An operand is missing.
    TooFew,
    /// An operand is left over.
    TooMany,
    /// Both operands are in memory.
    TwoInMemory,
    /// A number stands where a result goes.
    NoDestination,
    /// A section that is none.
    NoSection,
    /// A width of code that is none.
    NotThirtyTwo,
    /// An `org` behind another or behind an item.
    LateOrg,
    /// An `org` without a number.
    NoBase,
    /// An alignment that is none.
    NoAlignment,
    /// An `equ` without a name.
    NoName,
    /// Operands that fit no form of this instruction or directive.
    NoForm(&'a [u8]),
    /// A number outside its range.
    OutOfRange(Field),
    /// An item ends too far away.
    TooFar,
    /// A short jump that leads too far; and what to write in its place.
    ShortJump(&'static str),
}

/// What a number goes into.
#[derive(Clone, Copy, PartialEq, Eq)]
pub enum Field {
    /// A byte.
    Byte,
    /// The operand of RET.
    Return,
    /// A doubleword, or a displacement.
    Dword,
    /// The size of `resb`.
    Size,
    /// The base of `org`.
    Base,
}

impl Field {
    /// What it takes, in words.
    pub(crate) fn takes(self) -> &'static str {
        match self {
            Field::Byte => "a byte takes -128 to 255",
            Field::Return => "ret takes 0 to 65535",
            Field::Dword => "a doubleword takes -2147483648 to 4294967295",
            Field::Size => "resb takes no number below 0",
            Field::Base => "org takes 0 to 4294967295",
        }
    }
}

impl fmt::Display for Field {
    fn fmt<W: fmt::Write>(&self, f: &mut fmt::Formatter<W>) -> fmt::Result {
        f.write_str(self.takes())
    }
}

impl fmt::Display for Meaning<'_> {
    fn fmt<W: fmt::Write>(&self, f: &mut fmt::Formatter<W>) -> fmt::Result {
        Sentence::of(*self).fmt(f)
    }
}
