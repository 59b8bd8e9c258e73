//! The shapes of operands: what decides the form of an instruction.

use ia_insn::Mem;
use ia_word::Width;

/// What an operand is, up to the numbers and symbols in it.
#[derive(Clone, Copy)]
pub enum OperandShape {
    /// A register by its width and number.
    Register(Width, u8),
    /// An operand in memory, with a size word or without. Its displacement stands as 0.
    Memory(Option<Width>, Mem),
    /// An expression.
    Number,
    /// An expression behind `near`.
    Near,
    /// An expression behind `short`.
    Short,
}

/// The operands of an instruction, at most three.
#[derive(Clone, Copy)]
pub enum OperandShapes {
    /// No operand.
    Nothing,
    /// One operand.
    One(OperandShape),
    /// Two operands.
    Two(OperandShape, OperandShape),
    /// Three operands.
    Three(OperandShape, OperandShape, OperandShape),
}
