//! The operands of an instruction as they are printed.

use ia_insn::Mem;
use ia_word::Width;

/// An operand as it is printed.
#[derive(Clone, Copy)]
pub enum Arg {
    /// The name of a register.
    Register(Width, u8),
    /// A place in memory, with a size word.
    Place(Width, Mem),
    /// A place in memory, without one.
    Address(Mem),
    /// A number.
    Number(u32),
    /// The target of a short jump.
    Short(u32),
    /// The count in CL.
    Cl,
}
