//! Operands: a register or a place in memory, with the parts that an address is the sum of. Immediates are no operands
//! here, since no instruction writes to one.

/// A place in memory: base + index * scale + displacement, modulo 2^32 (SDM volume 1, "Specifying an Offset").
#[derive(Clone, Copy, Debug, PartialEq, Eq)]
pub struct Mem {
    /// A register, 0 to 7.
    pub base: Option<u8>,
    /// A register, 0 to 7 and not 4 (ESP).
    pub index: Option<u8>,
    /// 1, 2, 4 or 8; 1 where there is no index.
    pub scale: u8,
    /// The displacement as a 32-bit value, whatever it takes in the instruction.
    pub disp: u32,
}

/// What an instruction works on.
#[derive(Clone, Copy, Debug, PartialEq, Eq)]
pub enum Operand {
    /// A register: EAX 0, ECX 1, EDX 2, EBX 3, ESP 4, EBP 5, ESI 6, EDI 7, or, where the operand is a byte, AL 0, CL 1,
    /// DL 2, BL 3, AH 4, CH 5, DH 6, BH 7.
    Reg(u8),
    /// A place in memory.
    Mem(Mem),
    /// A number: below 256 where the operand is a byte, else a 32-bit value.
    Imm(u32),
}
