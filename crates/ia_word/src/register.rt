//! The eight general registers by the number that an instruction's field has for them.

/// EAX, and where the operand is a byte AL. The number of each register is that of its field in an instruction
/// (SDM volume 2, "ModR/M and SIB Bytes", table of register codes).
pub const EAX: u8 = 0;

/// ECX.
pub const ECX: u8 = 1;

/// EDX.
pub const EDX: u8 = 2;

/// EBX.
pub const EBX: u8 = 3;

/// ESP.
pub const ESP: u8 = 4;

/// EBP.
pub const EBP: u8 = 5;

/// ESI.
pub const ESI: u8 = 6;

/// EDI.
pub const EDI: u8 = 7;

/// CL, the low byte of ECX, among the registers of a byte.
pub const CL: u8 = 1;
