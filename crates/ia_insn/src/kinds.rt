//! By how much a shift goes.

/// By how many bits a shift or a rotation goes, before the number is taken modulo 32.
#[derive(Clone, Copy, Debug, PartialEq, Eq)]
pub enum Count {
    /// By a number, 0 to 255.
    Imm(u8),
    /// By what CL holds.
    Cl,
}
