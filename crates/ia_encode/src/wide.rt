//! Which fields are held at 32 bits.

/// Which fields of an instruction are held at 32 bits where it has such a form, whatever their values are.
#[derive(Clone, Copy)]
pub struct Wide {
    /// The immediate.
    pub number: bool,
    /// The displacement.
    pub place: bool,
}
