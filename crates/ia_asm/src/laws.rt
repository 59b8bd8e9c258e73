//! A law of what assembling gives. Its function does nothing: its contract is the law.

ghost use Rattle.ia_asm.specs.OneImage.{SourceGivesOneImage};

/// A source has one answer by the contract of [`assemble_image`](crate::assemble_image), but that memory may be
/// wanting: one image, or none. So the numbers of its symbols, and how often it is read, change nothing.
pub fn source_gives_one_image()
    ensures { SourceGivesOneImage }
{}
