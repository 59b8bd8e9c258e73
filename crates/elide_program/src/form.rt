//! What a program is written as, which the beginning of its text tells.
//!
//! [`Form::of`] alone decides it: who reads a program asks the file that was read.

ghost use Rattle.elide_program.specs.ProgramFile.{IsForm};

use ia_elf::is_elf;

/// What a program is written as.
#[derive(Clone, Copy, PartialEq, Eq, Debug)]
pub enum Form {
    /// As a source, which is assembled.
    Source,
    /// As an executable in ELF.
    Executable,
    /// As image text.
    Image,
}

impl Form {
    /// What a text is: an executable where it begins with the bytes 7f 45 4c 46, image text where it begins with
    /// `image 1 `, else a source.
    pub fn of(text: &[u8]) -> Form
        ensures { IsForm text.now result }
    {
        if is_elf(text) {
            Form::Executable
        } else if text.starts_with(b"image 1 ") {
            Form::Image
        } else {
            Form::Source
        }
    }
}
