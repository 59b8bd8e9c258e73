//! What the first words of lines ask for.

use ia_insn::Mnemonic;

/// What is asked of the assembler itself.
#[derive(Clone, Copy)]
pub enum Directive {
    /// `section`: where the following goes.
    Section,
    /// `org`: the base.
    Org,
    /// `bits`, which must be 32.
    Bits,
    /// `global`, without effect.
    Global,
    /// `db`: bytes.
    Db,
    /// `dd`: doublewords.
    Dd,
    /// `resb`: bytes that are 0.
    Resb,
    /// `align`: bytes up to a multiple.
    Align,
    /// `equ`, behind a name: a symbol's value.
    Equ,
}

/// A word that may stand where an instruction's name does.
#[derive(Clone, Copy)]
pub enum Keyword {
    /// An instruction's name.
    Mnemonic(Mnemonic),
    /// `lock`, in front of an instruction's name.
    Lock,
    /// What is asked of the assembler.
    Directive(Directive),
    /// A word of NASM's that has no use here, and that no label may have for a name.
    Reserved,
}
