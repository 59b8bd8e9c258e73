//! Words of other assemblers and processors, which are read nowhere here.

/// Registers of 16 bits.
const SIXTEEN_BITS: [&str; 8] = ["ax", "bx", "cx", "dx", "si", "di", "bp", "sp"];

/// Other registers: segments, the instruction pointer, 64 bits, floating point and vectors.
const OTHERS: [&str; 40] = [
    "cs", "ds", "es", "fs", "gs", "ss", "eip", "rip", "rax", "rbx", "rcx", "rdx", "rsi", "rdi",
    "rbp", "rsp", "r8", "r9", "r10", "r11", "r12", "r13", "r14", "r15", "st0", "st1", "mm0", "mm1",
    "xmm0", "xmm1", "xmm2", "xmm3", "ymm0", "ymm1", "cr0", "cr2", "cr3", "cr4", "dr0", "dr7",
];

/// Sizes of operands.
const SIZES: [&str; 7] = ["word", "qword", "tword", "oword", "yword", "zword", "fword"];

/// Prefixes of instructions, but for those that repeat.
const PREFIXES: [&str; 9] = [
    "xacquire", "xrelease", "bnd", "nobnd", "a16", "a32", "o16", "o32", "wait",
];

/// Directives and prefixes of NASM, and what is read in their place.
const DIRECTIVES: [(&str, &str); 18] = [
    ("dw", "db and dd are"),
    ("dq", "db and dd are"),
    ("dt", "db and dd are"),
    ("resw", "resb is"),
    ("resd", "resb is"),
    ("resq", "resb is"),
    ("times", "each item is written out"),
    ("segment", "section is"),
    ("use32", "bits 32 is"),
    ("alignb", "align is"),
    ("extern", "all symbols stand in one source"),
    ("rep", "loops are written out"),
    ("repe", "loops are written out"),
    ("repz", "loops are written out"),
    ("repne", "loops are written out"),
    ("repnz", "loops are written out"),
    ("incbin", "db is"),
    ("struc", "equ is"),
];

/// Whether a word is one of these, in any case.
pub fn is_among(names: &[&str], word: &[u8]) -> bool {
    for name in names {
        if word.eq_ignore_ascii_case(name.as_bytes()) {
            return true;
        }
    }
    false
}

/// Whether a word is a register of 16 bits.
pub fn is_sixteen_bits(word: &[u8]) -> bool {
    is_among(&SIXTEEN_BITS, word)
}

/// Whether a word is a register that is not read here.
pub fn is_other_register(word: &[u8]) -> bool {
    is_among(&OTHERS, word)
}

/// Whether a word is a size that is not read here.
pub fn is_other_size(word: &[u8]) -> bool {
    is_among(&SIZES, word)
}

// Whether a word is a prefix that is not read here, and that nothing is read in place of.
fn is_other_prefix(word: &[u8]) -> bool {
    is_among(&PREFIXES, word)
}

/// Whether a word is kept by NASM and is a symbol where a source here names one: a prefix, or a register or a size that
/// is not read.
pub fn is_kept(word: &[u8]) -> bool {
    is_sixteen_bits(word)
        || is_other_register(word)
        || is_other_size(word)
        || is_other_prefix(word)
        || instead_of(word).is_some()
}

/// What is read in place of a directive or a prefix of NASM.
pub fn instead_of(word: &[u8]) -> Option<&'static [u8]> {
    for (name, instead) in &DIRECTIVES {
        if word.eq_ignore_ascii_case(name.as_bytes()) {
            return Some(instead.as_bytes());
        }
    }
    None
}
