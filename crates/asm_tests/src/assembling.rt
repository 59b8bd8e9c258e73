//! Sources assembled with and without a listing, which comes to the same, and each law once. What sources come to, the
//! worked rows of `doc_tests` show.

use crate::programs::{ELIDED, WORKED};
use ia_asm::{CodeLine, SymbolKind, assemble, assemble_image};
use std::alloc::Global;
use std::test::Fail;

/// Whether a source gives the same image, base, code length and symbol without a listing.
fn gives_the_same_image(alloc: Global, source: &[u8], name: &[u8]) -> bool {
    match (assemble(alloc, source), assemble_image(alloc, source)) {
        (Ok(unit), Ok(program)) => {
            unit.image.as_slice() == program.image.as_slice()
                && unit.base == program.base
                && unit.code_len == program.code_len
                && unit.address(name) == program.address(name)
        }
        (Err(fault), Err(same)) => fault == same,
        _ => false,
    }
}

// Sources, and a name that each has or has not, here and in the tests below.
#[test]
fn programs_without_a_listing(rt: HostRuntime) {
    let cases: [(&[u8], &[u8]); 9] = [
        (WORKED, b"start"),
        (WORKED, b"fall"),
        (WORKED, b"count"),
        (WORKED, b"none"),
        (ELIDED, b"start.next"),
        (ELIDED, b"start.done"),
        (ELIDED, b"mutex"),
        (ELIDED, b"count"),
        (b"", b"none"),
    ];
    for (source, name) in cases {
        assert!(rt;
            gives_the_same_image(rt.alloc(), source, name),
            "{source:?}"
        );
    }
}

#[test]
fn data_without_a_listing(rt: HostRuntime) {
    let cases: [(&[u8], &[u8]); 8] = [
        (
            b"org 16\ndb 'ab', 255, -128\nalign 8\ndd -1\nresb 2\n",
            b"none",
        ),
        (
            b"x equ 3\ndb 1, 2, 'a', 255, 256 - 1, -1, 0\ndd 1, 12345678h, x, 0ffffffffh\n",
            b"x",
        ),
        (
            b"section .data\nalign 4\ndb 1\nalign 4\nsection .text\nnop\n",
            b"none",
        ),
        (b"x equ 5\ny equ x - 6\n", b"y"),
        (b"add eax, 5\n", b"none"),
        (b"x equ 5\nadd eax, x\n", b"x"),
        (b"x equ 1\nshl eax, x\nshl eax, 1\n", b"x"),
        (b"x equ 0\nmov al, [ebx + x]\nmov al, [ebx]\n", b"x"),
    ];
    for (source, name) in cases {
        assert!(rt;
            gives_the_same_image(rt.alloc(), source, name),
            "{source:?}"
        );
    }
}

#[test]
fn labels_without_a_listing(rt: HostRuntime) {
    let cases: [(&[u8], &[u8]); 6] = [
        (b"a: jmp short a\nloop a\nret 8\n", b"a"),
        (b"jmp short a\nresb 127\na: nop\n", b"a"),
        (
            b"a: nop\n.b: nop\n.b.c: nop\nx: jmp short a.b.c\n",
            b"a.b.c",
        ),
        (b"a: nop\n.b: nop\n.b.c: nop\nx: jmp short a.b.c\n", b".b"),
        (
            b"a: jmp short .b.c\na.b: nop\n.c: jmp short a.b\n",
            b"a.b.c",
        ),
        (b"nop\n.b: nop\na:\n.b:\n", b".b"),
    ];
    for (source, name) in cases {
        assert!(rt;
            gives_the_same_image(rt.alloc(), source, name),
            "{source:?}"
        );
    }
}

#[test]
fn faults_without_a_listing(rt: HostRuntime) {
    let cases: [(&[u8], &[u8]); 3] = [
        (b"nop\ndb 256\n", b"none"),
        (b"nop\nfoo bar\n", b"none"),
        (b"db 256\nfoo bar\n", b"none"),
    ];
    for (source, name) in cases {
        assert!(rt;
            gives_the_same_image(rt.alloc(), source, name),
            "{source:?}"
        );
    }
}

// An `equ` is no label, and a line of data no instruction.
#[test]
fn lines_and_kinds(rt: HostRuntime) {
    let source = b"half equ 2\nstart: nop\n       mov eax, half\nsection .data\nx: db half\n";
    let program = assemble_image(rt.alloc(), source).expect(&rt, "is assembled");
    let kinds = [SymbolKind::Equate, SymbolKind::Label, SymbolKind::Label];
    let lines = [
        CodeLine {
            address: 0x100,
            line: 2,
        },
        CodeLine {
            address: 0x101,
            line: 3,
        },
    ];
    assert!(rt; program.kinds.as_slice() == kinds.as_slice());
    assert!(rt; program.lines.as_slice() == lines.as_slice());
}

#[test]
fn laws(_rt: HostRuntime) -> Result<(), Fail> {
    ia_source::places_are_sums();
    ia_asm::source_gives_one_image();
    ia_resolve::code_is_spelt();
    ia_resolve::sizes_need_no_symbol();
    Ok(())
}
