//! What a source gives where one thing alone is asked for, and a source whose entries are gone over in more than one
//! part.

use crate::programs::{ELIDED, WORKED};
use ia_asm::{assemble, assemble_code, assemble_listing};
use std::alloc::{AllocError, Global};

/// Whether a source gives the same image and listing where one of them alone is asked for.
fn gives_the_same_alone(alloc: Global, source: &[u8]) -> bool {
    match (
        assemble(alloc, source),
        assemble_code(alloc, source),
        assemble_listing(alloc, source),
    ) {
        (Ok(unit), Ok(code), Ok(listing)) => {
            unit.image.as_slice() == code.image.as_slice()
                && unit.base == code.base
                && unit.code_len == code.code_len
                && unit.listing.as_slice() == listing.as_slice()
        }
        (Err(fault), Err(of_code), Err(of_listing)) => fault == of_code && fault == of_listing,
        _ => false,
    }
}

#[test]
fn one_thing_alone(rt: HostRuntime) {
    let cases: [&[u8]; 8] = [
        WORKED,
        ELIDED,
        b"",
        b"org 16\ndb 'ab', 255, -128\nalign 8\ndd -1\nresb 2\n",
        b"nop\norg 4294967296\n",
        b"jmp none\n",
        b"a: nop\na: nop\n",
        b"section .data\nx: dd y\ny equ x + 1\n",
    ];
    for source in cases {
        assert!(rt; gives_the_same_alone(rt.alloc(), source));
    }
}

/// A label, 360000 lines of `nop`, a jump back to the label, and three bytes of data.
fn long_source(alloc: Global) -> Result<Vec<u8>, AllocError> {
    let mut source = Vec::new(alloc);
    source.extend_from_slice(b"first:\n")?;
    for _ in 0..360_000 {
        source.extend_from_slice(b"nop\n")?;
    }
    source.extend_from_slice(b"jmp first\nsection .data\nlast: db 1, 2, 3\n")?;
    Ok(source)
}

#[test]
fn a_source_of_many_entries(rt: HostRuntime) {
    let source = long_source(rt.alloc()).expect(&rt, "there is memory for the source");
    let unit = assemble(rt.alloc(), source.as_slice()).expect(&rt, "is assembled");
    // The data stands at the next multiple of 64, as an address.
    assert_eq!(rt;
        (unit.base, unit.code_len, unit.image.as_slice().len()),
        (0x100, 360_005, 360_067)
    );
    assert!(rt; unit.image.as_slice().starts_with(&[0x90, 0x90]));
    assert!(rt; unit.image.as_slice().ends_with(&[0, 1, 2, 3]));
    // The jump goes 360005 bytes back.
    assert!(rt;
        unit.image.as_slice().get(359_999..360_005) == Some(&[0x90, 0xe9, 0xbb, 0x81, 0xfa, 0xff])
    );
    assert_eq!(rt;
        (unit.address(b"first"), unit.address(b"last")),
        (Some(0x100), Some(360_320))
    );
    let code = assemble_code(rt.alloc(), source.as_slice()).expect(&rt, "is assembled");
    assert!(rt; code.image.as_slice() == unit.image.as_slice());
}
