//! Sources where memory is refused: nothing is made, 17 is told, and the same call then gives what it gives with ample
//! memory. `scripts/refuse-memory` refuses each request of these tests in turn; with ample memory nothing is refused.

use crate::programs::{ELIDED, WORKED};
use ia_asm::{AsmFault, assemble, assemble_image};

#[test]
fn a_source_is_assembled(rt: HostRuntime) {
    let unit = match assemble(rt.alloc(), WORKED) {
        Ok(unit) => unit,
        Err(fault) => {
            assert_eq!(rt; fault, AsmFault::NoMemory);
            assemble(rt.alloc(), WORKED).expect(&rt, "is assembled when asked again")
        }
    };
    assert_eq!(rt;
        (unit.base, unit.code_len, unit.image.as_slice().len()),
        (0x100, 16, 68)
    );
    assert_eq!(rt; unit.address(b"count"), Some(0x140));
    assert!(rt; unit.listing.as_slice().ends_with(b"00000140  05000000\n"));
}

#[test]
fn an_image_is_assembled(rt: HostRuntime) {
    let program = match assemble_image(rt.alloc(), ELIDED) {
        Ok(program) => program,
        Err(fault) => {
            assert_eq!(rt; fault, AsmFault::NoMemory);
            assemble_image(rt.alloc(), ELIDED).expect(&rt, "is assembled when asked again")
        }
    };
    assert_eq!(rt; program.address(b"mutex"), Some(0x180));
    assert_eq!(rt; program.address(b"start.busy"), Some(0x126));
}
