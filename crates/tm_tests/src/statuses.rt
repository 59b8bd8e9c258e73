//! What a status tells, and the one that no run has. All others, and what they are for, the worked rows of `doc_tests`
//! show.

use tm_status::{Cause, causes, status};

#[test]
fn what_a_status_tells(rt: HostRuntime) {
    // An XBEGIN that is too deep is always nested.
    assert_eq!(rt; status(Cause::Nest, false), 8);
    let told = causes(0xff00_0021);
    assert_eq!(rt; told.explicit, Some(0xff));
    assert!(rt; told.nested && !told.retry && !told.conflict && !told.capacity && !told.debug);
    // The argument counts only with bit 0, and bits 6 to 23 tell nothing.
    let told = causes(0x12ff_ffde);
    assert_eq!(rt; told.explicit, None);
    assert!(rt; told.retry && told.conflict && told.capacity && told.debug && !told.nested);
}
