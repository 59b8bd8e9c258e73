//! Registers, their bytes, the places of the flags, and the conditions that flags satisfy.

use bitflags::Flags as _;
use ia_regs::{Flags, Regs, cond};
use ia_word::Condition;

fn flags(sum: u16) -> Flags {
    Flags::from_bits_retain(sum)
}

#[test]
fn flags_at_their_places(rt: HostRuntime) {
    assert_eq!(rt;
        Flags::of(true, false, false, false, false, true).bits(),
        0x801
    );
    assert_eq!(rt;
        Flags::of(false, true, true, true, true, false).bits(),
        0x0d4
    );
    let all = flags(0x8d5);
    assert!(rt; all.carry() && all.parity() && all.adjust());
    assert!(rt; all.zero() && all.sign() && all.overflow());
    assert!(rt; !flags(0x8d4).carry() && !flags(0x8d1).parity() && !flags(0x8c5).adjust());
    assert!(rt; !flags(0x895).zero() && !flags(0x855).sign() && !flags(0x0d5).overflow());
    assert_eq!(rt; all.with_carry(false), flags(0x8d4));
    assert_eq!(rt; all.with_overflow(false), flags(0x0d5));
}

#[test]
fn conditions_of_flags(rt: HostRuntime) {
    assert!(rt; cond(Condition::Below, flags(0x001)));
    assert!(rt; cond(Condition::Above, flags(0x894)));
    assert!(rt; cond(Condition::Less, flags(0x080)));
    assert!(rt; cond(Condition::GreaterOrEqual, flags(0x880)));
    assert!(rt; !cond(Condition::Greater, flags(0x8c0)));
}

#[test]
fn registers_and_their_bytes(rt: HostRuntime) {
    let mut regs = Regs {
        gpr: [0x1234_5678, 1, 2, 0x89ab_cdef, 4, 5, 6, 7],
        flags: flags(0),
        eip: 0,
    };
    assert_eq!(rt; regs.get(6), 6);
    assert_eq!(rt; (regs.get8(0), regs.get8(4)), (0x78, 0x56));
    assert_eq!(rt; (regs.get8(3), regs.get8(7)), (0xef, 0xcd));
    regs.set(5, 0xffff_ffff);
    regs.set8(4, 0xee);
    regs.set8(3, 0x11);
    assert_eq!(rt;
        regs.gpr,
        [0x1234_ee78, 1, 2, 0x89ab_cd11, 4, 0xffff_ffff, 6, 7]
    );
}
