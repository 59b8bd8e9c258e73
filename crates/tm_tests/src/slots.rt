//! Two representations of the sets beside one another.

ghost use Rattle.std.specs.Prelude.{◌≡◌, ◌<◌};

use std::alloc::Global;
use std::process::Abort;
use tm_sets::{Directory, Kind, PlainSets, Sets};

/// Both list the same lines of a core, and have the same room.
fn same_lines<A: Sets, B: Sets>(
    rt: &impl Abort,
    alloc: Global,
    one: &A,
    other: &B,
    core: u8,
    kind: Kind,
)
    requires one_cores { core < (A.content one.now).fixed.cores }
    requires other_cores { core < (B.content other.now).fixed.cores }
{
    let lines = one.listing(alloc, core, kind).expect(rt, "memory");
    let others = other.listing(alloc, core, kind).expect(rt, "memory");
    assert_eq!(rt; lines.as_slice(), others.as_slice());
    assert_eq!(rt; one.count(core, kind), other.count(core, kind));
    assert_eq!(rt; one.room_for(kind), other.room_for(kind));
}

/// One call of both, which answer alike: of three cores and eight lines, chosen by a number.
fn same_answer<A: Sets, B: Sets>(
    rt: &impl Abort,
    alloc: Global,
    one: &mut A,
    other: &mut B,
    number: u32,
)
    requires one_cores { (A.content one.old).fixed.cores ≡ 3 }
    requires one_lines { (A.content one.old).fixed.line_count ≡ 8 }
    requires other_cores { (B.content other.old).fixed.cores ≡ 3 }
    requires other_lines { (B.content other.old).fixed.line_count ≡ 8 }
    ensures one { (A.content one.new).fixed ≡ (A.content one.old).fixed }
    ensures other { (B.content other.new).fixed ≡ (B.content other.old).fixed }
{
    let core = (number / 16 % 3) as u8;
    let line = number / 64 % 8;
    let kind = if number / 1024 % 2 == 0 {
        Kind::Read
    } else {
        Kind::Write
    };
    match number % 16 {
        0..=8 => assert_eq!(rt;
            one.add(core, line, kind).is_ok(),
            other.add(core, line, kind).is_ok()
        ),
        9 => assert_eq!(rt; one.has(core, line, kind), other.has(core, line, kind)),
        10 => assert_eq!(rt; one.holds(core, line, kind), other.holds(core, line, kind)),
        11 => assert_eq!(rt; one.others_on(line, core), other.others_on(line, core)),
        12 => assert_eq!(rt; one.writers_on(line, core), other.writers_on(line, core)),
        13 => same_lines(rt, alloc, one, other, core, kind),
        14 => assert_eq!(rt;
            one.slot(core, line).is_some(),
            other.slot(core, line).is_some()
        ),
        _ => {
            one.clear(core);
            other.clear(core);
        }
    }
}

/// Many calls, by the numbers of a linear congruential generator.
fn same_answers<A: Sets, B: Sets>(rt: &impl Abort, alloc: Global, one: &mut A, other: &mut B)
    requires one_cores { (A.content one.old).fixed.cores ≡ 3 }
    requires one_lines { (A.content one.old).fixed.line_count ≡ 8 }
    requires other_cores { (B.content other.old).fixed.cores ≡ 3 }
    requires other_lines { (B.content other.old).fixed.line_count ≡ 8 }
{
    let mut number = 1u32;
    for _ in 0..20_000 {
        number = number.wrapping_mul(1_664_525).wrapping_add(1_013_904_223);
        same_answer(rt, alloc, one, other, number / 256);
    }
}

#[test]
fn both_representations_answer_alike(rt: HostRuntime) {
    let mut plain = PlainSets::new(rt.alloc(), 3, 8, 4, 3).expect(&rt, "memory");
    let mut directory = Directory::new(rt.alloc(), 3, 8, 4, 3).expect(&rt, "memory");
    same_answers(&rt, rt.alloc(), &mut plain, &mut directory);
    assert!(rt; plain.visits() > 0);
    assert!(rt; directory.visits() > 0);
}
