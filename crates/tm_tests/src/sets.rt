//! Each call of the sets once, worked out by hand.

ghost use Rattle.std.specs.Prelude.{◌≡◌};

use std::alloc::Global;
use std::process::Abort;
use tm_sets::{Directory, Full, Kind, NoMemory, PlainSets, Sets};

#[test]
fn two_cores_on_one_line(rt: HostRuntime) {
    let mut sets = PlainSets::new(rt.alloc(), 2, 0x400, 4, 4).expect(&rt, "memory");
    assert!(rt; sets.add(0, 0x40, Kind::Read).is_ok());
    assert!(rt; sets.add(1, 0x40, Kind::Read).is_ok());
    assert!(rt; sets.add(0, 0x40, Kind::Write).is_ok());
    assert_eq!(rt; sets.others_on(0x40, 0), 0b10);
    assert_eq!(rt; sets.others_on(0x40, 1), 0b01);
    assert_eq!(rt; sets.others_on(0x41, 1), 0);
    assert_eq!(rt; sets.writers_on(0x40, 0), 0);
    assert_eq!(rt; sets.writers_on(0x40, 1), 0b01);
    sets.clear(0);
    assert_eq!(rt; sets.others_on(0x40, 1), 0);
    assert!(rt; sets.has(1, 0x40, Kind::Read));
    assert!(rt; !sets.has(1, 0x40, Kind::Write));
    assert!(rt; sets.visits() > 0);
}

#[test]
fn numbers_of_the_faults(rt: HostRuntime) {
    assert_eq!(rt; Full.code(), 31);
    assert_eq!(rt; NoMemory.code(), 32);
}

#[test]
fn a_directory_counts_its_visits(rt: HostRuntime) {
    let mut sets = Directory::new(rt.alloc(), 2, 0x400, 4, 4).expect(&rt, "memory");
    assert!(rt; sets.add(0, 0x40, Kind::Read).is_ok());
    assert!(rt; sets.add(1, 0x40, Kind::Read).is_ok());
    assert!(rt; sets.add(0, 0x40, Kind::Write).is_ok());
    assert_eq!(rt; sets.visits(), 0);
    assert_eq!(rt; sets.others_on(0x40, 0), 0b10);
    assert_eq!(rt; sets.visits(), 3);
    assert_eq!(rt; sets.writers_on(0x40, 1), 0b01);
    assert_eq!(rt; sets.visits(), 6);
    sets.clear(0);
    assert_eq!(rt; sets.others_on(0x40, 1), 0);
    assert_eq!(rt; sets.visits(), 7);
    assert!(rt; sets.has(1, 0x40, Kind::Read));
    assert!(rt; !sets.has(1, 0x40, Kind::Write));
}

// Of 64 cores the last has written the last line, and the one before has read it.
fn last_of_64_cores<S: Sets>(rt: &impl Abort, sets: &mut S)
    requires cores { (S.content sets.old).fixed.cores ≡ 64 }
    requires lines { (S.content sets.old).fixed.line_count ≡ 4194304 }
{
    assert!(rt; sets.add(63, 0x3f_ffff, Kind::Write).is_ok());
    assert!(rt; sets.add(62, 0x3f_ffff, Kind::Read).is_ok());
    assert_eq!(rt; sets.writers_on(0x3f_ffff, 0), 1 << 63);
    assert_eq!(rt; sets.others_on(0x3f_ffff, 0), 3 << 62);
}

#[test]
fn the_last_of_64_cores(rt: HostRuntime) {
    let mut plain = PlainSets::new(rt.alloc(), 64, 0x40_0000, 1, 1).expect(&rt, "memory");
    last_of_64_cores(&rt, &mut plain);
    let mut directory = Directory::new(rt.alloc(), 64, 0x40_0000, 1, 1).expect(&rt, "memory");
    last_of_64_cores(&rt, &mut directory);
}

// One core with room for two lines that it reads and one that it writes.
fn two_lines<S: Sets>(rt: &impl Abort, alloc: Global, sets: &mut S)
    requires cores { (S.content sets.old).fixed.cores ≡ 1 }
    requires lines { (S.content sets.old).fixed.line_count ≡ 1024 }
{
    assert!(rt; sets.add(0, 0x3ff, Kind::Read).is_ok());
    assert!(rt; sets.add(0, 7, Kind::Read).is_ok());
    assert_eq!(rt; sets.add(0, 8, Kind::Read), Err(Full));
    assert!(rt; sets.add(0, 7, Kind::Read).is_ok());
    assert_eq!(rt; sets.count(0, Kind::Read), 2);
    assert_eq!(rt; sets.count(0, Kind::Write), 0);
    let lines = sets.listing(alloc, 0, Kind::Read).expect(rt, "memory");
    assert_eq!(rt; lines.as_slice(), [7, 0x3ff].as_slice());
    sets.clear(0);
    assert_eq!(rt; sets.count(0, Kind::Read), 0);
    assert!(rt; sets.add(0, 8, Kind::Read).is_ok());
    assert!(rt; sets.add(0, 9, Kind::Read).is_ok());
    assert_eq!(rt; sets.add(0, 7, Kind::Read), Err(Full));
    assert!(rt; sets.add(0, 9, Kind::Read).is_ok());
}

#[test]
fn room_for_two_lines(rt: HostRuntime) {
    let mut plain = PlainSets::new(rt.alloc(), 1, 0x400, 2, 1).expect(&rt, "memory");
    two_lines(&rt, rt.alloc(), &mut plain);
    let mut directory = Directory::new(rt.alloc(), 1, 0x400, 2, 1).expect(&rt, "memory");
    two_lines(&rt, rt.alloc(), &mut directory);
}

// Slots of the lines that a core has written, which is not each that it has.
fn slots<S: Sets>(rt: &impl Abort, sets: &mut S)
    requires cores { (S.content sets.old).fixed.cores ≡ 2 }
    requires lines { (S.content sets.old).fixed.line_count ≡ 1024 }
{
    assert!(rt; sets.add(0, 7, Kind::Read).is_ok());
    assert!(rt; sets.add(0, 8, Kind::Write).is_ok());
    assert!(rt; sets.add(0, 9, Kind::Write).is_ok());
    assert!(rt; sets.add(1, 8, Kind::Write).is_ok());
    assert_eq!(rt; sets.slot(0, 7), None);
    assert_eq!(rt; sets.slot(0, 8), Some(0));
    assert_eq!(rt; sets.slot(0, 9), Some(1));
    sets.clear(0);
    assert_eq!(rt; sets.slot(0, 8), None);
    assert_eq!(rt; sets.slot(1, 8), Some(0));
}

#[test]
fn a_slot_for_each_written_line(rt: HostRuntime) {
    let mut plain = PlainSets::new(rt.alloc(), 2, 0x400, 4, 4).expect(&rt, "memory");
    slots(&rt, &mut plain);
    let mut directory = Directory::new(rt.alloc(), 2, 0x400, 4, 4).expect(&rt, "memory");
    slots(&rt, &mut directory);
}

// Of two sets that are made alike core 0 has the same lines, though it got them in another order and core 1 has others.
fn same_lines<S: Sets>(rt: &impl Abort, sets: &mut S, others: &mut S)
    requires cores { (S.content sets.old).fixed.cores ≡ 2 }
    requires lines { (S.content sets.old).fixed.line_count ≡ 1024 }
    requires other_cores { (S.content others.old).fixed.cores ≡ 2 }
    requires other_lines { (S.content others.old).fixed.line_count ≡ 1024 }
    ensures fixed { (S.content sets.new).fixed ≡ (S.content sets.old).fixed }
    ensures other_fixed { (S.content others.new).fixed ≡ (S.content others.old).fixed }
{
    assert!(rt; sets.is_same(others, 0));
    assert!(rt; sets.add(0, 7, Kind::Read).is_ok());
    assert!(rt; sets.add(0, 8, Kind::Read).is_ok());
    assert!(rt; sets.add(0, 8, Kind::Write).is_ok());
    assert!(rt; others.add(0, 8, Kind::Write).is_ok());
    assert!(rt; others.add(0, 8, Kind::Read).is_ok());
    assert!(rt; !sets.is_same(others, 0));
    assert!(rt; !others.is_same(sets, 0));
    assert!(rt; others.add(0, 7, Kind::Read).is_ok());
    assert!(rt; others.add(1, 7, Kind::Write).is_ok());
    assert!(rt; sets.is_same(others, 0));
    assert!(rt; !sets.is_same(others, 1));
}

// As many lines of each kind, of which one is another.
fn other_lines<S: Sets>(rt: &impl Abort, sets: &mut S, others: &mut S)
    requires cores { (S.content sets.old).fixed.cores ≡ 2 }
    requires lines { (S.content sets.old).fixed.line_count ≡ 1024 }
    requires other_cores { (S.content others.old).fixed.cores ≡ 2 }
    requires other_lines { (S.content others.old).fixed.line_count ≡ 1024 }
{
    sets.clear(0);
    others.clear(0);
    assert!(rt; sets.add(0, 7, Kind::Read).is_ok());
    assert!(rt; sets.add(0, 8, Kind::Write).is_ok());
    assert!(rt; others.add(0, 7, Kind::Read).is_ok());
    assert!(rt; others.add(0, 9, Kind::Write).is_ok());
    assert!(rt; !sets.is_same(others, 0));
    others.clear(0);
    assert!(rt; others.add(0, 7, Kind::Write).is_ok());
    assert!(rt; others.add(0, 8, Kind::Read).is_ok());
    assert!(rt; !sets.is_same(others, 0));
}

#[test]
fn the_same_lines_of_a_core(rt: HostRuntime) {
    let mut plain = PlainSets::new(rt.alloc(), 2, 0x400, 4, 4).expect(&rt, "memory");
    let mut other_plain = PlainSets::new(rt.alloc(), 2, 0x400, 4, 4).expect(&rt, "memory");
    same_lines(&rt, &mut plain, &mut other_plain);
    other_lines(&rt, &mut plain, &mut other_plain);
    let mut directory = Directory::new(rt.alloc(), 2, 0x400, 4, 4).expect(&rt, "memory");
    let mut other_directory = Directory::new(rt.alloc(), 2, 0x400, 4, 4).expect(&rt, "memory");
    same_lines(&rt, &mut directory, &mut other_directory);
    other_lines(&rt, &mut directory, &mut other_directory);
}
