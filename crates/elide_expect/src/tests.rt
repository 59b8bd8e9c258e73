//! What no clause says: that tests are read and judged at all, and the examples of docs/FORMATS.md.

use crate::{CameTo, Difference, Kind, TestFault, Verdict, read_tests};
use std::alloc::Global;

const LITMUS: &[u8] =
    b"; a comment\n  ; elide: outcomes --cores 2 --show 'eax@0 eax@1'\r\n; expect: exactly 0 1 | 0x1 0\n; expect: line 2 outcomes ... states\nnop ; elide: no\n;elide: hunt --cores 2 --check=\"count == 2\"\n;expect: no failure\n";

// The first line that cannot be read.
fn bad_line(alloc: Global, kind: Kind, text: &[u8]) -> Option<usize> {
    match read_tests(alloc, text, kind) {
        Err(TestFault::BadTest(line)) => Some(line),
        _ => None,
    }
}

// What becomes of the first test, where its command came to this.
fn verdict(alloc: Global, text: &[u8], status: u8, output: &[u8]) -> Option<Verdict> {
    let file = read_tests(alloc, text, Kind::Source).ok()?;
    let came = CameTo::new(alloc, status, output).ok()?;
    Some(file.tests.first()?.judge(&came))
}

fn unmet(line: usize) -> Option<Verdict> {
    Some(Verdict::Differs(Difference::Unmet(line)))
}

#[test]
fn tests_of_a_source(rt: HostRuntime) -> Result<(), TestFault> {
    let file = read_tests(rt.alloc(), LITMUS, Kind::Source)?;
    assert!(rt; file.program.is_none());
    assert_eq!(rt; file.tests.len(), 2);
    let hunt = &file.tests.as_slice()[1];
    assert_eq!(rt; hunt.line, 6);
    assert_eq!(rt; hunt.words.len(), 4);
    assert!(rt; hunt.words.as_slice()[3].as_slice() == b"--check=count == 2".as_slice());
    assert_eq!(rt; hunt.expectations.len(), 1);
    assert!(rt; hunt.expectations.as_slice()[0].text == b"no failure".as_slice());
    Ok(())
}

#[test]
fn tests_beside_an_executable(rt: HostRuntime) -> Result<(), TestFault> {
    let text = b"program ../lock.elf\n# why\n\nelide: run --cores 2\nexpect: status 3\n";
    let file = read_tests(rt.alloc(), text, Kind::Beside)?;
    assert!(rt; file.program == Some(b"../lock.elf".as_slice()));
    assert_eq!(rt; file.tests.len(), 1);
    assert_eq!(rt; bad_line(rt.alloc(), Kind::Beside, b""), Some(1));
    assert_eq!(rt;
        bad_line(rt.alloc(), Kind::Beside, b"elide: run\nexpect: status 0\n"),
        Some(1)
    );
    assert_eq!(rt;
        bad_line(
            rt.alloc(),
            Kind::Beside,
            b"program a\nelide: run\nexpect: status 0\nwhat\n"
        ),
        Some(4)
    );
    Ok(())
}

#[test]
fn lines_that_cannot_be_read(rt: HostRuntime) {
    let cases: [(&[u8], usize); 18] = [
        (b";expect: status 0\n;elide: run\n;expect: status 0", 1),
        (b";elide: run\n;elide: run\n;expect: status 0", 1),
        (b"\n;elide:\n;expect: status 0", 2),
        (b";elide: run 'a\n;expect: status 0", 1),
        (b";elide: debug\n;expect: status 0", 1),
        (b";elide: run --record=a\n;expect: status 0", 1),
        (b";elide: asm --output a\n;expect: status 0", 1),
        (b";elide: hunt --page a\n;expect: status 0", 1),
        (b";elide: outcomes --page=1 a\n;expect: status 0", 1),
        (b";elide: run\n;expect: status 256", 2),
        (b";elide: run\n;expect: status 0\n;expect: status 0", 3),
        (b";elide: run\n;expect: line", 2),
        (b";elide: run\n;expect: no failure", 2),
        (b";elide: hunt --json\n;expect: no failure", 2),
        (b";elide: hunt\n;expect: exactly 0", 2),
        (b";elide: outcomes\n;expect: exactly 0 1 | 0", 2),
        (b";elide: outcomes\n;expect: exactly 0x100000000", 2),
        (b";elide: outcomes\n;expect: never 0\n;expect: status 3", 3),
    ];
    for (text, line) in cases {
        assert_eq!(rt; bad_line(rt.alloc(), Kind::Source, text), Some(line));
    }
}

#[test]
fn verdicts_of_outcomes(rt: HostRuntime) {
    let alloc = rt.alloc();
    let both = b"00000000 00000001  1  0 1\n00000001 00000000  4  1 0\n2 outcomes in 28 states\n";
    let third =
        b"00000000 00000001  1  0 1\n00000001 00000000  4  1 0\n00000001 00000001  1  0 0\n2 outcomes in 9 states\n";
    assert_eq!(rt; verdict(alloc, LITMUS, 0, both), Some(Verdict::Passes));
    assert_eq!(rt; verdict(alloc, LITMUS, 0, third), unmet(3));
    assert_eq!(rt;
        verdict(alloc, LITMUS, 0, b"2 outcomes in 28 states\n"),
        unmet(3)
    );
    assert_eq!(rt;
        verdict(alloc, LITMUS, 3, both),
        Some(Verdict::Differs(Difference::Status(0)))
    );
    let some = b";elide: outcomes\n;expect: at least 1 0\n;expect: never 1 2";
    assert_eq!(rt; verdict(alloc, some, 0, third), Some(Verdict::Passes));
    assert_eq!(rt;
        verdict(
            alloc,
            some,
            0,
            b"00000001 00000000  1  0\n00000001 00000002  1  0\n"
        ),
        unmet(3)
    );
    let fewer = b";elide: outcomes\n;expect: never 3";
    assert_eq!(rt; verdict(alloc, fewer, 0, third), unmet(2));
    assert_eq!(rt;
        verdict(alloc, fewer, 0, b"0 outcomes in 1 states\n"),
        Some(Verdict::Passes)
    );
    assert_eq!(rt;
        verdict(
            alloc,
            b";elide: outcomes\n;expect: never 3 3",
            0,
            b"00000001  1234567  0\n1 outcomes in 1234567 states\n"
        ),
        unmet(2)
    );
}

#[test]
fn verdicts_of_lines(rt: HostRuntime) {
    let alloc = rt.alloc();
    let text = b";elide: run\n;expect: line a...b...c\n;expect: line end\n;expect: status 3";
    assert_eq!(rt;
        verdict(alloc, text, 3, b"x\nabbc\nend\n"),
        Some(Verdict::Passes)
    );
    assert_eq!(rt; verdict(alloc, text, 3, b"end\nabc\n"), unmet(3));
    assert_eq!(rt; verdict(alloc, text, 3, b"acb\nend\n"), unmet(2));
    assert_eq!(rt;
        verdict(alloc, text, 0, b"abc\nend\n"),
        Some(Verdict::Differs(Difference::Status(3)))
    );
    let hunt = b";elide: hunt\n;expect: no failure";
    assert_eq!(rt;
        verdict(alloc, hunt, 0, b"no failure in 100 runs\n"),
        Some(Verdict::Passes)
    );
    assert_eq!(rt;
        verdict(alloc, hunt, 0, b"\nno failure in 100 runs\n"),
        unmet(2)
    );
}
