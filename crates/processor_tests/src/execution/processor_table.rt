//! Results of instructions as an Intel processor gives them: made by tests-data/execution.c, row by row in the
//! order of its loops.
//!
//! The numbers are in hex, each with a blank behind it.

/// XADD of two registers: destination, source and flags after.
pub(super) const XADD: &str = "\
0 0 44 0 0 44 1 0 0 1 0 0 7f 0 0 7f 0 0 80 0 0 80 0 0 ff 0 4 ff 0 4 7fffffff 0 4 7fffffff 0 4 80000000 0 84 \
80000000 0 84 ffffffff 0 84 ffffffff 0 84 1 1 0 1 1 0 2 1 0 2 1 0 80 1 10 80 1 10 81 1 4 81 1 4 100 1 14 100 1 14 \
80000000 1 894 80000000 1 894 80000001 1 80 80000001 1 80 0 1 55 0 1 55 7f 7f 0 7f 7f 0 80 7f 10 80 7f 10 fe 7f 10 \
fe 7f 10 ff 7f 4 ff 7f 4 17e 7f 14 17e 7f 14 8000007e 7f 894 8000007e 7f 894 8000007f 7f 80 8000007f 7f 80 7e 7f 15 \
7e 7f 15 80 80 0 80 80 0 81 80 4 81 80 4 ff 80 4 ff 80 4 100 80 4 100 80 4 17f 80 0 17f 80 0 8000007f 80 880 \
8000007f 80 880 80000080 80 80 80000080 80 80 7f 80 1 7f 80 1 ff ff 4 ff ff 4 100 ff 14 100 ff 14 17e ff 14 17e ff \
14 17f ff 0 17f ff 0 1fe ff 10 1fe ff 10 800000fe ff 890 800000fe ff 890 800000ff ff 84 800000ff ff 84 fe ff 11 fe \
ff 11 7fffffff 7fffffff 4 7fffffff 7fffffff 4 80000000 7fffffff 894 80000000 7fffffff 894 8000007e 7fffffff 894 \
8000007e 7fffffff 894 8000007f 7fffffff 880 8000007f 7fffffff 880 800000fe 7fffffff 890 800000fe 7fffffff 890 \
fffffffe 7fffffff 890 fffffffe 7fffffff 890 ffffffff 7fffffff 84 ffffffff 7fffffff 84 7ffffffe 7fffffff 11 7ffffffe \
7fffffff 11 80000000 80000000 84 80000000 80000000 84 80000001 80000000 80 80000001 80000000 80 8000007f 80000000 \
80 8000007f 80000000 80 80000080 80000000 80 80000080 80000000 80 800000ff 80000000 84 800000ff 80000000 84 \
ffffffff 80000000 84 ffffffff 80000000 84 0 80000000 845 0 80000000 845 7fffffff 80000000 805 7fffffff 80000000 805 \
ffffffff ffffffff 84 ffffffff ffffffff 84 0 ffffffff 55 0 ffffffff 55 7e ffffffff 15 7e ffffffff 15 7f ffffffff 1 \
7f ffffffff 1 fe ffffffff 11 fe ffffffff 11 7ffffffe ffffffff 11 7ffffffe ffffffff 11 7fffffff ffffffff 805 \
7fffffff ffffffff 805 fffffffe ffffffff 91 fffffffe ffffffff 91 ";

/// CMPXCHG of EAX with a register, from a source of 12345678h: EAX, destination and flags after.
pub(super) const CMPXCHG: &str = "\
0 12345678 44 0 12345678 44 1 1 95 1 1 95 7f 7f 95 7f 7f 95 80 80 81 80 80 81 ff ff 91 ff ff 91 7fffffff 7fffffff \
91 7fffffff 7fffffff 91 80000000 80000000 885 80000000 80000000 885 ffffffff ffffffff 11 ffffffff ffffffff 11 0 0 0 \
0 0 0 1 12345678 44 1 12345678 44 7f 7f 95 7f 7f 95 80 80 85 80 80 85 ff ff 91 ff ff 91 7fffffff 7fffffff 91 \
7fffffff 7fffffff 91 80000000 80000000 881 80000000 80000000 881 ffffffff ffffffff 11 ffffffff ffffffff 11 0 0 0 0 \
0 0 1 1 4 1 1 4 7f 12345678 44 7f 12345678 44 80 80 85 80 80 85 ff ff 81 ff ff 81 7fffffff 7fffffff 81 7fffffff \
7fffffff 81 80000000 80000000 881 80000000 80000000 881 ffffffff ffffffff 1 ffffffff ffffffff 1 0 0 0 0 0 0 1 1 10 \
1 1 10 7f 7f 10 7f 7f 10 80 12345678 44 80 12345678 44 ff ff 95 ff ff 95 7fffffff 7fffffff 95 7fffffff 7fffffff 95 \
80000000 80000000 881 80000000 80000000 881 ffffffff ffffffff 15 ffffffff ffffffff 15 0 0 4 0 0 4 1 1 0 1 1 0 7f 7f \
0 7f 7f 0 80 80 0 80 80 0 ff 12345678 44 ff 12345678 44 7fffffff 7fffffff 85 7fffffff 7fffffff 85 80000000 80000000 \
885 80000000 80000000 885 ffffffff ffffffff 5 ffffffff ffffffff 5 0 0 4 0 0 4 1 1 0 1 1 0 7f 7f 0 7f 7f 0 80 80 0 \
80 80 0 ff ff 4 ff ff 4 7fffffff 12345678 44 7fffffff 12345678 44 80000000 80000000 885 80000000 80000000 885 \
ffffffff ffffffff 885 ffffffff ffffffff 885 0 0 84 0 0 84 1 1 814 1 1 814 7f 7f 814 7f 7f 814 80 80 800 80 80 800 \
ff ff 810 ff ff 810 7fffffff 7fffffff 810 7fffffff 7fffffff 810 80000000 12345678 44 80000000 12345678 44 ffffffff \
ffffffff 91 ffffffff ffffffff 91 0 0 84 0 0 84 1 1 80 1 1 80 7f 7f 80 7f 7f 80 80 80 80 80 80 80 ff ff 84 ff ff 84 \
7fffffff 7fffffff 84 7fffffff 7fffffff 84 80000000 80000000 4 80000000 80000000 4 ffffffff 12345678 44 ffffffff \
12345678 44 ";

/// TEST of two registers: flags after.
pub(super) const TEST: &str = "\
44 54 44 54 44 54 44 54 44 54 44 54 44 54 44 54 44 54 0 10 0 10 44 54 0 10 0 10 44 54 0 10 44 54 0 10 0 10 44 54 0 \
10 0 10 44 54 0 10 44 54 44 54 44 54 0 10 0 10 0 10 44 54 0 10 44 54 0 10 0 10 0 10 4 14 4 14 44 54 4 14 44 54 0 10 \
0 10 0 10 4 14 4 14 44 54 4 14 44 54 44 54 44 54 44 54 44 54 44 54 84 94 84 94 44 54 0 10 0 10 0 10 4 14 4 14 84 94 \
84 94 ";

/// Of a doubleword: NOT, MOVZX and MOVSX of its low byte, EDX after CDQ and EAX after CWDE.
pub(super) const EXTENSIONS: &str = "\
ffffffff 0 0 0 0 fffffffe 1 1 0 1 ffffff80 7f 7f 0 7f ffffff7f 80 ffffff80 0 80 ffffff00 ff ffffffff 0 ff 80000000 \
ff ffffffff 0 ffffffff 7fffffff 0 0 ffffffff 0 0 ff ffffffff ffffffff ffffffff ";

/// By ECX: ECX after LOOP, whether LOOP jumps, and whether JECXZ does.
pub(super) const LOOPS: &str = "\
ffffffff 1 1 0 0 0 7e 1 0 7f 1 0 fe 1 0 7ffffffe 1 0 7fffffff 1 0 fffffffe 1 0 ";

/// By the six flags, CF counting 1, PF 2, AF 4, ZF 8, SF 16 and OF 32: bit n says that SETcc sets its byte, and that
/// CMOVcc moves, for the condition of number n.
pub(super) const CONDITIONS: &str = "\
aaaa aa66 a6aa a666 aaaa aa66 a6aa a666 6a5a 6a56 665a 6656 6a5a 6a56 665a 6656 59aa 5966 55aa 5566 59aa 5966 55aa \
5566 595a 5956 555a 5556 595a 5956 555a 5556 5aa9 5a65 56a9 5665 5aa9 5a65 56a9 5665 5a59 5a55 5659 5655 5a59 5a55 \
5659 5655 a9a9 a965 a5a9 a565 a9a9 a965 a5a9 a565 6959 6955 6559 6555 6959 6955 6559 6555 ";
