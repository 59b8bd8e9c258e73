//! Results and flags of MUL, IMUL, DIV and IDIV,
//! as an Intel processor gives them: made by tests-data/arithmetic.c, row by row in the order of its loops. A flag
//! that the manual leaves undefined stands here as it was before the instruction.
//!
//! The numbers are in hex, each with a blank behind it.

/// MUL.
pub(super) const MUL: &str = "\
0 0 0 0 0 d4 0 0 0 0 0 d4 0 0 0 0 0 d4 0 0 0 0 0 d4 0 0 0 0 0 d4 0 0 0 0 0 d4 0 0 0 0 0 d4 0 0 0 0 0 d4 0 0 0 0 0 \
d4 1 0 0 1 0 d4 7f 0 0 7f 0 d4 80 0 0 80 0 d4 ff 0 0 ff 0 d4 7fffffff 0 0 7fffffff 0 d4 80000000 0 0 80000000 0 d4 \
ffffffff 0 0 ffffffff 0 d4 0 0 0 0 0 d4 7f 0 0 7f 0 d4 3f01 0 0 3f01 0 d4 3f80 0 0 3f80 0 d4 7e81 0 0 7e81 0 d4 \
7fffff81 3f 801 7fffff81 3f 8d5 80000000 3f 801 80000000 3f 8d5 ffffff81 7e 801 ffffff81 7e 8d5 0 0 0 0 0 d4 80 0 0 \
80 0 d4 3f80 0 0 3f80 0 d4 4000 0 0 4000 0 d4 7f80 0 0 7f80 0 d4 ffffff80 3f 801 ffffff80 3f 8d5 0 40 801 0 40 8d5 \
ffffff80 7f 801 ffffff80 7f 8d5 0 0 0 0 0 d4 ff 0 0 ff 0 d4 7e81 0 0 7e81 0 d4 7f80 0 0 7f80 0 d4 fe01 0 0 fe01 0 \
d4 7fffff01 7f 801 7fffff01 7f 8d5 80000000 7f 801 80000000 7f 8d5 ffffff01 fe 801 ffffff01 fe 8d5 0 0 0 0 0 d4 \
7fffffff 0 0 7fffffff 0 d4 7fffff81 3f 801 7fffff81 3f 8d5 ffffff80 3f 801 ffffff80 3f 8d5 7fffff01 7f 801 7fffff01 \
7f 8d5 1 3fffffff 801 1 3fffffff 8d5 80000000 3fffffff 801 80000000 3fffffff 8d5 80000001 7ffffffe 801 80000001 \
7ffffffe 8d5 0 0 0 0 0 d4 80000000 0 0 80000000 0 d4 80000000 3f 801 80000000 3f 8d5 0 40 801 0 40 8d5 80000000 7f \
801 80000000 7f 8d5 80000000 3fffffff 801 80000000 3fffffff 8d5 0 40000000 801 0 40000000 8d5 80000000 7fffffff 801 \
80000000 7fffffff 8d5 0 0 0 0 0 d4 ffffffff 0 0 ffffffff 0 d4 ffffff81 7e 801 ffffff81 7e 8d5 ffffff80 7f 801 \
ffffff80 7f 8d5 ffffff01 fe 801 ffffff01 fe 8d5 80000001 7ffffffe 801 80000001 7ffffffe 8d5 80000000 7fffffff 801 \
80000000 7fffffff 8d5 1 fffffffe 801 1 fffffffe 8d5 ";

/// IMUL with one operand.
pub(super) const IMUL: &str = "\
0 0 0 0 0 d4 0 0 0 0 0 d4 0 0 0 0 0 d4 0 0 0 0 0 d4 0 0 0 0 0 d4 0 0 0 0 0 d4 0 0 0 0 0 d4 0 0 0 0 0 d4 0 0 0 0 0 \
d4 1 0 0 1 0 d4 7f 0 0 7f 0 d4 80 0 0 80 0 d4 ff 0 0 ff 0 d4 7fffffff 0 0 7fffffff 0 d4 80000000 ffffffff 0 \
80000000 ffffffff d4 ffffffff ffffffff 0 ffffffff ffffffff d4 0 0 0 0 0 d4 7f 0 0 7f 0 d4 3f01 0 0 3f01 0 d4 3f80 0 \
0 3f80 0 d4 7e81 0 0 7e81 0 d4 7fffff81 3f 801 7fffff81 3f 8d5 80000000 ffffffc0 801 80000000 ffffffc0 8d5 ffffff81 \
ffffffff 0 ffffff81 ffffffff d4 0 0 0 0 0 d4 80 0 0 80 0 d4 3f80 0 0 3f80 0 d4 4000 0 0 4000 0 d4 7f80 0 0 7f80 0 \
d4 ffffff80 3f 801 ffffff80 3f 8d5 0 ffffffc0 801 0 ffffffc0 8d5 ffffff80 ffffffff 0 ffffff80 ffffffff d4 0 0 0 0 0 \
d4 ff 0 0 ff 0 d4 7e81 0 0 7e81 0 d4 7f80 0 0 7f80 0 d4 fe01 0 0 fe01 0 d4 7fffff01 7f 801 7fffff01 7f 8d5 80000000 \
ffffff80 801 80000000 ffffff80 8d5 ffffff01 ffffffff 0 ffffff01 ffffffff d4 0 0 0 0 0 d4 7fffffff 0 0 7fffffff 0 d4 \
7fffff81 3f 801 7fffff81 3f 8d5 ffffff80 3f 801 ffffff80 3f 8d5 7fffff01 7f 801 7fffff01 7f 8d5 1 3fffffff 801 1 \
3fffffff 8d5 80000000 c0000000 801 80000000 c0000000 8d5 80000001 ffffffff 0 80000001 ffffffff d4 0 0 0 0 0 d4 \
80000000 ffffffff 0 80000000 ffffffff d4 80000000 ffffffc0 801 80000000 ffffffc0 8d5 0 ffffffc0 801 0 ffffffc0 8d5 \
80000000 ffffff80 801 80000000 ffffff80 8d5 80000000 c0000000 801 80000000 c0000000 8d5 0 40000000 801 0 40000000 \
8d5 80000000 0 801 80000000 0 8d5 0 0 0 0 0 d4 ffffffff ffffffff 0 ffffffff ffffffff d4 ffffff81 ffffffff 0 \
ffffff81 ffffffff d4 ffffff80 ffffffff 0 ffffff80 ffffffff d4 ffffff01 ffffffff 0 ffffff01 ffffffff d4 80000001 \
ffffffff 0 80000001 ffffffff d4 80000000 0 801 80000000 0 8d5 1 0 0 1 0 d4 ";

/// IMUL with two operands.
pub(super) const IMUL_LOW: &str = "\
0 0 0 d4 0 0 0 d4 0 0 0 d4 0 0 0 d4 0 0 0 d4 0 0 0 d4 0 0 0 d4 0 0 0 d4 0 0 0 d4 1 0 1 d4 7f 0 7f d4 80 0 80 d4 ff \
0 ff d4 7fffffff 0 7fffffff d4 80000000 0 80000000 d4 ffffffff 0 ffffffff d4 0 0 0 d4 7f 0 7f d4 3f01 0 3f01 d4 \
3f80 0 3f80 d4 7e81 0 7e81 d4 7fffff81 801 7fffff81 8d5 80000000 801 80000000 8d5 ffffff81 0 ffffff81 d4 0 0 0 d4 \
80 0 80 d4 3f80 0 3f80 d4 4000 0 4000 d4 7f80 0 7f80 d4 ffffff80 801 ffffff80 8d5 0 801 0 8d5 ffffff80 0 ffffff80 \
d4 0 0 0 d4 ff 0 ff d4 7e81 0 7e81 d4 7f80 0 7f80 d4 fe01 0 fe01 d4 7fffff01 801 7fffff01 8d5 80000000 801 80000000 \
8d5 ffffff01 0 ffffff01 d4 0 0 0 d4 7fffffff 0 7fffffff d4 7fffff81 801 7fffff81 8d5 ffffff80 801 ffffff80 8d5 \
7fffff01 801 7fffff01 8d5 1 801 1 8d5 80000000 801 80000000 8d5 80000001 0 80000001 d4 0 0 0 d4 80000000 0 80000000 \
d4 80000000 801 80000000 8d5 0 801 0 8d5 80000000 801 80000000 8d5 80000000 801 80000000 8d5 0 801 0 8d5 80000000 \
801 80000000 8d5 0 0 0 d4 ffffffff 0 ffffffff d4 ffffff81 0 ffffff81 d4 ffffff80 0 ffffff80 d4 ffffff01 0 ffffff01 \
d4 80000001 0 80000001 d4 80000000 801 80000000 8d5 1 0 1 d4 ";

/// DIV: whether there is #DE, quotient and remainder.
pub(super) const DIV: &str = "\
1 0 0 0 0 0 0 0 0 0 0 0 0 0 0 0 0 0 0 0 0 0 0 0 1 0 0 0 1 0 0 0 1 0 0 1 0 0 1 0 0 1 0 0 1 0 0 1 1 0 0 0 7f 0 0 1 0 \
0 0 7f 0 0 7f 0 0 7f 0 0 7f 0 0 7f 1 0 0 0 80 0 0 1 1 0 1 0 0 0 80 0 0 80 0 0 80 0 0 80 1 0 0 0 ff 0 0 2 1 0 1 7f 0 \
1 0 0 0 ff 0 0 ff 0 0 ff 1 0 0 0 7fffffff 0 0 1020408 7 0 ffffff 7f 0 808080 7f 0 1 0 0 0 7fffffff 0 0 7fffffff 1 0 \
0 0 80000000 0 0 1020408 8 0 1000000 0 0 808080 80 0 1 1 0 1 0 0 0 80000000 1 0 0 0 ffffffff 0 0 2040810 f 0 \
1ffffff 7f 0 1010101 0 0 2 1 0 1 7fffffff 0 1 0 1 0 0 1 0 0 0 2040810 10 0 2000000 0 0 1010101 1 0 2 2 0 2 0 0 1 1 \
1 0 0 1 0 0 0 2040810 11 0 2000000 1 0 1010101 2 0 2 3 0 2 1 0 1 2 1 0 0 1 0 0 0 2040811 10 0 2000000 7f 0 1010101 \
80 0 2 81 0 2 7f 0 1 80 1 0 0 1 0 0 0 2040811 11 0 2000001 0 0 1010101 81 0 2 82 0 2 80 0 1 81 1 0 0 1 0 0 0 \
2040812 11 0 2000001 7f 0 1010102 1 0 2 101 0 2 ff 0 1 100 1 0 0 1 0 0 0 3060c18 17 0 2ffffff 7f 0 1818181 80 0 3 2 \
0 2 7fffffff 0 1 80000000 1 0 0 1 0 0 0 3060c18 18 0 3000000 0 0 1818181 81 0 3 3 0 3 0 0 1 80000001 1 0 0 1 0 0 0 \
4081020 1f 0 3ffffff 7f 0 2020202 1 0 4 3 0 3 7fffffff 0 2 1 1 0 0 1 0 0 1 0 0 1 0 0 1 0 0 1 0 0 0 fffffffe 0 0 \
7fffffff 7fffffff 1 0 0 1 0 0 1 0 0 1 0 0 1 0 0 1 0 0 0 fffffffe 1 0 7fffffff 80000000 1 0 0 1 0 0 1 0 0 1 0 0 1 0 \
0 1 0 0 0 fffffffe 7f 0 7fffffff 8000007e 1 0 0 1 0 0 1 0 0 1 0 0 1 0 0 1 0 0 0 fffffffe 80 0 7fffffff 8000007f 1 0 \
0 1 0 0 1 0 0 1 0 0 1 0 0 1 0 0 0 fffffffe ff 0 7fffffff 800000fe 1 0 0 1 0 0 1 0 0 1 0 0 1 0 0 1 0 0 0 fffffffe \
7fffffff 0 7fffffff fffffffe 1 0 0 1 0 0 1 0 0 1 0 0 1 0 0 1 0 0 0 ffffffff 0 0 80000000 0 1 0 0 1 0 0 1 0 0 1 0 0 \
1 0 0 1 0 0 0 ffffffff 7fffffff 0 80000000 7fffffff 1 0 0 1 0 0 1 0 0 1 0 0 1 0 0 1 0 0 1 0 0 1 0 0 1 0 0 1 0 0 1 0 \
0 1 0 0 1 0 0 1 0 0 1 0 0 1 0 0 1 0 0 1 0 0 1 0 0 1 0 0 1 0 0 1 0 0 1 0 0 1 0 0 1 0 0 1 0 0 1 0 0 1 0 0 1 0 0 1 0 0 \
1 0 0 1 0 0 1 0 0 1 0 0 1 0 0 1 0 0 1 0 0 1 0 0 1 0 0 1 0 0 1 0 0 1 0 0 1 0 0 1 0 0 1 0 0 1 0 0 1 0 0 1 0 0 1 0 0 1 \
0 0 1 0 0 1 0 0 1 0 0 1 0 0 1 0 0 1 0 0 1 0 0 1 0 0 1 0 0 1 0 0 1 0 0 1 0 0 1 0 0 1 0 0 ";

/// IDIV: whether there is #DE, quotient and remainder.
pub(super) const IDIV: &str = "\
1 0 0 0 0 0 0 0 0 0 0 0 0 0 0 0 0 0 0 0 0 0 0 0 1 0 0 0 1 0 0 0 1 0 0 1 0 0 1 0 0 1 0 0 1 0 ffffffff 0 1 0 0 0 7f 0 \
0 1 0 0 0 7f 0 0 7f 0 0 7f 0 0 7f 0 ffffff81 0 1 0 0 0 80 0 0 1 1 0 1 0 0 0 80 0 0 80 0 0 80 0 ffffff80 0 1 0 0 0 \
ff 0 0 2 1 0 1 7f 0 1 0 0 0 ff 0 0 ff 0 ffffff01 0 1 0 0 0 7fffffff 0 0 1020408 7 0 ffffff 7f 0 808080 7f 0 1 0 0 0 \
7fffffff 0 80000001 0 1 0 0 1 0 0 0 1020408 8 0 1000000 0 0 808080 80 0 1 1 0 ffffffff 0 0 80000000 0 1 0 0 1 0 0 0 \
2040810 f 0 1ffffff 7f 0 1010101 0 0 2 1 0 ffffffff 7fffffff 1 0 0 1 0 0 1 0 0 0 2040810 10 0 2000000 0 0 1010101 1 \
0 2 2 0 fffffffe 0 1 0 0 1 0 0 1 0 0 0 2040810 11 0 2000000 1 0 1010101 2 0 2 3 0 fffffffe 1 1 0 0 1 0 0 1 0 0 0 \
2040811 10 0 2000000 7f 0 1010101 80 0 2 81 0 fffffffe 7f 1 0 0 1 0 0 1 0 0 0 2040811 11 0 2000001 0 0 1010101 81 0 \
2 82 0 fffffffe 80 1 0 0 1 0 0 1 0 0 0 2040812 11 0 2000001 7f 0 1010102 1 0 2 101 0 fffffffe ff 1 0 0 1 0 0 1 0 0 \
0 3060c18 17 0 2ffffff 7f 0 1818181 80 0 3 2 0 fffffffe 7fffffff 1 0 0 1 0 0 1 0 0 0 3060c18 18 0 3000000 0 0 \
1818181 81 0 3 3 0 fffffffd 0 1 0 0 1 0 0 1 0 0 0 4081020 1f 0 3ffffff 7f 0 2020202 1 0 4 3 0 fffffffd 7fffffff 1 0 \
0 1 0 0 1 0 0 1 0 0 1 0 0 1 0 0 1 0 0 1 0 0 1 0 0 1 0 0 1 0 0 1 0 0 1 0 0 1 0 0 1 0 0 1 0 0 1 0 0 1 0 0 1 0 0 1 0 0 \
1 0 0 1 0 0 1 0 0 1 0 0 1 0 0 1 0 0 1 0 0 1 0 0 1 0 0 1 0 0 1 0 0 1 0 0 1 0 0 1 0 0 1 0 0 1 0 0 1 0 0 1 0 0 1 0 0 1 \
0 0 1 0 0 1 0 0 1 0 0 1 0 0 1 0 0 1 0 0 1 0 0 1 0 0 1 0 0 1 0 0 1 0 0 1 0 0 1 0 0 1 0 0 1 0 0 1 0 0 1 0 0 1 0 0 1 0 \
0 1 0 0 1 0 0 1 0 0 1 0 0 1 0 0 1 0 0 1 0 0 1 0 0 0 fdfbf7f0 fffffff0 0 fe000000 0 0 fefefeff ffffffff 0 fffffffe \
fffffffe 0 2 0 1 0 0 1 0 0 1 0 0 0 fdfbf7f0 fffffff1 0 fe000001 ffffff81 0 fefefeff 0 0 fffffffe ffffffff 0 1 \
80000001 1 0 0 1 0 0 1 0 0 0 fdfbf7f1 fffffff0 0 fe000001 ffffffff 0 fefeff00 ffffff7f 0 ffffffff 8000007e 0 1 \
8000007f 1 0 0 1 0 0 1 0 0 0 fdfbf7f1 fffffff1 0 fe000001 0 0 fefeff00 ffffff80 0 ffffffff 8000007f 0 1 80000080 1 \
0 0 1 0 0 1 0 0 0 fdfbf7f2 fffffff1 0 fe000002 ffffffff 0 fefeff00 ffffffff 0 ffffffff 800000fe 0 1 800000ff 1 0 0 \
1 0 0 1 0 0 0 fefdfbf8 fffffff7 0 ff000000 ffffffff 0 ff7f7f80 ffffff7f 0 ffffffff fffffffe 0 1 ffffffff 1 0 0 1 0 \
0 0 80000000 0 0 fefdfbf8 fffffff8 0 ff000000 0 0 ff7f7f80 ffffff80 0 ffffffff ffffffff 0 1 0 1 0 0 1 0 0 0 \
ffffffff 0 0 0 ffffffff 0 0 ffffffff 0 0 ffffffff 0 0 ffffffff 0 0 ffffffff 0 1 0 ";
