//! Results and flags of ROL, ROR, SHL, SHR, SAR, BT, BTS, BTR and BTC,
//! as an Intel processor gives them: made by tests-data/arithmetic.c, row by row in the order of its loops. A flag
//! that the manual leaves undefined stands here as it was before the instruction.
//!
//! The numbers are in hex, each with a blank behind it.

/// ROL.
pub(super) const ROL: &str = "\
0 0 0 8d5 0 0 0 d4 0 0 0 8d4 0 0 0 8d5 0 0 0 d4 1 0 1 8d5 2 0 2 d4 80000000 0 80000000 8d4 1 0 1 8d5 2 0 2 d4 7f 0 \
7f 8d5 fe 0 fe d4 8000003f 1 8000003f 8d5 7f 0 7f 8d5 fe 0 fe d4 80 0 80 8d5 100 0 100 d4 40 0 40 8d4 80 0 80 8d5 \
100 0 100 d4 ff 0 ff 8d5 1fe 0 1fe d4 8000007f 1 8000007f 8d5 ff 0 ff 8d5 1fe 0 1fe d4 7fffffff 0 7fffffff 8d5 \
fffffffe 800 fffffffe 8d4 bfffffff 1 bfffffff 8d5 7fffffff 0 7fffffff 8d5 fffffffe 800 fffffffe 8d4 80000000 0 \
80000000 8d5 1 801 1 8d5 40000000 0 40000000 8d4 80000000 0 80000000 8d5 1 801 1 8d5 ffffffff 0 ffffffff 8d5 \
ffffffff 1 ffffffff d5 ffffffff 1 ffffffff 8d5 ffffffff 0 ffffffff 8d5 ffffffff 1 ffffffff d5 ";

/// ROR.
pub(super) const ROR: &str = "\
0 0 0 8d5 0 0 0 d4 0 0 0 8d4 0 0 0 8d5 0 0 0 d4 1 0 1 8d5 80000000 801 80000000 8d5 2 0 2 8d4 1 0 1 8d5 80000000 \
801 80000000 8d5 7f 0 7f 8d5 8000003f 801 8000003f 8d5 fe 0 fe 8d4 7f 0 7f 8d5 8000003f 801 8000003f 8d5 80 0 80 \
8d5 40 0 40 d4 100 0 100 8d4 80 0 80 8d5 40 0 40 d4 ff 0 ff 8d5 8000007f 801 8000007f 8d5 1fe 0 1fe 8d4 ff 0 ff 8d5 \
8000007f 801 8000007f 8d5 7fffffff 0 7fffffff 8d5 bfffffff 801 bfffffff 8d5 fffffffe 1 fffffffe 8d5 7fffffff 0 \
7fffffff 8d5 bfffffff 801 bfffffff 8d5 80000000 0 80000000 8d5 40000000 800 40000000 8d4 1 0 1 8d4 80000000 0 \
80000000 8d5 40000000 800 40000000 8d4 ffffffff 0 ffffffff 8d5 ffffffff 1 ffffffff d5 ffffffff 1 ffffffff 8d5 \
ffffffff 0 ffffffff 8d5 ffffffff 1 ffffffff d5 ";

/// SHL.
pub(super) const SHL: &str = "\
0 0 0 8d5 0 44 0 54 0 44 0 854 0 0 0 8d5 0 44 0 54 1 0 1 8d5 2 0 2 10 80000000 84 80000000 894 1 0 1 8d5 2 0 2 10 \
7f 0 7f 8d5 fe 0 fe 10 80000000 85 80000000 895 7f 0 7f 8d5 fe 0 fe 10 80 0 80 8d5 100 4 100 14 0 44 0 854 80 0 80 \
8d5 100 4 100 14 ff 0 ff 8d5 1fe 0 1fe 10 80000000 85 80000000 895 ff 0 ff 8d5 1fe 0 1fe 10 7fffffff 0 7fffffff 8d5 \
fffffffe 880 fffffffe 890 80000000 85 80000000 895 7fffffff 0 7fffffff 8d5 fffffffe 880 fffffffe 890 80000000 0 \
80000000 8d5 0 845 0 855 0 44 0 854 80000000 0 80000000 8d5 0 845 0 855 ffffffff 0 ffffffff 8d5 fffffffe 81 \
fffffffe 91 80000000 85 80000000 895 ffffffff 0 ffffffff 8d5 fffffffe 81 fffffffe 91 ";

/// SHR.
pub(super) const SHR: &str = "\
0 0 0 8d5 0 44 0 54 0 44 0 854 0 0 0 8d5 0 44 0 54 1 0 1 8d5 0 45 0 55 0 44 0 854 1 0 1 8d5 0 45 0 55 7f 0 7f 8d5 \
3f 5 3f 15 0 44 0 854 7f 0 7f 8d5 3f 5 3f 15 80 0 80 8d5 40 0 40 10 0 44 0 854 80 0 80 8d5 40 0 40 10 ff 0 ff 8d5 \
7f 1 7f 11 0 44 0 854 ff 0 ff 8d5 7f 1 7f 11 7fffffff 0 7fffffff 8d5 3fffffff 5 3fffffff 15 0 45 0 855 7fffffff 0 \
7fffffff 8d5 3fffffff 5 3fffffff 15 80000000 0 80000000 8d5 40000000 804 40000000 814 1 0 1 810 80000000 0 80000000 \
8d5 40000000 804 40000000 814 ffffffff 0 ffffffff 8d5 7fffffff 805 7fffffff 815 1 1 1 811 ffffffff 0 ffffffff 8d5 \
7fffffff 805 7fffffff 815 ";

/// SAR.
pub(super) const SAR: &str = "\
0 0 0 8d5 0 44 0 54 0 44 0 854 0 0 0 8d5 0 44 0 54 1 0 1 8d5 0 45 0 55 0 44 0 854 1 0 1 8d5 0 45 0 55 7f 0 7f 8d5 \
3f 5 3f 15 0 44 0 854 7f 0 7f 8d5 3f 5 3f 15 80 0 80 8d5 40 0 40 10 0 44 0 854 80 0 80 8d5 40 0 40 10 ff 0 ff 8d5 \
7f 1 7f 11 0 44 0 854 ff 0 ff 8d5 7f 1 7f 11 7fffffff 0 7fffffff 8d5 3fffffff 5 3fffffff 15 0 45 0 855 7fffffff 0 \
7fffffff 8d5 3fffffff 5 3fffffff 15 80000000 0 80000000 8d5 c0000000 84 c0000000 94 ffffffff 84 ffffffff 894 \
80000000 0 80000000 8d5 c0000000 84 c0000000 94 ffffffff 0 ffffffff 8d5 ffffffff 85 ffffffff 95 ffffffff 85 \
ffffffff 895 ffffffff 0 ffffffff 8d5 ffffffff 85 ffffffff 95 ";

/// BT.
pub(super) const BT: &str = "\
0 0 0 8d4 0 0 0 8d4 0 0 0 8d4 0 0 0 8d4 0 0 0 8d4 1 1 1 8d5 1 0 1 8d4 1 0 1 8d4 1 1 1 8d5 1 0 1 8d4 7f 1 7f 8d5 7f \
1 7f 8d5 7f 0 7f 8d4 7f 1 7f 8d5 7f 1 7f 8d5 80 0 80 8d4 80 0 80 8d4 80 0 80 8d4 80 0 80 8d4 80 0 80 8d4 ff 1 ff \
8d5 ff 1 ff 8d5 ff 0 ff 8d4 ff 1 ff 8d5 ff 1 ff 8d5 7fffffff 1 7fffffff 8d5 7fffffff 1 7fffffff 8d5 7fffffff 0 \
7fffffff 8d4 7fffffff 1 7fffffff 8d5 7fffffff 1 7fffffff 8d5 80000000 0 80000000 8d4 80000000 0 80000000 8d4 \
80000000 1 80000000 8d5 80000000 0 80000000 8d4 80000000 0 80000000 8d4 ffffffff 1 ffffffff 8d5 ffffffff 1 ffffffff \
8d5 ffffffff 1 ffffffff 8d5 ffffffff 1 ffffffff 8d5 ffffffff 1 ffffffff 8d5 ";

/// BTS.
pub(super) const BTS: &str = "\
1 0 1 8d4 2 0 2 8d4 80000000 0 80000000 8d4 1 0 1 8d4 2 0 2 8d4 1 1 1 8d5 3 0 3 8d4 80000001 0 80000001 8d4 1 1 1 \
8d5 3 0 3 8d4 7f 1 7f 8d5 7f 1 7f 8d5 8000007f 0 8000007f 8d4 7f 1 7f 8d5 7f 1 7f 8d5 81 0 81 8d4 82 0 82 8d4 \
80000080 0 80000080 8d4 81 0 81 8d4 82 0 82 8d4 ff 1 ff 8d5 ff 1 ff 8d5 800000ff 0 800000ff 8d4 ff 1 ff 8d5 ff 1 ff \
8d5 7fffffff 1 7fffffff 8d5 7fffffff 1 7fffffff 8d5 ffffffff 0 ffffffff 8d4 7fffffff 1 7fffffff 8d5 7fffffff 1 \
7fffffff 8d5 80000001 0 80000001 8d4 80000002 0 80000002 8d4 80000000 1 80000000 8d5 80000001 0 80000001 8d4 \
80000002 0 80000002 8d4 ffffffff 1 ffffffff 8d5 ffffffff 1 ffffffff 8d5 ffffffff 1 ffffffff 8d5 ffffffff 1 ffffffff \
8d5 ffffffff 1 ffffffff 8d5 ";

/// BTR.
pub(super) const BTR: &str = "\
0 0 0 8d4 0 0 0 8d4 0 0 0 8d4 0 0 0 8d4 0 0 0 8d4 0 1 0 8d5 1 0 1 8d4 1 0 1 8d4 0 1 0 8d5 1 0 1 8d4 7e 1 7e 8d5 7d \
1 7d 8d5 7f 0 7f 8d4 7e 1 7e 8d5 7d 1 7d 8d5 80 0 80 8d4 80 0 80 8d4 80 0 80 8d4 80 0 80 8d4 80 0 80 8d4 fe 1 fe \
8d5 fd 1 fd 8d5 ff 0 ff 8d4 fe 1 fe 8d5 fd 1 fd 8d5 7ffffffe 1 7ffffffe 8d5 7ffffffd 1 7ffffffd 8d5 7fffffff 0 \
7fffffff 8d4 7ffffffe 1 7ffffffe 8d5 7ffffffd 1 7ffffffd 8d5 80000000 0 80000000 8d4 80000000 0 80000000 8d4 0 1 0 \
8d5 80000000 0 80000000 8d4 80000000 0 80000000 8d4 fffffffe 1 fffffffe 8d5 fffffffd 1 fffffffd 8d5 7fffffff 1 \
7fffffff 8d5 fffffffe 1 fffffffe 8d5 fffffffd 1 fffffffd 8d5 ";

/// BTC.
pub(super) const BTC: &str = "\
1 0 1 8d4 2 0 2 8d4 80000000 0 80000000 8d4 1 0 1 8d4 2 0 2 8d4 0 1 0 8d5 3 0 3 8d4 80000001 0 80000001 8d4 0 1 0 \
8d5 3 0 3 8d4 7e 1 7e 8d5 7d 1 7d 8d5 8000007f 0 8000007f 8d4 7e 1 7e 8d5 7d 1 7d 8d5 81 0 81 8d4 82 0 82 8d4 \
80000080 0 80000080 8d4 81 0 81 8d4 82 0 82 8d4 fe 1 fe 8d5 fd 1 fd 8d5 800000ff 0 800000ff 8d4 fe 1 fe 8d5 fd 1 fd \
8d5 7ffffffe 1 7ffffffe 8d5 7ffffffd 1 7ffffffd 8d5 ffffffff 0 ffffffff 8d4 7ffffffe 1 7ffffffe 8d5 7ffffffd 1 \
7ffffffd 8d5 80000001 0 80000001 8d4 80000002 0 80000002 8d4 0 1 0 8d5 80000001 0 80000001 8d4 80000002 0 80000002 \
8d4 fffffffe 1 fffffffe 8d5 fffffffd 1 fffffffd 8d5 7fffffff 1 7fffffff 8d5 fffffffe 1 fffffffe 8d5 fffffffd 1 \
fffffffd 8d5 ";
