//! Results and flags of ADD, OR, ADC, SBB, AND, SUB, XOR, CMP, INC, DEC and NEG,
//! as an Intel processor gives them: made by tests-data/arithmetic.c, row by row in the order of its loops. A flag
//! that the manual leaves undefined stands here as it was before the instruction.
//!
//! The numbers are in hex, each with a blank behind it.

/// ADD of doublewords.
pub(super) const ADD_D: &str = "\
0 44 0 44 1 0 1 0 7f 0 7f 0 80 0 80 0 ff 4 ff 4 7fffffff 4 7fffffff 4 80000000 84 80000000 84 ffffffff 84 ffffffff \
84 1 0 1 0 2 0 2 0 80 10 80 10 81 4 81 4 100 14 100 14 80000000 894 80000000 894 80000001 80 80000001 80 0 55 0 55 \
7f 0 7f 0 80 10 80 10 fe 10 fe 10 ff 4 ff 4 17e 14 17e 14 8000007e 894 8000007e 894 8000007f 80 8000007f 80 7e 15 \
7e 15 80 0 80 0 81 4 81 4 ff 4 ff 4 100 4 100 4 17f 0 17f 0 8000007f 880 8000007f 880 80000080 80 80000080 80 7f 1 \
7f 1 ff 4 ff 4 100 14 100 14 17e 14 17e 14 17f 0 17f 0 1fe 10 1fe 10 800000fe 890 800000fe 890 800000ff 84 800000ff \
84 fe 11 fe 11 7fffffff 4 7fffffff 4 80000000 894 80000000 894 8000007e 894 8000007e 894 8000007f 880 8000007f 880 \
800000fe 890 800000fe 890 fffffffe 890 fffffffe 890 ffffffff 84 ffffffff 84 7ffffffe 11 7ffffffe 11 80000000 84 \
80000000 84 80000001 80 80000001 80 8000007f 80 8000007f 80 80000080 80 80000080 80 800000ff 84 800000ff 84 \
ffffffff 84 ffffffff 84 0 845 0 845 7fffffff 805 7fffffff 805 ffffffff 84 ffffffff 84 0 55 0 55 7e 15 7e 15 7f 1 7f \
1 fe 11 fe 11 7ffffffe 11 7ffffffe 11 7fffffff 805 7fffffff 805 fffffffe 91 fffffffe 91 ";

/// ADD of bytes.
pub(super) const ADD_B: &str = "\
0 44 0 44 1 0 1 0 7f 0 7f 0 80 80 80 80 ff 84 ff 84 1 0 1 0 2 0 2 0 80 890 80 890 81 84 81 84 0 55 0 55 7f 0 7f 0 \
80 890 80 890 fe 890 fe 890 ff 84 ff 84 7e 15 7e 15 80 80 80 80 81 84 81 84 ff 84 ff 84 0 845 0 845 7f 801 7f 801 \
ff 84 ff 84 0 55 0 55 7e 15 7e 15 7f 801 7f 801 fe 91 fe 91 ";

/// OR of doublewords.
pub(super) const OR_D: &str = "\
0 44 0 54 1 0 1 10 7f 0 7f 10 80 0 80 10 ff 4 ff 14 7fffffff 4 7fffffff 14 80000000 84 80000000 94 ffffffff 84 \
ffffffff 94 1 0 1 10 1 0 1 10 7f 0 7f 10 81 4 81 14 ff 4 ff 14 7fffffff 4 7fffffff 14 80000001 80 80000001 90 \
ffffffff 84 ffffffff 94 7f 0 7f 10 7f 0 7f 10 7f 0 7f 10 ff 4 ff 14 ff 4 ff 14 7fffffff 4 7fffffff 14 8000007f 80 \
8000007f 90 ffffffff 84 ffffffff 94 80 0 80 10 81 4 81 14 ff 4 ff 14 80 0 80 10 ff 4 ff 14 7fffffff 4 7fffffff 14 \
80000080 80 80000080 90 ffffffff 84 ffffffff 94 ff 4 ff 14 ff 4 ff 14 ff 4 ff 14 ff 4 ff 14 ff 4 ff 14 7fffffff 4 \
7fffffff 14 800000ff 84 800000ff 94 ffffffff 84 ffffffff 94 7fffffff 4 7fffffff 14 7fffffff 4 7fffffff 14 7fffffff \
4 7fffffff 14 7fffffff 4 7fffffff 14 7fffffff 4 7fffffff 14 7fffffff 4 7fffffff 14 ffffffff 84 ffffffff 94 ffffffff \
84 ffffffff 94 80000000 84 80000000 94 80000001 80 80000001 90 8000007f 80 8000007f 90 80000080 80 80000080 90 \
800000ff 84 800000ff 94 ffffffff 84 ffffffff 94 80000000 84 80000000 94 ffffffff 84 ffffffff 94 ffffffff 84 \
ffffffff 94 ffffffff 84 ffffffff 94 ffffffff 84 ffffffff 94 ffffffff 84 ffffffff 94 ffffffff 84 ffffffff 94 \
ffffffff 84 ffffffff 94 ffffffff 84 ffffffff 94 ffffffff 84 ffffffff 94 ";

/// OR of bytes.
pub(super) const OR_B: &str = "\
0 44 0 54 1 0 1 10 7f 0 7f 10 80 80 80 90 ff 84 ff 94 1 0 1 10 1 0 1 10 7f 0 7f 10 81 84 81 94 ff 84 ff 94 7f 0 7f \
10 7f 0 7f 10 7f 0 7f 10 ff 84 ff 94 ff 84 ff 94 80 80 80 90 81 84 81 94 ff 84 ff 94 80 80 80 90 ff 84 ff 94 ff 84 \
ff 94 ff 84 ff 94 ff 84 ff 94 ff 84 ff 94 ff 84 ff 94 ";

/// ADC of doublewords.
pub(super) const ADC_D: &str = "\
0 44 1 0 1 0 2 0 7f 0 80 10 80 0 81 4 ff 4 100 14 7fffffff 4 80000000 894 80000000 84 80000001 80 ffffffff 84 0 55 \
1 0 2 0 2 0 3 4 80 10 81 14 81 4 82 4 100 14 101 10 80000000 894 80000001 890 80000001 80 80000002 80 0 55 1 11 7f \
0 80 10 80 10 81 14 fe 10 ff 14 ff 4 100 14 17e 14 17f 10 8000007e 894 8000007f 890 8000007f 80 80000080 90 7e 15 \
7f 11 80 0 81 4 81 4 82 4 ff 4 100 14 100 4 101 0 17f 0 180 10 8000007f 880 80000080 890 80000080 80 80000081 84 7f \
1 80 11 ff 4 100 14 100 14 101 10 17e 14 17f 10 17f 0 180 10 1fe 10 1ff 14 800000fe 890 800000ff 894 800000ff 84 \
80000100 94 fe 11 ff 15 7fffffff 4 80000000 894 80000000 894 80000001 890 8000007e 894 8000007f 890 8000007f 880 \
80000080 890 800000fe 890 800000ff 894 fffffffe 890 ffffffff 894 ffffffff 84 0 55 7ffffffe 11 7fffffff 15 80000000 \
84 80000001 80 80000001 80 80000002 80 8000007f 80 80000080 90 80000080 80 80000081 84 800000ff 84 80000100 94 \
ffffffff 84 0 55 0 845 1 801 7fffffff 805 80000000 95 ffffffff 84 0 55 0 55 1 11 7e 15 7f 11 7f 1 80 11 fe 11 ff 15 \
7ffffffe 11 7fffffff 15 7fffffff 805 80000000 95 fffffffe 91 ffffffff 95 ";

/// ADC of bytes.
pub(super) const ADC_B: &str = "\
0 44 1 0 1 0 2 0 7f 0 80 890 80 80 81 84 ff 84 0 55 1 0 2 0 2 0 3 4 80 890 81 894 81 84 82 84 0 55 1 11 7f 0 80 890 \
80 890 81 894 fe 890 ff 894 ff 84 0 55 7e 15 7f 11 80 80 81 84 81 84 82 84 ff 84 0 55 0 845 1 801 7f 801 80 91 ff \
84 0 55 0 55 1 11 7e 15 7f 11 7f 801 80 91 fe 91 ff 95 ";

/// SBB of doublewords.
pub(super) const SBB_D: &str = "\
0 44 ffffffff 95 ffffffff 95 fffffffe 91 ffffff81 95 ffffff80 91 ffffff80 81 ffffff7f 91 ffffff01 91 ffffff00 95 \
80000001 91 80000000 95 80000000 885 7fffffff 15 1 11 0 55 1 0 0 44 0 44 ffffffff 95 ffffff82 95 ffffff81 95 \
ffffff81 85 ffffff80 81 ffffff02 91 ffffff01 91 80000002 91 80000001 91 80000001 881 80000000 885 2 11 1 11 7f 0 7e \
4 7e 4 7d 4 0 44 ffffffff 95 ffffffff 85 fffffffe 81 ffffff80 81 ffffff7f 91 80000080 81 8000007f 91 8000007f 881 \
8000007e 885 80 1 7f 11 80 0 7f 10 7f 10 7e 14 1 10 0 54 0 44 ffffffff 95 ffffff81 95 ffffff80 91 80000081 95 \
80000080 91 80000080 881 8000007f 891 81 15 80 11 ff 4 fe 0 fe 0 fd 0 80 0 7f 10 7f 0 7e 4 0 44 ffffffff 95 \
80000100 85 800000ff 95 800000ff 885 800000fe 881 100 5 ff 15 7fffffff 4 7ffffffe 0 7ffffffe 0 7ffffffd 0 7fffff80 \
0 7fffff7f 10 7fffff7f 0 7fffff7e 4 7fffff00 4 7ffffeff 14 0 44 ffffffff 95 ffffffff 885 fffffffe 881 80000000 885 \
7fffffff 15 80000000 84 7fffffff 814 7fffffff 814 7ffffffe 810 7fffff81 814 7fffff80 810 7fffff80 800 7fffff7f 810 \
7fffff01 810 7fffff00 814 1 810 0 854 0 44 ffffffff 95 80000001 91 80000000 95 ffffffff 84 fffffffe 80 fffffffe 80 \
fffffffd 80 ffffff80 80 ffffff7f 90 ffffff7f 80 ffffff7e 84 ffffff00 84 fffffeff 94 80000000 84 7fffffff 814 \
7fffffff 4 7ffffffe 0 0 44 ffffffff 95 ";

/// SBB of bytes.
pub(super) const SBB_B: &str = "\
0 44 ff 95 ff 95 fe 91 81 95 80 91 80 881 7f 11 1 11 0 55 1 0 0 44 0 44 ff 95 82 95 81 95 81 885 80 881 2 11 1 11 \
7f 0 7e 4 7e 4 7d 4 0 44 ff 95 ff 885 fe 881 80 881 7f 11 80 80 7f 810 7f 810 7e 814 1 810 0 854 0 44 ff 95 81 95 \
80 91 ff 84 fe 80 fe 80 fd 80 80 80 7f 810 7f 0 7e 4 0 44 ff 95 ";

/// AND of doublewords.
pub(super) const AND_D: &str = "\
0 44 0 54 0 44 0 54 0 44 0 54 0 44 0 54 0 44 0 54 0 44 0 54 0 44 0 54 0 44 0 54 0 44 0 54 1 0 1 10 1 0 1 10 0 44 0 \
54 1 0 1 10 1 0 1 10 0 44 0 54 1 0 1 10 0 44 0 54 1 0 1 10 7f 0 7f 10 0 44 0 54 7f 0 7f 10 7f 0 7f 10 0 44 0 54 7f \
0 7f 10 0 44 0 54 0 44 0 54 0 44 0 54 80 0 80 10 80 0 80 10 80 0 80 10 0 44 0 54 80 0 80 10 0 44 0 54 1 0 1 10 7f 0 \
7f 10 80 0 80 10 ff 4 ff 14 ff 4 ff 14 0 44 0 54 ff 4 ff 14 0 44 0 54 1 0 1 10 7f 0 7f 10 80 0 80 10 ff 4 ff 14 \
7fffffff 4 7fffffff 14 0 44 0 54 7fffffff 4 7fffffff 14 0 44 0 54 0 44 0 54 0 44 0 54 0 44 0 54 0 44 0 54 0 44 0 54 \
80000000 84 80000000 94 80000000 84 80000000 94 0 44 0 54 1 0 1 10 7f 0 7f 10 80 0 80 10 ff 4 ff 14 7fffffff 4 \
7fffffff 14 80000000 84 80000000 94 ffffffff 84 ffffffff 94 ";

/// AND of bytes.
pub(super) const AND_B: &str = "\
0 44 0 54 0 44 0 54 0 44 0 54 0 44 0 54 0 44 0 54 0 44 0 54 1 0 1 10 1 0 1 10 0 44 0 54 1 0 1 10 0 44 0 54 1 0 1 10 \
7f 0 7f 10 0 44 0 54 7f 0 7f 10 0 44 0 54 0 44 0 54 0 44 0 54 80 80 80 90 80 80 80 90 0 44 0 54 1 0 1 10 7f 0 7f 10 \
80 80 80 90 ff 84 ff 94 ";

/// SUB of doublewords.
pub(super) const SUB_D: &str = "\
0 44 0 44 ffffffff 95 ffffffff 95 ffffff81 95 ffffff81 95 ffffff80 81 ffffff80 81 ffffff01 91 ffffff01 91 80000001 \
91 80000001 91 80000000 885 80000000 885 1 11 1 11 1 0 1 0 0 44 0 44 ffffff82 95 ffffff82 95 ffffff81 85 ffffff81 \
85 ffffff02 91 ffffff02 91 80000002 91 80000002 91 80000001 881 80000001 881 2 11 2 11 7f 0 7f 0 7e 4 7e 4 0 44 0 \
44 ffffffff 85 ffffffff 85 ffffff80 81 ffffff80 81 80000080 81 80000080 81 8000007f 881 8000007f 881 80 1 80 1 80 0 \
80 0 7f 10 7f 10 1 10 1 10 0 44 0 44 ffffff81 95 ffffff81 95 80000081 95 80000081 95 80000080 881 80000080 881 81 \
15 81 15 ff 4 ff 4 fe 0 fe 0 80 0 80 0 7f 0 7f 0 0 44 0 44 80000100 85 80000100 85 800000ff 885 800000ff 885 100 5 \
100 5 7fffffff 4 7fffffff 4 7ffffffe 0 7ffffffe 0 7fffff80 0 7fffff80 0 7fffff7f 0 7fffff7f 0 7fffff00 4 7fffff00 4 \
0 44 0 44 ffffffff 885 ffffffff 885 80000000 885 80000000 885 80000000 84 80000000 84 7fffffff 814 7fffffff 814 \
7fffff81 814 7fffff81 814 7fffff80 800 7fffff80 800 7fffff01 810 7fffff01 810 1 810 1 810 0 44 0 44 80000001 91 \
80000001 91 ffffffff 84 ffffffff 84 fffffffe 80 fffffffe 80 ffffff80 80 ffffff80 80 ffffff7f 80 ffffff7f 80 \
ffffff00 84 ffffff00 84 80000000 84 80000000 84 7fffffff 4 7fffffff 4 0 44 0 44 ";

/// SUB of bytes.
pub(super) const SUB_B: &str = "\
0 44 0 44 ff 95 ff 95 81 95 81 95 80 881 80 881 1 11 1 11 1 0 1 0 0 44 0 44 82 95 82 95 81 885 81 885 2 11 2 11 7f \
0 7f 0 7e 4 7e 4 0 44 0 44 ff 885 ff 885 80 881 80 881 80 80 80 80 7f 810 7f 810 1 810 1 810 0 44 0 44 81 95 81 95 \
ff 84 ff 84 fe 80 fe 80 80 80 80 80 7f 0 7f 0 0 44 0 44 ";

/// XOR of doublewords.
pub(super) const XOR_D: &str = "\
0 44 0 54 1 0 1 10 7f 0 7f 10 80 0 80 10 ff 4 ff 14 7fffffff 4 7fffffff 14 80000000 84 80000000 94 ffffffff 84 \
ffffffff 94 1 0 1 10 0 44 0 54 7e 4 7e 14 81 4 81 14 fe 0 fe 10 7ffffffe 0 7ffffffe 10 80000001 80 80000001 90 \
fffffffe 80 fffffffe 90 7f 0 7f 10 7e 4 7e 14 0 44 0 54 ff 4 ff 14 80 0 80 10 7fffff80 0 7fffff80 10 8000007f 80 \
8000007f 90 ffffff80 80 ffffff80 90 80 0 80 10 81 4 81 14 ff 4 ff 14 0 44 0 54 7f 0 7f 10 7fffff7f 0 7fffff7f 10 \
80000080 80 80000080 90 ffffff7f 80 ffffff7f 90 ff 4 ff 14 fe 0 fe 10 80 0 80 10 7f 0 7f 10 0 44 0 54 7fffff00 4 \
7fffff00 14 800000ff 84 800000ff 94 ffffff00 84 ffffff00 94 7fffffff 4 7fffffff 14 7ffffffe 0 7ffffffe 10 7fffff80 \
0 7fffff80 10 7fffff7f 0 7fffff7f 10 7fffff00 4 7fffff00 14 0 44 0 54 ffffffff 84 ffffffff 94 80000000 84 80000000 \
94 80000000 84 80000000 94 80000001 80 80000001 90 8000007f 80 8000007f 90 80000080 80 80000080 90 800000ff 84 \
800000ff 94 ffffffff 84 ffffffff 94 0 44 0 54 7fffffff 4 7fffffff 14 ffffffff 84 ffffffff 94 fffffffe 80 fffffffe \
90 ffffff80 80 ffffff80 90 ffffff7f 80 ffffff7f 90 ffffff00 84 ffffff00 94 80000000 84 80000000 94 7fffffff 4 \
7fffffff 14 0 44 0 54 ";

/// XOR of bytes.
pub(super) const XOR_B: &str = "\
0 44 0 54 1 0 1 10 7f 0 7f 10 80 80 80 90 ff 84 ff 94 1 0 1 10 0 44 0 54 7e 4 7e 14 81 84 81 94 fe 80 fe 90 7f 0 7f \
10 7e 4 7e 14 0 44 0 54 ff 84 ff 94 80 80 80 90 80 80 80 90 81 84 81 94 ff 84 ff 94 0 44 0 54 7f 0 7f 10 ff 84 ff \
94 fe 80 fe 90 80 80 80 90 7f 0 7f 10 0 44 0 54 ";

/// CMP of doublewords: the destination stays.
pub(super) const CMP_D: &str = "\
0 44 0 44 0 95 0 95 0 95 0 95 0 81 0 81 0 91 0 91 0 91 0 91 0 885 0 885 0 11 0 11 1 0 1 0 1 44 1 44 1 95 1 95 1 85 \
1 85 1 91 1 91 1 91 1 91 1 881 1 881 1 11 1 11 7f 0 7f 0 7f 4 7f 4 7f 44 7f 44 7f 85 7f 85 7f 81 7f 81 7f 81 7f 81 \
7f 881 7f 881 7f 1 7f 1 80 0 80 0 80 10 80 10 80 10 80 10 80 44 80 44 80 95 80 95 80 95 80 95 80 881 80 881 80 15 \
80 15 ff 4 ff 4 ff 0 ff 0 ff 0 ff 0 ff 0 ff 0 ff 44 ff 44 ff 85 ff 85 ff 885 ff 885 ff 5 ff 5 7fffffff 4 7fffffff 4 \
7fffffff 0 7fffffff 0 7fffffff 0 7fffffff 0 7fffffff 0 7fffffff 0 7fffffff 4 7fffffff 4 7fffffff 44 7fffffff 44 \
7fffffff 885 7fffffff 885 7fffffff 885 7fffffff 885 80000000 84 80000000 84 80000000 814 80000000 814 80000000 814 \
80000000 814 80000000 800 80000000 800 80000000 810 80000000 810 80000000 810 80000000 810 80000000 44 80000000 44 \
80000000 91 80000000 91 ffffffff 84 ffffffff 84 ffffffff 80 ffffffff 80 ffffffff 80 ffffffff 80 ffffffff 80 \
ffffffff 80 ffffffff 84 ffffffff 84 ffffffff 84 ffffffff 84 ffffffff 4 ffffffff 4 ffffffff 44 ffffffff 44 ";

/// CMP of bytes: the destination stays.
pub(super) const CMP_B: &str = "\
0 44 0 44 0 95 0 95 0 95 0 95 0 881 0 881 0 11 0 11 1 0 1 0 1 44 1 44 1 95 1 95 1 885 1 885 1 11 1 11 7f 0 7f 0 7f \
4 7f 4 7f 44 7f 44 7f 885 7f 885 7f 881 7f 881 80 80 80 80 80 810 80 810 80 810 80 810 80 44 80 44 80 95 80 95 ff \
84 ff 84 ff 80 ff 80 ff 80 ff 80 ff 0 ff 0 ff 44 ff 44 ";

/// INC of a doubleword.
pub(super) const INC_D: &str = "\
1 0 1 1 2 0 2 1 80 10 80 11 81 4 81 5 100 14 100 15 80000000 894 80000000 895 80000001 80 80000001 81 0 54 0 55 ";

/// INC of a byte.
pub(super) const INC_B: &str = "\
1 0 1 1 2 0 2 1 80 890 80 891 81 84 81 85 0 54 0 55 ";

/// DEC of a doubleword.
pub(super) const DEC_D: &str = "\
ffffffff 94 ffffffff 95 0 44 0 45 7e 4 7e 5 7f 10 7f 11 fe 0 fe 1 7ffffffe 0 7ffffffe 1 7fffffff 814 7fffffff 815 \
fffffffe 80 fffffffe 81 ";

/// DEC of a byte.
pub(super) const DEC_B: &str = "\
ff 94 ff 95 0 44 0 45 7e 4 7e 5 7f 810 7f 811 fe 80 fe 81 ";

/// NEG of a doubleword.
pub(super) const NEG_D: &str = "\
0 44 0 44 ffffffff 95 ffffffff 95 ffffff81 95 ffffff81 95 ffffff80 81 ffffff80 81 ffffff01 91 ffffff01 91 80000001 \
91 80000001 91 80000000 885 80000000 885 1 11 1 11 ";
