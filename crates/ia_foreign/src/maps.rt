//! The opcode maps: what follows each opcode (SDM volume 2, appendix A, "One-Byte Opcode Map" and "Two-Byte Opcode
//! Map"), a row of sixteen letters for each row of a map.

ghost use Rattle.std.specs.Prelude.{◌≡◌};
ghost use Rattle.ia_foreign.specs.Maps.{one_byte_letter, shape_of, two_byte_letter};

/// What follows an opcode, and with it its length.
#[derive(Clone, Copy, PartialEq, Eq, Debug)]
pub(crate) enum Shape {
    /// The maps leave the opcode empty, or more than one instruction begins with it.
    Unsure,
    /// So many bytes of immediate.
    Bytes(u8),
    /// An immediate of the operand's size: 4 bytes, or 2 under 66.
    Sized,
    /// A far pointer: an offset of the operand's size and 2 bytes of selector.
    Pointer,
    /// An offset of the address's size: 4 bytes, or 2 under 67.
    Offset,
    /// A ModRM operand, and so many bytes of immediate.
    Operand(u8),
    /// A ModRM operand, and an immediate of the operand's size.
    OperandSized,
    /// A ModRM operand in memory: with a register another instruction begins here (VEX, EVEX).
    Memory,
    /// A ModRM operand whose reg field is 0: with others another instruction begins here (XOP).
    First,
    /// A ModRM operand under F3: without it the opcode is reserved.
    Repeated,
    /// A ModRM operand, and an immediate byte where the reg field is 0 or 1 (F6: TEST).
    Test,
    /// A ModRM operand, and an immediate of the operand's size where the reg field is 0 or 1 (F7: TEST).
    TestSized,
}

/// The one-byte opcodes. A digit: so many bytes; `z`: an immediate of the operand's size; `m`: ModRM; `b`, `w`: ModRM
/// and an immediate of a byte, of the operand's size; `a`: an offset; `p`: a far pointer; `n`: ModRM in memory; `h`:
/// ModRM with reg 0; `t`, `u`: F6 and F7; `.`: prefixes, escapes and what is not sure.
pub(crate) const ONE_BYTE: &[u8; 256] = b"\
mmmm1z00mmmm1z0.\
mmmm1z00mmmm1z00\
mmmm1z.0mmmm1z.0\
mmmm1z.0mmmm1z.0\
0000000000000000\
0000000000000000\
00nm....zw1b0000\
1111111111111111\
bwbbmmmmmmmmmmmh\
0000000000p00000\
aaaa00001z000000\
11111111zzzzzzzz\
bb20nnbw30200100\
mmmm11.0mmmmmmmm\
11111111zzp10000\
.0..00tu000000mm";

/// The opcodes behind 0F, by the same letters; `f`: ModRM under F3. 38 and 3A lead to maps of their own.
pub(crate) const TWO_BYTE: &[u8; 256] = b"\
mmmm.00000.0.m..\
mmmmmmmmmmmmmmmm\
1111....mmmmmmmm\
000000.0........\
mmmmmmmmmmmmmmmm\
mmmmmmmmmmmmmmmm\
mmmmmmmmmmmmmmmm\
bbbbmmm0....mmmm\
zzzzzzzzzzzzzzzz\
mmmmmmmmmmmmmmmm\
000mbm..000mbmmm\
mmmmmmmmfmbmmmmm\
mmbmbbbm00000000\
mmmmmmmmmmmmmmmm\
mmmmmmmmmmmmmmmm\
mmmmmmmmmmmmmmm.";

/// What a letter of the maps says.
#[tactic(auto, unfolding(crate::specs::Maps::shape_of))]
fn shape_of(letter: u8) -> Shape
    ensures { result ≡ shape_of letter }
{
    match letter {
        b'0' => Shape::Bytes(0),
        b'1' => Shape::Bytes(1),
        b'2' => Shape::Bytes(2),
        b'3' => Shape::Bytes(3),
        b'z' => Shape::Sized,
        b'm' => Shape::Operand(0),
        b'b' => Shape::Operand(1),
        b'w' => Shape::OperandSized,
        b'a' => Shape::Offset,
        b'p' => Shape::Pointer,
        b'n' => Shape::Memory,
        b'h' => Shape::First,
        b'f' => Shape::Repeated,
        b't' => Shape::Test,
        b'u' => Shape::TestSized,
        _ => Shape::Unsure,
    }
}

/// What follows a one-byte opcode.
#[tactic(auto, unfolding(crate::specs::Maps::one_byte_letter))]
pub(crate) fn one_byte_shape(opcode: u8) -> Shape
    ensures { result ≡ shape_of (one_byte_letter opcode) }
{
    shape_of(ONE_BYTE[usize::from(opcode)])
}

/// What follows an opcode behind 0F.
#[tactic(auto, unfolding(crate::specs::Maps::two_byte_letter))]
pub(crate) fn two_byte_shape(opcode: u8) -> Shape
    ensures { result ≡ shape_of (two_byte_letter opcode) }
{
    shape_of(TWO_BYTE[usize::from(opcode)])
}
