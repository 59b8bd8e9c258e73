//! The names of the one-byte opcodes (SDM volume 2, appendix A, "One-Byte Opcode Map").

ghost use Rattle.std.specs.Prelude.{◌≤◌, IfSome, length};

use crate::words::Named;

// The operations of 00 to 3F and of 80 to 83, by number.
fn alu_name(number: u8) -> &'static [u8]
    ensures { length result.now ≤ 32 }
{
    match number {
        0 => b"add",
        1 => b"or",
        2 => b"adc",
        3 => b"sbb",
        4 => b"and",
        5 => b"sub",
        6 => b"xor",
        _ => b"compare",
    }
}

// What stands between the operations of 00 to 3F: segments on the stack, and the decimal adjustments.
fn between_name(opcode: u8) -> Option<&'static [u8]>
    ensures { IfSome result (λ name. length name.now ≤ 32) }
{
    match opcode {
        0x06 | 0x0e | 0x16 | 0x1e => Some(b"push of a segment"),
        0x07 | 0x17 | 0x1f => Some(b"pop of a segment"),
        0x27 => Some(b"daa"),
        0x2f => Some(b"das"),
        0x37 => Some(b"aaa"),
        0x3f => Some(b"aas"),
        _ => None,
    }
}

// C0, C1 and D0 to D3, by the reg field.
fn shift_name(reg: u8) -> &'static [u8]
    ensures { length result.now ≤ 32 }
{
    match reg {
        0 => b"rol",
        1 => b"ror",
        2 => b"rcl",
        3 => b"rcr",
        4 | 6 => b"shl",
        5 => b"shr",
        _ => b"sar",
    }
}

// F6 and F7, by the reg field.
fn unary_name(reg: u8) -> &'static [u8]
    ensures { length result.now ≤ 32 }
{
    match reg {
        0 | 1 => b"test",
        2 => b"not",
        3 => b"neg",
        4 => b"mul",
        5 => b"imul",
        6 => b"div",
        _ => b"idiv",
    }
}

// FE and FF, by the reg field.
fn group_name(opcode: u8, reg: u8) -> Option<&'static [u8]>
    ensures { IfSome result (λ name. length name.now ≤ 32) }
{
    match (opcode, reg) {
        (_, 0) => Some(b"inc"),
        (_, 1) => Some(b"dec"),
        (0xff, 2) => Some(b"call"),
        (0xff, 3) => Some(b"far call"),
        (0xff, 4) => Some(b"jump"),
        (0xff, 5) => Some(b"far jump"),
        (0xff, 6) => Some(b"push"),
        _ => None,
    }
}

// 40 to 7F.
fn name_40(opcode: u8) -> Option<&'static [u8]>
    ensures { IfSome result (λ name. length name.now ≤ 32) }
{
    match opcode {
        0x40..=0x47 => Some(b"inc"),
        0x48..=0x4f => Some(b"dec"),
        0x50..=0x57 | 0x68 | 0x6a => Some(b"push"),
        0x58..=0x5f => Some(b"pop"),
        0x60 => Some(b"pushad"),
        0x61 => Some(b"popad"),
        0x62 => Some(b"bound"),
        0x63 => Some(b"arpl"),
        0x69 | 0x6b => Some(b"imul"),
        0x6c | 0x6d => Some(b"ins"),
        0x6e | 0x6f => Some(b"outs"),
        0x70..=0x7f => Some(b"conditional jump"),
        _ => None,
    }
}

// 84 to 9F.
fn name_84(opcode: u8) -> Option<&'static [u8]>
    ensures { IfSome result (λ name. length name.now ≤ 32) }
{
    match opcode {
        0x84 | 0x85 => Some(b"test"),
        0x86 | 0x87 | 0x91..=0x97 => Some(b"exchange"),
        0x88..=0x8b => Some(b"move"),
        0x8c | 0x8e => Some(b"move of a segment"),
        0x8d => Some(b"lea"),
        0x8f => Some(b"pop"),
        0x90 => Some(b"nop"),
        0x98 => Some(b"cwde"),
        0x99 => Some(b"cdq"),
        0x9a => Some(b"far call"),
        0x9b => Some(b"fwait"),
        0x9c => Some(b"pushfd"),
        0x9d => Some(b"popfd"),
        0x9e => Some(b"sahf"),
        0x9f => Some(b"lahf"),
        _ => None,
    }
}

// A0 to BF.
fn name_a0(opcode: u8) -> Option<&'static [u8]>
    ensures { IfSome result (λ name. length name.now ≤ 32) }
{
    match opcode {
        0xa0..=0xa3 | 0xb0..=0xbf => Some(b"move"),
        0xa4 | 0xa5 => Some(b"movs"),
        0xa6 | 0xa7 => Some(b"cmps"),
        0xa8 | 0xa9 => Some(b"test"),
        0xaa | 0xab => Some(b"stos"),
        0xac | 0xad => Some(b"lods"),
        0xae | 0xaf => Some(b"scas"),
        _ => None,
    }
}

// C0 to DF but for the shifts.
fn name_c0(named: Named) -> Option<&'static [u8]>
    ensures { IfSome result (λ name. length name.now ≤ 32) }
{
    match named.opcode {
        0xc2 | 0xc3 => Some(b"ret"),
        0xc4 | 0xc5 if named.modrm / 64 == 3 => Some(b"AVX instruction"),
        0xc4 => Some(b"les"),
        0xc5 => Some(b"lds"),
        0xc6 if named.modrm == 0xf8 => Some(b"xabort"),
        0xc7 if named.modrm == 0xf8 => Some(b"xbegin"),
        0xc6 | 0xc7 if named.modrm / 8 % 8 == 0 => Some(b"move"),
        0xc8 => Some(b"enter"),
        0xc9 => Some(b"leave"),
        0xca | 0xcb => Some(b"far ret"),
        0xcc => Some(b"int3"),
        0xcd => Some(b"int"),
        0xce => Some(b"into"),
        0xcf => Some(b"iret"),
        0xd4 => Some(b"aam"),
        0xd5 => Some(b"aad"),
        0xd7 => Some(b"xlat"),
        0xd8..=0xdf => Some(b"x87 FPU instruction"),
        _ => None,
    }
}

// E0 to FD but for F6 and F7.
fn name_e0(opcode: u8) -> Option<&'static [u8]>
    ensures { IfSome result (λ name. length name.now ≤ 32) }
{
    match opcode {
        0xe0..=0xe2 => Some(b"loop"),
        0xe3 => Some(b"jecxz"),
        0xe4 | 0xe5 | 0xec | 0xed => Some(b"in"),
        0xe6 | 0xe7 | 0xee | 0xef => Some(b"out"),
        0xe8 => Some(b"call"),
        0xe9 | 0xeb => Some(b"jump"),
        0xea => Some(b"far jump"),
        0xf1 => Some(b"int1"),
        0xf4 => Some(b"hlt"),
        0xf5 => Some(b"cmc"),
        0xf8 => Some(b"clc"),
        0xf9 => Some(b"stc"),
        0xfa => Some(b"cli"),
        0xfb => Some(b"sti"),
        0xfc => Some(b"cld"),
        0xfd => Some(b"std"),
        _ => None,
    }
}

/// The name of a one-byte opcode, where it has one.
pub(crate) fn one_byte_name(named: Named) -> Option<&'static [u8]>
    ensures { IfSome result (λ name. length name.now ≤ 32) }
{
    let reg = named.modrm / 8 % 8;
    match named.opcode {
        0x00..=0x3f if named.opcode % 8 < 6 => Some(alu_name(named.opcode / 8)),
        0x00..=0x3f => between_name(named.opcode),
        0x40..=0x7f => name_40(named.opcode),
        0x80..=0x83 => Some(alu_name(reg)),
        0x84..=0x9f => name_84(named.opcode),
        0xa0..=0xbf => name_a0(named.opcode),
        0xc0 | 0xc1 | 0xd0..=0xd3 => Some(shift_name(reg)),
        0xc2..=0xdf => name_c0(named),
        0xf6 | 0xf7 => Some(unary_name(reg)),
        0xfe | 0xff => group_name(named.opcode, reg),
        _ => name_e0(named.opcode),
    }
}

/// Whether a one-byte opcode is a string instruction, which REP repeats.
pub(crate) fn is_string(opcode: u8) -> bool {
    matches!(opcode, 0x6c..=0x6f | 0xa4..=0xa7 | 0xaa..=0xaf)
}

/// Whether an operand size prefix makes an instruction one of 16 bits: not one that works on bytes, on a whole
/// register file or on none.
pub(crate) fn is_wide(named: Named) -> bool {
    if named.escaped {
        return matches!(
            named.opcode,
            0x40..=0x4f | 0x80..=0x8f | 0xa3..=0xa5 | 0xab..=0xad | 0xaf | 0xb1 | 0xb3 | 0xb6..=0xb7 | 0xba..=0xbb
                | 0xbe..=0xbf | 0xc1
        );
    }
    match named.opcode {
        0x00..=0x3f => matches!(named.opcode % 8, 1 | 3 | 5),
        0x40..=0x61 | 0x68..=0x6b | 0x6d | 0x6f..=0x7f | 0x8c..=0x8f | 0x91..=0x97 => true,
        0x81
        | 0x83
        | 0x85
        | 0x87
        | 0x89
        | 0x8b
        | 0xa1
        | 0xa3
        | 0xa5
        | 0xa7
        | 0xa9
        | 0xab
        | 0xad
        | 0xaf => true,
        0x98..=0x9a | 0x9c | 0x9d | 0xb8..=0xbf | 0xc1..=0xc5 | 0xc7..=0xcb | 0xcf | 0xd1 | 0xd3 =>
            true,
        0xe5 | 0xe7..=0xea | 0xed | 0xef | 0xf7 | 0xff => true,
        _ => false,
    }
}
