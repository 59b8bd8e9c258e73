//! The names of the opcodes behind 0F (SDM volume 2, appendix A, "Two-Byte Opcode Map").

ghost use Rattle.std.specs.Prelude.{◌≤◌, IfSome, length};

use crate::words::Named;

// 00 to 1F: the system's instructions, prefetches and hints.
fn name_00(named: Named, repeated: bool) -> Option<&'static [u8]>
    ensures { IfSome result (λ name. length name.now ≤ 32) }
{
    match named.opcode {
        0x01 => Some(name_01(named.modrm)),
        0x00 => Some(b"system instruction"),
        0x02 => Some(b"lar"),
        0x03 => Some(b"lsl"),
        0x05 => Some(b"syscall"),
        0x06 => Some(b"clts"),
        0x07 => Some(b"sysret"),
        0x08 => Some(b"invd"),
        0x09 => Some(b"wbinvd"),
        0x0b => Some(b"ud2"),
        0x0d | 0x18 => Some(b"prefetch"),
        0x10..=0x17 => Some(b"SSE instruction"),
        0x1e if repeated && named.modrm == 0xfb => Some(b"endbr32"),
        0x1e if repeated && named.modrm == 0xfa => Some(b"endbr64"),
        0x1f => Some(b"nop with a prefix"),
        0x19..=0x1e => Some(b"hint nop"),
        _ => None,
    }
}

// 01, by its ModRM byte.
fn name_01(modrm: u8) -> &'static [u8]
    ensures { length result.now ≤ 32 }
{
    match modrm {
        0xd0 => b"xgetbv",
        0xd1 => b"xsetbv",
        0xd5 => b"xend",
        0xd6 => b"xtest",
        0xf9 => b"rdtscp",
        _ => b"system instruction",
    }
}

// 20 to 3A: control registers, SSE, model-specific registers.
fn name_20(named: Named) -> Option<&'static [u8]>
    ensures { IfSome result (λ name. length name.now ≤ 32) }
{
    match named.opcode {
        0x20 | 0x22 => Some(b"move of a control register"),
        0x21 | 0x23 => Some(b"move of a debug register"),
        0x28..=0x2f | 0x3a => Some(b"SSE instruction"),
        0x30 => Some(b"wrmsr"),
        0x31 => Some(b"rdtsc"),
        0x32 => Some(b"rdmsr"),
        0x33 => Some(b"rdpmc"),
        0x34 => Some(b"sysenter"),
        0x35 => Some(b"sysexit"),
        0x37 => Some(b"getsec"),
        0x38 if matches!(named.modrm, 0xf0 | 0xf1) => Some(b"movbe or crc32"),
        0x38 => Some(b"SSE instruction"),
        _ => None,
    }
}

// A0 to AF.
fn name_a0(named: Named) -> Option<&'static [u8]>
    ensures { IfSome result (λ name. length name.now ≤ 32) }
{
    match named.opcode {
        0xa0 | 0xa8 => Some(b"push of a segment"),
        0xa1 | 0xa9 => Some(b"pop of a segment"),
        0xa2 => Some(b"cpuid"),
        0xa3 => Some(b"bt with a register"),
        0xa4 | 0xa5 => Some(b"shld"),
        0xaa => Some(b"rsm"),
        0xab => Some(b"bts with a register"),
        0xac | 0xad => Some(b"shrd"),
        0xae => name_ae(named.modrm),
        0xaf => Some(b"imul"),
        _ => None,
    }
}

// AE, by its ModRM byte.
fn name_ae(modrm: u8) -> Option<&'static [u8]>
    ensures { IfSome result (λ name. length name.now ≤ 32) }
{
    match (modrm / 64, modrm / 8 % 8) {
        (3, 5) => Some(b"lfence"),
        (3, 6) => Some(b"mfence"),
        (3, 7) => Some(b"sfence"),
        (3, _) => None,
        (_, 0) => Some(b"fxsave"),
        (_, 1) => Some(b"fxrstor"),
        (_, 2) => Some(b"ldmxcsr"),
        (_, 3) => Some(b"stmxcsr"),
        (_, 4) => Some(b"xsave"),
        (_, 5) => Some(b"xrstor"),
        (_, 6) => Some(b"xsaveopt or clwb"),
        (_, _) => Some(b"clflush"),
    }
}

// B0 to BF.
fn name_b0(named: Named, repeated: bool) -> Option<&'static [u8]>
    ensures { IfSome result (λ name. length name.now ≤ 32) }
{
    match named.opcode {
        0xb0 => Some(b"cmpxchg of a byte"),
        0xb1 => Some(b"cmpxchg"),
        0xb2 => Some(b"lss"),
        0xb3 => Some(b"btr with a register"),
        0xb4 => Some(b"lfs"),
        0xb5 => Some(b"lgs"),
        0xb6 => Some(b"movzx"),
        0xb7 => Some(b"movzx of 16 bits"),
        0xb8 if repeated => Some(b"popcnt"),
        0xb9 => Some(b"ud1"),
        0xba if named.modrm / 8 % 8 >= 4 => Some(b"bit test"),
        0xbb => Some(b"btc with a register"),
        0xbc => Some(if repeated { b"tzcnt" } else { b"bsf" }),
        0xbd => Some(if repeated { b"lzcnt" } else { b"bsr" }),
        0xbe => Some(b"movsx"),
        0xbf => Some(b"movsx of 16 bits"),
        _ => None,
    }
}

// C0 to CF.
fn name_c0(named: Named) -> Option<&'static [u8]>
    ensures { IfSome result (λ name. length name.now ≤ 32) }
{
    match named.opcode {
        0xc0 => Some(b"xadd of a byte"),
        0xc1 => Some(b"xadd"),
        0xc3 => Some(b"movnti"),
        0xc2 | 0xc4..=0xc6 => Some(b"SSE instruction"),
        0xc7 => name_c7(named.modrm),
        0xc8..=0xcf => Some(b"bswap"),
        _ => None,
    }
}

// C7, by its ModRM byte.
fn name_c7(modrm: u8) -> Option<&'static [u8]>
    ensures { IfSome result (λ name. length name.now ≤ 32) }
{
    match (modrm / 64, modrm / 8 % 8) {
        (3, 6) => Some(b"rdrand"),
        (3, 7) => Some(b"rdseed"),
        (3, _) => None,
        (_, 1) => Some(b"cmpxchg8b"),
        (_, _) => None,
    }
}

/// The name of an opcode behind 0F, where it has one; REP stands before it or not.
pub(crate) fn two_byte_name(named: Named, repeated: bool) -> Option<&'static [u8]>
    ensures { IfSome result (λ name. length name.now ≤ 32) }
{
    match named.opcode {
        0x00..=0x1f => name_00(named, repeated),
        0x20..=0x3f => name_20(named),
        0x40..=0x4f => Some(b"conditional move"),
        0x77 => Some(b"emms"),
        0x50..=0x76 | 0x7c..=0x7f | 0xd0..=0xfe => Some(b"SSE instruction"),
        0x80..=0x8f => Some(b"conditional jump"),
        0x90..=0x9f => Some(b"setcc"),
        0xa0..=0xaf => name_a0(named),
        0xb0..=0xbf => name_b0(named, repeated),
        0xc0..=0xcf => name_c0(named),
        _ => None,
    }
}
