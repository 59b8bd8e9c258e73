//! What is said of the kinds of operations that share a shape: the number by which each is spelt, its name, and what it
//! does to its operands.

ghost use Rattle.std.specs.Prelude.{◌≡◌, ◌<◌, ◌≤◌, length, map};
ghost use Rattle.ia_insn.specs.Operations.{alu_number, shift_number, bit_number, unary_number, inc_dec_number};
ghost use Rattle.ia_insn.specs.Operations.{extend_opcode, exchange_opcode, loop_opcode, bare_bytes};
ghost use Rattle.ia_insn.specs.Operations.{alu_name, inc_dec_name, unary_name, shift_name, loop_name, extend_name};
ghost use Rattle.ia_insn.specs.Operations.{exchange_name, bit_name, bare_name, condition_name};
ghost use Rattle.ia_insn.specs.Operations.{alu_role, unary_role, exchange_role, bit_role};
ghost use Rattle.ia_insn.specs.Operations.{arithmetic, moves, jumps, bare_names, conditions, other_names};
ghost use Rattle.ia_insn.specs.Operations.{other_conditions};

use crate::argument::Role;
use crate::mnemonic::Mnemonic;
use ia_word::{
    AluOp, BareOp, BitOp, Condition, ExchangeOp, ExtendOp, IncDecOp, LoopOp, ShiftOp, UnaryOp,
};

/// The n of the opcodes 8n to 8n+5, and of /n behind 80, 81 and 83.
pub fn alu_number(kind: AluOp) -> u8
    ensures number { result ≡ alu_number kind }
    ensures low { result < 8 }
{
    match kind {
        AluOp::Add => 0,
        AluOp::Or => 1,
        AluOp::Adc => 2,
        AluOp::Sbb => 3,
        AluOp::And => 4,
        AluOp::Sub => 5,
        AluOp::Xor => 6,
        AluOp::Cmp => 7,
    }
}

/// The n of /n behind C1, D1 and D3.
pub fn shift_number(kind: ShiftOp) -> u8
    ensures number { result ≡ shift_number kind }
    ensures low { result < 8 }
{
    match kind {
        ShiftOp::Rol => 0,
        ShiftOp::Ror => 1,
        ShiftOp::Shl => 4,
        ShiftOp::Shr => 5,
        ShiftOp::Sar => 7,
    }
}

/// The n of /n behind 0F BA.
pub fn bit_number(kind: BitOp) -> u8
    ensures number { result ≡ bit_number kind }
    ensures low { result < 8 }
{
    match kind {
        BitOp::Bt => 4,
        BitOp::Bts => 5,
        BitOp::Btr => 6,
        BitOp::Btc => 7,
    }
}

/// The n of /n behind F7.
pub fn unary_number(kind: UnaryOp) -> u8
    ensures number { result ≡ unary_number kind }
    ensures low { result < 8 }
{
    match kind {
        UnaryOp::Not => 2,
        UnaryOp::Neg => 3,
        UnaryOp::Mul => 4,
        UnaryOp::Imul => 5,
        UnaryOp::Div => 6,
        UnaryOp::Idiv => 7,
    }
}

/// The n of /n behind FE and FF, and of the opcodes 40 + 8n + register.
pub fn inc_dec_number(kind: IncDecOp) -> u8
    ensures number { result ≡ inc_dec_number kind }
    ensures low { result < 2 }
{
    match kind {
        IncDecOp::Inc => 0,
        IncDecOp::Dec => 1,
    }
}

/// The opcode behind 0F.
pub fn extend_opcode(kind: ExtendOp) -> u8
    ensures { result ≡ extend_opcode kind }
{
    match kind {
        ExtendOp::Zero => 0xb6,
        ExtendOp::Sign => 0xbe,
    }
}

/// The opcode behind 0F.
pub fn exchange_opcode(kind: ExchangeOp) -> u8
    ensures { result ≡ exchange_opcode kind }
{
    match kind {
        ExchangeOp::Compare => 0xb1,
        ExchangeOp::Add => 0xc1,
    }
}

/// The opcode.
pub fn loop_opcode(kind: LoopOp) -> u8
    ensures { result ≡ loop_opcode kind }
{
    match kind {
        LoopOp::Loop => 0xe2,
        LoopOp::Ecx => 0xe3,
    }
}

/// The bytes of an instruction that never has operands.
#[tactic(auto, unfolding(crate::specs::Operations::bare_bytes))]
pub fn bare_bytes(kind: BareOp) -> &'static [u8]
    ensures bytes { result.now ≡ bare_bytes kind }
    ensures len { length result.now ≤ 3 }
{
    match kind {
        BareOp::Leave => &[0xc9],
        BareOp::Cdq => &[0x99],
        BareOp::Cwde => &[0x98],
        BareOp::Clc => &[0xf8],
        BareOp::Stc => &[0xf9],
        BareOp::Cmc => &[0xf5],
        BareOp::Pause => &[0xf3, 0x90],
        BareOp::Hlt => &[0xf4],
        BareOp::Int3 => &[0xcc],
        BareOp::Ud2 => &[0x0f, 0x0b],
        BareOp::Cpuid => &[0x0f, 0xa2],
        BareOp::Lfence => &[0x0f, 0xae, 0xe8],
        BareOp::Mfence => &[0x0f, 0xae, 0xf0],
        BareOp::Sfence => &[0x0f, 0xae, 0xf8],
        BareOp::Xend => &[0x0f, 0x01, 0xd5],
        BareOp::Xtest => &[0x0f, 0x01, 0xd6],
    }
}

pub(crate) fn alu_name(kind: AluOp) -> &'static [u8]
    ensures name { result.now ≡ alu_name kind }
    ensures short { length result.now ≤ 7 }
{
    match kind {
        AluOp::Add => b"add",
        AluOp::Or => b"or",
        AluOp::Adc => b"adc",
        AluOp::Sbb => b"sbb",
        AluOp::And => b"and",
        AluOp::Sub => b"sub",
        AluOp::Xor => b"xor",
        AluOp::Cmp => b"cmp",
    }
}

pub(crate) fn inc_dec_name(kind: IncDecOp) -> &'static [u8]
    ensures name { result.now ≡ inc_dec_name kind }
    ensures short { length result.now ≤ 7 }
{
    match kind {
        IncDecOp::Inc => b"inc",
        IncDecOp::Dec => b"dec",
    }
}

pub(crate) fn unary_name(kind: UnaryOp) -> &'static [u8]
    ensures name { result.now ≡ unary_name kind }
    ensures short { length result.now ≤ 7 }
{
    match kind {
        UnaryOp::Not => b"not",
        UnaryOp::Neg => b"neg",
        UnaryOp::Mul => b"mul",
        UnaryOp::Imul => b"imul",
        UnaryOp::Div => b"div",
        UnaryOp::Idiv => b"idiv",
    }
}

pub(crate) fn shift_name(kind: ShiftOp) -> &'static [u8]
    ensures name { result.now ≡ shift_name kind }
    ensures short { length result.now ≤ 7 }
{
    match kind {
        ShiftOp::Rol => b"rol",
        ShiftOp::Ror => b"ror",
        ShiftOp::Shl => b"shl",
        ShiftOp::Shr => b"shr",
        ShiftOp::Sar => b"sar",
    }
}

pub(crate) fn loop_name(kind: LoopOp) -> &'static [u8]
    ensures name { result.now ≡ loop_name kind }
    ensures short { length result.now ≤ 7 }
{
    match kind {
        LoopOp::Loop => b"loop",
        LoopOp::Ecx => b"jecxz",
    }
}

pub(crate) fn extend_name(kind: ExtendOp) -> &'static [u8]
    ensures name { result.now ≡ extend_name kind }
    ensures short { length result.now ≤ 7 }
{
    match kind {
        ExtendOp::Zero => b"movzx",
        ExtendOp::Sign => b"movsx",
    }
}

pub(crate) fn exchange_name(kind: ExchangeOp) -> &'static [u8]
    ensures name { result.now ≡ exchange_name kind }
    ensures short { length result.now ≤ 7 }
{
    match kind {
        ExchangeOp::Compare => b"cmpxchg",
        ExchangeOp::Add => b"xadd",
    }
}

pub(crate) fn bit_name(kind: BitOp) -> &'static [u8]
    ensures name { result.now ≡ bit_name kind }
    ensures short { length result.now ≤ 7 }
{
    match kind {
        BitOp::Bt => b"bt",
        BitOp::Bts => b"bts",
        BitOp::Btr => b"btr",
        BitOp::Btc => b"btc",
    }
}

pub(crate) fn bare_name(kind: BareOp) -> &'static [u8]
    ensures name { result.now ≡ bare_name kind }
    ensures short { length result.now ≤ 7 }
{
    match kind {
        BareOp::Leave => b"leave",
        BareOp::Cdq => b"cdq",
        BareOp::Cwde => b"cwde",
        BareOp::Clc => b"clc",
        BareOp::Stc => b"stc",
        BareOp::Cmc => b"cmc",
        BareOp::Pause => b"pause",
        BareOp::Hlt => b"hlt",
        BareOp::Int3 => b"int3",
        BareOp::Ud2 => b"ud2",
        BareOp::Cpuid => b"cpuid",
        BareOp::Lfence => b"lfence",
        BareOp::Mfence => b"mfence",
        BareOp::Sfence => b"sfence",
        BareOp::Xend => b"xend",
        BareOp::Xtest => b"xtest",
    }
}

/// The name of a condition that is printed, in lower case, of one or two letters (SDM volume 2, Jcc).
pub fn condition_name(condition: Condition) -> &'static [u8]
    ensures name { result.now ≡ condition_name condition }
    ensures short { length result.now ≤ 2 }
{
    match condition {
        Condition::Overflow => b"o",
        Condition::NotOverflow => b"no",
        Condition::Below => b"b",
        Condition::AboveOrEqual => b"ae",
        Condition::Equal => b"e",
        Condition::NotEqual => b"ne",
        Condition::BelowOrEqual => b"be",
        Condition::Above => b"a",
        Condition::Sign => b"s",
        Condition::NotSign => b"ns",
        Condition::ParityEven => b"p",
        Condition::ParityOdd => b"np",
        Condition::Less => b"l",
        Condition::GreaterOrEqual => b"ge",
        Condition::LessOrEqual => b"le",
        Condition::Greater => b"g",
    }
}

/// What ADD to CMP do to their destination.
pub(crate) fn alu_role(kind: AluOp) -> Role
    ensures { result ≡ alu_role kind }
{
    match kind {
        AluOp::Cmp => Role::Read,
        _ => Role::Changed,
    }
}

/// What NOT to IDIV do to their operand.
pub(crate) fn unary_role(kind: UnaryOp) -> Role
    ensures { result ≡ unary_role kind }
{
    match kind {
        UnaryOp::Not | UnaryOp::Neg => Role::Changed,
        _ => Role::Read,
    }
}

/// What CMPXCHG and XADD do to their register.
pub(crate) fn exchange_role(kind: ExchangeOp) -> Role
    ensures { result ≡ exchange_role kind }
{
    match kind {
        ExchangeOp::Compare => Role::Read,
        ExchangeOp::Add => Role::Changed,
    }
}

/// What BT to BTC do to their first operand.
pub(crate) fn bit_role(kind: BitOp) -> Role
    ensures { result ≡ bit_role kind }
{
    match kind {
        BitOp::Bt => Role::Read,
        _ => Role::Changed,
    }
}

static ARITHMETIC: [Mnemonic; 16] = [
    Mnemonic::Alu(AluOp::Add),
    Mnemonic::Alu(AluOp::Sub),
    Mnemonic::Alu(AluOp::Cmp),
    Mnemonic::Alu(AluOp::And),
    Mnemonic::Alu(AluOp::Or),
    Mnemonic::Alu(AluOp::Xor),
    Mnemonic::Alu(AluOp::Adc),
    Mnemonic::Alu(AluOp::Sbb),
    Mnemonic::IncDec(IncDecOp::Inc),
    Mnemonic::IncDec(IncDecOp::Dec),
    Mnemonic::Imul,
    Mnemonic::Unary(UnaryOp::Not),
    Mnemonic::Unary(UnaryOp::Neg),
    Mnemonic::Unary(UnaryOp::Mul),
    Mnemonic::Unary(UnaryOp::Div),
    Mnemonic::Unary(UnaryOp::Idiv),
];

static MOVES: [Mnemonic; 15] = [
    Mnemonic::Mov,
    Mnemonic::Lea,
    Mnemonic::Test,
    Mnemonic::Push,
    Mnemonic::Pop,
    Mnemonic::Extend(ExtendOp::Zero),
    Mnemonic::Extend(ExtendOp::Sign),
    Mnemonic::Shift(ShiftOp::Rol),
    Mnemonic::Shift(ShiftOp::Ror),
    Mnemonic::Shift(ShiftOp::Shl),
    Mnemonic::Shift(ShiftOp::Shr),
    Mnemonic::Shift(ShiftOp::Sar),
    Mnemonic::Xchg,
    Mnemonic::Exchange(ExchangeOp::Compare),
    Mnemonic::Exchange(ExchangeOp::Add),
];

static JUMPS: [Mnemonic; 12] = [
    Mnemonic::Jmp,
    Mnemonic::Call,
    Mnemonic::Ret,
    Mnemonic::LoopJump(LoopOp::Loop),
    Mnemonic::LoopJump(LoopOp::Ecx),
    Mnemonic::Xbegin,
    Mnemonic::Xabort,
    Mnemonic::Nop,
    Mnemonic::Bit(BitOp::Bt),
    Mnemonic::Bit(BitOp::Bts),
    Mnemonic::Bit(BitOp::Btr),
    Mnemonic::Bit(BitOp::Btc),
];

static BARE_NAMES: [Mnemonic; 16] = [
    Mnemonic::Bare(BareOp::Leave),
    Mnemonic::Bare(BareOp::Cdq),
    Mnemonic::Bare(BareOp::Cwde),
    Mnemonic::Bare(BareOp::Clc),
    Mnemonic::Bare(BareOp::Stc),
    Mnemonic::Bare(BareOp::Cmc),
    Mnemonic::Bare(BareOp::Pause),
    Mnemonic::Bare(BareOp::Hlt),
    Mnemonic::Bare(BareOp::Int3),
    Mnemonic::Bare(BareOp::Ud2),
    Mnemonic::Bare(BareOp::Cpuid),
    Mnemonic::Bare(BareOp::Lfence),
    Mnemonic::Bare(BareOp::Mfence),
    Mnemonic::Bare(BareOp::Sfence),
    Mnemonic::Bare(BareOp::Xend),
    Mnemonic::Bare(BareOp::Xtest),
];

static CONDITIONS: [Condition; 16] = [
    Condition::Overflow,
    Condition::NotOverflow,
    Condition::Below,
    Condition::AboveOrEqual,
    Condition::Equal,
    Condition::NotEqual,
    Condition::BelowOrEqual,
    Condition::Above,
    Condition::Sign,
    Condition::NotSign,
    Condition::ParityEven,
    Condition::ParityOdd,
    Condition::Less,
    Condition::GreaterOrEqual,
    Condition::LessOrEqual,
    Condition::Greater,
];

static OTHER_NAMES: [(&str, Mnemonic); 1] = [("sal", Mnemonic::Shift(ShiftOp::Shl))];

static OTHER_CONDITIONS: [(&str, Condition); 14] = [
    ("c", Condition::Below),
    ("nae", Condition::Below),
    ("nb", Condition::AboveOrEqual),
    ("nc", Condition::AboveOrEqual),
    ("z", Condition::Equal),
    ("nz", Condition::NotEqual),
    ("na", Condition::BelowOrEqual),
    ("nbe", Condition::Above),
    ("pe", Condition::ParityEven),
    ("po", Condition::ParityOdd),
    ("nge", Condition::Less),
    ("nl", Condition::GreaterOrEqual),
    ("ng", Condition::LessOrEqual),
    ("nle", Condition::Greater),
];

impl Mnemonic {
    /// The names of arithmetic on whole operands.
    #[tactic(auto, unfolding(crate::specs::Operations::arithmetic))]
    pub fn arithmetic() -> &'static [Mnemonic]
        ensures { result.now ≡ arithmetic }
    {
        &ARITHMETIC
    }

    /// The names of moves, tests, shifts and exchanges.
    #[tactic(auto, unfolding(crate::specs::Operations::moves))]
    pub fn moves() -> &'static [Mnemonic]
        ensures { result.now ≡ moves }
    {
        &MOVES
    }

    /// The names of jumps, of operations on one bit, and of NOP.
    #[tactic(auto, unfolding(crate::specs::Operations::jumps))]
    pub fn jumps() -> &'static [Mnemonic]
        ensures { result.now ≡ jumps }
    {
        &JUMPS
    }

    /// The names that never have operands.
    #[tactic(auto, unfolding(crate::specs::Operations::bare_names))]
    pub fn bare_names() -> &'static [Mnemonic]
        ensures { result.now ≡ bare_names }
    {
        &BARE_NAMES
    }

    /// Names that are read and never printed.
    #[tactic(auto, unfolding(crate::specs::Operations::other_names))]
    pub fn other_names() -> &'static [(&'static str, Mnemonic)]
        ensures { map (λ r. (r.0.now, r.1)) result.now ≡ other_names }
    {
        &OTHER_NAMES
    }
}

/// The conditions.
#[tactic(auto, unfolding(crate::specs::Operations::conditions))]
pub fn conditions() -> &'static [Condition]
    ensures { result.now ≡ conditions }
{
    &CONDITIONS
}

/// Names of conditions that are read and never printed (SDM volume 2, Jcc).
#[tactic(auto, unfolding(crate::specs::Operations::other_conditions))]
pub fn other_conditions() -> &'static [(&'static str, Condition)]
    ensures { map (λ r. (r.0.now, r.1)) result.now ≡ other_conditions }
{
    &OTHER_CONDITIONS
}
