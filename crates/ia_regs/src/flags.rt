//! The six flags as a set of named bits, and the conditions over them.

ghost use Rattle.std.specs.Prelude.{⊤, Bool, ◌≡◌, [], ◌∷◌, codes};
ghost use Rattle.ia_regs.specs.Flags.{flags_of, with_carry, with_overflow, condition_holds, has_carry, has_parity};
ghost use Rattle.ia_regs.specs.Flags.{has_adjust, has_zero, has_sign, has_overflow};

use bitflags::{Flag, bitflag_items};
use ia_word::Condition;

/// The flags CF, PF, AF, ZF, SF and OF, each at its place in EFLAGS (SDM volume 1, "EFLAGS Register").
#[derive(Clone, Copy, PartialEq, Eq, Debug)]
pub struct Flags(u16);

bitflag_items! {
    impl Flags: u16 {
        const CF = 0x001;
        const PF = 0x004;
        const AF = 0x010;
        const ZF = 0x040;
        const SF = 0x080;
        const OF = 0x800;
    }
}

impl bitflags::Flags for Flags {
    type Bits = u16;

    ghost exact = { ⊤ };

    ghost table = { (codes "CF", 1) ∷ (codes "PF", 4) ∷ (codes "AF", 16) ∷
        (codes "ZF", 64) ∷ (codes "SF", 128) ∷ (codes "OF", 2048) ∷ [] };

    ghost set_of = { λ f. f.0 };

    fn flags<'a>() -> &'a [Flag<Flags>] {
        Flags::FLAGS
    }

    fn bits(&self) -> u16 {
        self.0
    }

    fn from_bits_retain(bits: u16) -> Flags {
        Flags(bits)
    }
}

impl Flags {
    /// The flags that are given as true, and no other.
    #[inline(always)]
    pub fn of(
        carry: bool,
        parity: bool,
        adjust: bool,
        zero: bool,
        sign: bool,
        overflow: bool,
    ) -> Flags
        ensures { result ≡ flags_of carry parity adjust zero sign overflow }
    {
        use bitflags::Flags as _;
        let mut flags = Flags::empty();
        flags.set(Flags::CF, carry);
        flags.set(Flags::PF, parity);
        flags.set(Flags::AF, adjust);
        flags.set(Flags::ZF, zero);
        flags.set(Flags::SF, sign);
        flags.set(Flags::OF, overflow);
        flags
    }

    /// These flags, with CF as given.
    #[inline(always)]
    pub fn with_carry(self, carry: bool) -> Flags
        ensures { result ≡ with_carry carry self }
    {
        Flags::of(
            carry,
            self.parity(),
            self.adjust(),
            self.zero(),
            self.sign(),
            self.overflow(),
        )
    }

    /// These flags, with OF as given.
    #[inline(always)]
    pub fn with_overflow(self, overflow: bool) -> Flags
        ensures { result ≡ with_overflow overflow self }
    {
        Flags::of(
            self.carry(),
            self.parity(),
            self.adjust(),
            self.zero(),
            self.sign(),
            overflow,
        )
    }

    /// CF: the unsigned result does not fit.
    #[inline(always)]
    pub fn carry(self) -> bool
        ensures { result ≡ has_carry self }
    {
        use bitflags::Flags as _;
        self.contains(Flags::CF)
    }

    /// PF: the low byte of the result has an even number of ones.
    #[inline(always)]
    pub fn parity(self) -> bool
        ensures { result ≡ has_parity self }
    {
        use bitflags::Flags as _;
        self.contains(Flags::PF)
    }

    /// AF: a carry or borrow out of bit 3.
    #[inline(always)]
    pub fn adjust(self) -> bool
        ensures { result ≡ has_adjust self }
    {
        use bitflags::Flags as _;
        self.contains(Flags::AF)
    }

    /// ZF: the result is 0.
    #[inline(always)]
    pub fn zero(self) -> bool
        ensures { result ≡ has_zero self }
    {
        use bitflags::Flags as _;
        self.contains(Flags::ZF)
    }

    /// SF: the top bit of the result.
    #[inline(always)]
    pub fn sign(self) -> bool
        ensures { result ≡ has_sign self }
    {
        use bitflags::Flags as _;
        self.contains(Flags::SF)
    }

    /// OF: the signed result does not fit.
    #[inline(always)]
    pub fn overflow(self) -> bool
        ensures { result ≡ has_overflow self }
    {
        use bitflags::Flags as _;
        self.contains(Flags::OF)
    }
}

/// Whether a condition holds of these flags.
#[inline(always)]
#[tactic(auto, unfolding(crate::specs::Flags::condition_holds))]
pub fn cond(condition: Condition, flags: Flags) -> bool
    ensures { result ≡ condition_holds condition flags }
{
    match condition {
        Condition::Overflow => flags.overflow(),
        Condition::NotOverflow => !flags.overflow(),
        Condition::Below => flags.carry(),
        Condition::AboveOrEqual => !flags.carry(),
        Condition::Equal => flags.zero(),
        Condition::NotEqual => !flags.zero(),
        Condition::BelowOrEqual => flags.carry() || flags.zero(),
        Condition::Above => !(flags.carry() || flags.zero()),
        Condition::Sign => flags.sign(),
        Condition::NotSign => !flags.sign(),
        Condition::ParityEven => flags.parity(),
        Condition::ParityOdd => !flags.parity(),
        Condition::Less => flags.sign() != flags.overflow(),
        Condition::GreaterOrEqual => flags.sign() == flags.overflow(),
        Condition::LessOrEqual => flags.zero() || flags.sign() != flags.overflow(),
        Condition::Greater => !flags.zero() && flags.sign() == flags.overflow(),
    }
}
