//! The sixteen conditions of Jcc, SETcc and CMOVcc.

ghost use Rattle.std.specs.Prelude.{◌≡◌, ◌<◌};
ghost use Rattle.ia_word.specs.Condition.{condition_number, condition_of};

/// A condition over the flags. Its number, in this order from 0 to 15, is the low half of the opcode byte
/// (SDM volume 2, appendix B, table "Encoding of Conditional Test (tttn) Field").
#[derive(Clone, Copy, PartialEq, Eq, Debug)]
pub enum Condition {
    /// OF is set.
    Overflow,
    /// OF is clear.
    NotOverflow,
    /// CF is set.
    Below,
    /// CF is clear.
    AboveOrEqual,
    /// ZF is set.
    Equal,
    /// ZF is clear.
    NotEqual,
    /// CF or ZF is set.
    BelowOrEqual,
    /// CF and ZF are clear.
    Above,
    /// SF is set.
    Sign,
    /// SF is clear.
    NotSign,
    /// PF is set.
    ParityEven,
    /// PF is clear.
    ParityOdd,
    /// SF differs from OF.
    Less,
    /// SF equals OF.
    GreaterOrEqual,
    /// ZF is set, or SF differs from OF.
    LessOrEqual,
    /// ZF is clear, and SF equals OF.
    Greater,
}

impl Condition {
    /// The number of the condition in an opcode, 0 to 15.
    pub fn number(self) -> u8
        ensures value { result ≡ condition_number self }
        ensures small { result < 16 }
    {
        match self {
            Condition::Overflow => 0,
            Condition::NotOverflow => 1,
            Condition::Below => 2,
            Condition::AboveOrEqual => 3,
            Condition::Equal => 4,
            Condition::NotEqual => 5,
            Condition::BelowOrEqual => 6,
            Condition::Above => 7,
            Condition::Sign => 8,
            Condition::NotSign => 9,
            Condition::ParityEven => 10,
            Condition::ParityOdd => 11,
            Condition::Less => 12,
            Condition::GreaterOrEqual => 13,
            Condition::LessOrEqual => 14,
            Condition::Greater => 15,
        }
    }

    /// The condition of a number from 0 to 15.
    pub fn of(number: u8) -> Condition
        requires { number < 16 }
        ensures value { result ≡ condition_of number }
        ensures back { condition_number result ≡ number }
    {
        match number {
            0 => Condition::Overflow,
            1 => Condition::NotOverflow,
            2 => Condition::Below,
            3 => Condition::AboveOrEqual,
            4 => Condition::Equal,
            5 => Condition::NotEqual,
            6 => Condition::BelowOrEqual,
            7 => Condition::Above,
            8 => Condition::Sign,
            9 => Condition::NotSign,
            10 => Condition::ParityEven,
            11 => Condition::ParityOdd,
            12 => Condition::Less,
            13 => Condition::GreaterOrEqual,
            14 => Condition::LessOrEqual,
            _ => Condition::Greater,
        }
    }
}
