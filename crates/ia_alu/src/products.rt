//! Products and quotients of doublewords, each from numbers of 64 bits, so that no half is lost. Flags that Intel
//! leaves undefined are those that came in.

ghost use Rattle.std.specs.Prelude.{◌≡◌, ◌<◌, ◌^◌, ◌%◌, ◌/◌, ◌*◌, ◌+◌, ◌*ℤ◌, Ok, Err, true, ◌↔◌, IsErr, IsTrue, IfOk};
ghost use Rattle.std.specs.Prelude.{◌≤◌, ◌≢◌, pos, int_div, int_rem};
ghost use Rattle.ia_alu.specs.Numbers.{signed_value, modulo, overflows, IsOutside};
ghost use Rattle.ia_alu.specs.Products.{product_flags, signed_product_flags, double_of, signed_double, CannotDivide};
ghost use Rattle.ia_alu.specs.Products.{CannotDivideSigned, signed_quotient, signed_remainder, div_of, idiv_of};
ghost use Rattle.ia_regs.specs.Flags.{has_carry, has_parity, has_adjust, has_zero, has_sign, has_overflow, with_carry};
ghost use Rattle.ia_regs.specs.Flags.{with_overflow};
ghost use Rattle.ia_word.specs.declared.width.Width.TheVariants.{D};

use crate::divide::Divide;
use crate::numbers::{as_signed, is_outside, low_word};
use ia_regs::Flags;
use ia_word::Width;

/// The product of two doublewords, low half first (SDM volume 2, MUL).
#[tactic(auto, unfolding(crate::specs::Products::product_flags))]
pub fn mul(a: u32, b: u32, flags: Flags) -> (u32, u32, Flags)
    ensures low { result.0 ≡ a * b % 2 ^ 32 }
    ensures high { result.1 ≡ a * b / 2 ^ 32 }
    ensures flags { result.2 ≡ product_flags a b flags }

    // The flags one by one: PF, AF, ZF and SF are kept.
    ensures cf { IsTrue (has_carry result.2) ↔ 2 ^ 32 ≤ a * b }
    ensures of { IsTrue (has_overflow result.2) ↔ 2 ^ 32 ≤ a * b }
    ensures pf { has_parity result.2 ≡ has_parity flags }
    ensures af { has_adjust result.2 ≡ has_adjust flags }
    ensures zf { has_zero result.2 ≡ has_zero flags }
    ensures sf { has_sign result.2 ≡ has_sign flags }
{
    let product = u64::from(a) * u64::from(b);
    let wide = product >= 0x1_0000_0000;
    (
        (product % 0x1_0000_0000) as u32,
        (product / 0x1_0000_0000) as u32,
        flags.with_carry(wide).with_overflow(wide),
    )
}

/// The product of two signed doublewords modulo 2^64, low half first (SDM volume 2, IMUL with one operand).
#[tactic(auto, unfolding(crate::specs::Products::signed_product_flags))]
pub fn imul(a: u32, b: u32, flags: Flags) -> (u32, u32, Flags)
    ensures low { result.0 ≡ modulo (2 ^ 64) (signed_value D a *ℤ signed_value D b) % 2 ^ 32 }
    ensures high { result.1 ≡ modulo (2 ^ 64) (signed_value D a *ℤ signed_value D b) / 2 ^ 32 }
    ensures flags { result.2 ≡ signed_product_flags a b flags }

    // The flags one by one: PF, AF, ZF and SF are kept.
    ensures cf { IsTrue (has_carry result.2) ↔ IsOutside D (signed_value D a *ℤ signed_value D b) }
    ensures of { IsTrue (has_overflow result.2) ↔ IsOutside D (signed_value D a *ℤ signed_value D b) }
    ensures pf { has_parity result.2 ≡ has_parity flags }
    ensures af { has_adjust result.2 ≡ has_adjust flags }
    ensures zf { has_zero result.2 ≡ has_zero flags }
    ensures sf { has_sign result.2 ≡ has_sign flags }
{
    let product = as_signed(Width::D, a) * as_signed(Width::D, b);
    let (low, high) = halves(product);
    (low, high, signed_flags(product, flags))
}

/// The product of two signed doublewords modulo 2^32 (SDM volume 2, IMUL with two and three operands).
#[tactic(auto, unfolding(crate::specs::Products::signed_product_flags))]
pub fn imul_low(a: u32, b: u32, flags: Flags) -> (u32, Flags)
    ensures value { result.0 ≡ modulo (2 ^ 32) (signed_value D a *ℤ signed_value D b) }
    ensures flags { result.1 ≡ signed_product_flags a b flags }

    // The flags one by one: PF, AF, ZF and SF are kept.
    ensures cf { IsTrue (has_carry result.1) ↔ IsOutside D (signed_value D a *ℤ signed_value D b) }
    ensures of { IsTrue (has_overflow result.1) ↔ IsOutside D (signed_value D a *ℤ signed_value D b) }
    ensures pf { has_parity result.1 ≡ has_parity flags }
    ensures af { has_adjust result.1 ≡ has_adjust flags }
    ensures zf { has_zero result.1 ≡ has_zero flags }
    ensures sf { has_sign result.1 ≡ has_sign flags }
{
    let product = as_signed(Width::D, a) * as_signed(Width::D, b);
    (low_word(product), signed_flags(product, flags))
}

// What a signed number leaves in two doublewords, low half first.
fn halves(number: i64) -> (u32, u32)
    ensures low { result.0 ≡ modulo (2 ^ 64) number % 2 ^ 32 }
    ensures high { result.1 ≡ modulo (2 ^ 64) number / 2 ^ 32 }
{
    let bits = number.cast_unsigned();
    ((bits % 0x1_0000_0000) as u32, (bits / 0x1_0000_0000) as u32)
}

// The flags of a signed product.
fn signed_flags(product: i64, flags: Flags) -> Flags
    ensures flags { result ≡ with_overflow (overflows D product) (with_carry (overflows D product) flags) }
    ensures cf { IsTrue (has_carry result) ↔ IsOutside D product }
    ensures of { IsTrue (has_overflow result) ↔ IsOutside D product }
    ensures pf { has_parity result ≡ has_parity flags }
    ensures af { has_adjust result ≡ has_adjust flags }
    ensures zf { has_zero result ≡ has_zero flags }
    ensures sf { has_sign result ≡ has_sign flags }
{
    let wide = is_outside(Width::D, product);
    flags.with_carry(wide).with_overflow(wide)
}

/// The quotient and remainder of high and low half by a divisor (SDM volume 2, DIV). `Divide` where the divisor is 0 or
/// the quotient is 2^32 or more.
#[tactic(auto, unfolding(crate::specs::Products::div_of))]
pub fn div(high: u32, low: u32, divisor: u32) -> Result<(u32, u32), Divide>
    ensures whole { result ≡ div_of high low divisor }
    ensures fault { IsErr result ↔ CannotDivide high low divisor }
    ensures quotient { IfOk result (λ r. r.0 ≡ double_of high low / divisor) }
    ensures remainder { IfOk result (λ r. r.1 ≡ double_of high low % divisor) }
{
    if divisor == 0 {
        return Err(Divide);
    }
    let dividend = u64::from(high) * 0x1_0000_0000 + u64::from(low);
    let quotient = dividend / u64::from(divisor);
    if quotient >= 0x1_0000_0000 {
        return Err(Divide);
    }
    Ok((quotient as u32, (dividend % u64::from(divisor)) as u32))
}

/// The signed quotient, rounded toward zero, and the remainder of high and low half by a divisor (SDM volume 2, IDIV).
/// `Divide` where the divisor is 0 or the quotient lies outside -2^31 to 2^31 - 1.
#[tactic(auto, using(crate::proofs::Divisions::signed_nonzero), unfolding(crate::specs::Products::idiv_of))]
pub fn idiv(high: u32, low: u32, divisor: u32) -> Result<(u32, u32), Divide>
    ensures whole { result ≡ idiv_of high low divisor }
    ensures fault { IsErr result ↔ CannotDivideSigned high low divisor }
    ensures quotient { IfOk result (λ r. r.0 ≡ modulo (2 ^ 32) (signed_quotient high low divisor)) }
    ensures remainder { IfOk result (λ r. r.1 ≡ modulo (2 ^ 32) (signed_remainder high low divisor)) }
{
    if divisor == 0 {
        return Err(Divide);
    }
    let (quotient, remainder) = divided(dividend_of(high, low), as_signed(Width::D, divisor))?;
    Ok((low_word(quotient), low_word(remainder)))
}

// EDX:EAX as a signed number.
fn dividend_of(high: u32, low: u32) -> i64
    ensures { result ≡ signed_double high low }
{
    as_signed(Width::D, high) * 0x1_0000_0000 + i64::from(low)
}

// The quotient and remainder of signed numbers, where the quotient fits a doubleword.
#[tactic(auto, using(crate::proofs::Divisions::quotients))]
fn divided(dividend: i64, by: i64) -> Result<(i64, i64), Divide>
    requires { by ≢ pos 0 }
    ensures fault { IsErr result ↔ (overflows D (int_div dividend by) ≡ true) }
    ensures quotient { IfOk result (λ r. r.0 ≡ int_div dividend by) }
    ensures remainder { IfOk result (λ r. r.1 ≡ int_rem dividend by) }
{
    let quotient = dividend.wrapping_div(by);
    if is_outside(Width::D, quotient) {
        return Err(Divide);
    }
    Ok((quotient, dividend.wrapping_rem(by)))
}
