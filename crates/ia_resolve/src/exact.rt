//! Sums that are exact however far their values lie.

ghost use Rattle.std.specs.Prelude.{◌≡◌, ◌-◌, ◌^◌, None, pos, negsuc, ◌≤ℤ◌, ◌-ℤ◌, ◌+ℤ◌, if◌then◌else◌, IsTrue, IfSome};
ghost use Rattle.std.specs.Prelude.{true, false};
ghost use Rattle.ia_item.specs.Fields.{within};
ghost use Rattle.ia_resolve.specs.Exactness.{exact_value, IsNear};

/// A whole number: so many times 2^64, and the rest. Sixteen values of 128 bits add up to more than an `i128` holds.
#[derive(Clone, Copy)]
pub struct Exact {
    pub high: i128,
    pub low: i128,
}

/// Whether a value is from low to high.
fn is_within(low: i64, high: i64, value: i128) -> bool
    ensures test { result ≡ within low high value }
    ensures low { IsTrue result → low ≤ℤ value }
    ensures high { IsTrue result → value ≤ℤ high }
{
    i128::from(low) <= value && value <= i128::from(high)
}

/// The value, where it is from low to high.
fn narrowed(low: i64, high: i64, value: i128) -> Option<i64>
    ensures none { result ≡ None → within low high value ≡ false }
    ensures some { IfSome result (λ v. v ≡ value) }
    ensures test { IfSome result (λ v. within low high v ≡ true) }
    ensures low { IfSome result (λ v. low ≤ℤ v) }
    ensures high { IfSome result (λ v. v ≤ℤ high) }
{
    if is_within(low, high, value) {
        Some(value as i64)
    } else {
        None
    }
}

/// The sum or the difference of two parts.
fn plus(part: i128, negative: bool, more: i128) -> i128
    requires low { negsuc (2 ^ 100) ≤ℤ part }
    requires high { part ≤ℤ pos (2 ^ 100) }
    requires more_low { negsuc (2 ^ 64 - 1) ≤ℤ more }
    requires more_high { more ≤ℤ pos (2 ^ 64) }
    ensures value { result ≡ (if negative then part -ℤ more else part +ℤ more) }
    ensures low { (part -ℤ pos (2 ^ 64)) ≤ℤ result }
    ensures high { result ≤ℤ (part +ℤ pos (2 ^ 64)) }
{
    if negative { part - more } else { part + more }
}

impl Exact {
    /// The number 0.
    pub fn zero() -> Exact
        ensures value { exact_value result ≡ pos 0 }
        ensures near { IsNear 0 result }
    {
        Exact { high: 0, low: 0 }
    }

    /// The number that is this value.
    pub fn of(value: i128) -> Exact
        ensures value { exact_value result ≡ value }
        ensures near { IsNear (2 ^ 64) result }
    {
        Exact {
            high: value / (1 << 64),
            low: value % (1 << 64),
        }
    }

    /// The sum or the difference of two numbers.
    pub fn plus(self, negative: bool, more: Exact) -> Exact
        requires high_low { negsuc (2 ^ 100) ≤ℤ self.high }
        requires high_high { self.high ≤ℤ pos (2 ^ 100) }
        requires low_low { negsuc (2 ^ 100) ≤ℤ self.low }
        requires low_high { self.low ≤ℤ pos (2 ^ 100) }
        requires more { IsNear (2 ^ 64) more }
        ensures value { exact_value result ≡ (if negative then exact_value self -ℤ exact_value more else exact_value
            self +ℤ exact_value more) }
        ensures high_low { (self.high -ℤ pos (2 ^ 64)) ≤ℤ result.high }
        ensures high_high { result.high ≤ℤ (self.high +ℤ pos (2 ^ 64)) }
        ensures low_low { (self.low -ℤ pos (2 ^ 64)) ≤ℤ result.low }
        ensures low_high { result.low ≤ℤ (self.low +ℤ pos (2 ^ 64)) }
    {
        Exact {
            high: plus(self.high, negative, more.high),
            low: plus(self.low, negative, more.low),
        }
    }

    /// The number, where it is so near to 0 that an `i128` holds it.
    fn to_i128(self) -> i128
        requires low { negsuc 31 ≤ℤ self.high }
        requires high { self.high ≤ℤ pos 32 }
        requires near { IsNear (2 ^ 68) self }
        ensures { result ≡ exact_value self }
    {
        self.high * (1 << 64) + self.low
    }

    /// The number, where it is from low to high.
    pub fn from_to(self, low: i64, high: i64) -> Option<i64>
        requires { IsNear (2 ^ 68) self }
        ensures none { result ≡ None → within low high (exact_value self) ≡ false }
        ensures some { IfSome result (λ v. v ≡ exact_value self) }
        ensures test { IfSome result (λ v. within low high v ≡ true) }
        ensures low { IfSome result (λ v. low ≤ℤ v) }
        ensures high { IfSome result (λ v. v ≤ℤ high) }
    {
        if self.high < -32 || self.high > 32 {
            return None;
        }
        narrowed(low, high, self.to_i128())
    }
}
