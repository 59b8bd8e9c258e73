//! The values of expressions, as whole numbers first, so that no sum wraps before it is compared with its range. A
//! symbol without a value, and a number that is too large, are faults; with one it counts as 0.

ghost use Rattle.std.specs.Prelude.{◌≡◌, ◌≤◌, ◌-◌, ◌*◌, ◌^◌, pos, neg_ℤ, ◌≤ℤ◌, length};
ghost use Rattle.ia_item.specs.Expressions.{is_unknown, is_huge, value_in, any_unknown, any_huge, any_symbol};
ghost use Rattle.ia_item.specs.Expressions.{is_symbol, sum_from};
ghost use Rattle.ia_resolve.specs.Values.{sum_fault, value_or_zero, total};
ghost use Rattle.ia_resolve.specs.Items.{wide};
ghost use Rattle.ia_resolve.specs.Exactness.{exact_value, IsNear};

use crate::exact::Exact;
use crate::place_fault::PlaceFault;
use crate::symbols::SymbolValues;
use ia_item::{ScopedAtom, ScopedExpression, ScopedTerm};

/// A value: whether a symbol has none, whether a number is above u64::MAX, and the whole number, 0 for these.
#[derive(Clone, Copy)]
struct Total {
    unknown: bool,
    huge: bool,
    value: Exact,
}

fn term_total<S: SymbolValues>(symbols: &S, value: &ScopedAtom) -> Total
    ensures unknown { result.unknown ≡ is_unknown (S.env symbols.now) value.now }
    ensures huge { result.huge ≡ is_huge value.now }
    ensures value { exact_value result.value ≡ value_in (S.env symbols.now) value.now }
    ensures near { IsNear (2 ^ 64) result.value }
{
    match value {
        ScopedAtom::Number(n) => Total {
            unknown: false,
            huge: false,
            value: Exact::of(i128::from(*n)),
        },
        ScopedAtom::Huge => Total {
            unknown: false,
            huge: true,
            value: Exact::zero(),
        },
        ScopedAtom::Symbol(symbol) => match symbols.get(symbol) {
            Some(v) => Total {
                unknown: false,
                huge: false,
                value: Exact::of(v),
            },
            None => Total {
                unknown: true,
                huge: false,
                value: Exact::zero(),
            },
        },
    }
}

/// An expression and parts.
fn total_from<S: SymbolValues>(symbols: &S, sum: Exact, terms: &[ScopedTerm]) -> Total
    requires short { length terms.now ≤ 16 }
    requires high_low { neg_ℤ (pos (2 ^ 64 * (16 - length terms.now))) ≤ℤ sum.high }
    requires high_high { sum.high ≤ℤ pos (2 ^ 64 * (16 - length terms.now)) }
    requires low_low { neg_ℤ (pos (2 ^ 64 * (16 - length terms.now))) ≤ℤ sum.low }
    requires low_high { sum.low ≤ℤ pos (2 ^ 64 * (16 - length terms.now)) }
    ensures unknown { result.unknown ≡ any_unknown (S.env symbols.now) terms.now }
    ensures huge { result.huge ≡ any_huge terms.now }
    ensures value { exact_value result.value ≡ sum_from (S.env symbols.now) (exact_value sum) terms.now }
    ensures near { IsNear (2 ^ 68) result.value }
{
    match terms.split_first() {
        None => Total {
            unknown: false,
            huge: false,
            value: sum,
        },
        Some((term, rest)) => {
            let first = term_total(symbols, &term.atom);
            let more = total_from(symbols, sum.plus(term.negative, first.value), rest);
            Total {
                unknown: first.unknown || more.unknown,
                huge: first.huge || more.huge,
                value: more.value,
            }
        }
    }
}

/// What an expression counts as, and what is wrong with it.
#[derive(Clone, Copy)]
pub struct ExpressionValue {
    pub value: i64,
    pub fault: Option<PlaceFault>,
}

/// The value of an expression that has to be from low to high; with a fault it counts as 0.
#[tactic(auto, unfolding(crate::specs::Values::sum_fault, crate::specs::Values::value_or_zero))]
pub fn expression_value<S: SymbolValues>(
    symbols: &S,
    low: i64,
    high: i64,
    sum: &ScopedExpression,
) -> ExpressionValue
    requires short { length sum.now.terms.items ≤ 16 }
    requires low { low ≤ℤ pos 0 }
    requires high { pos 0 ≤ℤ high }
    ensures value { result.value ≡ value_or_zero (S.env symbols.now) low high sum.now }
    ensures fault { result.fault ≡ sum_fault (S.env symbols.now) low high sum.now }
    ensures low { low ≤ℤ result.value }
    ensures high { result.value ≤ℤ high }
{
    let total = total_from(symbols, Exact::zero(), sum.terms.as_slice());
    if total.unknown {
        return ExpressionValue {
            value: 0,
            fault: Some(PlaceFault::UnknownSymbol),
        };
    }
    match total.value.from_to(low, high) {
        Some(value) if !total.huge => ExpressionValue { value, fault: None },
        _ => ExpressionValue {
            value: 0,
            fault: Some(PlaceFault::Range),
        },
    }
}

fn is_symbol(value: &ScopedAtom) -> bool
    ensures { result ≡ is_symbol value.now }
{
    match value {
        ScopedAtom::Number(_) => false,
        ScopedAtom::Huge => false,
        ScopedAtom::Symbol(_) => true,
    }
}

fn any_symbol(terms: &[ScopedTerm]) -> bool
    ensures { result ≡ any_symbol terms.now }
{
    match terms.split_first() {
        None => false,
        Some((term, rest)) => is_symbol(&term.atom) || any_symbol(rest),
    }
}

/// Whether an expression is written and has a symbol, so that its field is wide.
pub fn wide(sum: &Option<ScopedExpression>) -> bool
    ensures { result ≡ wide sum.now }
{
    match sum {
        None => false,
        Some(sum) => any_symbol(sum.terms.as_slice()),
    }
}
