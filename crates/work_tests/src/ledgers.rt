//! A ledger without a desk: its lines and their tokens.

ghost use Rattle.std.specs.Prelude.{◌≡◌, [], ◌∷◌, Some};

use std::marker::Brand;
use std::test::*;
use tm_ledger::{Ledger, LedgerIdentity, Token, UnnamedLedger};

// Opens two lines, and writes the first again with the second's token in hand.
fn two_lines<J: LedgerIdentity>(
    unnamed: UnnamedLedger<u32>,
) -> (Ledger<J, u32>, Token<J, u32>, Token<J, u32>)
    requires { unnamed ≡ J.table }
    ensures ledger { result.0 ≡ 9 ∷ 5 ∷ [] }
    ensures tokens { (result.1 ≡ (0, Some 9)) × (result.2 ≡ (1, Some 5)) }
{
    let mut ledger = unnamed.named::<J>();
    let zero = ledger.open(&7);
    let one = ledger.open(&5);
    let zero = ledger.note(zero, &9);
    (ledger, zero, one)
}

fn try_two_lines<J: LedgerIdentity>(unnamed: UnnamedLedger<u32>)
    requires { unnamed ≡ J.table }
{
    let _tokens = two_lines::<J>(unnamed);
}

// No code reads progress out of a ledger: that the tokens know it is said by the clauses of `two_lines`.
#[test]
fn a_line_is_written_again(rt: HostRuntime) -> Result<(), Fail> {
    try_two_lines::<Brand>(UnnamedLedger::new(rt.alloc())?);
    Ok(())
}
