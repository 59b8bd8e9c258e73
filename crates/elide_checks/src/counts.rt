//! Counts of a run, as words say them: `commits` or `aborts`, of a kind or any, and of which cores.
//!
//! [`count_of`] is handed what stands on both sides of an `@`; a register was looked for before. Words that say no
//! count are `None`. That there is such a core is asked in `reach`; searches over all schedules refuse counts in
//! `ends`.

ghost use Rattle.std.specs.Prelude.{◌≡◌, ◌≢◌, ◌⊎◌, ◌∷◌, [], ◌++◌, List, MatchOption, Ok, ℕ};
ghost use Rattle.hex.specs.Hex.{decode_of};
ghost use Rattle.elide_checks.specs.Counts.{AreAborts, AreCores, IsCause, IsCountOf, IsKind, core_said};
ghost use Rattle.elide_checks.specs.Misread.{AreNoAborts, AreNoCores, IsNoCause, IsNoCounted, IsNoKind};

use elide_program::number_of;
use tm_check::{AbortKind, Cores, Count};
use tm_model::Interference;
use tm_status::Cause;

/// What is counted and whose, by the words before an `@` and behind it.
pub fn count_of(name: &str, whose: &str) -> Option<Count>
    ensures { MatchOption result (IsNoCounted name.now ⊎ AreNoCores whose.now) (IsCountOf name.now whose.now) }
{
    let cores = cores_of(whose)?;
    if name == "commits" {
        return Some(Count::Commits(cores));
    }
    let kind = aborts_of(name)?;
    Some(Count::Aborts(kind, cores))
}

// All cores, or one.
fn cores_of(word: &str) -> Option<Cores>
    ensures { MatchOption result (AreNoCores word.now) (AreCores word.now) }
{
    if word == "*" {
        return Some(Cores::All);
    }
    let core = core_of(word)?;
    Some(Cores::One(core))
}

/// The number of a core, 0 to 255.
pub fn core_of(word: &str) -> Option<u8>
    ensures { result ≡ core_said word.now }
{
    let number = number_of(Some(word), "--check").ok()?;
    u8::try_from(number).ok()
}

// Aborts of any kind, or of one.
fn aborts_of(word: &str) -> Option<Option<AbortKind>>
    ensures { MatchOption result (AreNoAborts word.now) (AreAborts word.now) }
{
    if word == "aborts" {
        return Some(None);
    }
    let kind = kind_of(behind(word, "aborts:")?)?;
    Some(Some(kind))
}

// What stands behind a word at a text's front.
fn behind<'a>(text: &'a str, front: &str) -> Option<&'a str>
    ensures { MatchOption result ((rest : List ℕ) → text.now ≢ front.now ++ rest)
        (λ rest. text.now ≡ front.now ++ rest.now) }
{
    text.strip_prefix(front)
}

// A kind of aborts.
fn kind_of(word: &str) -> Option<AbortKind>
    ensures { MatchOption result (IsNoKind word.now) (IsKind word.now) }
{
    match word {
        "interrupt" => Some(AbortKind::Outside(Interference::Interrupt)),
        "eviction" => Some(AbortKind::Outside(Interference::Eviction)),
        "snoop" => Some(AbortKind::Outside(Interference::Snoop)),
        _ => Some(AbortKind::Program(cause_of(word)?)),
    }
}

// A cause in the program.
fn cause_of(word: &str) -> Option<Cause>
    ensures { MatchOption result (IsNoCause word.now) (IsCause word.now) }
{
    match word {
        "conflict" => Some(Cause::Conflict),
        "capacity" => Some(Cause::Capacity),
        "INT3" => Some(Cause::Debug),
        "other" => Some(Cause::Other),
        _ => Some(Cause::Explicit(byte_of(behind(word, "xabort:")?)?)),
    }
}

// A byte in two hex digits.
fn byte_of(digits: &str) -> Option<u8>
    ensures { MatchOption result ((byte : ℕ) → decode_of digits.now ≢ Ok (byte ∷ []))
        (λ byte. decode_of digits.now ≡ Ok (byte ∷ [])) }
{
    let mut byte = [0; 1];
    match hex::decode_to_slice(digits, &mut byte) {
        Ok(()) => Some(byte[0]),
        Err(_) => None,
    }
}
