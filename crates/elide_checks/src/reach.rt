//! Whether what a check looks at is there: its cores below those of the machine, its bytes within memory.
//!
//! [`has_check`] is asked of each check before a run is made, by `demands`, and [`has_end_check`] by `ends`. Both tell
//! it as 73 `OutOfRange`, which does not say of which check. All cores, and numbers, are always there.

ghost use Rattle.std.specs.Prelude.{◌↔◌, ◌+◌, ◌≤◌, All, IsTrue};
ghost use Rattle.elide_checks.specs.Reach.{HasCheck, HasClause, HasCores, HasCount, HasEndCheck, HasItem, HasQuantity};
ghost use Rattle.elide_checks.specs.Reach.{HasRunClause};

use tm_check::{Check, Cores, Count, Quantity, RunClause};
use tm_condition::{Check as EndCheck, Clause, Item};

/// Whether a machine with so many cores and a memory of this size has all that a check of a run looks at.
pub fn has_check(check: &Check, size: u32, cores: u8) -> bool
    ensures { IsTrue result ↔ HasCheck size cores check.now }
{
    match check {
        Check::Demanded(clauses) => has_clauses(clauses.as_slice(), size, cores),
        Check::Forbidden(clauses) => has_clauses(clauses.as_slice(), size, cores),
        Check::NoStop(_) => true,
        Check::AllStop => true,
    }
}

/// Whether it has all that a check of the ends of schedules looks at.
pub fn has_end_check(check: &EndCheck, size: u32, cores: u8) -> bool
    ensures { IsTrue result ↔ HasEndCheck size cores check.now }
{
    match check {
        EndCheck::Demanded(clauses) => has_machine_clauses(clauses.as_slice(), size, cores),
        EndCheck::Forbidden(clauses) => has_machine_clauses(clauses.as_slice(), size, cores),
    }
}

// Whether a machine has all that each of some conditions looks at.
fn has_clauses(clauses: &[RunClause], size: u32, cores: u8) -> bool
    ensures { IsTrue result ↔ All (HasRunClause size cores) clauses.now }
{
    clauses.iter().all(|clause| has_clause(clause, size, cores))
}

fn has_clause(clause: &RunClause, size: u32, cores: u8) -> bool
    ensures { IsTrue result ↔ HasRunClause size cores clause.now }
{
    match clause {
        RunClause::OfMachine(clause) => has_machine_clause(clause, size, cores),
        RunClause::Compare(left, _, right) => {
            has_quantity(*left, size, cores) && has_quantity(*right, size, cores)
        }
    }
}

// Whether a machine has all that each of some conditions on a machine alone looks at.
fn has_machine_clauses(clauses: &[Clause], size: u32, cores: u8) -> bool
    ensures { IsTrue result ↔ All (HasClause size cores) clauses.now }
{
    clauses
        .iter()
        .all(|clause| has_machine_clause(clause, size, cores))
}

fn has_machine_clause(clause: &Clause, size: u32, cores: u8) -> bool
    ensures { IsTrue result ↔ HasClause size cores clause.now }
{
    match clause {
        Clause::Compare(left, _, right) => {
            has_item(*left, size, cores) && has_item(*right, size, cores)
        }
        Clause::Bytes(address, bytes) => has_bytes(*address, bytes.as_slice().len() as u64, size),
    }
}

fn has_quantity(quantity: Quantity, size: u32, cores: u8) -> bool
    ensures { IsTrue result ↔ HasQuantity size cores quantity }
{
    match quantity {
        Quantity::OfMachine(item) => has_item(item, size, cores),
        Quantity::OfRun(count) => has_count(count, cores),
    }
}

fn has_count(count: Count, cores: u8) -> bool
    ensures { IsTrue result ↔ HasCount cores count }
{
    match count {
        Count::Commits(whose) => has_cores(whose, cores),
        Count::Aborts(_kind, whose) => has_cores(whose, cores),
    }
}

fn has_item(item: Item, size: u32, cores: u8) -> bool
    ensures { IsTrue result ↔ HasItem size cores item }
{
    match item {
        Item::Register(core, _register) => core < cores,
        Item::Memory(address) => has_bytes(address, 4, size),
        Item::Number(_) => true,
    }
}

fn has_cores(whose: Cores, cores: u8) -> bool
    ensures { IsTrue result ↔ HasCores cores whose }
{
    match whose {
        Cores::All => true,
        Cores::One(core) => core < cores,
    }
}

// Whether so many bytes at an address are in memory.
fn has_bytes(address: u32, length: u64, size: u32) -> bool
    ensures { IsTrue result ↔ (address + length ≤ size) }
{
    length <= u64::from(size) && u64::from(address) <= u64::from(size) - length
}
