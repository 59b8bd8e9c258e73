//! The bytes that transactions keep for themselves, by their cores and addresses.
//!
//! [`Kept::take`] comes behind each step, with what its delta stored: a step inside adds to its core's, any other
//! step of the core ends them. Of a core that is condemned they stay until its abort, so who writes them asks the
//! machine whether it is open. What stands at an address is never kept here.

ghost use Rattle.std.specs.Prelude.{◌≡◌, ℕ, ◌≤◌, ◌||◌, ◌&&◌, ◌++◌, ◌∷◌, [], IfOk, OnOk, if◌then◌else◌, length, nat_eq};
ghost use Rattle.std.specs.Prelude.{true};
ghost use Rattle.tm_page.specs.Applied.{is_listed};
ghost use Rattle.page_telling.specs.Kept.{IsKeptBehind, OthersStay, is_kept, is_stored};

use std::alloc::{AllocError, Global};
use tm_model::Outcome;
use tm_page::StoredByte;

/// A byte that a transaction keeps for itself.
#[derive(Clone, Copy, PartialEq, Eq, PartialOrd, Ord, Debug)]
pub struct KeptByte {
    /// The core.
    pub core: u8,
    /// The address.
    pub address: u64,
}

/// The bytes that transactions keep for themselves, ascending.
#[derive(Drop)]
pub struct Kept {
    bytes: Vec<KeptByte>,
}

impl Kept {
    /// None.
    pub fn new(alloc: Global) -> Kept
        ensures { result.bytes.items ≡ [] }
    {
        Kept {
            bytes: Vec::new(alloc),
        }
    }

    /// The addresses of a core's.
    pub fn of(&self, alloc: Global, core: u8) -> Result<Vec<u64>, AllocError>
        ensures { IfOk result (λ row. (address : ℕ) →
            is_listed row.items address ≡ is_kept self.now.bytes.items core address) }
    {
        addresses_of(alloc, self.bytes.as_slice(), core)
    }

    /// Takes in a step of a core, with the bytes that it stored: those of a step inside are kept, a drain leaves all
    /// that are, and behind any other step none of its core's is.
    pub fn take(
        &mut self,
        alloc: Global,
        core: u8,
        outcome: Outcome,
        stored: &[StoredByte],
    ) -> Result<(), AllocError>
        ensures { OnOk result (IsKeptBehind outcome core stored.now self.old.bytes.items self.new.bytes.items) }
    {
        match outcome {
            Outcome::Inside => keep_all(&mut self.bytes, core, stored),
            Outcome::Drained => Ok(()),
            Outcome::Plain
            | Outcome::Loaded
            | Outcome::Stopped(_)
            | Outcome::Idle
            | Outcome::Begun
            | Outcome::Committed
            | Outcome::Aborted(_)
            | Outcome::AbortedBy(_, _) => {
                self.bytes = without(alloc, self.bytes.as_slice(), core)?;
                Ok(())
            }
        }
    }
}

// The addresses of a core's bytes.
fn addresses_of(alloc: Global, bytes: &[KeptByte], core: u8) -> Result<Vec<u64>, AllocError>
    ensures { IfOk result (λ row. (address : ℕ) → is_listed row.items address ≡ is_kept bytes.now core address) }
{
    let mut row = Vec::new(alloc);
    for byte in bytes {
        put_address(&mut row, *byte, core)?;
    }
    Ok(row)
}

// Adds the address of a byte, where it is the core's.
fn put_address(row: &mut Vec<u64>, byte: KeptByte, core: u8) -> Result<(), AllocError>
    ensures { OnOk result (row.new.items
        ≡ row.old.items ++ (if nat_eq core byte.core then byte.address ∷ [] else [])) }
{
    if core != byte.core {
        return Ok(());
    }
    row.push(byte.address)?;
    Ok(())
}

// Keeps the bytes that a core stored.
fn keep_all(bytes: &mut Vec<KeptByte>, core: u8, stored: &[StoredByte]) -> Result<(), AllocError>
    ensures { OnOk result ((other address : ℕ) → is_kept bytes.new.items other address
        ≡ (is_kept bytes.old.items other address || (nat_eq other core && is_stored stored.now address))) }
{
    for byte in stored {
        keep(bytes, core, byte.address)?;
    }
    Ok(())
}

// Keeps a byte, where it is not kept yet.
#[tactic(auto, using(crate::proofs::Keeping::kept_there, crate::proofs::Keeping::kept_more))]
fn keep(bytes: &mut Vec<KeptByte>, core: u8, address: u64) -> Result<(), AllocError>
    ensures { OnOk result ((other at : ℕ) → is_kept bytes.new.items other at
        ≡ (is_kept bytes.old.items other at || (nat_eq other core && nat_eq at address))) }
{
    let byte = KeptByte { core, address };
    let place = place_of(bytes.as_slice(), byte);
    if is_at(bytes.as_slice(), place, byte) {
        return Ok(());
    }
    bytes.insert(place, byte)?;
    Ok(())
}

// Where a byte stands among others, or is to stand.
fn place_of(bytes: &[KeptByte], byte: KeptByte) -> usize
    ensures { result ≤ length bytes.now }
{
    match bytes.binary_search(&byte) {
        Ok(place) => place.min(bytes.len()),
        Err(place) => place.min(bytes.len()),
    }
}

// Whether a byte stands there.
fn is_at(bytes: &[KeptByte], place: usize, byte: KeptByte) -> bool
    ensures { result ≡ true → is_kept bytes.now byte.core byte.address ≡ true }
{
    place < bytes.len() && bytes[place].core == byte.core && bytes[place].address == byte.address
}

// The bytes that are not the core's.
fn without(alloc: Global, bytes: &[KeptByte], core: u8) -> Result<Vec<KeptByte>, AllocError>
    ensures { IfOk result (λ left. OthersStay core bytes.now left.items) }
{
    let mut left = Vec::new(alloc);
    for byte in bytes {
        put_other(&mut left, *byte, core)?;
    }
    Ok(left)
}

// Adds a byte, where it is not the core's.
fn put_other(left: &mut Vec<KeptByte>, byte: KeptByte, core: u8) -> Result<(), AllocError>
    ensures { OnOk result (left.new.items ≡ left.old.items ++ (if nat_eq byte.core core then [] else byte ∷ [])) }
{
    if byte.core == core {
        return Ok(());
    }
    left.push(byte)?;
    Ok(())
}
