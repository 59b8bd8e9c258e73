//! Bytes in memory, as a text says them: `SUM:COUNT=DIGITS`.
//!
//! [`bytes_of`] cuts at the first `=`, and before it at the first `:`. A text of another form is `None` and no fault,
//! since `conditions` knows which option it is of. The digits are counted before memory is taken for their bytes. That
//! memory has so many there is asked in `reach`.

ghost use Rattle.std.specs.Prelude.{◌≡◌, IfOk, MatchOption, Ok, length};
ghost use Rattle.std.specs.Str.{trim};
ghost use Rattle.hex.specs.Hex.{decode_of};
ghost use Rattle.elide_checks.specs.Conditions.{AreBytes};
ghost use Rattle.elide_checks.specs.Misread.{AreNoBytes, AreNotMany};

use crate::cut::cut;
use elide_program::{ProgramFile, number_of, sum_of};
use std::alloc::{AllocError, Global};

/// Bytes at an address, as many as are said, in hex digits.
pub fn bytes_of(
    alloc: Global,
    text: &str,
    file: &ProgramFile<'_>,
) -> Result<Option<(u32, Vec<u8>)>, AllocError>
    ensures { IfOk result (λ found. MatchOption found (AreNoBytes file.now text.now)
        (λ parts. AreBytes file.now text.now parts.0 parts.1.items)) }
{
    let Some((place, digits)) = cut(text, "=") else {
        return Ok(None);
    };
    let Some((at, count)) = cut(place, ":") else {
        return Ok(None);
    };
    let Some(address) = sum_of(at, file) else {
        return Ok(None);
    };
    let Ok(count) = number_of(Some(count.trim()), "--check") else {
        return Ok(None);
    };
    match decode(alloc, digits, count)? {
        Some(bytes) => Ok(Some((address, bytes))),
        None => Ok(None),
    }
}

// So many bytes in hex digits, around which spaces may stand.
fn decode(alloc: Global, digits: &str, count: u32) -> Result<Option<Vec<u8>>, AllocError>
    ensures { IfOk result (λ bytes. MatchOption bytes (AreNotMany count (trim digits.now))
        (λ found. (length found.items ≡ count) × (decode_of (trim digits.now) ≡ Ok found.items))) }
{
    let digits = digits.trim().as_bytes();
    if digits.len() != count as usize * 2 {
        return Ok(None);
    }
    let mut bytes = vec![in alloc; 0; count as usize]?;
    match hex::decode_to_slice(digits, &mut bytes) {
        Ok(()) => Ok(Some(bytes)),
        Err(_) => Ok(None),
    }
}
