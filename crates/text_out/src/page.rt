//! A page of text in the making, which goes to a device when it is full.

ghost use Rattle.std.specs.Prelude.{◌≡◌, ℕ, ◌+◌, ◌*◌, ◌≤◌, ◌<◌, ◌++◌, List, MatchResult, OnOk, length, map};
ghost use Rattle.std.specs.Char.{digit_char};
ghost use Rattle.std.specs.Fmt.{decimal};
ghost use Rattle.std.specs.Int.Digits.{digits_of};
ghost use Rattle.arrayvec.specs.ArrayVec.{array_vec_len};
ghost use Rattle.hex.specs.Hex.{encode_lower};
ghost use Rattle.text_out.specs.Number.{eight_digits, hex_digits, number};
ghost use Rattle.text_out.specs.Writing.{Ahead, Stopped};

use crate::out::{Failed, Out};
use arrayvec::ArrayVec;
use itoa::Buffer;

/// A page of text: up to 4096 bytes.
pub type Page = ArrayVec<u8, 4096>;

/// Adds bytes at the end of a page or of any row of bytes.
pub fn push<const ROOM: usize>(page: &mut ArrayVec<u8, ROOM>, bytes: &[u8])
    requires { array_vec_len page.old + length bytes.now ≤ ROOM }
    ensures text { page.new.items ≡ page.old.items ++ bytes.now }
    ensures len { array_vec_len page.new ≡ array_vec_len page.old + length bytes.now }
{
    let _ = page.try_extend_from_slice(bytes);
}

fn digit(d: u8) -> u8
    requires { d < 16 }
    ensures { result ≡ digit_char d }
{
    if d < 10 { 48 + d } else { 87 + d }
}

/// Adds the hex digits, none for 0.
fn push_digits(page: &mut Page, n: u32)
    requires { array_vec_len page.old + length (digits_of 16 n) ≤ 4096 }
    ensures { page.new.items ≡ page.old.items ++ map digit_char (digits_of 16 n) }
{
    if n != 0 {
        push_digits(page, n / 16);
        page.push(digit((n % 16) as u8));
    }
}

/// Adds a number in hex, without leading zeros.
pub fn push_hex(page: &mut Page, n: u32)
    requires { array_vec_len page.old + 8 ≤ 4096 }
    ensures text { page.new.items ≡ page.old.items ++ hex_digits n }
    ensures len { array_vec_len page.new ≤ array_vec_len page.old + 8 }
{
    if n == 0 {
        push(page, b"0");
    } else {
        push_digits(page, n);
    }
}

/// Adds a number in hex, behind `0x`.
pub fn push_number(page: &mut Page, n: u32)
    requires { array_vec_len page.old + 10 ≤ 4096 }
    ensures text { page.new.items ≡ page.old.items ++ number n }
    ensures len { array_vec_len page.new ≤ array_vec_len page.old + 10 }
{
    push(page, b"0x");
    push_hex(page, n);
}

/// Adds a number in decimal digits.
pub fn push_decimal<const ROOM: usize>(page: &mut ArrayVec<u8, ROOM>, number: u64)
    requires { array_vec_len page.old + 20 ≤ ROOM }
    ensures text { page.new.items ≡ page.old.items ++ decimal number }
    ensures len { array_vec_len page.new ≤ array_vec_len page.old + 20 }
{
    push(page, Buffer::new().format(number).as_bytes());
}

/// Adds two hex digits for each of up to 32 bytes.
pub fn push_bytes<const ROOM: usize>(page: &mut ArrayVec<u8, ROOM>, bytes: &[u8])
    requires few { length bytes.now ≤ 32 }
    requires room { array_vec_len page.old + 2 * length bytes.now ≤ ROOM }
    ensures text { page.new.items ≡ page.old.items ++ encode_lower bytes.now }
    ensures len { array_vec_len page.new ≡ array_vec_len page.old + 2 * length bytes.now }
{
    let mut digits = [0; 64];
    let len = 2 * bytes.len();
    let _ = hex::encode_to_slice(bytes, &mut digits[..len]);
    push(page, &digits[..len]);
}

/// Adds eight hex digits.
pub fn push_eight<const ROOM: usize>(page: &mut ArrayVec<u8, ROOM>, n: u32)
    requires { array_vec_len page.old + 8 ≤ ROOM }
    ensures text { page.new.items ≡ page.old.items ++ eight_digits n }
    ensures len { array_vec_len page.new ≡ array_vec_len page.old + 8 }
{
    push_bytes(page, &n.to_be_bytes());
}

/// Puts a page that has less room than that, and begins it again.
pub fn make_room<O: Out>(page: &mut Page, room: usize, out: &mut O) -> Result<(), Failed>
    requires { room ≤ 4096 }
    ensures room { OnOk result (array_vec_len page.new + room ≤ 4096) }
    ensures put { MatchResult result
        (λ _. Ahead (O.device out.old) (O.device out.new) page.old.items page.new.items)
        (λ _. Stopped (O.device out.old) (O.device out.new) page.old.items) }
{
    if page.remaining_capacity() < room {
        out.put(page.as_slice())?;
        page.clear();
    }
    Ok(())
}
