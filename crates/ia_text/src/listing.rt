//! Listings: an address, the bytes of an instruction, and its text.

ghost use Rattle.std.specs.Prelude.{◌≡◌, ◌+◌, ◌-◌, ◌*◌, ◌<◌, ◌≤◌, ◌++◌, ◌∷◌, [], IfOk, MatchResult, length, replicate};
ghost use Rattle.arrayvec.specs.ArrayVec.{array_vec_len};
ghost use Rattle.ia_text.specs.Listing.{count_of, entry_text, in_places, line_text, listing, listing_line, shown_bytes};
ghost use Rattle.text_out.specs.Writing.{Stopped, Writes, Wrote};

use crate::print::push_insn;
use ia_decode::decode;
use ia_insn::{DecodeFault, Insn};
use text_out::page::{Page, make_room, push, push_bytes, push_eight, push_number};
use text_out::{Out, WriteFault};

/// The most bytes that a line takes.
const LINE: usize = 147;

fn count_of(found: &Result<(Insn, u8), DecodeFault>) -> u8
    ensures { result ≡ count_of found.now }
{
    match found {
        Ok((_, count)) => *count,
        Err(_) => 1,
    }
}

fn push_spaces(page: &mut Page, count: usize)
    requires few { count ≤ 24 }
    requires room { array_vec_len page.old + count ≤ 4096 }
    ensures text { page.new.items ≡ page.old.items ++ replicate count 32 }
    ensures len { array_vec_len page.new ≡ array_vec_len page.old + count }
{
    let spaces = [b' '; 24];
    push(page, &spaces[..count]);
}

// Bytes in hex, on the left in 24 places.
fn push_places(page: &mut Page, bytes: &[u8])
    requires few { length bytes.now ≤ 15 }
    requires room { array_vec_len page.old + 30 ≤ 4096 }
    ensures text { page.new.items ≡ page.old.items ++ in_places bytes.now }
    ensures len { array_vec_len page.new ≤ array_vec_len page.old + 30 }
{
    push_bytes(page, bytes);
    push_spaces(page, 24_usize.saturating_sub(2 * bytes.len()));
}

// The instruction, or its first byte.
fn push_entry(page: &mut Page, found: &Result<(Insn, u8), DecodeFault>, byte: u8, at: u32)
    requires { array_vec_len page.old + 104 ≤ 4096 }
    ensures text { page.new.items ≡ page.old.items ++ entry_text found.now byte at }
    ensures len { array_vec_len page.new ≤ array_vec_len page.old + 104 }
{
    match found {
        Ok((insn, _)) => push_insn(page, insn, at),
        Err(_) => {
            push(page, b"db ");
            push_number(page, u32::from(byte));
        }
    }
}

// The line of what was found in front of some code.
fn push_found(page: &mut Page, found: &Result<(Insn, u8), DecodeFault>, code: &[u8], at: u32)
    requires some { 0 < length code.now }
    requires within { count_of found.now ≤ length code.now }
    requires few { count_of found.now ≤ 15 }
    requires room { array_vec_len page.old + 147 ≤ 4096 }
    ensures text { page.new.items ≡ page.old.items ++ line_text found.now code.now at }
    ensures len { array_vec_len page.new ≤ array_vec_len page.old + 147 }
{
    let count = usize::from(count_of(found));
    push_eight(page, at);
    push(page, b"  ");
    push_places(page, &code[..count]);
    push(page, b"  ");
    push_entry(page, found, code[0], at);
    push(page, b"\n");
}

// The first line of some code, and how many bytes it shows.
#[tactic(auto, using(crate::proofs::Lines::line_is, crate::proofs::Lines::shown_is))]
fn push_line(page: &mut Page, code: &[u8], at: u32) -> u8
    requires some { 0 < length code.now }
    requires room { array_vec_len page.old + 147 ≤ 4096 }
    ensures text { page.new.items ≡ page.old.items ++ listing_line code.now at }
    ensures len { array_vec_len page.new ≤ array_vec_len page.old + 147 }
    ensures count { result ≡ shown_bytes code.now }
    ensures some { 0 < result }
    ensures within { result ≤ length code.now }
{
    let found = decode(code);
    push_found(page, &found, code, at);
    count_of(&found)
}

/// Writes the first listing line of some code at an address, and tells how many bytes of the code it shows: those of
/// the instruction in front, or one where there is none, which is written as `db`. Of no bytes it writes nothing and
/// tells 0. On 5 `Write` a beginning of the line was written, and the count of failures rose.
#[tactic(auto, using(crate::proofs::Lines::no_bytes, text_out::proofs::Writing::wrote_none))]
pub fn write_line<O: Out>(code: &[u8], at: u32, out: &mut O) -> Result<u8, WriteFault>
    ensures text { Writes (O.device out.old) (O.device out.new) (listing_line code.now at) result }
    ensures shown { IfOk result (λ n. n ≡ shown_bytes code.now) }
    ensures within { IfOk result (λ n. n ≤ length code.now) }
    ensures some { IfOk result (λ n. 0 < length code.now → 0 < n) }
{
    if code.is_empty() {
        return Ok(0);
    }
    let mut page = Page::new();
    let shown = push_line(&mut page, code, at);
    out.put(page.as_slice())?;
    Ok(shown)
}

/// Writes the listing of some code at an address. Takes no memory; lines are written several at a time. On 5 `Write` a
/// beginning of the listing was written, and the count of failures rose.
#[tactic(auto, using(text_out::proofs::Writing::making_none))]
pub fn disassemble<O: Out>(code: &[u8], base: u32, out: &mut O) -> Result<(), WriteFault>
    ensures { Writes (O.device out.old) (O.device out.new) (listing code.now base) result }
{
    let mut page = Page::new();
    let mut place = 0;
    let mut at = base;
    'lines: while place < code.len() {
        make_room(&mut page, LINE, out)?;
        let shown = push_line(&mut page, &code[place..], at);
        place += usize::from(shown);
        at = at.wrapping_add(u32::from(shown));
    }
    out.put(page.as_slice())?;
    Ok(())
}
