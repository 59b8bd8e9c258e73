//! Lines of code that is no instruction of the subset: its bytes as `db`, and what it is and comes to.
//!
//! [`outcome_text`] says what a core does that comes there, by what the decoder refuses it for; [`write_foreign`] makes
//! the line on a page and writes it at once. How many bytes belong to it is asked of `ia_foreign` in `listing`, and
//! that they are 1 to 15 is required here.

ghost use Rattle.std.specs.Prelude.{◌≡◌, ◌+◌, ◌<◌, ◌≤◌, ◌++◌, flat_map, length, replicate};
ghost use Rattle.arrayvec.specs.ArrayVec.{array_vec_len};
ghost use Rattle.ia_insn.specs.Reading.{decoding_of};
ghost use Rattle.ia_text.specs.Listing.{in_places};
ghost use Rattle.text_out.specs.Writing.{Writes};
ghost use Rattle.elide_asm.specs.Labelled.{db_text, foreign_line, name_text, next_byte, outcome_text};

use ia_decode::decode;
use ia_foreign::Words;
use ia_insn::DecodeFault;
use text_out::page::{Page, push, push_bytes, push_eight, push_number};
use text_out::{Out, WriteFault};

/// What comes of code that the decoder refuses, where a core comes to it: an instruction that takes no LOCK has one, or
/// it is none of the subset.
pub fn outcome_text(code: &[u8]) -> &'static [u8]
    ensures text { result.now ≡ outcome_text (decoding_of code.now) }
    ensures short { length result.now ≤ 20 }
{
    match decode(code) {
        Ok(_) => b"",
        Err(DecodeFault::Short) => b"",
        Err(DecodeFault::NotInSubset) => b"not in the subset",
        Err(DecodeFault::LockNotAllowed) => b"#UD",
    }
}

/// Writes the line of an instruction that is none of the subset, by its bytes, with what it is, where that is known,
/// and what comes of it.
///
/// [`WriteFault::Write`], where the device failed: a beginning of the line was written.
#[tactic(auto, unfolding(crate::specs::Labelled::foreign_line))]
pub fn write_foreign<O: Out>(
    bytes: &[u8],
    at: u32,
    words: Option<Words>,
    outcome: &[u8],
    out: &mut O,
) -> Result<(), WriteFault>
    requires some { 0 < length bytes.now }
    requires few { length bytes.now ≤ 15 }
    requires short { length outcome.now ≤ 20 }
    ensures { Writes (O.device out.old) (O.device out.new) (foreign_line bytes.now at words outcome.now) result }
{
    let mut page = Page::new();
    push_eight(&mut page, at);
    push(&mut page, b"  ");
    push_places(&mut page, bytes);
    push(&mut page, b"  ");
    push_db(&mut page, bytes);
    push(&mut page, b"  ; ");
    push_name(&mut page, words);
    push(&mut page, outcome);
    push(&mut page, b"\n");
    out.put(page.as_slice())?;
    Ok(())
}

// Adds bytes in hex, on the left in 24 places.
fn push_places(page: &mut Page, bytes: &[u8])
    requires few { length bytes.now ≤ 15 }
    requires room { array_vec_len page.old + 54 ≤ 4096 }
    ensures text { page.new.items ≡ page.old.items ++ in_places bytes.now }
    ensures len { array_vec_len page.new ≤ array_vec_len page.old + 54 }
{
    push_bytes(page, bytes);
    push_spaces(page, 24_usize.saturating_sub(2 * bytes.len()));
}

fn push_spaces(page: &mut Page, count: usize)
    requires few { count ≤ 24 }
    requires room { array_vec_len page.old + 24 ≤ 4096 }
    ensures text { page.new.items ≡ page.old.items ++ replicate count 32 }
    ensures len { array_vec_len page.new ≡ array_vec_len page.old + count }
{
    let spaces = [b' '; 24];
    push(page, &spaces[..count]);
}

// Adds bytes as `db` has them.
#[tactic(auto, unfolding(crate::specs::Labelled::db_text))]
fn push_db(page: &mut Page, bytes: &[u8])
    requires some { 0 < length bytes.now }
    requires few { length bytes.now ≤ 15 }
    requires room { array_vec_len page.old + 200 ≤ 4096 }
    ensures text { page.new.items ≡ page.old.items ++ db_text bytes.now }
    ensures len { array_vec_len page.new ≤ array_vec_len page.old + 200 }
{
    push(page, b"db ");
    push_number(page, u32::from(bytes[0]));
    push_others(page, &bytes[1..]);
}

// Adds bytes, each behind a comma.
fn push_others(page: &mut Page, bytes: &[u8])
    requires few { length bytes.now ≤ 14 }
    requires room { array_vec_len page.old + 168 ≤ 4096 }
    ensures text { page.new.items ≡ page.old.items ++ flat_map next_byte bytes.now }
    ensures len { array_vec_len page.new ≤ array_vec_len page.old + 168 }
{
    for byte in bytes {
        push(page, b", ");
        push_number(page, u32::from(*byte));
    }
}

// Adds what an instruction is, where it is a known one.
fn push_name(page: &mut Page, words: Option<Words>)
    requires { array_vec_len page.old + 60 ≤ 4096 }
    ensures text { page.new.items ≡ page.old.items ++ name_text words }
    ensures len { array_vec_len page.new ≤ array_vec_len page.old + 60 }
{
    if let Some(words) = words {
        push(page, words.front);
        push(page, words.name);
        push(page, b": ");
    }
}
