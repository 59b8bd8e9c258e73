//! Where the subset ends: the code there, up to 15 bytes, its address and place, and what it is.
//!
//! [`Outside::at`] takes the bytes that the code has, and [`Outside::named`] asks `ia_foreign` for a name only where
//! one is wanted. [`write_stop`] is the line of a stop; in that of an abort `lines` has the same text by
//! [`push_outside`]. Whether a core stops there is the machine's to say.

ghost use Rattle.std.specs.Prelude.{◌≡◌, ◌+◌, ◌≤◌, ◌++◌, None, drop, length, take};
ghost use Rattle.arrayvec.specs.ArrayVec.{array_vec_len};
ghost use Rattle.text_out.specs.Writing.{Writes};
ghost use Rattle.elide_why.specs.Subset.{code_from, code_text, name_text, outside_text, stop_line, symbols_text};

use crate::outside::Outside;
use elide_places::{Places, SymbolText, push_code_place, push_source_place};
use ia_foreign::{Words as ForeignWords, foreign_in};
use ia_image::Program;
use text_out::page::{Page, push, push_bytes, push_decimal, push_eight};
use text_out::{Out, WriteFault};

/// The most bytes that an instruction has (SDM vol. 2, 2.3.11).
const LONGEST: usize = 15;

impl<'a> Outside<'a> {
    /// What stands in the code of a program at an address.
    pub fn at(program: &'a Program, places: &Places, address: u32) -> Outside<'a>
        ensures code { result.code.now ≡ code_from program.now address }
        ensures address { result.address ≡ address }
        ensures unnamed { result.name ≡ None }
    {
        let mut place = SymbolText::new();
        push_code_place(&mut place, places, address);
        let mut source = SymbolText::new();
        push_source_place(&mut source, places, address);
        Outside {
            code: code_from(program, address),
            address,
            place,
            source,
            name: None,
        }
    }

    /// This code, with the instruction's name, as `16-bit move`, where it is a known one.
    pub fn named(self) -> Outside<'a>
        ensures code { result.code.now ≡ self.entry.code.now }
        ensures address { result.address ≡ self.entry.address }
    {
        let Outside {
            code,
            address,
            place,
            source,
            name: _,
        } = self;
        Outside {
            code,
            address,
            place,
            source,
            name: name_of(code),
        }
    }
}

// What stands in front of some code that is no instruction of the subset, where it is a known one.
fn name_of(code: &[u8]) -> Option<ForeignWords> {
    foreign_in(code)?.words
}

// The code from an address on, as far as an instruction could go.
fn code_from<'a>(program: &'a Program, address: u32) -> &'a [u8]
    ensures code { result.now ≡ code_from program.now address }
    ensures short { length result.now ≤ 15 }
{
    let code = program.code();
    match address.checked_sub(program.base()) {
        Some(offset) => first_of(behind(code, offset as usize)),
        None => &code[..0],
    }
}

// What stands behind the first bytes.
fn behind(code: &[u8], offset: usize) -> &[u8]
    ensures { result.now ≡ drop offset code.now }
{
    &code[offset.min(code.len())..]
}

// The first bytes, as many as an instruction has at most.
fn first_of(code: &[u8]) -> &[u8]
    ensures code { result.now ≡ take 15 code.now }
    ensures short { length result.now ≤ 15 }
{
    &code[..code.len().min(LONGEST)]
}

/// Writes the outcome line of a stop where the subset ends, with the code there.
///
/// [`WriteFault::Write`], where the device failed: a beginning of the line was written.
pub fn write_stop<O: Out>(core: u8, outside: &Outside<'_>, out: &mut O) -> Result<(), WriteFault>
    ensures { Writes (O.device out.old) (O.device out.new) (stop_line core outside.now) result }
{
    let mut page = Page::new();
    push_decimal(&mut page, u64::from(core));
    push(&mut page, b" stopped not-in-subset");
    push_outside(&mut page, outside);
    push(&mut page, b"\n");
    out.put(page.as_slice())?;
    Ok(())
}

/// Adds the code, its address and its place, the line of its source, and what it is.
pub fn push_outside(page: &mut Page, outside: &Outside<'_>)
    requires { array_vec_len page.old + 320 ≤ 4096 }
    ensures text { page.new.items ≡ page.old.items ++ outside_text outside.now }
    ensures len { array_vec_len page.new ≤ array_vec_len page.old + 320 }
{
    push_code(page, outside.code, outside.address);
    push_symbols(page, outside.place.as_slice());
    push_symbols(page, outside.source.as_slice());
    push_name(page, outside.name);
}

// Adds what stands there, where that is told.
fn push_name(page: &mut Page, name: Option<ForeignWords>)
    requires { array_vec_len page.old + 60 ≤ 4096 }
    ensures text { page.new.items ≡ page.old.items ++ name_text name }
    ensures len { array_vec_len page.new ≤ array_vec_len page.old + 60 }
{
    if let Some(words) = name {
        push(page, b", ");
        push(page, words.front);
        push(page, words.name);
    }
}

// Adds bytes of code and their address.
#[tactic(auto, unfolding(crate::specs::Subset::code_text))]
fn push_code(page: &mut Page, code: &[u8], address: u32)
    requires short { length code.now ≤ 15 }
    requires room { array_vec_len page.old + 50 ≤ 4096 }
    ensures text { page.new.items ≡ page.old.items ++ code_text code.now address }
    ensures len { array_vec_len page.new ≤ array_vec_len page.old + 50 }
{
    push(page, b": ");
    push_bytes(page, code);
    push(page, b" at ");
    push_eight(page, address);
}

/// Adds symbols, as they are shown, in brackets, where there are any.
pub fn push_symbols(page: &mut Page, symbols: &[u8])
    requires { array_vec_len page.old + length symbols.now + 3 ≤ 4096 }
    ensures text { page.new.items ≡ page.old.items ++ symbols_text symbols.now }
    ensures len { array_vec_len page.new ≤ array_vec_len page.old + length symbols.now + 3 }
{
    if !symbols.is_empty() {
        push(page, b" (");
        push(page, symbols);
        push(page, b")");
    }
}
