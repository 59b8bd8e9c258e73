//! What a row of the table says, and whether it is so.

ghost use Rattle.std.specs.Prelude.{◌<◌, IfSome, IsTrue};
ghost use Rattle.ia_insn.specs.Encoding.{is_encodable};

use crate::execution::flags;
use ia_decode::decode;
use ia_exec::{AbortKind, Exception, Finished, Store, fallback, finish_in};
use ia_insn::{Insn, is_encodable};
use ia_regs::Regs;
use ia_text::write_insn;
use ia_word::Width;
use std::alloc::Global;
use text_out::ToVec;

// What an instruction is given.
#[derive(Clone, Copy, Debug)]
struct Given {
    regs: Regs,
    loaded: u32,
    depth: u8,
}

// What an instruction is to come to, and the registers after it.
#[derive(Clone, Copy, Debug)]
struct Wanted {
    finished: Finished,
    regs: Regs,
}

// What a row goes on from.
fn start() -> Given {
    Given {
        regs: Regs {
            gpr: [0, 0, 0, 0, 0x8000, 0x9000, 0xa000, 0xb000],
            flags: flags(0),
            eip: 0x1000,
        },
        loaded: 0,
        depth: 0,
    }
}

// The fields of a row.
#[derive(Clone, Copy, Debug)]
struct Fields<'a> {
    digits: &'a str,
    text: &'a str,
    given: &'a str,
    outcome: &'a str,
}

fn fields_of(row: &str) -> Option<Fields<'_>> {
    let (digits, rest) = row.split_once("; ")?;
    let (text, rest) = rest.split_once("; ")?;
    let (given, outcome) = rest.split_once("; ")?;
    Some(Fields {
        digits,
        text,
        given,
        outcome,
    })
}

// A number in hex.
fn number(digits: &str) -> Option<u32> {
    u32::from_str_radix(digits, 16).ok()
}

// A name and the number behind it.
fn setting(word: &str) -> Option<(&str, u32)> {
    let (name, digits) = word.split_once('=')?;
    Some((name, number(digits)?))
}

fn register_of(name: &str) -> Option<u8>
    ensures { IfSome result (λ number. number < 8) }
{
    match name {
        "eax" => Some(0),
        "ecx" => Some(1),
        "edx" => Some(2),
        "ebx" => Some(3),
        "esp" => Some(4),
        "ebp" => Some(5),
        "esi" => Some(6),
        "edi" => Some(7),
        _ => None,
    }
}

// Registers with one changed, or the flags, or EIP.
fn with_register(before: Regs, name: &str, value: u32) -> Option<Regs> {
    let mut regs = before;
    match name {
        "flags" => regs.flags = flags(u16::try_from(value).ok()?),
        "eip" => regs.eip = value,
        _ => regs.set(register_of(name)?, value),
    }
    Some(regs)
}

fn with_given(before: Given, name: &str, value: u32) -> Option<Given> {
    match name {
        "loaded" => Some(Given {
            loaded: value,
            ..before
        }),
        "depth" => Some(Given {
            depth: u8::try_from(value).ok()?,
            ..before
        }),
        _ => Some(Given {
            regs: with_register(before.regs, name, value)?,
            ..before
        }),
    }
}

fn given_of(words: &str) -> Option<Given> {
    let mut given = start();
    for word in words.split_whitespace() {
        let (name, value) = setting(word)?;
        given = with_given(given, name, value)?;
    }
    Some(given)
}

// What goes to memory by a name as `dword[6]`, or nothing where the name is another.
fn store_of(name: &str, value: u32) -> Option<Store> {
    let (size, rest) = name.split_once('[')?;
    let (digits, _) = rest.split_once(']')?;
    let addr = number(digits)?;
    match size {
        "byte" => Some(Store {
            addr,
            width: Width::B,
            value,
        }),
        "dword" => Some(Store {
            addr,
            width: Width::D,
            value,
        }),
        _ => None,
    }
}

// The registers and the store of an instruction that goes on.
fn going_on(behind: Regs, words: &str) -> Option<Wanted> {
    let mut regs = behind;
    let mut store = None;
    for word in words.split_whitespace() {
        let (name, value) = setting(word)?;
        let place = store_of(name, value);
        if place.is_some() {
            store = place;
        } else {
            regs = with_register(regs, name, value)?;
        }
    }
    let finished = match store {
        None => Finished::Goes,
        Some(store) => Finished::Stores(store),
    };
    Some(Wanted { finished, regs })
}

fn exception_of(name: &str) -> Option<Finished> {
    match name {
        "Divide" => Some(Finished::Faults(Exception::Divide)),
        "Breakpoint" => Some(Finished::Faults(Exception::Breakpoint)),
        "Undefined" => Some(Finished::Faults(Exception::Undefined)),
        "Protection" => Some(Finished::Faults(Exception::Protection)),
        _ => None,
    }
}

// An abort by its name, or by the code of XABORT.
fn abort_of(name: &str) -> Option<Finished> {
    match name {
        "Nest" => Some(Finished::Aborts(AbortKind::Nest)),
        "Debug" => Some(Finished::Aborts(AbortKind::Debug)),
        "Other" => Some(Finished::Aborts(AbortKind::Other)),
        _ => Some(Finished::Aborts(AbortKind::Explicit(u8::from_str_radix(name, 16).ok()?))),
    }
}

// What a row says: the registers stay where the instruction does not go on, but EIP, which stands behind a start and an
// end of a transaction.
fn outcome_of(before: Regs, behind: Regs, outcome: &str) -> Option<Wanted> {
    let (word, rest) = outcome.split_once(' ').unwrap_or((outcome, ""));
    let (finished, regs) = match word {
        "goes" => return going_on(behind, rest),
        "fault" => (exception_of(rest)?, before),
        "abort" => (abort_of(rest)?, before),
        "halt" => (Finished::Halts, before),
        "begin" => (Finished::Begins(number(rest)?), behind),
        "end" => (Finished::Ends, behind),
        _ => return None,
    };
    Some(Wanted { finished, regs })
}

// Whether an instruction is printed like this at address 0.
fn is_printed(alloc: Global, insn: &Insn, text: &str) -> bool {
    let mut out = ToVec::new(Vec::new(alloc));
    write_insn(insn, 0, &mut out).is_ok() && out.bytes.as_slice() == text.as_bytes()
}

// The instruction that bytes are, all of them, and its length, if it is printed like this.
fn instruction(alloc: Global, bytes: &[u8], text: &str) -> Option<(Insn, u8)> {
    let (insn, length) = decode(bytes).ok()?;
    if usize::from(length) == bytes.len() && is_printed(alloc, &insn, text) {
        Some((insn, length))
    } else {
        None
    }
}

// Whether an instruction comes to this. The fallback of one that begins a transaction is the other call's too.
fn comes_to(insn: &Insn, length: u8, given: Given, wanted: Wanted) -> bool
    requires { IsTrue (is_encodable insn.now) }
{
    let falls_back = match wanted.finished {
        Finished::Begins(to) => fallback(insn, length, &given.regs) == to,
        _ => true,
    };
    let mut regs = given.regs;
    let finished = finish_in(insn, length, &mut regs, given.loaded, given.depth);
    falls_back && finished == wanted.finished && regs == wanted.regs
}

// Whether the instruction of these bytes is that of the fields, and comes to what they say.
fn agrees(alloc: Global, bytes: &[u8], fields: Fields<'_>) -> Option<bool> {
    let (insn, length) = instruction(alloc, bytes, fields.text)?;
    let given = given_of(fields.given)?;
    let behind = Regs {
        eip: given.regs.eip.wrapping_add(u32::from(length)),
        ..given.regs
    };
    let wanted = outcome_of(given.regs, behind, fields.outcome)?;
    Some(is_encodable(&insn) && comes_to(&insn, length, given, wanted))
}

/// Whether a row of the table is so.
pub(super) fn row_agrees(alloc: Global, row: &str) -> bool {
    let Some(fields) = fields_of(row) else {
        return false;
    };
    match hex::decode(alloc, fields.digits) {
        Err(_) => false,
        Ok(bytes) => agrees(alloc, bytes.as_slice(), fields) == Some(true),
    }
}
