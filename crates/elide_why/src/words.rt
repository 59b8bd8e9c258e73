//! What the text of a program says of a reason: symbols of a line, an instruction and where it stands.
//!
//! [`Words::of`] chooses the instruction: that of the core that hit, of a drain the one that stored, or else the own
//! one; [`Words::at`] takes that of an address. A place is a line of the source, or of an executable its symbol, or the
//! address where neither is known. A path is told up to 1024 bytes. Nothing is written here: `lines` and `interference`
//! do.

ghost use Rattle.std.specs.Prelude.{◌≡◌, true};
ghost use Rattle.arrayvec.specs.ArrayVec.{array_vec_len};
ghost use Rattle.std.specs.List.{list_all};
ghost use Rattle.elide_places.specs.Shown.{is_printable};
ghost use Rattle.elide_why.specs.Words.{IsOutsideOf};

use crate::outside::Outside;
use arrayvec::ArrayVec;
use elide_places::{Naming, Places, SymbolText, push_code_place, push_source_place, push_symbols};
use ia_image::Program;
use ia_insn::Insn;
use itoa::Buffer;
use text_out::page::{push, push_eight};
use tm_model::AbortReason;
use tm_rule::Stop;
use tm_why::Reason;

/// How many bytes of a path are told.
const PATH_ROOM: usize = 1024;

/// Where an instruction stands: the source and its line, as `lock.asm:11`; of an executable the symbol of its code with
/// the distance, and the line of its source where the executable tells it, as `insert+0x1c (list.c:41)`; or else the
/// address in eight hex digits.
pub type PlaceText = ArrayVec<u8, 1100>;

/// What the text of a program says of a reason.
#[derive(Drop)]
pub struct Words<'a> {
    /// The symbols on the line that the reason tells of, as they are shown; none, where it tells of no line.
    pub symbols: SymbolText,
    /// The address of the instruction that is told: the one by which another core hit, or else the one that was next
    /// where the core was aborted.
    pub eip: u32,
    /// Where it stands.
    pub place: PlaceText,
    /// What it is, where the reason tells it.
    pub insn: Option<Insn>,
    /// The code where the subset ends, where it does.
    pub outside: Option<Outside<'a>>,
    pub ghost printable: { list_all is_printable symbols.items ≡ true },
}

impl<'a> Words<'a> {
    /// What a program, of the source or image at this path and with these places, says of a reason.
    pub fn of(program: &'a Program, path: &str, places: &Places, reason: &Reason) -> Words<'a>
        ensures { IsOutsideOf program.now reason.now.cause reason.now.eip result.outside }
    {
        let eip = eip_of(reason);
        Words {
            symbols: symbols_of(places, reason),
            eip,
            place: place_of(path, places, eip),
            insn: if tells_insn(reason) {
                insn_at(program, eip)
            } else {
                None
            },
            outside: outside_of(program, places, reason),
        }
    }
}

impl<'a> Words<'a> {
    /// These words, and of code where the subset ends what it is ([`Outside::named`]), where it is a known instruction.
    pub fn named(self) -> Words<'a> {
        let Words {
            symbols,
            eip,
            place,
            insn,
            outside,
        } = self;
        let outside = match outside {
            Some(outside) => Some(outside.named()),
            None => None,
        };
        Words {
            symbols,
            eip,
            place,
            insn,
            outside,
        }
    }

    /// What a program, of the source or image at this path and with these places, says of the instruction at an
    /// address.
    pub fn at(program: &'a Program, path: &str, places: &Places, eip: u32) -> Words<'a>
        ensures { result.eip ≡ eip }
    {
        Words {
            symbols: SymbolText::new(),
            eip,
            place: place_of(path, places, eip),
            insn: insn_at(program, eip),
            outside: None,
        }
    }
}

// The symbols on the line that a reason tells of, as they are shown.
fn symbols_of(places: &Places, reason: &Reason) -> SymbolText
    ensures { list_all is_printable result.items ≡ true }
{
    let mut symbols = SymbolText::new();
    if let Some(line) = line_of(reason) {
        push_symbols(&mut symbols, places, line, Naming::Shown);
    }
    symbols
}

// The code where the subset ends, where a reason tells that it does.
fn outside_of<'a>(program: &'a Program, places: &Places, reason: &Reason) -> Option<Outside<'a>>
    ensures { IsOutsideOf program.now reason.now.cause reason.now.eip result }
{
    match reason.cause {
        AbortReason::Stop(Stop::NotInSubset) => Some(Outside::at(program, places, reason.eip)),
        _ => None,
    }
}

// Whether a reason tells an instruction: the one by which a step hit, where it is known, or the one that no transaction
// may run.
fn tells_insn(reason: &Reason) -> bool {
    match (reason.cause, reason.transaction.hit) {
        (AbortReason::Conflict, Some(hit)) => hit.is_placed(),
        (AbortReason::NotAllowed, _) => true,
        _ => false,
    }
}

// The address of the instruction that a reason tells of.
fn eip_of(reason: &Reason) -> u32 {
    match (reason.cause, reason.transaction.hit) {
        (AbortReason::Conflict, Some(hit)) => hit.eip,
        _ => reason.eip,
    }
}

// The line that a reason tells of, if any.
fn line_of(reason: &Reason) -> Option<u32> {
    match (reason.cause, reason.transaction.hit) {
        (AbortReason::Conflict, Some(standing)) => Some(standing.hit.line),
        (AbortReason::Capacity(_, line), _) => Some(line),
        _ => None,
    }
}

// Where an instruction stands.
fn place_of(path: &str, places: &Places, at: u32) -> PlaceText {
    let mut place = PlaceText::new();
    match places.line_of(at) {
        Some(line) => {
            let path = path.as_bytes();
            push(&mut place, &path[..path.len().min(PATH_ROOM)]);
            push(&mut place, b":");
            push(&mut place, Buffer::new().format(line).as_bytes());
        }
        None => push_executable_place(&mut place, places, at),
    }
    place
}

// Where an instruction of an executable stands, or one that no source and no symbol tells of.
fn push_executable_place(place: &mut PlaceText, places: &Places, at: u32)
    requires { array_vec_len place.old ≡ 0 }
{
    let mut text = SymbolText::new();
    push_code_place(&mut text, places, at);
    if text.is_empty() {
        push_eight(place, at);
    } else {
        push(place, text.as_slice());
    }
    push_source_place(&mut text, places, at);
    if !text.is_empty() {
        push(place, b" (");
        push(place, text.as_slice());
        push(place, b")");
    }
}

// The instruction of a program at an address.
fn insn_at(program: &Program, at: u32) -> Option<Insn> {
    let offset = at.checked_sub(program.base())?;
    match program.insn_at(offset) {
        Ok((insn, _length)) => Some(insn),
        Err(_) => None,
    }
}
