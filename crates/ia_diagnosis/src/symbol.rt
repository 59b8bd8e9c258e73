//! Symbols that are defined twice or not at all.

use crate::diagnosis::FaultyLine;
use crate::finding::Finding;
use crate::line::head_of;
use crate::meaning::Meaning;
use crate::near::Nearest;
use crate::piece::{Piece, next_piece};
use crate::words::{is_among, is_other_register, is_sixteen_bits};
use ia_item::{Name, Scope};
use ia_lex::{first_line, register_of};
use std::alloc::{AllocError, Global};

/// Words of operands that are no symbols.
const SIZES: [&str; 4] = ["byte", "dword", "near", "short"];

/// A symbol of a source.
#[derive(Clone, Copy)]
struct Symbol<'a> {
    // Its name.
    name: Name<'a>,
    // The line that defines it, from 1.
    line: u32,
    // Whether it is an `equ`.
    is_equ: bool,
}

/// The symbols of a source, and the labels that local ones belong to.
#[derive(Drop)]
struct Symbols<'a> {
    all: Vec<Symbol<'a>>,
    // The last label above the line that is asked for, or on it, that is not local.
    scope: &'a [u8],
}

fn is_local(name: &[u8]) -> bool {
    name.first() == Some(&b'.')
}

// The name of a word where this label is the last one above.
fn name_in<'a>(scope: &'a [u8], own: &'a [u8]) -> Name<'a> {
    if is_local(own) {
        Name::local(&Scope::new(scope), own)
    } else {
        Name::new(own)
    }
}

// The symbol of a line, which stands behind this label.
fn symbol_of<'a>(line: &'a [u8], number: u32, scope: &'a [u8]) -> Option<Symbol<'a>> {
    let head = head_of(line);
    let label = head.label?;
    let is_equ = match next_piece(line, head.rest) {
        Some(word) => word.is_named("equ"),
        None => false,
    };
    Some(Symbol {
        name: name_in(scope, label.text),
        line: number,
        is_equ,
    })
}

// The label that local ones belong to behind a symbol.
fn scope_behind<'a>(scope: &'a [u8], symbol: &Symbol<'a>) -> &'a [u8] {
    if symbol.is_equ || is_local(symbol.name.own) {
        scope
    } else {
        symbol.name.own
    }
}

// The symbols of a source, and the label that the local ones of a line belong to.
fn symbols_for<'a>(alloc: Global, asked: FaultyLine<'a>) -> Result<Symbols<'a>, AllocError> {
    let source = asked.source;
    let mut all = Vec::new(alloc);
    let mut scope: &'a [u8] = b"";
    let mut here: &'a [u8] = b"";
    let mut place = 0;
    let mut number: u32 = 1;
    'lines: while place < source.len() {
        let (line, taken) = first_line(&source[place..]);
        if let Some(symbol) = symbol_of(line, number, scope) {
            scope = scope_behind(scope, &symbol);
            all.push(symbol)?;
        }
        if number <= asked.number {
            here = scope;
        }
        number = number.saturating_add(1);
        place += taken;
    }
    Ok(Symbols { all, scope: here })
}

// The name that is defined on this line.
fn name_on<'a>(symbols: &[Symbol<'a>], number: u32) -> Option<Name<'a>> {
    for symbol in symbols {
        if symbol.line == number {
            return Some(symbol.name);
        }
    }
    None
}

// The first line that defines this name.
fn line_of(symbols: &[Symbol<'_>], name: &Name<'_>) -> Option<u32> {
    for symbol in symbols {
        if symbol.name == *name {
            return Some(symbol.line);
        }
    }
    None
}

// The first line that defines what this line defines.
fn first_line_of(symbols: &[Symbol<'_>], number: u32) -> u32 {
    match name_on(symbols, number) {
        Some(name) => line_of(symbols, &name).unwrap_or(number),
        None => number,
    }
}

/// A label that is defined above.
pub fn symbol_twice<'a>(alloc: Global, line: FaultyLine<'a>) -> Result<Finding<'a>, AllocError> {
    let symbols = symbols_for(alloc, line)?;
    let above = first_line_of(symbols.all.as_slice(), line.number);
    drop(symbols);
    match next_piece(line.text, 0) {
        Some(label) => Ok(Finding::at(&label, Meaning::SymbolTwice(label.text, above))),
        None => Ok(Finding::whole(line.text, Meaning::NoStatement)),
    }
}

// Whether a part of an operand names a symbol, which may be called as an instruction is.
fn is_symbol(piece: &Piece<'_>) -> bool {
    piece.is_word() && register_of(piece.text).is_none() && !is_among(&SIZES, piece.text)
}

// Where the operands of a line begin: behind its mnemonic or directive.
fn operands_of(line: &[u8], pieces: &[Piece<'_>]) -> usize {
    let from = head_of(line).rest;
    for piece in pieces {
        if piece.start >= from && piece.is_keyword() && !piece.is_named("lock") {
            return piece.end();
        }
    }
    from
}

/// The first symbol of a line that is defined nowhere; of `equ` and `resb`, by no `equ` above.
pub fn unknown_symbol<'a>(
    alloc: Global,
    line: FaultyLine<'a>,
    pieces: &[Piece<'a>],
) -> Result<Finding<'a>, AllocError> {
    let symbols = symbols_for(alloc, line)?;
    let finding = unknown_among(alloc, &symbols, line, pieces);
    drop(symbols);
    finding
}

// The first symbol of a line that is not among these, or that is no `equ` name from above.
fn unknown_among<'a>(
    alloc: Global,
    symbols: &Symbols<'a>,
    line: FaultyLine<'a>,
    pieces: &[Piece<'a>],
) -> Result<Finding<'a>, AllocError> {
    match symbols.first_missing(line.text, pieces, Wanted::Any) {
        Some(piece) => unknown(alloc, symbols, &piece),
        None => Ok(not_above(symbols, line, pieces)),
    }
}

// The first symbol of a line that is no `equ` name from above.
fn not_above<'a>(symbols: &Symbols<'a>, line: FaultyLine<'a>, pieces: &[Piece<'a>]) -> Finding<'a> {
    match symbols.first_missing(line.text, pieces, Wanted::EquAbove(line.number)) {
        Some(piece) => Finding::at(&piece, Meaning::NotAbove(piece.text)),
        None => Finding::whole(line.text, Meaning::UnknownSymbol(line.text, None)),
    }
}

/// Which symbols an operand may name.
#[derive(Clone, Copy)]
enum Wanted {
    // Any.
    Any,
    // An `equ` above this line.
    EquAbove(u32),
}

impl Wanted {
    fn takes(self, symbol: &Symbol<'_>) -> bool {
        match self {
            Wanted::Any => true,
            Wanted::EquAbove(number) => symbol.is_equ && symbol.line < number,
        }
    }
}

impl<'a> Symbols<'a> {
    // The first symbol of a line's operands that is none of these.
    fn first_missing(
        &self,
        line: &'a [u8],
        pieces: &[Piece<'a>],
        wanted: Wanted,
    ) -> Option<Piece<'a>> {
        let from = operands_of(line, pieces);
        for piece in pieces {
            if piece.start >= from && is_symbol(piece) && !self.has(piece.text, wanted) {
                return Some(*piece);
            }
        }
        None
    }

    // Whether a word names one of these symbols.
    fn has(&self, word: &'a [u8], wanted: Wanted) -> bool {
        let name = name_in(self.scope, word);
        for symbol in self.all.as_slice() {
            if wanted.takes(symbol) && symbol.name == name {
                return true;
            }
        }
        false
    }
}

// A word that names no symbol.
fn unknown<'a>(
    alloc: Global,
    symbols: &Symbols<'a>,
    piece: &Piece<'a>,
) -> Result<Finding<'a>, AllocError> {
    let word = piece.text;
    let meaning = if is_sixteen_bits(word) {
        Meaning::SixteenBits(word)
    } else if is_other_register(word) {
        Meaning::NoRegister(word)
    } else {
        Meaning::UnknownSymbol(word, near_symbol(alloc, symbols, word)?)
    };
    Ok(Finding::at(piece, meaning))
}

// The symbol that is near a word.
fn near_symbol<'a>(
    alloc: Global,
    symbols: &Symbols<'a>,
    word: &[u8],
) -> Result<Option<&'a [u8]>, AllocError> {
    let mut nearest = Nearest::new(word);
    for symbol in symbols.all.as_slice() {
        nearest = if_meant(alloc, nearest, symbols.scope, word, symbol)?;
    }
    Ok(nearest.name)
}

// The nearest with one more symbol, if it could be meant.
fn if_meant<'w, 'a>(
    alloc: Global,
    nearest: Nearest<'w, 'a>,
    scope: &[u8],
    word: &[u8],
    symbol: &Symbol<'a>,
) -> Result<Nearest<'w, 'a>, AllocError> {
    if !is_beside(scope, word, symbol) {
        return Ok(nearest);
    }
    nearest.with(alloc, symbol.name.own)
}

// Whether a symbol could be meant by a word: a local one, of this label, where the word is local.
fn is_beside(scope: &[u8], word: &[u8], symbol: &Symbol<'_>) -> bool {
    if is_local(word) {
        is_local(symbol.name.own) && symbol.name.scope == scope
    } else {
        !is_local(symbol.name.own)
    }
}
