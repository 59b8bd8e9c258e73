//! Symbols (gABI, chapter 4, "Symbol Table" and "String Table").

ghost use Rattle.std.specs.Prelude.{◌≡◌, ◌+◌, ◌*◌, ◌/◌, ◌%◌, ◌<◌, ◌≤◌, length};
ghost use Rattle.std.specs.List.{prefix_len};
ghost use Rattle.ia_elf.specs.Symbols.{IsFirstValue, IsSymbolAt, is_not_nul, name_at};

use crate::fields::{half_at, word_at};
use crate::tables::SYMBOL;

/// Where the fields of a symbol lie.
const ST_VALUE: usize = 4;

const ST_INFO: usize = 12;

const ST_SHNDX: usize = 14;

/// The last of the kinds that are told: STT_NOTYPE, STT_OBJECT and STT_FUNC.
const STT_FUNC: u8 = 2;

/// The symbol stands for one of another file.
const SHN_UNDEF: u16 = 0;

/// A symbol: its name, of one byte or more, and its value, which is an address unless the symbol is absolute.
#[derive(Clone, Copy, PartialEq, Eq, Debug)]
pub struct Symbol<'a> {
    /// The bytes of the name.
    pub name: &'a [u8],
    /// The value.
    pub value: u32,
}

// How many bytes stand before the first NUL.
#[tactic(auto, using(crate::proofs::Fronts::prefix_steps))]
fn name_length(text: &[u8]) -> usize
    ensures long { result ≡ prefix_len is_not_nul text.now }
    ensures within { result ≤ length text.now }
{
    for (place, byte) in text.iter().enumerate() {
        if *byte == 0 {
            return place;
        }
    }
    text.len()
}

/// The bytes of a name up to its NUL, or up to the end of the strings.
pub(crate) fn name_at(strings: &[u8], start: usize) -> &[u8]
    ensures { result.now ≡ name_at strings.now start }
{
    if start >= strings.len() {
        return &[];
    }
    let text = &strings[start..];
    &text[..name_length(text)]
}

/// The symbol that the entry of this number says, where it is one.
pub(crate) fn symbol_at<'a>(
    symbols: &'a [u8],
    strings: &'a [u8],
    number: usize,
) -> Option<Symbol<'a>>
    ensures { IsSymbolAt symbols.now strings.now number result }
{
    if number >= symbols.len() / SYMBOL {
        return None;
    }
    let at = SYMBOL * number;
    let name = name_at(strings, word_at(symbols, at) as usize);
    let kind = symbols[at + ST_INFO] % 16;
    if kind > STT_FUNC || half_at(symbols, at + ST_SHNDX) == SHN_UNDEF || name.is_empty() {
        return None;
    }
    Some(Symbol {
        name,
        value: word_at(symbols, at + ST_VALUE),
    })
}

/// The value of the first symbol of this name.
pub(crate) fn first_value(symbols: &[u8], strings: &[u8], name: &[u8]) -> Option<u32>
    ensures { IsFirstValue symbols.now strings.now name.now result }
{
    for number in 0..symbols.len() / SYMBOL {
        if let Some(symbol) = symbol_at(symbols, strings, number) {
            if symbol.name == name {
                return Some(symbol.value);
            }
        }
    }
    None
}
