//! What a source gives, for each who asks: the image, the symbols with their values, and the listing, or some of these.

ghost use Rattle.std.specs.Prelude.{◌≡◌};
ghost use Rattle.ia_asm.specs.Assemblies.{known_as};

use crate::marks::{CodeLine, SymbolKind};
use ia_item::Name;
use indexmap::IndexMap;

/// What a source gives.
#[derive(Drop)]
pub struct Unit<'a> {
    /// The code, and behind it, at the next multiple of 64, the data, if any.
    pub image: Vec<u8>,
    /// The address of the image.
    pub base: u32,
    /// How many bytes of the image are code.
    pub code_len: u32,
    /// The symbols in the order of the source, with their values modulo 2^32.
    pub symbols: IndexMap<Name<'a>, u32>,
    /// The listing, in the order of the source.
    pub listing: Vec<u8>,
}

/// What a source gives to run: its `Unit` without the listing, and by what its addresses are told.
#[derive(Drop)]
pub struct ProgramImage<'a> {
    /// The code, and behind it, at the next multiple of 64, the data, if any.
    pub image: Vec<u8>,
    /// The address of the image.
    pub base: u32,
    /// How many bytes of the image are code.
    pub code_len: u32,
    /// The symbols in the order of the source, with their values modulo 2^32.
    pub symbols: IndexMap<Name<'a>, u32>,
    /// What each of the symbols is defined as, in the same order.
    pub kinds: Vec<SymbolKind>,
    /// Where the instructions stand, in the order of the source.
    pub lines: Vec<CodeLine>,
}

/// The image that a source gives: its `Unit` without the symbols and the listing.
#[derive(Drop)]
pub struct CodeImage {
    /// The code, and behind it, at the next multiple of 64, the data, if any.
    pub image: Vec<u8>,
    /// The address of the image.
    pub base: u32,
    /// How many bytes of the image are code.
    pub code_len: u32,
}

/// The value of a symbol by its whole name.
fn address_in(symbols: &IndexMap<Name, u32>, name: &[u8]) -> Option<u32>
    ensures { result ≡ known_as name.now symbols.now.entries }
{
    symbols.get(&Name::new(name)).copied()
}

impl<'a> Unit<'a> {
    /// The value of a symbol by its whole name, modulo 2^32.
    pub fn address(&self, name: &[u8]) -> Option<u32>
        ensures { result ≡ known_as name.now self.now.symbols.entries }
    {
        address_in(&self.symbols, name)
    }
}

impl<'a> ProgramImage<'a> {
    /// The value of a symbol by its whole name, modulo 2^32.
    pub fn address(&self, name: &[u8]) -> Option<u32>
        ensures { result ≡ known_as name.now self.now.symbols.entries }
    {
        address_in(&self.symbols, name)
    }
}
