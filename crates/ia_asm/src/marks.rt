//! What tells a source's places beside its bytes: the line of each instruction, and which symbols are labels.

ghost use Rattle.std.specs.Prelude.{◌≡◌, ◌++◌, [], refl, OnOk};
ghost use Rattle.ia_layout.specs.Contents.{entry_place};
ghost use Rattle.ia_layout.specs.Parts.{Keeps, keeps_both};
ghost use Rattle.ia_asm.specs.Assemblies.{code_line, symbol_kind};
ghost use Rattle.ia_asm.specs.Takers.{kinds_with, lines_with};

use ia_item::Item;
use ia_layout::{PlacedEntry, Taker};
use std::alloc::{AllocError, Global};

/// Where an instruction stands.
#[derive(Clone, Copy, PartialEq, Eq, Debug)]
pub struct CodeLine {
    /// Its address modulo 2^32.
    pub address: u32,
    /// Its line, counted from 1.
    pub line: u32,
}

/// What a symbol is defined as.
#[derive(Clone, Copy, PartialEq, Eq, Debug)]
pub enum SymbolKind {
    /// As the address of what follows.
    Label,
    /// By `equ`.
    Equate,
}

/// Takes places, and keeps the lines of the instructions, and the kinds of the symbols that are defined there.
#[derive(Drop)]
pub struct Marks {
    /// The instructions so far, in the order of the source.
    pub lines: Vec<CodeLine>,
    /// The symbols' kinds so far, in the order of the source.
    pub kinds: Vec<SymbolKind>,
}

/// Takes in an instruction.
#[tactic(auto, unfolding(crate::specs::Assemblies::item_line))]
fn push_line(lines: &mut Vec<CodeLine>, spot: &PlacedEntry) -> Result<(), AllocError>
    ensures { OnOk result (lines.new.items ≡ lines.old.items ++ code_line (entry_place spot.now)) }
{
    match &spot.entry.item {
        Item::Code(_) => {
            lines.push(CodeLine {
                address: (spot.at % (1 << 32)) as u32,
                line: spot.entry.line,
            })?;
            Ok(())
        }
        _ => Ok(()),
    }
}

/// Takes in a label or `equ`.
#[tactic(auto, unfolding(crate::specs::Assemblies::item_kind))]
fn push_kind(kinds: &mut Vec<SymbolKind>, spot: &PlacedEntry) -> Result<(), AllocError>
    ensures { OnOk result (kinds.new.items ≡ kinds.old.items ++ symbol_kind (entry_place spot.now)) }
{
    match &spot.entry.item {
        Item::Label(_) => {
            kinds.push(SymbolKind::Label)?;
            Ok(())
        }
        Item::Equ(_, _) => {
            kinds.push(SymbolKind::Equate)?;
            Ok(())
        }
        _ => Ok(()),
    }
}

impl Marks {
    /// None yet.
    pub fn new(alloc: Global) -> Marks
        ensures lines { result.lines.items ≡ [] }
        ensures kinds { result.kinds.items ≡ [] }
    {
        Marks {
            lines: Vec::new(alloc),
            kinds: Vec::new(alloc),
        }
    }
}

impl<'a> Taker<'a> for Marks {
    ghost Taken = { λ a ps b. Keeps lines_with a ps b × Keeps kinds_with a ps b };

    ghost stays = { λ t. (λ more. refl, λ more. refl) };

    ghost goes_on = { λ a b c ps qs x y. (
      keeps_both lines_with a b c ps qs x.0 y.0,
      keeps_both kinds_with a b c ps qs x.1 y.1,
    ) };

    fn take(&mut self, spot: &PlacedEntry<'a, '_>) -> Result<(), AllocError> {
        push_line(&mut self.lines, spot)?;
        push_kind(&mut self.kinds, spot)
    }
}
