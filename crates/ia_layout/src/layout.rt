//! Where items go: a walk over a source that keeps the next address of each section.

ghost use Rattle.std.specs.Prelude.{◌≡◌, ◌≤◌, ◌<◌, ◌+◌, ◌-◌, ◌^◌, ℕ, ℤ, pos, negsuc, ◌≤ℤ◌, IfOk, OnOk, false, length};
ghost use Rattle.ia_item.specs.Fits.{Fits, FitsItem, FitsEntry};
ghost use Rattle.ia_resolve.specs.Items.{code_bytes};
ghost use Rattle.ia_layout.specs.Placement.{nowhere, critical_value, critical_fault, gap, size_of, at_in, place_at};
ghost use Rattle.ia_layout.specs.Placement.{above_next, text_next, tail_next, next, start, tail_base};
ghost use Rattle.ia_layout.specs.Contents.{entry_place, layout_state, IsBounded};

use ia_encode::encode_with;
use ia_item::{Entry, Item, Section, Template};
use ia_resolve::{
    ExpressionValue, NoSymbols, PlaceFault, Table, expression_value, modulo_long, resolve_template,
    wide,
};
use indexmap::IndexMap;
use std::alloc::{AllocError, Global};

/// The place of an entry.
#[derive(Clone, Copy)]
pub struct PlacedEntry<'a, 'b> {
    /// The entry.
    pub entry: &'b Entry<'a>,
    /// How many bytes it takes.
    pub size: u64,
    /// Its address, exact however far it lies.
    pub at: u128,
    /// The value of `equ`, or the count of `resb`.
    pub critical_value: i64,
    /// What is wrong with these.
    pub fault: Option<PlaceFault>,
}

/// A walk over entries.
#[derive(Drop)]
pub struct Layout {
    /// The `equ` symbols so far.
    pub above: Table,
    /// Where the next item of the code goes.
    pub text: u128,
    /// Where the next item of the data goes.
    pub tail: u128,
}

/// The value of `equ`, or the count of `resb`, by the `equ` symbols above.
#[tactic(auto, unfolding(crate::specs::Placement::critical_value, crate::specs::Placement::critical_fault))]
fn critical_value(above: &Table, item: &Item) -> ExpressionValue
    requires { FitsItem item.now }
    ensures value { result.value ≡ critical_value above.now.values.entries item.now }
    ensures fault { result.fault ≡ critical_fault above.now.values.entries item.now }
    ensures low { negsuc (2 ^ 31 - 1) ≤ℤ result.value }
    ensures high { result.value ≤ℤ pos (2 ^ 32 - 1) }
{
    match item {
        Item::Equ(_, expression) => expression_value(above, -0x8000_0000, 0xffff_ffff, expression),
        Item::Reserve(expression) => expression_value(above, 0, 0xffff_ffff, expression),
        _ => ExpressionValue {
            value: 0,
            fault: None,
        },
    }
}

/// How far it is from an address to the next multiple.
pub fn gap(multiple: u32, at: u128) -> u64
    requires { 0 < multiple }
    ensures value { result ≡ gap multiple at }
    ensures small { result < multiple }
{
    let n = u64::from(multiple);
    let over = (at % u128::from(multiple)) as u64;
    (n - over) % n
}

#[tactic(auto, unfolding(ia_resolve::specs::Items::code_bytes))]
fn code_size(at: u128, template: &Template) -> u64
    requires near { at ≤ 2 ^ 126 }
    requires fits { Fits template.now }
    ensures { result ≡ length (code_bytes nowhere at template.now) }
{
    let resolved = resolve_template(&NoSymbols, at, template);
    let bytes = encode_with(
        &resolved.insn,
        wide(&template.number),
        wide(&template.displacement),
    );
    bytes.as_slice().len() as u64
}

/// How many bytes an item takes at an address.
#[tactic(auto, using(crate::proofs::Powers::power_some), unfolding(crate::specs::Placement::size_of))]
fn size_of(at: u128, value: i64, item: &Item) -> u64
    requires near { at ≤ 2 ^ 126 }
    requires fits { FitsItem item.now }
    requires low { negsuc (2 ^ 31 - 1) ≤ℤ value }
    requires high { value ≤ℤ pos (2 ^ 32 - 1) }
    ensures { result ≡ size_of at value item.now }
{
    match item {
        Item::Label(_) => 0,
        Item::Equ(_, _) => 0,
        Item::Code(template) => code_size(at, template),
        Item::Byte(_) => 1,
        Item::Text(bytes) => bytes.len() as u64,
        Item::Numbers(bytes) => bytes.as_slice().len() as u64,
        Item::Long(_) => 4,
        Item::Reserve(_) => u64::from(modulo_long(value)),
        Item::Align(multiple) => gap(*multiple, at),
        Item::Org(_) => 0,
    }
}

/// Takes in the value of `equ`.
#[tactic(auto, unfolding(crate::specs::Placement::above_next))]
fn define_equ(above: &mut Table, value: i64, item: &Item) -> Result<(), AllocError>
    ensures { OnOk result (above.new.values.entries ≡ above_next above.old.values.entries value item.now) }
{
    match item {
        Item::Equ(definition, _) => match above
            .values
            .insert(definition.symbol, i128::from(value))
        {
            Ok(_) => Ok(()),
            Err(_) => Err(AllocError),
        },
        _ => Ok(()),
    }
}

/// Where the data begins.
pub fn tail_base(text_end: u128) -> u128
    requires { text_end ≤ 2 ^ 123 }
    ensures value { result ≡ tail_base text_end }
    ensures near { result ≤ 2 ^ 124 }
{
    text_end + u128::from(gap(64, text_end))
}

impl Layout {
    /// A walk that puts the code and the data there.
    pub fn new(alloc: Global, base: u128, tail: u128) -> Layout
        ensures { layout_state result ≡ start base tail }
    {
        Layout {
            above: Table {
                values: IndexMap::new(alloc),
            },
            text: base,
            tail,
        }
    }

    /// Whether an address is above 2^100.
    pub(crate) fn is_far(&self) -> bool
        ensures text { result ≡ false → self.now.text ≤ 2 ^ 100 }
        ensures tail { result ≡ false → self.now.tail ≤ 2 ^ 100 }
    {
        self.text > 1 << 100 || self.tail > 1 << 100
    }

    /// Where the code ends. [`AllocError`] where that is above 2^100: no machine holds such an image.
    pub fn end(&self) -> Result<u128, AllocError>
        ensures end { IfOk result (λ end. end ≡ self.now.text) }
        ensures near { IfOk result (λ end. end ≤ 2 ^ 123) }
    {
        if self.is_far() {
            Err(AllocError)
        } else {
            Ok(self.text)
        }
    }

    fn at(&self, section: Section) -> u128
        ensures { result ≡ at_in section (layout_state self.now) }
    {
        match section {
            Section::Text => self.text,
            Section::Data => self.tail,
        }
    }

    fn advance(&mut self, section: Section, size: u64)
        requires text { self.old.text ≤ 2 ^ 125 }
        requires tail { self.old.tail ≤ 2 ^ 125 }
        ensures above { self.new.above ≡ self.old.above }
        ensures text { self.new.text ≡ text_next section self.old.text size }
        ensures tail { self.new.tail ≡ tail_next section self.old.tail size }
    {
        match section {
            Section::Text => self.text += u128::from(size),
            Section::Data => self.tail += u128::from(size),
        }
    }

    /// Places an entry behind the one before.
    pub fn place<'a, 'b>(&mut self, entry: &'b Entry<'a>) -> Result<PlacedEntry<'a, 'b>, AllocError>
        requires fits { FitsEntry entry.now }
        requires text { self.old.text ≤ 2 ^ 125 }
        requires tail { self.old.tail ≤ 2 ^ 125 }
        ensures place { IfOk result (λ s. entry_place s ≡ place_at (layout_state self.old) entry.now) }
        ensures next { OnOk result (layout_state self.new ≡ next (layout_state self.old) entry.now) }
        ensures text_near { OnOk result (self.new.text ≤ self.old.text + 2 ^ 64) }
        ensures tail_near { OnOk result (self.new.tail ≤ self.old.tail + 2 ^ 64) }
        ensures good { IfOk result IsBounded }
    {
        let at = self.at(entry.section);
        let found = critical_value(&self.above, &entry.item);
        let size = size_of(at, found.value, &entry.item);
        define_equ(&mut self.above, found.value, &entry.item)?;
        self.advance(entry.section, size);
        Ok(PlacedEntry {
            entry,
            at,
            size,
            critical_value: found.value,
            fault: found.fault,
        })
    }
}
