//! Labels by their addresses.
//!
//! Promised: a label that is found stands at its address by the symbols of the file, and its name is told as it is
//! shown (`specs/Names.antt`). That each label is found is compared by `doc_tests`.

ghost use Rattle.std.specs.Prelude.{◌≡◌, All, IfOk, OnOk, option_map};
ghost use Rattle.elide_outcomes.specs.Names.{IsLabelOf, label_at};

use elide_places::Places;
use elide_program::{ProgramFile, add};
use std::alloc::{AllocError, Global};
use symbols::{Symbol, first_at};

/// The labels of a file that was read from this text, where they are asked for.
pub fn labels_of(
    alloc: Global,
    is_asked: bool,
    text: &[u8],
    file: &ProgramFile<'_>,
) -> Result<Vec<Symbol>, AllocError>
    ensures { IfOk result (λ labels. All (IsLabelOf file.now) labels.items) }
{
    if !is_asked {
        return Ok(Vec::new(alloc));
    }
    let places = Places::of_file(alloc, file, text)?;
    let labels = those_of(alloc, places.labels(), file);
    drop(places);
    labels
}

// Those of these that the file knows by their names.
fn those_of(
    alloc: Global,
    places: &[Symbol],
    file: &ProgramFile<'_>,
) -> Result<Vec<Symbol>, AllocError>
    ensures { IfOk result (λ labels. All (IsLabelOf file.now) labels.items) }
{
    let mut labels = Vec::new(alloc);
    for label in places {
        add_label(alloc, &mut labels, label.name(), file)?;
    }
    Ok(labels)
}

// Adds the label of a name, where the file has it.
fn add_label(
    alloc: Global,
    labels: &mut Vec<Symbol>,
    name: &[u8],
    file: &ProgramFile<'_>,
) -> Result<(), AllocError>
    ensures { OnOk result (All (IsLabelOf file.now) labels.old.items → All (IsLabelOf file.now) labels.new.items) }
{
    let Some(address) = file.symbol(name) else {
        return Ok(());
    };
    let label = Symbol::of(alloc, &[], name, address)?;
    add(labels, label)
}

/// The name of the first label at an address, as it is shown.
pub fn label_at(labels: &[Symbol], address: u32) -> Option<&[u8]>
    ensures { option_map (λ name. name.now) result ≡ label_at labels.now address }
{
    let label = first_at(labels, address)?;
    Some(label.shown())
}
