//! The variables that a page shows, each by its name and address: [`shown_of`] finds them, [`write_shown`] writes
//! them.
//!
//! Those of `--show` are taken as they are. Where there are none, labels of data are taken by the survey: first
//! those on lines that transactions stored to, then those they loaded from. Values are not written, as the page has
//! memory itself.

ghost use Rattle.std.specs.Prelude.{OnOk, false};
ghost use Rattle.text_out.specs.Writing.{Wrote};
ghost use Rattle.elide_page.specs.Fronts.{shown_text, shows_text};

use elide_places::Places;
use elide_setup::Setup;
use page_program::Loaded;
use page_run::{Survey, UsedLine};
use page_text::{NAME, write_comma, write_number, write_string};
use std::alloc::AllocError;
use symbols::Symbol;
use text_out::{Out, WriteFault};

/// The most variables that are shown where none are asked for.
const MOST: usize = 6;

/// A variable.
#[derive(Clone, Copy)]
pub struct Shown<'a> {
    /// What it is called.
    pub name: &'a [u8],
    /// Its address.
    pub address: u32,
}

/// The variables of `--show`, whose values are the addresses of these sums; where there are none, up to six labels on
/// lines that transactions stored to, or else loaded from.
pub fn shown_of<'a>(
    loaded: Loaded<'a>,
    sums: &[&'a str],
    survey: &Survey,
) -> Result<Vec<Shown<'a>>, AllocError> {
    let mut list = Vec::new(loaded.alloc);
    let setup = loaded.setup;
    if sums.is_empty() {
        add_labels(&mut list, setup, loaded.places, survey, is_written)?;
        add_labels(&mut list, setup, loaded.places, survey, is_read)?;
    } else {
        add_sums(&mut list, sums, setup.parts.values.as_slice())?;
    }
    Ok(list)
}

fn add_sums<'a>(
    list: &mut Vec<Shown<'a>>,
    sums: &[&'a str],
    addresses: &[u32],
) -> Result<(), AllocError> {
    for index in 0..sums.len().min(addresses.len()) {
        list.push(Shown {
            name: sums[index].as_bytes(),
            address: addresses[index],
        })?;
    }
    Ok(())
}

fn is_written(line: UsedLine) -> bool {
    line.written
}

fn is_read(line: UsedLine) -> bool {
    line.read
}

// Adds the labels of data on lines of such a use, as far as there is room.
fn add_labels<'a, F: Fn(UsedLine) -> bool>(
    list: &mut Vec<Shown<'a>>,
    setup: &Setup,
    places: &'a Places,
    survey: &Survey,
    is_used: F,
) -> Result<(), AllocError>
    requires { F.IsAlwaysCallable is_used }
{
    for label in places.labels() {
        if list.len() < MOST && is_variable(setup, label, survey, &is_used) {
            add_label(list, label)?;
        }
    }
    Ok(())
}

// Whether a label stands outside of the code, on a line of such a use, with four bytes of memory behind it.
fn is_variable<F: Fn(UsedLine) -> bool>(
    setup: &Setup,
    label: &Symbol,
    survey: &Survey,
    is_used: &F,
) -> bool
    requires { F.IsAlwaysCallable is_used.now }
{
    let address = label.value();
    if is_in_code(setup, address) || address > setup.program.mem_size().saturating_sub(4) {
        return false;
    }
    match survey.lines.get(address as usize / 64) {
        Some(line) => is_used(*line),
        None => false,
    }
}

fn is_in_code(setup: &Setup, address: u32) -> bool {
    match address.checked_sub(setup.program.base()) {
        Some(offset) => (offset as usize) < setup.program.code().len(),
        None => false,
    }
}

// Adds a label, where it does not stand there.
fn add_label<'a>(list: &mut Vec<Shown<'a>>, label: &'a Symbol) -> Result<(), AllocError> {
    let address = label.value();
    let name = label.name();
    if !list
        .iter()
        .any(|shown| shown.address == address && shown.name == name)
    {
        list.push(Shown { name, address })?;
    }
    Ok(())
}

/// Writes the variables, each with its name and its address.
pub fn write_shown<O: Out>(list: &[Shown<'_>], out: &mut O) -> Result<(), WriteFault>
    ensures { OnOk result (Wrote (O.device out.old) (O.device out.new) (shows_text false list.now)) }
{
    let mut some = false;
    for shown in list {
        write_comma(some, out)?;
        write_one(*shown, out)?;
        some = true;
    }
    Ok(())
}

fn write_one<O: Out>(shown: Shown<'_>, out: &mut O) -> Result<(), WriteFault>
    ensures { OnOk result (Wrote (O.device out.old) (O.device out.new) (shown_text shown.entry)) }
{
    out.put(b"[")?;
    write_string(shown.name, NAME, out)?;
    out.put(b",")?;
    write_number(u64::from(shown.address), out)?;
    out.put(b"]")?;
    Ok(())
}
