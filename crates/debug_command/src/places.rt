//! What labels say of an address.

ghost use Rattle.std.specs.Prelude.{◌≡◌, ◌-◌, ◌≤◌, ◌++◌, IfOk, Some, codes, length};
ghost use Rattle.arrayvec.specs.ArrayVec.{array_vec_len};
ghost use Rattle.ia_text.specs.Listing.{shown_bytes};
ghost use Rattle.text_out.specs.Writing.{Writes};
ghost use Rattle.debug_command.specs.Places.{distance_text, label_text, labelled_line, name_line, names_text};
ghost use Rattle.debug_command.specs.Places.{place_text};

use ia_text::write_line;
use symbols::{Symbol, first_nearest};
use text_out::page::{Page, push, push_number};
use text_out::{Out, WriteFault};

// Adds a distance, unless it is 0, and the closing bracket.
fn push_back(row: &mut Page, distance: u32)
    requires { array_vec_len row.old ≡ 0 }
    ensures { row.new.items ≡ row.old.items ++ (distance_text distance ++ codes ">") }
{
    if distance != 0 {
        push(row, b"+");
        push_number(row, distance);
    }
    push(row, b">");
}

// Writes a name and what stands behind it.
fn write_name<O: Out>(name: &[u8], back: &[u8], out: &mut O) -> Result<(), WriteFault>
    ensures { Writes (O.device out.old) (O.device out.new) (name.now ++ back.now) result }
{
    out.put(name)?;
    out.put(back)?;
    Ok(())
}

// Writes the name of a label, and how far an address lies above it.
fn write_label<O: Out>(label: &Symbol, address: u32, out: &mut O) -> Result<(), WriteFault>
    ensures { Writes (O.device out.old) (O.device out.new) (label_text (Some label.now) address) result }
{
    let mut back = Page::new();
    push_back(&mut back, address.saturating_sub(label.value()));
    out.put(b" <")?;
    write_name(label.shown(), back.as_slice(), out)
}

/// Writes the label at an address, or the nearest below with the distance, as ` <loop+0x4>`, of several the first;
/// nothing where there is none. Names are written as they are shown.
pub fn write_place<O: Out>(labels: &[Symbol], address: u32, out: &mut O) -> Result<(), WriteFault>
    ensures { Writes (O.device out.old) (O.device out.new) (place_text labels.now address) result }
{
    match first_nearest(labels, u64::from(address) + 1) {
        Some(label) => write_label(label, address, out),
        None => Ok(()),
    }
}

// Writes the name of a label, where it stands at this address.
fn write_name_line<O: Out>(label: &Symbol, at: u32, out: &mut O) -> Result<(), WriteFault>
    ensures { Writes (O.device out.old) (O.device out.new) (name_line at label.now) result }
{
    if label.value() == at {
        write_name(label.shown(), b":\n", out)
    } else {
        Ok(())
    }
}

/// Writes the names of the labels at an address, a line each.
#[tactic(auto, unfolding(crate::specs::Places::names_text))]
pub fn write_names<O: Out>(labels: &[Symbol], at: u32, out: &mut O) -> Result<(), WriteFault>
    ensures { Writes (O.device out.old) (O.device out.new) (names_text labels.now at) result }
{
    'labels: for index in 0..labels.len() {
        write_name_line(&labels[index], at, out)?;
    }
    Ok(())
}

/// Writes a listing line, with the names of the labels above it, and tells how many bytes it shows. Of no code it
/// writes no name.
pub fn write_labelled<O: Out>(
    labels: &[Symbol],
    code: &[u8],
    at: u32,
    out: &mut O,
) -> Result<u8, WriteFault>
    ensures text { Writes (O.device out.old) (O.device out.new) (labelled_line labels.now code.now at) result }
    ensures shown { IfOk result (λ shown. shown ≡ shown_bytes code.now) }
    ensures within { IfOk result (λ shown. shown ≤ length code.now) }
{
    if code.is_empty() {
        return write_line(code, at, out);
    }
    write_names(labels, at, out)?;
    write_line(code, at, out)
}
