//! The instructions of a picture of very few steps: below the row, each where the step begins that makes it.

ghost use Rattle.std.specs.Prelude.{◌≤◌};

use crate::bars::BAR;
use crate::frame::Sheet;
use crate::label::ROOM;
use crate::step_text::StepText;
use crate::svg::Svg;
use crate::value::Tenths;
use crate::value::Value::{Length, Number, Word};
use crate::window::RIGHT;
use text_out::Out;

// The width of a character in tenths of a pixel: of an instruction on one line, and of one on several, which is
// smaller.
const CHARACTER: u32 = 62;

const SMALL: u32 = 50;

/// Where an instruction stands.
#[derive(Clone, Copy)]
pub struct Slot {
    // Where it begins, from the left.
    x: Tenths,
    // Its first line, in pixels from above.
    y: u32,
    // How wide it may be.
    room: Tenths,
}

impl Slot {
    /// That of the step of this number of the row that begins there: as far as the core's next step, or else the
    /// picture's edge.
    pub fn of(sheet: &Sheet<'_>, number: u32, top: u32, next: Option<u32>) -> Slot
        requires { top ≤ 30000 }
    {
        let x = sheet.window.place(number);
        Slot {
            x,
            y: top + BAR + 15,
            room: room_to(sheet, x, next),
        }
    }
}

/// Draws an instruction: on one line where it fits.
pub fn draw_instruction<O: Out>(svg: &mut Svg<'_, O>, slot: Slot, text: Option<&StepText>) {
    let text = match text {
        Some(text) => text.instruction.as_str(),
        None => "",
    };
    if fits(text, slot.room, CHARACTER) {
        draw_text(svg, "d", slot.x, slot.y, text);
    } else {
        draw_parts(svg, slot, text);
    }
}

// The room from a place up to where a step begins, or else up to the picture's edge.
fn room_to(sheet: &Sheet<'_>, x: Tenths, next: Option<u32>) -> Tenths {
    match next {
        Some(step) => sheet.window.place(step).past(x),
        None => Tenths(RIGHT * 10).past(x),
    }
}

// Whether a text with characters of this width has room.
fn fits(text: &str, room: Tenths, character: u32) -> bool {
    room.0 >= character.saturating_mul(text.len().min(ROOM) as u32)
}

// The prefix, the mnemonic and the operands, each on a line of its own where it has room.
fn draw_parts<O: Out>(svg: &mut Svg<'_, O>, slot: Slot, text: &str) {
    let (prefix, rest) = match text.strip_prefix("lock ") {
        Some(rest) => ("lock", rest),
        None => ("", text),
    };
    let (mnemonic, operands) = rest.split_once(" ").unwrap_or((rest, ""));
    let (first, second) = operands.split_once(", ").unwrap_or((operands, ""));
    let mut line = slot.y;
    for part in [prefix, mnemonic, without_size(first), without_size(second)] {
        if !part.is_empty() && fits(part, slot.room, SMALL) {
            draw_text(svg, "f", slot.x, line, part);
            line = line.saturating_add(9);
        }
    }
}

// An operand without the word for its size.
fn without_size(operand: &str) -> &str {
    for word in ["dword ", "byte ", "short "] {
        if let Some(rest) = operand.strip_prefix(word) {
            return rest;
        }
    }
    operand
}

fn draw_text<'t, O: Out>(svg: &mut Svg<'_, O>, class: &'t str, x: Tenths, y: u32, text: &'t str) {
    svg.put(
        "<text class='{}' x='{}' y='{}'>{}</text>\n",
        &[Word(class), Length(x), Number(y), Word(text)],
    );
}
