//! The steps of a picture of few steps, one by one.

ghost use Rattle.std.specs.Prelude.{◌≤◌};

use crate::bars::BAR;
use crate::frame::Sheet;
use crate::instructions::{Slot, draw_instruction};
use crate::spans::{Spans, Step};
use crate::step_text::{StepText, draw_step_text};
use crate::svg::Svg;
use crate::value::Value::{Core, Length, Number, Word};
use crate::window::{LEFT, RIGHT, number_of};
use text_out::Out;
use tm_model::Outcome;

/// Draws a line for each row, and the steps on it, with their instructions where there is room.
pub fn draw_ticks<O: Out>(svg: &mut Svg<'_, O>, sheet: &Sheet<'_>, spans: &Spans) {
    draw_rows(svg, sheet);
    for index in 0..spans.steps.len() {
        let step = spans.steps[index];
        if let Some(row) = sheet.rows.row_of(step.core) {
            let top = sheet.top(row);
            let text = spans.text_of(step);
            draw_step(svg, sheet, step, text, top);
            if sheet.window.has_instructions() {
                let next = next_of(&spans.steps.as_slice()[index + 1..], step.core);
                let slot = Slot::of(sheet, step.number, top, next);
                draw_instruction(svg, slot, text);
            }
        }
    }
}

// The number of the first of these steps that a core makes, if there is one.
fn next_of(steps: &[Step], core: u8) -> Option<u32> {
    let next = steps.iter().find(|step| step.core == core)?;
    Some(next.number)
}

// A line for each row.
fn draw_rows<O: Out>(svg: &mut Svg<'_, O>, sheet: &Sheet<'_>) {
    for row in 0..sheet.rows.count() {
        let y = sheet.top(row) + BAR / 2;
        svg.put(
            "<path class='r' d='M{} {}H{}'/>\n",
            &[Number(LEFT), Number(y), Number(RIGHT)],
        );
    }
}

// A step of the row that begins there: on it where the step is outside of transactions, and below the bar where it is
// one of a transaction, or the drain of a store. Its title says what it was.
fn draw_step<O: Out>(
    svg: &mut Svg<'_, O>,
    sheet: &Sheet<'_>,
    step: Step,
    text: Option<&StepText>,
    top: u32,
)
    requires { top ≤ 30000 }
{
    let x = sheet.window.place(step.number);
    let next = sheet.window.place(step.number.saturating_add(1));
    let width = next.past(x).less_gap();
    let look = look_of(step);
    let (y, height) = if look.is_below {
        (top + BAR + 2, 3)
    } else {
        (top + BAR / 2 - 4, 8)
    };
    svg.put(
        "<rect class='{}' x='{}' y='{}' width='{}' height='{}'><title>step {}: core {} {}",
        &[
            Word(look.class),
            Length(x),
            Number(y),
            Length(width),
            Number(height),
            Number(number_of(step.number)),
            Core(step.core),
            Word(look.word),
        ],
    );
    if let Some(text) = text {
        draw_step_text(svg, text);
    }
    svg.text("</title></rect>\n");
}

// How a step is drawn.
#[derive(Clone, Copy)]
struct Look {
    // Whether it is drawn below the bar, as those of a transaction are.
    is_below: bool,
    class: &'static str,
    word: &'static str,
}

fn look_of(step: Step) -> Look {
    let (is_below, class, word) = match step.outcome {
        Outcome::Plain if step.waits => (false, "v", "plain, waits"),
        Outcome::Loaded if step.waits => (false, "v", "loaded, waits"),
        Outcome::Plain => (false, "g", "plain"),
        Outcome::Loaded => (false, "g", "loaded"),
        Outcome::Stopped(_) => (false, "s", "stopped"),
        Outcome::Idle => (false, "i", "idle"),
        Outcome::Begun => (true, "t", "begun"),
        Outcome::Inside => (true, "t", "inside"),
        Outcome::Committed => (true, "t", "committed"),
        Outcome::Aborted(_) => (true, "t", "aborted"),
        Outcome::AbortedBy(_, _) => (true, "t", "aborted"),
        // Below the row: its core may be in a transaction, whose step it is not.
        Outcome::Drained => (true, "g", "drained"),
    };
    Look {
        is_below,
        class,
        word,
    }
}
