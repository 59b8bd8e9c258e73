//! The variables of a picture of few steps: a row for each, with the values that memory has there.

ghost use Rattle.std.specs.Prelude.{◌≤◌};

use crate::label::Label;
use crate::svg::Svg;
use crate::value::Tenths;
use crate::value::Value::{Length, Number, Status, Word};
use crate::window::{RIGHT, Window};
use std::alloc::{AllocError, Global};
use text_out::Out;

/// The height of a variable's row in pixels.
pub const HEIGHT: u32 = 26;

// The most variables that are drawn.
const MOST: usize = 64;

// How many bytes of a name stand beside its row.
const NAME: usize = 9;

// The width of a digit in tenths of a pixel.
const DIGIT: u32 = 75;

/// A variable, and what memory had there.
#[derive(Drop)]
struct Variable {
    name: Label,
    // Its values: each holds up to the next.
    values: Vec<Held>,
}

// A value that memory had behind so many steps of the run.
#[derive(Clone, Copy)]
struct Held {
    steps: u32,
    value: u32,
}

/// The variables that are drawn, at most 64, in their order.
#[derive(Drop)]
pub struct Variables {
    list: Vec<Variable>,
}

impl Variables {
    /// None.
    pub fn new(alloc: Global) -> Variables {
        Variables {
            list: Vec::new(alloc),
        }
    }

    /// One more, of this name. Beside 64 others it is left out.
    pub fn add(&mut self, alloc: Global, name: Label) -> Result<(), AllocError> {
        if self.list.len() >= MOST {
            return Ok(());
        }
        let variable = Variable {
            name,
            values: Vec::new(alloc),
        };
        self.list.push(variable)?;
        Ok(())
    }

    /// How many there are.
    pub fn count(&self) -> u32
        ensures { result ≤ 64 }
    {
        self.list.len().min(MOST) as u32
    }

    /// Tells the value that a variable has behind so many steps of the run.
    pub fn tell(
        &mut self,
        index: usize,
        window: Window,
        steps: u32,
        value: u32,
    ) -> Result<(), AllocError> {
        if index >= self.list.len() || steps > window.to {
            return Ok(());
        }
        let values = &mut self.list[index].values;
        if steps <= window.from {
            values.clear();
        }
        match values.last() {
            Some(held) if held.value == value => {}
            _ => values.push(Held { steps, value })?,
        }
        Ok(())
    }

    /// Draws a row for each, one below another.
    pub fn draw<O: Out>(&self, svg: &mut Svg<'_, O>, window: Window, top: u32)
        requires { top ≤ 30000 }
    {
        let mut y = top;
        for variable in self.list.as_slice() {
            variable.draw(svg, window, y);
            y = y.saturating_add(HEIGHT);
        }
    }
}

impl Variable {
    fn draw<O: Out>(&self, svg: &mut Svg<'_, O>, window: Window, y: u32) {
        svg.put(
            "<text class='j' x='12' y='{}'><title>{}</title>",
            &[Number(y.saturating_add(12)), Word(self.name.as_str())],
        );
        let name = self.name.as_str();
        svg.put("{}</text>\n", &[Word(short_of(name))]);
        let values = self.values.as_slice();
        for index in 0..values.len() {
            let end = match values.get(index + 1) {
                Some(next) => window.place(next.steps),
                None => Tenths(RIGHT * 10),
            };
            let held = values[index];
            draw_title(svg, name, held);
            draw_value(svg, window.place(held.steps), end, held, y);
        }
    }
}

// Begins the group of a value with its title.
fn draw_title<O: Out>(svg: &mut Svg<'_, O>, name: &str, held: Held) {
    svg.put(
        "<g><title>{}={} {}, behind step {}</title>",
        &[
            Word(name),
            Status(held.value),
            Number(held.value),
            Number(held.steps),
        ],
    );
}

// A value from one place to another, and its number where that has room. It ends the group.
fn draw_value<O: Out>(svg: &mut Svg<'_, O>, x: Tenths, end: Tenths, held: Held, y: u32) {
    let width = end.past(x);
    svg.put(
        "<rect class='y' x='{}' y='{}' width='{}' height='17'/>",
        &[Length(x), Number(y), Length(width)],
    );
    let room = digits_of(held.value).saturating_mul(DIGIT);
    if width.0 >= room.saturating_add(60) {
        svg.put(
            "<text class='j' x='{}' y='{}'>{}</text>",
            &[
                Length(x.plus(30)),
                Number(y.saturating_add(13)),
                Number(held.value),
            ],
        );
    }
    svg.text("</g>\n");
}

// A name that has room beside its row, or else a mark that there is one.
fn short_of(name: &str) -> &str {
    if name.len() <= NAME { name } else { ".." }
}

// How many decimal digits a number has.
fn digits_of(number: u32) -> u32 {
    match number.checked_ilog10() {
        Some(digits) => digits.saturating_add(1),
        None => 1,
    }
}
