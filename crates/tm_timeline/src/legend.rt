//! What the colours and outlines of a picture mean.

ghost use Rattle.std.specs.Prelude.{◌≤◌};

use crate::svg::Svg;
use crate::value::Value::{Number, Word};
use crate::window::LEFT;
use text_out::Out;

// A class with its meaning.
#[derive(Clone, Copy)]
struct Entry {
    // Where it stands, in pixels from the left.
    x: u32,
    class: &'static str,
    meaning: &'static str,
}

// The classes of a picture of few steps. Only bars are hatched.
const BARS: [Entry; 6] = [
    Entry {
        x: LEFT,
        class: "b k",
        meaning: "committed",
    },
    Entry {
        x: 174,
        class: "b x",
        meaning: "aborted by a conflict",
    },
    Entry {
        x: 354,
        class: "b h",
        meaning: "doomed, not yet aborted",
    },
    Entry {
        x: 544,
        class: "b o",
        meaning: "other abort",
    },
    Entry {
        x: 664,
        class: "b p",
        meaning: "not ended",
    },
    Entry {
        x: 770,
        class: "g",
        meaning: "outside",
    },
];

// The classes of a picture of many steps.
const AREAS: [Entry; 5] = [
    Entry {
        x: LEFT,
        class: "b k",
        meaning: "committed",
    },
    Entry {
        x: 174,
        class: "b x",
        meaning: "aborted by a conflict",
    },
    Entry {
        x: 354,
        class: "b o",
        meaning: "other abort",
    },
    Entry {
        x: 474,
        class: "b p",
        meaning: "not ended",
    },
    Entry {
        x: 580,
        class: "q",
        meaning: "outside",
    },
];

// The classes of steps that are drawn one by one, on a line of their own.
const TICKS: [Entry; 3] = [
    Entry {
        x: 770,
        class: "v",
        meaning: "outside, waits",
    },
    Entry {
        x: 544,
        class: "s",
        meaning: "stops",
    },
    Entry {
        x: 664,
        class: "i",
        meaning: "has stopped",
    },
];

// How far its first line stands below the axis.
const BELOW: u32 = 64;

/// The height of the line for steps that are drawn one by one.
pub const TICK_LINE: u32 = 20;

/// Draws what the classes of a picture of few steps mean, below an axis at this height, with those of steps where these
/// are drawn one by one, and ends the document.
pub fn draw_bar_legend<O: Out>(svg: &mut Svg<'_, O>, axis: u32, has_ticks: bool)
    requires { axis ≤ 30000 }
{
    let y = axis + BELOW;
    draw_entries(svg, &BARS, y);
    draw_arrow_entry(svg, y);
    if has_ticks {
        draw_entries(svg, &TICKS, y + TICK_LINE);
        draw_tick_entry(svg, y + TICK_LINE);
    }
    svg.text("</svg>\n");
}

// The step of a transaction, and its meaning.
fn draw_tick_entry<O: Out>(svg: &mut Svg<'_, O>, y: u32) {
    svg.put(
        "<rect class='t' x='64' y='{}' width='14' height='3'/><text x='84' y='{}'>step of a transaction</text>\n",
        &[Number(y.saturating_sub(6)), Number(y)],
    );
}

/// Draws what the classes of a picture of many steps mean, below an axis at this height, and ends the document.
pub fn draw_area_legend<O: Out>(svg: &mut Svg<'_, O>, axis: u32)
    requires { axis ≤ 30000 }
{
    draw_entries(svg, &AREAS, axis + BELOW);
    svg.text("</svg>\n");
}

// Classes and their meanings, at this height.
fn draw_entries<O: Out>(svg: &mut Svg<'_, O>, entries: &[Entry], y: u32) {
    for entry in entries {
        draw_entry(svg, *entry, y);
    }
}

fn draw_entry<O: Out>(svg: &mut Svg<'_, O>, entry: Entry, y: u32) {
    let Entry { x, class, meaning } = entry;
    svg.put(
        "<rect class='{}' x='{}' y='{}' width='14' height='14'/><text x='{}' y='{}'>{}</text>\n",
        &[
            Word(class),
            Number(x),
            Number(y.saturating_sub(11)),
            Number(x.saturating_add(20)),
            Number(y),
            Word(meaning),
        ],
    );
}

// An arrow and its meaning.
fn draw_arrow_entry<O: Out>(svg: &mut Svg<'_, O>, y: u32) {
    let middle = Number(y.saturating_sub(4));
    svg.put(
        "<circle cx='864' cy='{}' r='3'/><path class='a' d='M864 {}h26'/>",
        &[middle, middle],
    );
    svg.put(
        "<text x='896' y='{}'>access that dooms, and its line</text>\n",
        &[Number(y)],
    );
}
