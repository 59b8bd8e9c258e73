//! The hits of a picture of few steps: an arrow from the access to the transaction that it dooms.

ghost use Rattle.std.specs.Prelude.{◌≤◌};

use crate::bars::{BAR, draw_hit, draw_line};
use crate::frame::Sheet;
use crate::label::{LineLabels, ROOM};
use crate::rows::MOST_CORES;
use crate::spans::{Arrow, Hit, Spans};
use crate::svg::Svg;
use crate::value::Tenths;
use crate::value::Value::{Core, Length, Number, Word};
use crate::window::WIDTH;
use text_out::Out;

// Where an arrow stands, in pixels from above.
#[derive(Clone, Copy)]
struct Place {
    // Its middle, from the left.
    x: Tenths,
    // Where it begins.
    tail: u32,
    // Where it ends.
    head: u32,
    // The gap between rows that its line's name stands in: that below this row.
    gap: u8,
    // Whether the core of the access is drawn.
    has_tail: bool,
}

/// Draws the arrows, first what parts them from bars that they cross, so that none hides another.
pub fn draw_arrows<O: Out, L: LineLabels>(
    svg: &mut Svg<'_, O>,
    sheet: &Sheet<'_>,
    spans: &Spans,
    labels: &L,
) {
    draw_gaps(svg, sheet, spans);
    for arrow in spans.arrows.as_slice() {
        if let Some(place) = place_of(sheet, arrow) {
            draw_arrow(svg, place, arrow, labels);
        }
    }
    draw_names(svg, sheet, spans, labels);
}

// What parts the arrows from bars.
fn draw_gaps<O: Out>(svg: &mut Svg<'_, O>, sheet: &Sheet<'_>, spans: &Spans) {
    for arrow in spans.arrows.as_slice() {
        if let Some(Place { x, tail, head, .. }) = place_of(sheet, arrow) {
            svg.put(
                "<path class='u' d='M{} {}V{}'/>\n",
                &[Length(x), Number(tail), Number(head)],
            );
        }
    }
}

// Where an arrow stands, if the core that it points to is drawn.
fn place_of(sheet: &Sheet<'_>, arrow: &Arrow) -> Option<Place> {
    let row = sheet.rows.row_of(arrow.victim)?;
    let top = sheet.top(row);
    let by = sheet.rows.row_of(arrow.hit.by);
    let (tail, head, gap) = match by {
        Some(by) if by < row => (sheet.top(by) + sheet.instructions() + BAR + 7, top - 1, by),
        Some(by) => (sheet.top(by) - 2, top + BAR + 6, row),
        None => (top - 18, top - 1, row),
    };
    Some(Place {
        x: sheet.window.middle(arrow.hit.step),
        tail,
        head,
        gap,
        has_tail: by.is_some(),
    })
}

// An arrow, with a dot where it begins.
fn draw_arrow<O: Out, L: LineLabels>(
    svg: &mut Svg<'_, O>,
    place: Place,
    arrow: &Arrow,
    labels: &L,
) {
    let Place { x, tail, head, .. } = place;
    svg.put("<g><title>core {} is hit at ", &[Core(arrow.victim)]);
    draw_hit(svg, arrow.hit, labels);
    svg.put(
        "</title><path class='a' d='M{} {}V{}'/>",
        &[Length(x), Number(tail), Number(head)],
    );
    if place.has_tail {
        svg.put(
            "<circle cx='{}' cy='{}' r='3'/>",
            &[Length(x), Number(tail)],
        );
    }
    svg.text("</g>\n");
}

// The lines of the hits, each in a gap between two rows, where no other stands in its place.
fn draw_names<O: Out, L: LineLabels>(
    svg: &mut Svg<'_, O>,
    sheet: &Sheet<'_>,
    spans: &Spans,
    labels: &L,
) {
    let mut taken = [0; MOST_CORES];
    for arrow in spans.arrows.as_slice() {
        if let Some(place) = place_of(sheet, arrow) {
            let gap = usize::from(place.gap);
            let width = width_of(arrow.hit, labels);
            let side = side_of(place.x, width);
            let begin = side.begin(place.x, width);
            if gap < MOST_CORES && taken[gap] <= begin && arrow.hit.on.is_some() {
                taken[gap] = begin.saturating_add(width);
                let y = sheet.gap(place.gap);
                let name = NamePlace {
                    x: place.x,
                    y,
                    side,
                };
                draw_name(svg, name, arrow.hit, labels);
            }
        }
    }
}

// On which side of its arrow a line's name stands.
#[derive(Clone, Copy)]
enum Side {
    Right,
    Left,
}

// The side on which a name of this width stands: the right one, where it does not pass the edge of the picture there.
fn side_of(x: Tenths, width: u32) -> Side {
    if x.plus(width).0 <= WIDTH * 10 {
        Side::Right
    } else {
        Side::Left
    }
}

impl Side {
    // Where the name begins, in tenths of a pixel from the left.
    fn begin(self, x: Tenths, width: u32) -> u32 {
        match self {
            Side::Right => x.0,
            Side::Left => x.past(Tenths(width)).0,
        }
    }
}

// Where a line's name stands.
#[derive(Clone, Copy)]
struct NamePlace {
    // The middle of its arrow, from the left.
    x: Tenths,
    // Its height, in pixels from above.
    y: u32,
    side: Side,
}

// The line of a hit beside its arrow.
fn draw_name<O: Out, L: LineLabels>(svg: &mut Svg<'_, O>, place: NamePlace, hit: Hit, labels: &L) {
    let (class, x) = match place.side {
        Side::Right => ("n", place.x.plus(50)),
        Side::Left => ("n e", place.x.past(Tenths(50))),
    };
    svg.put(
        "<text class='{}' x='{}' y='{}'>",
        &[Word(class), Length(x), Number(place.y)],
    );
    draw_line(svg, hit, labels);
    svg.text("</text>\n");
}

// The width of a line's name in tenths of a pixel, with a gap beside it.
fn width_of<L: LineLabels>(hit: Hit, labels: &L) -> u32 {
    let Some(used) = hit.on else {
        return 0;
    };
    let symbol = labels.label(used.line);
    let characters = symbol.as_str().len().min(ROOM) as u32 + 9;
    characters.saturating_mul(66).saturating_add(80)
}
