//! The transactions of a picture of few steps.

use crate::fate::Fate;
use crate::frame::Sheet;
use crate::label::LineLabels;
use crate::spans::{Hit, Span, Spans};
use crate::svg::Svg;
use crate::value::Value::{Core, Length, Line, Number, Status, Word};
use crate::window::number_of;
use text_out::Out;
use tm_sets::Kind;

/// The height of a bar in pixels.
pub const BAR: u32 = 22;

/// The width of a character of text in tenths of a pixel.
const CHARACTER: u32 = 75;

/// Draws a bar for each transaction.
pub fn draw_bars<O: Out, L: LineLabels>(
    svg: &mut Svg<'_, O>,
    sheet: &Sheet<'_>,
    spans: &Spans,
    labels: &L,
) {
    for span in spans.spans.as_slice() {
        if let Some(row) = sheet.rows.row_of(span.core) {
            draw_title(svg, span, labels);
            draw_bar(svg, sheet, span, row);
        }
    }
}

// What lies between two steps in a row.
#[derive(Clone, Copy)]
struct Part {
    row: u8,
    begin: u32,
    end: u32,
}

// The bar of a transaction in this row, which is hatched from the hit on. It ends the group.
fn draw_bar<O: Out>(svg: &mut Svg<'_, O>, sheet: &Sheet<'_>, span: &Span, row: u8) {
    let begin = sheet.window.clamped(span.begin);
    let end = sheet.window.clamped(span.end);
    let hit = match span.hit {
        Some(hit) => sheet.window.clamped(hit.step.saturating_add(1)).min(end),
        None => end,
    };
    let plain = Part {
        row,
        begin,
        end: hit,
    };
    let hatched = Part {
        row,
        begin: hit.max(begin),
        end,
    };
    draw_part(svg, sheet, plain, span.fate.class());
    draw_part(svg, sheet, hatched, "h");
    draw_word(svg, sheet, plain, span.fate);
    svg.text("</g>\n");
}

// A part of a bar, where there is one.
fn draw_part<O: Out>(svg: &mut Svg<'_, O>, sheet: &Sheet<'_>, part: Part, class: &str) {
    if part.begin < part.end {
        let x = sheet.window.place(part.begin);
        let width = sheet.window.place(part.end).past(x);
        svg.put(
            "<rect class='b {}' x='{}' y='{}' width='{}' height='{}'/>",
            &[
                Word(class),
                Length(x),
                Number(sheet.top(part.row)),
                Length(width),
                Number(BAR),
            ],
        );
    }
}

// The word on a bar, where this part of it has room.
fn draw_word<O: Out>(svg: &mut Svg<'_, O>, sheet: &Sheet<'_>, part: Part, fate: Fate) {
    let word = fate.word();
    let x = sheet.window.place(part.begin);
    let room = sheet.window.place(part.end).past(x);
    if room.0 >= CHARACTER.saturating_mul(word.len().min(20) as u32) {
        svg.put(
            "<text class='{}' x='{}' y='{}'>{}</text>",
            &[
                Word(class_of(fate)),
                Length(x.plus(40)),
                Number(sheet.top(part.row) + 15),
                Word(word),
            ],
        );
    }
}

// The class of the word on a bar: light on a dark one, and dark on a light one.
fn class_of(fate: Fate) -> &'static str {
    match fate {
        Fate::Other(_) | Fate::Outside(_, _) | Fate::Open => "s",
        _ => "w",
    }
}

// Begins the group of a transaction with its title: what it came to, in words.
fn draw_title<O: Out, L: LineLabels>(svg: &mut Svg<'_, O>, span: &Span, labels: &L) {
    svg.put(
        "<g><title>core {}, steps {} to {}: ",
        &[
            Core(span.core),
            Number(number_of(span.begin)),
            Number(span.end),
        ],
    );
    draw_fate(svg, span.fate);
    if let Some(hit) = span.hit {
        svg.text(", hit at ");
        draw_hit(svg, hit, labels);
    }
    svg.text("</title>");
}

// How a transaction ended, in words.
fn draw_fate<O: Out>(svg: &mut Svg<'_, O>, fate: Fate) {
    match fate {
        Fate::Committed => svg.text("committed"),
        Fate::Conflict(status) | Fate::Other(status) | Fate::Outside(_, status) => {
            svg.put("aborted {} {}", &[Status(status), Word(fate.word())]);
        }
        Fate::Doomed => svg.text("doomed, not yet aborted"),
        Fate::Open => svg.text("not ended"),
    }
}

/// The words of a hit: its step and core, and the line, where it is known.
pub fn draw_hit<O: Out, L: LineLabels>(svg: &mut Svg<'_, O>, hit: Hit, labels: &L) {
    svg.put(
        "step {} by core {}",
        &[Number(number_of(hit.step)), Core(hit.by)],
    );
    if let Some(used) = hit.on {
        svg.text(match used.kind {
            Kind::Write => ", which writes ",
            Kind::Read => ", which reads ",
        });
        draw_line(svg, hit, labels);
    }
}

/// The words of the line of a hit: its number and its symbol; none where it is not known.
pub fn draw_line<O: Out, L: LineLabels>(svg: &mut Svg<'_, O>, hit: Hit, labels: &L) {
    if let Some(used) = hit.on {
        svg.put("line {}", &[Line(used.line)]);
        let label = labels.label(used.line);
        if !label.is_empty() {
            svg.put(" {}", &[Word(label.as_str())]);
        }
    }
}
