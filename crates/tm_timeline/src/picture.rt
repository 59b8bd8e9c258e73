//! The whole picture: what was taken in while the run went on is drawn at its end, transactions one by one where they
//! fit, and by columns of steps where they do not.

use crate::areas::draw_areas;
use crate::arrows::draw_arrows;
use crate::bars::draw_bars;
use crate::columns::Columns;
use crate::frame::{Sheet, draw_axis, draw_head};
use crate::label::LineLabels;
use crate::legend::{TICK_LINE, draw_area_legend, draw_bar_legend};
use crate::spans::Spans;
use crate::strip::draw_strip;
use crate::svg::Svg;
use crate::ticks::draw_ticks;
use crate::variables::{HEIGHT, Variables};
use text_out::Out;

/// What is drawn.
#[derive(Drop)]
pub enum Picture {
    /// Few steps.
    Few(Spans),
    /// Many.
    Many(Columns),
}

/// Draws a picture as an SVG document; variables, where transactions are drawn one by one.
pub fn draw<O: Out, L: LineLabels>(
    svg: &mut Svg<'_, O>,
    sheet: &Sheet<'_>,
    picture: &Picture,
    variables: &Variables,
    labels: &L,
) {
    match picture {
        Picture::Few(spans) => draw_spans(svg, sheet, spans, variables, labels),
        Picture::Many(columns) => draw_columns(svg, sheet, columns),
    }
}

fn draw_spans<O: Out, L: LineLabels>(
    svg: &mut Svg<'_, O>,
    sheet: &Sheet<'_>,
    spans: &Spans,
    variables: &Variables,
    labels: &L,
) {
    let has_ticks = sheet.window.has_ticks();
    let below = HEIGHT * variables.count();
    draw_head(
        svg,
        sheet,
        if has_ticks { below + TICK_LINE } else { below },
    );
    draw_ticks(svg, sheet, spans);
    draw_bars(svg, sheet, spans, labels);
    draw_arrows(svg, sheet, spans, labels);
    variables.draw(svg, sheet.window, sheet.foot());
    let axis = sheet.foot() + below;
    draw_axis(svg, sheet, axis);
    draw_bar_legend(svg, axis, has_ticks);
}

fn draw_columns<O: Out>(svg: &mut Svg<'_, O>, sheet: &Sheet<'_>, columns: &Columns) {
    draw_head(svg, sheet, STRIP);
    draw_areas(svg, sheet, columns);
    draw_strip(svg, sheet, columns);
    let axis = sheet.foot() + STRIP;
    draw_axis(svg, sheet, axis);
    draw_area_legend(svg, axis);
}

/// The height of the strip of hits in pixels, with the room below it.
pub const STRIP: u32 = 22;
