//! The columns of a picture of many steps: for each core the shares of its steps, one above another.

use crate::columns::{Columns, Layer, Share};
use crate::frame::Sheet;
use crate::svg::Svg;
use crate::value::Tenths;
use crate::value::Value::{Core, Length, Number, Word};
use crate::window::{LEFT, RIGHT};
use text_out::Out;

/// The height of the columns in pixels.
pub const AREA: u32 = 34;

// The height of the columns in tenths of a pixel.
const TENTHS: u64 = 340;

// The columns of a core.
#[derive(Clone, Copy)]
struct Area<'a> {
    columns: &'a Columns,
    core: u8,
    // Where they stand, in pixels from above.
    foot: u32,
}

/// Draws the columns of each row.
pub fn draw_areas<O: Out>(svg: &mut Svg<'_, O>, sheet: &Sheet<'_>, columns: &Columns) {
    for row in 0..sheet.rows.count() {
        if let Some(core) = sheet.rows.core(row) {
            let foot = sheet.top(row) + AREA;
            let area = Area {
                columns,
                core,
                foot,
            };
            draw_core(svg, area);
        }
    }
}

// The columns of a core, above their foot. Each layer covers those below it, and these are drawn above it.
fn draw_core<O: Out>(svg: &mut Svg<'_, O>, area: Area<'_>) {
    let whole = area.columns.whole(area.core);
    for layer in [
        Layer::Outside,
        Layer::Open,
        Layer::Other,
        Layer::Conflict,
        Layer::Committed,
    ] {
        let steps = whole.of(layer);
        if steps > 0 {
            draw_layer(svg, area, layer, steps);
        }
    }
}

// A layer of a core with so many steps: a line along its columns, which is begun and ended at their foot.
fn draw_layer<O: Out>(svg: &mut Svg<'_, O>, area: Area<'_>, layer: Layer, steps: u32) {
    let Area {
        columns,
        core,
        foot,
    } = area;
    svg.put(
        "<path class='{}' d='M{} {}",
        &[Word(layer.class()), Number(LEFT), Number(foot)],
    );
    draw_outline(svg, columns, core, layer);
    svg.put(
        "H{}V{}z'><title>core {}: {} {}</title></path>\n",
        &[
            Number(RIGHT),
            Number(foot),
            Core(core),
            Number(steps),
            Word(layer.meaning()),
        ],
    );
}

// The heights of a layer, where they change.
fn draw_outline<O: Out>(svg: &mut Svg<'_, O>, columns: &Columns, core: u8, layer: Layer) {
    let width = (RIGHT - LEFT) / columns.count.max(1);
    let mut drawn = 0;
    let mut run: u32 = 0;
    for column in 0..columns.count {
        let height = height_of(&columns.share(core, column), layer);
        if height != drawn {
            draw_turn(svg, run, drawn, height);
            drawn = height;
            run = 0;
        }
        run = run.saturating_add(width);
    }
}

// A line so far to the right, and then from a height to another. What is relative takes fewer bytes.
fn draw_turn<O: Out>(svg: &mut Svg<'_, O>, run: u32, from: u32, to: u32) {
    if run > 0 {
        svg.put("h{}", &[Number(run)]);
    }
    let sign = if from < to { "-" } else { "" };
    let height = Tenths(from.abs_diff(to));
    svg.put("v{}{}", &[Word(sign), Length(height)]);
}

// The height of a column up to a layer, in tenths of a pixel.
fn height_of(share: &Share, layer: Layer) -> u32 {
    let all = share.all().max(1);
    (share.up_to(layer) * TENTHS / all).min(TENTHS) as u32
}
