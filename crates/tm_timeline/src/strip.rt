//! The strip of a picture of many steps that tells how many hits there are.

use crate::columns::Columns;
use crate::frame::Sheet;
use crate::svg::Svg;
use crate::value::Tenths;
use crate::value::Value::{Length, Number};
use crate::window::{LEFT, RIGHT};
use text_out::Out;

// The height of the strip in pixels, and in tenths of a pixel.
const HEIGHT: u32 = 18;

const TENTHS: u64 = 180;

/// Draws the hits of each column, below the rows, and tells their greatest number beside the legend.
pub fn draw_strip<O: Out>(svg: &mut Svg<'_, O>, sheet: &Sheet<'_>, columns: &Columns) {
    let foot = sheet.foot() + HEIGHT;
    let most = columns.most_hits();
    let steps = sheet.window.steps().div_ceil(columns.count.max(1));
    svg.put(
        "<text x='12' y='{}'>hits</text><path d='M{} {}",
        &[Number(foot - 6), Number(LEFT), Number(foot)],
    );
    draw_heights(svg, columns, foot, most);
    svg.put(
        "H{}V{}z'><title>hits: at most {} in {} steps</title></path>\n",
        &[Number(RIGHT), Number(foot), Number(most), Number(steps)],
    );
    svg.put(
        "<text class='e' x='{}' y='{}'>hits: at most {} in {} steps</text>\n",
        &[
            Number(RIGHT),
            Number(foot + 68),
            Number(most),
            Number(steps),
        ],
    );
}

// The heights of the columns, where they change.
fn draw_heights<O: Out>(svg: &mut Svg<'_, O>, columns: &Columns, foot: u32, most: u32) {
    let width = (RIGHT - LEFT) / columns.count.max(1);
    let mut drawn = 0;
    let mut x = LEFT;
    for hits in columns.hits.as_slice() {
        let height = height_of(*hits, most);
        if height != drawn {
            let y = Tenths(foot.saturating_mul(10).saturating_sub(height));
            svg.put("H{}V{}", &[Number(x), Length(y)]);
            drawn = height;
        }
        x = x.saturating_add(width);
    }
}

// The height of a column with so many hits, in tenths of a pixel.
fn height_of(hits: u32, most: u32) -> u32 {
    (u64::from(hits) * TENTHS / u64::from(most.max(1))).min(TENTHS) as u32
}
