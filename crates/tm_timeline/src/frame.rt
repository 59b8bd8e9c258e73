//! What stands around a picture: its head, the names of its rows, and the axis of its steps.

ghost use Rattle.std.specs.Prelude.{◌≤◌};

use crate::bars::BAR;
use crate::label::Label;
use crate::rows::Rows;
use crate::svg::Svg;
use crate::value::Value::{Core, Length, Number, Word};
use crate::window::{LEFT, RIGHT, WIDTH, Window, number_of};
use text_out::Out;

/// Where the first row begins, in pixels from above.
const TOP: u32 = 46;

/// The height of a row.
const ROW: u32 = 54;

/// The height of the instructions below a row: four lines.
const INSTRUCTIONS: u32 = 38;

/// The height of what stands below the axis.
const BELOW: u32 = 74;

/// What a picture is drawn on.
#[derive(Clone, Copy)]
pub struct Sheet<'a> {
    /// The steps that are drawn.
    pub window: Window,
    /// The cores that are drawn.
    pub rows: &'a Rows,
    /// What was run.
    pub title: &'a Label,
    /// How many cores the machine has.
    pub cores: u8,
}

impl Sheet<'_> {
    /// The height of the instructions below a row: nothing, where there is no room for them.
    pub fn instructions(&self) -> u32
        ensures { result ≤ 38 }
    {
        if self.window.has_instructions() {
            INSTRUCTIONS
        } else {
            0
        }
    }

    /// Where a row begins, in pixels from above.
    pub fn top(&self, row: u8) -> u32
        ensures first { 46 ≤ result }
        ensures last { result ≤ 23506 }
    {
        TOP + (ROW + self.instructions()) * u32::from(row)
    }

    /// Where the name of a line stands below a row and its instructions.
    pub fn gap(&self, row: u8) -> u32 {
        self.top(row) + self.instructions() + (ROW + BAR) / 2 + 6
    }

    /// Where the rows end.
    pub fn foot(&self) -> u32
        ensures { result ≤ 23506 }
    {
        self.top(self.rows.count())
    }
}

// The element of the picture, with its title.
const HEAD: &str =
    "<svg xmlns='http://www.w3.org/2000/svg' width='{}' height='{}' viewBox='0 0 {} {}' role='img' \
font-family='DejaVu Sans,Helvetica,Arial,sans-serif' font-size='12' fill='#222'>
<title>{}: timeline of a run</title>
";

// Okabe and Ito's colours, which the colour-blind tell apart. The outlines carry the same without colour: plain where a
// transaction was committed, bold where a conflict aborted it, hatched where it was doomed, broken where something else
// aborted it, and dotted where it is open.
const STYLE: &str =
    "<style>.k{fill:#0072b2}.x{fill:#d55e00}.h{fill:url(#h)}.o{fill:#e69f00}.p{fill:#fff}.g{fill:#bbb}\
.i{fill:#fff;stroke:#bbb}.q{fill:#ddd}.s{fill:#222}.v{fill:#e8e8e8}.b{stroke:#222}.b.x,.b.h{stroke-width:2}\
.b.o{stroke-dasharray:4 2}.b.p{stroke-dasharray:1 2}.w{fill:#fff}.r{stroke:#bbb}.l{stroke:#222}\
.u{stroke:#fff;stroke-width:4}\
.a{stroke:#222;stroke-width:1.5;marker-end:url(#m)}.n{font-size:11px;stroke:#fff;stroke-width:3;paint-order:stroke}\
.m{font-size:11px;text-anchor:middle}.e{text-anchor:end}.c{font-size:14px;font-weight:bold}\
.d{font-size:10px}.f{font-size:8px}.j{font-size:11px}.y{fill:#fff;stroke:#777}</style>
<defs><pattern id='h' width='6' height='6' patternUnits='userSpaceOnUse' patternTransform='rotate(45)'>\
<rect width='6' height='6' fill='#fff'/><rect width='2.5' height='6' fill='#d55e00'/></pattern>\
<marker id='m' viewBox='0 0 8 8' refX='7' refY='4' markerWidth='8' markerHeight='8' markerUnits='userSpaceOnUse' \
orient='auto'><path d='M0 0L8 4L0 8z' fill='#222'/></marker></defs>
";

/// Draws the head of a picture, and the names of its rows. So much height is added below the rows.
pub fn draw_head<O: Out>(svg: &mut Svg<'_, O>, sheet: &Sheet<'_>, added: u32)
    requires { added ≤ 2000 }
{
    let width = Number(WIDTH);
    let height = Number(sheet.foot() + added + BELOW);
    let title = Word(sheet.title.as_str());
    svg.put(HEAD, &[width, height, width, height, title]);
    svg.text(STYLE);
    svg.put(
        "<rect width='{}' height='{}' fill='#fff'/>\n<text class='c' x='12' y='20'>{}</text>",
        &[width, height, title],
    );
    draw_extent(svg, sheet);
    draw_names(svg, sheet);
}

// How many cores and steps there are.
fn draw_extent<O: Out>(svg: &mut Svg<'_, O>, sheet: &Sheet<'_>) {
    let Window { from, to, total } = sheet.window;
    svg.put(
        "<text class='e' x='{}' y='20'>cores: {}, steps {} to {} of {}</text>\n",
        &[
            Number(RIGHT),
            Core(sheet.cores),
            Number(number_of(from)),
            Number(to),
            Number(total),
        ],
    );
}

// The names of the rows.
fn draw_names<O: Out>(svg: &mut Svg<'_, O>, sheet: &Sheet<'_>) {
    for row in 0..sheet.rows.count() {
        if let Some(core) = sheet.rows.core(row) {
            let y = sheet.top(row) + 15;
            svg.put(
                "<text x='12' y='{}'>core {}</text>\n",
                &[Number(y), Core(core)],
            );
        }
    }
}

/// Draws the axis of the steps at this height.
pub fn draw_axis<O: Out>(svg: &mut Svg<'_, O>, sheet: &Sheet<'_>, y: u32)
    requires { y ≤ 30000 }
{
    svg.put(
        "<path class='l' d='M{} {}H{}'/>\n",
        &[Number(LEFT), Number(y), Number(RIGHT)],
    );
    let window = sheet.window;
    let every = steps_between(window);
    for index in number_of(window.from).div_ceil(every)..(window.to / every).saturating_add(1) {
        draw_number(svg, window, index.saturating_mul(every), y);
    }
}

// The number of a step below the axis, counted from 1.
fn draw_number<O: Out>(svg: &mut Svg<'_, O>, window: Window, number: u32, y: u32)
    requires { y ≤ 30000 }
{
    let x = Length(window.middle(number.saturating_sub(1)));
    svg.put(
        "<path class='l' d='M{} {}v5'/><text class='m' x='{}' y='{}'>{}</text>\n",
        &[x, Number(y), x, Number(y + 18), Number(number)],
    );
}

// After how many steps there is a number: 1, 2 or 5 times a power of ten, the least that takes 60 pixels.
fn steps_between(window: Window) -> u32
    ensures { 1 ≤ result }
{
    let mut power: u32 = 1;
    for _ in 0..9 {
        for factor in [1, 2, 5] {
            let distance = power.saturating_mul(factor).max(1);
            if is_wide(window, distance) {
                return distance;
            }
        }
        power = power.saturating_mul(10);
    }
    1_000_000_000
}

// Whether so many steps take 60 pixels at least.
fn is_wide(window: Window, distance: u32) -> bool {
    u64::from(distance) * u64::from(RIGHT - LEFT) >= u64::from(window.steps()) * 60
}
