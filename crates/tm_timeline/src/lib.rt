//! Timelines of runs, as pictures in SVG.
//!
//! A [`Timeline`] is told each step of a run and each hit, and draws a [`Window`] of its steps, a row a core. A window
//! of few steps is drawn with a bar for each transaction and an arrow for each hit; of a longer one columns of many
//! steps are drawn, with shares of what became of them. What is kept is bounded by the picture and not by the run.
//!
//! Promised: each transaction that ends in a window that is drawn by bars is told as a bar, with what it came to; bars
//! lie within the window, and the window within the picture; and a [`Label`] holds no markup, whatever text it is made
//! from. What a picture looks like is compared by `command_tests`. Stands on `tm_model` and `tm_status` for what a step
//! is, and on `text_out` for the devices that pictures go to. Takes memory where a timeline is made, and for bars and
//! arrows.
#![tactic(auto)]

mod areas;
mod arrows;
mod bars;
mod columns;
mod fate;
mod frame;
mod instructions;
mod label;
mod legend;
mod picture;
mod rows;
mod spans;
mod step_text;
mod strip;
mod svg;
mod ticks;
mod timeline;
mod value;
mod variables;
mod window;

pub use fate::{Fate, fate_at, fate_of};
pub use label::{Label, LineLabels};
pub use rows::Rows;
pub use spans::{Hit, Span};
pub use step_text::StepText;
pub use timeline::Timeline;
pub use window::Window;
