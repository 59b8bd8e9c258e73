//! What a step did, in words.

use crate::label::Label;
use crate::svg::Svg;
use crate::value::Value::{Status, Word};
use text_out::Out;

/// What a step did: where its instruction stands, what it is, and what it loaded and stored.
#[derive(Drop)]
pub struct StepText {
    /// The address.
    pub address: u32,
    /// The label at it, or the nearest below with the distance, as `start+0xb`; empty, where there is none.
    pub place: Label,
    /// The instruction; empty, where none stands there.
    pub instruction: Label,
    /// What was loaded and stored, as `[1000]=00000001`; empty, where nothing was.
    pub values: Label,
}

/// The words of a step behind its outcome, as ` 0000010b &lt;start+0xb&gt; inc eax`.
pub fn draw_step_text<O: Out>(svg: &mut Svg<'_, O>, text: &StepText) {
    svg.put(" {}", &[Status(text.address)]);
    if !text.place.is_empty() {
        svg.put(" &lt;{}&gt;", &[Word(text.place.as_str())]);
    }
    draw_behind_space(svg, &text.instruction);
    draw_behind_space(svg, &text.values);
}

// A text behind a space, where there is one.
fn draw_behind_space<O: Out>(svg: &mut Svg<'_, O>, text: &Label) {
    if !text.is_empty() {
        svg.put(" {}", &[Word(text.as_str())]);
    }
}
