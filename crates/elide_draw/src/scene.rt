//! What a picture tells of a program: its instructions, and its variables.
//!
//! [`Scene::before`] is asked before a step and [`Scene::text`] behind it, both where steps are drawn one by one alone.
//! The texts are those of a trace, cut to a label's room. Variables are addresses and names here: what memory holds
//! there is read in `watch`.

ghost use Rattle.std.specs.Prelude.{◌<◌, length};
ghost use Rattle.tm_trace.specs.Deeds.{IsReachSaid};

use debug_command::write_place;
use ia_image::Program;
use ia_text::write_insn;
use std::alloc::{AllocError, Global};
use std::str;
use symbols::Symbol;
use text_out::ToVec;
use tm_core::Machine;
use tm_model::Reach;
use tm_timeline::{Label, StepText};
use tm_trace::{Before, Deed, write_values};

/// What steps are described by. A trait, since what a walk comes to is known of a maker whose type names no lifetime.
pub trait Scene {
    /// What is known of a step of a core before it is made, of which its preview says that it reaches these bytes.
    fn before(&self, machine: &Machine, core: u8, reach: Reach) -> Before
        requires core { core < length machine.now.views }
        requires reach { IsReachSaid machine.now core reach };

    /// What a step did, in words.
    fn text(&self, deed: &Deed) -> Result<StepText, AllocError>;

    /// The addresses of the variables.
    fn variables(&self) -> &[u32];

    /// What the variables are called, in the same order.
    fn sums(&self) -> &[&str];
}

/// The scene of a program.
#[derive(Drop)]
pub struct ProgramScene<'a> {
    /// For texts.
    pub alloc: Global,
    /// The program.
    pub program: &'a Program,
    /// Its labels.
    pub labels: &'a [Symbol],
    /// The addresses of the variables that are drawn.
    pub addresses: &'a [u32],
    /// Their names.
    pub sums: &'a [&'a str],
}

impl Scene for ProgramScene<'_> {
    fn before(&self, machine: &Machine, core: u8, reach: Reach) -> Before {
        Before::reaching(machine, self.program, core, reach)
    }

    fn text(&self, deed: &Deed) -> Result<StepText, AllocError> {
        let place = place_of(self.alloc, self.labels, deed.eip)?;
        let instruction = instruction_of(self.alloc, deed)?;
        let values = values_of(self.alloc, deed)?;
        Ok(StepText {
            address: deed.eip,
            place,
            instruction,
            values,
        })
    }

    fn variables(&self) -> &[u32] {
        self.addresses
    }

    fn sums(&self) -> &[&str] {
        self.sums
    }
}

// The label at an address, or the nearest below with the distance.
fn place_of(alloc: Global, labels: &[Symbol], eip: u32) -> Result<Label, AllocError> {
    let mut line = ToVec::new(Vec::new(alloc));
    match write_place(labels, eip, &mut line) {
        Ok(()) => Ok(Label::of(inner_of(text_of(&line)))),
        Err(_) => Err(AllocError),
    }
}

// The text of an instruction, if there is one.
fn instruction_of(alloc: Global, deed: &Deed) -> Result<Label, AllocError> {
    let Some(insn) = deed.insn else {
        return Ok(Label::new());
    };
    let mut line = ToVec::new(Vec::new(alloc));
    match write_insn(&insn, deed.eip, &mut line) {
        Ok(()) => Ok(Label::of_instruction(text_of(&line))),
        Err(_) => Err(AllocError),
    }
}

// What was loaded and stored.
fn values_of(alloc: Global, deed: &Deed) -> Result<Label, AllocError> {
    let mut line = ToVec::new(Vec::new(alloc));
    match write_values(deed, &mut line) {
        Ok(()) => {
            let text = text_of(&line);
            Ok(Label::of(text.strip_prefix(" ").unwrap_or(text)))
        }
        Err(_) => Err(AllocError),
    }
}

// A text that was written.
fn text_of(line: &ToVec) -> &str {
    str::from_utf8(line.bytes.as_slice()).unwrap_or("")
}

// What stands between the brackets of a place.
fn inner_of(place: &str) -> &str {
    match place.strip_prefix(" <") {
        Some(rest) => rest.strip_suffix(">").unwrap_or(rest),
        None => "",
    }
}
