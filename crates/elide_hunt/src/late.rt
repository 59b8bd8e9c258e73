//! The stores of a failing run that are late past a load, with the words of both: [`Told::lates`], and their lines.
//!
//! They are found by `tm_hunt` over the steps that decide, and told by where their instructions stand and what these
//! are (`elide_why`), steps counted from 1 as everywhere. [`put_lates`] writes a line for each; in an object they are
//! `sending`'s. Places are looked for only where there is something to tell.

ghost use Rattle.std.specs.Prelude.{◌≡◌, ◌++◌, [], All, IfErr, IfOk, OnOk};
ghost use Rattle.std.specs.List.{flat_map};
ghost use Rattle.arrayvec.specs.ArrayVec.{array_vec_len};
ghost use Rattle.text_out.specs.Writing.{Wrote};
ghost use Rattle.tm_hunt.specs.Attempts.{IsRefusal};
ghost use Rattle.tm_hunt.specs.Deciding.{deciding};
ghost use Rattle.tm_hunt.specs.Delays.{IsDelayed};
ghost use Rattle.elide_hunt.specs.Lates.{IsLate, IsTextAt, late_line, step_text, words_text};

use crate::report::HuntLine;
use elide_places::Places;
use elide_program::ProgramFile;
use elide_why::{Words, write_parts};
use std::alloc::{AllocError, Global};
use text_out::page::{push, push_decimal};
use text_out::{Failed, Out, ToVec};
use tm_hunt::{Delayed, Failure, HuntFault, Trial, find_delays};

/// A program's file: what is said of an instruction is by what stands there.
#[derive(Clone, Copy)]
pub struct Source<'p, 't, 'f> {
    /// Its path.
    pub path: &'p str,
    /// Its text.
    pub text: &'t [u8],
    /// What it is read as.
    pub file: &'f ProgramFile<'t>,
}

// Where the instructions of a file stand.
#[derive(Clone, Copy)]
struct Naming<'p, 'q> {
    path: &'p str,
    places: &'q Places,
}

/// A store that is late past a load: it was pending when its core loaded from memory. Steps are counted from 1.
#[derive(Drop)]
pub struct Late {
    /// The core of both.
    pub core: u8,
    /// The step that made the store.
    pub stored: u64,
    /// The address of its instruction.
    pub store_eip: u32,
    /// Where that stands, and what it is.
    pub store: Vec<u8>,
    /// The step that loaded.
    pub loaded: u64,
    /// The address of its instruction.
    pub load_eip: u32,
    /// Where that stands, and what it is.
    pub load: Vec<u8>,
}

/// A run that fails.
#[derive(Clone, Copy)]
pub struct Told<'a, 'b> {
    /// What was tried.
    pub trial: Trial<'a>,
    /// The run.
    pub failure: &'b Failure,
}

impl Told<'_, '_> {
    /// What is told of the stores that are late, of the steps that decide. With room for no store there are none.
    pub fn lates(self, alloc: Global, source: Source<'_, '_, '_>) -> Result<Vec<Late>, HuntFault>
        ensures late { IfOk result (λ lates. All (IsLate self.entry.trial self.entry.failure.now) lates.items) }
        ensures none { self.entry.trial.limits.stores ≡ 0 → IfOk result (λ lates. lates.items ≡ []) }
        ensures err { IfErr result (IsRefusal self.entry.trial) }
    {
        let delays = find_delays(alloc, &self.trial, self.failure)?;
        let lates = self.all(alloc, delays.as_slice(), source)?;
        Ok(lates)
    }

    // What is told of these.
    fn all(
        self,
        alloc: Global,
        delays: &[Delayed],
        source: Source<'_, '_, '_>,
    ) -> Result<Vec<Late>, AllocError>
        requires { All (IsDelayed self.trial (deciding self.failure.now)) delays.now }
        ensures late { IfOk result (λ lates. All (IsLate self.entry.trial self.entry.failure.now) lates.items) }
        ensures none { delays.now ≡ [] → IfOk result (λ lates. lates.items ≡ []) }
    {
        if delays.is_empty() {
            return Ok(Vec::new(alloc));
        }
        let places = Places::of_file(alloc, source.file, source.text)?;
        let naming = Naming {
            path: source.path,
            places: &places,
        };
        self.by_places(alloc, delays, naming)
    }

    // The same by the places of the file.
    fn by_places(
        self,
        alloc: Global,
        delays: &[Delayed],
        naming: Naming<'_, '_>,
    ) -> Result<Vec<Late>, AllocError>
        requires { All (IsDelayed self.trial (deciding self.failure.now)) delays.now }
        ensures { IfOk result (λ lates. All (IsLate self.entry.trial self.entry.failure.now) lates.items) }
    {
        let mut lates = Vec::new(alloc);
        for delayed in delays {
            self.add(alloc, *delayed, naming, &mut lates)?;
        }
        Ok(lates)
    }

    // Adds what is told of one.
    fn add(
        self,
        alloc: Global,
        delayed: Delayed,
        naming: Naming<'_, '_>,
        lates: &mut Vec<Late>,
    ) -> Result<(), AllocError>
        requires delayed { IsDelayed self.trial (deciding self.failure.now) delayed }
        requires late { All (IsLate self.trial self.failure.now) lates.old.items }
        ensures { OnOk result (All (IsLate self.entry.trial self.entry.failure.now) lates.new.items) }
    {
        // Its steps are those of a list, so that the next number is one.
        let Some(stored) = delayed.stored.checked_add(1) else {
            return Ok(());
        };
        let Some(loaded) = delayed.loaded.checked_add(1) else {
            return Ok(());
        };
        let late = Late {
            core: delayed.core,
            stored,
            store_eip: delayed.store_eip,
            store: self.text_at(alloc, delayed.store_eip, naming)?,
            loaded,
            load_eip: delayed.load_eip,
            load: self.text_at(alloc, delayed.load_eip, naming)?,
        };
        lates.push(late)?;
        Ok(())
    }

    // Where the instruction at an address stands, and what it is.
    fn text_at(self, alloc: Global, eip: u32, naming: Naming<'_, '_>) -> Result<Vec<u8>, AllocError>
        ensures { IfOk result (λ text. IsTextAt eip text.items) }
    {
        let words = Words::at(self.trial.program, naming.path, naming.places, eip);
        words_bytes(alloc, &words)
    }
}

// The bytes of these words.
fn words_bytes(alloc: Global, words: &Words<'_>) -> Result<Vec<u8>, AllocError>
    ensures { IfOk result (λ bytes. bytes.items ≡ words_text words.now) }
{
    let mut out = ToVec::new(Vec::new(alloc));
    match put_words(words, &mut out) {
        Ok(()) => Ok(out.bytes),
        Err(_) => Err(AllocError),
    }
}

fn put_words<O: Out>(words: &Words<'_>, out: &mut O) -> Result<(), Failed>
    ensures { OnOk result (Wrote (O.device out.old) (O.device out.new) (words_text words.now)) }
{
    out.put(words.place.as_slice())?;
    match write_parts(b" ", words, b"", out) {
        Ok(()) => Ok(()),
        Err(_) => Err(Failed),
    }
}

// ---- their lines

/// Writes a line for each.
pub fn put_lates<O: Out>(lates: &[Late], out: &mut O) -> Result<(), Failed>
    ensures { OnOk result (Wrote (O.device out.old) (O.device out.new) (flat_map late_line lates.now)) }
{
    for late in lates {
        put_late(late, out)?;
    }
    Ok(())
}

fn put_late<O: Out>(late: &Late, out: &mut O) -> Result<(), Failed>
    ensures { OnOk result (Wrote (O.device out.old) (O.device out.new) (late_line late.now)) }
{
    out.put(b"delayed: ")?;
    out.put(late.store.as_slice())?;
    put_step(late.stored, out)?;
    out.put(b" past ")?;
    out.put(late.load.as_slice())?;
    put_step(late.loaded, out)?;
    out.put(b"\n")
}

fn put_step<O: Out>(step: u64, out: &mut O) -> Result<(), Failed>
    ensures { OnOk result (Wrote (O.device out.old) (O.device out.new) (step_text step)) }
{
    let mut line = HuntLine::new();
    push_step(&mut line, step);
    out.put(line.as_slice())
}

fn push_step(line: &mut HuntLine, step: u64)
    requires { array_vec_len line.old ≡ 0 }
    ensures { line.new.items ≡ line.old.items ++ step_text step }
{
    push(line, b" (step ");
    push_decimal(line, step);
    push(line, b")");
}
