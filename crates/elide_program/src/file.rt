//! FILE as a program: image text, an executable in ELF, or a source that is assembled.
//!
//! [`read_file`] reads it whole, which tells the warnings of a source (`warned`), and [`ProgramFile::read`] chooses by
//! its [`Form`]. Then come the entries ([`ProgramFile::starts`]), and last [`ProgramFile::load`], which tests the cores
//! and the memory, and behind that the zeros of an executable.

ghost use Rattle.std.specs.Prelude.{◌≡◌, ◌≢◌, ◌<◌, ◌≤◌, ◌⊎◌, IfErr, IfOk, List, MatchResult, None, Some};
ghost use Rattle.std.specs.Prelude.{codes, length, min, replicate, ℕ};
ghost use Rattle.elide_program.specs.Entries.{AreStarts, for_cores};
ghost use Rattle.elide_program.specs.Faults.{unread, unread_source};
ghost use Rattle.elide_program.specs.Files.{Gives, Tells, most_bytes};
ghost use Rattle.elide_program.specs.Refusals.{HasNoStart, IsWant, NamesOption};
ghost use Rattle.ia_elf.specs.Fields.{IsMagic};

use crate::entries::EntryList;
use crate::fault::{ProgramFault, ProgramRefusal};
use crate::form::Form;
use crate::paths::{Paths, ReadFault};
use crate::settings::Settings;
use ia_asm::{AsmFault, ProgramImage, assemble_image};
use ia_elf::{Elf, read_elf};
use ia_image::{ImageText, LoadFault, Program, load, read_image};
use std::alloc::Global;

/// A program as it is written in a file.
#[derive(Drop)]
pub enum ProgramFile<'a> {
    /// As image text.
    Image(ImageText),
    /// As an executable in ELF.
    Elf(Elf<'a>),
    /// As a source, which is assembled, without its listing.
    Source(ProgramImage<'a>),
}

/// The most bytes of a file that is read: 640 MiB, more than the image text of the greatest memory takes.
pub const MOST_BYTES: usize = 671_088_640;

/// The content of a program's file, of at most [`MOST_BYTES`]; its warnings are told.
pub fn read_file<P: Paths>(path: &str, paths: &mut P) -> Result<Vec<u8>, ProgramRefusal>
    ensures given { MatchResult result
        (λ bytes. Gives (P.content paths.old path.now) most_bytes bytes.items)
        (λ refusal. Tells unread (P.content paths.old path.now) refusal) }
    ensures kept { (other : List ℕ) → P.content paths.new other ≡ P.content paths.old other }
{
    let text = paths.read(path, MOST_BYTES)?;
    paths.warn_of(text.as_slice());
    Ok(text)
}

/// The content of a source's file, of at most [`MOST_BYTES`]; its warnings are told. Want of memory is the assembler's
/// fault.
pub fn read_source<P: Paths>(path: &str, paths: &mut P) -> Result<Vec<u8>, ProgramRefusal>
    ensures { MatchResult result
        (λ bytes. Gives (P.content paths.old path.now) most_bytes bytes.items)
        (λ refusal. Tells unread_source (P.content paths.old path.now) refusal) }
{
    match paths.read(path, MOST_BYTES) {
        Ok(text) => {
            paths.warn_of(text.as_slice());
            Ok(text)
        }
        Err(ReadFault::NoMemory) => {
            Err(ProgramRefusal::Fault(ProgramFault::Assemble(AsmFault::NoMemory)))
        }
        Err(fault) => Err(ProgramRefusal::Fault(ProgramFault::from(fault))),
    }
}

impl<'a> ProgramFile<'a> {
    ghost use Rattle.elide_program.specs.ProgramFile.{IsFile, IsFileSymbol, TellsElf, TellsLoad};
    ghost use Rattle.elide_program.specs.ProgramFile.{file_base, file_bytes, file_code_len, file_end, file_form};
    ghost use Rattle.elide_program.specs.ProgramFile.{file_start, loaded};
    ghost use Rattle.elide_program.specs.Refusals.{HasNoStarts, IsNoProgram};

    /// A text as a program of its form.
    pub fn read(alloc: Global, text: &'a [u8]) -> Result<ProgramFile<'a>, ProgramRefusal>
        ensures file { IfOk result (λ file. IsFile text.now file) }
        ensures fault { IfErr result (λ refusal. IsMagic text.now → TellsElf text.now refusal) }
        ensures none { IfErr result (IsNoProgram text.now) }
    {
        match Form::of(text) {
            Form::Executable => Ok(ProgramFile::Elf(read_elf(alloc, text)?)),
            Form::Image => Ok(ProgramFile::Image(read_image(alloc, text)?)),
            Form::Source => Ok(ProgramFile::Source(assemble_image(alloc, text)?)),
        }
    }

    /// What it is written as.
    pub fn form(&self) -> Form
        ensures { result ≡ file_form self.now }
    {
        match self {
            ProgramFile::Image(_) => Form::Image,
            ProgramFile::Elf(_) => Form::Executable,
            ProgramFile::Source(_) => Form::Source,
        }
    }

    /// The image.
    pub fn bytes(&self) -> &[u8]
        ensures { result.now ≡ file_bytes self.now }
    {
        match self {
            ProgramFile::Image(image) => image.bytes.as_slice(),
            ProgramFile::Elf(elf) => elf.bytes(),
            ProgramFile::Source(program) => program.image.as_slice(),
        }
    }

    /// The address of the image's first byte.
    pub fn base(&self) -> u32
        ensures { result ≡ file_base self.now }
    {
        match self {
            ProgramFile::Image(image) => image.base,
            ProgramFile::Elf(elf) => elf.base(),
            ProgramFile::Source(program) => program.base,
        }
    }

    /// How many bytes of the image are code, as the file says.
    pub fn code_len(&self) -> u32
        ensures { result ≡ file_code_len self.now }
    {
        match self {
            ProgramFile::Image(image) => image.code_len,
            ProgramFile::Elf(elf) => elf.code_len(),
            ProgramFile::Source(program) => program.code_len,
        }
    }

    /// Where each core starts that is told nothing else: of an executable the entry, else the base.
    pub fn start(&self) -> u32
        ensures { result ≡ file_start self.now }
    {
        match self {
            ProgramFile::Elf(elf) => elf.entry(),
            _ => self.base(),
        }
    }

    // The first address above the program, with the zeros that an executable wants behind its bytes.
    fn end(&self) -> u64
        ensures { result ≡ file_end self.now }
    {
        match self {
            ProgramFile::Elf(elf) => u64::from(elf.end()),
            _ => u64::from(self.base()) + self.bytes().len() as u64,
        }
    }

    /// The address of a symbol of a source or an executable.
    pub fn symbol(&self, name: &[u8]) -> Option<u32>
        ensures { IsFileSymbol self.now name.now result }
    {
        match self {
            ProgramFile::Image(_) => None,
            ProgramFile::Elf(elf) => elf.symbol(name),
            ProgramFile::Source(program) => program.address(name),
        }
    }

    /// Where each core starts.
    pub fn starts(&self, alloc: Global, settings: &Settings<'_>) -> Result<Vec<u32>, ProgramRefusal>
        ensures cores { IfOk result (λ starts. length starts.items ≤ 64 → length starts.items ≡ settings.now.cores) }
        ensures default { IfOk result (λ starts. settings.now.entries ≡ None
            → starts.items ≡ replicate (min settings.now.cores 65) (file_start self.now)) }
        ensures starts { IfOk result (λ starts. length starts.items ≤ 64
            → AreStarts self.now settings.now.entries settings.now.cores starts.items) }
        ensures many { IfOk result (λ starts. 64 < length starts.items → 64 < settings.now.cores) }
        ensures none { IfErr result (HasNoStarts self.now settings.now.entries settings.now.cores) }
    {
        match settings.entries {
            Some(list) => starts_of(alloc, list, settings.cores, self),
            None => same_start(alloc, self.start(), settings.cores),
        }
    }

    /// The program, with the memory size that is asked for and a core for each of these starts. Behind the tests of
    /// [`ia_image::load`] it is [`LoadFault::TooLarge`] where the zeros of an executable pass the memory's end.
    pub fn load(
        &self,
        alloc: Global,
        settings: &Settings<'_>,
        starts: &[u32],
    ) -> Result<Program, ProgramRefusal>
        ensures program { IfOk result (λ program. program ≡ loaded self.now settings.now.memory starts.now) }
        ensures few { IfOk result (λ program. length program.entries ≤ 64) }
        ensures fits { IfOk result (λ _. file_end self.now ≤ settings.now.memory) }
        ensures fault { IfErr result (λ refusal. TellsLoad self.now settings.now.memory starts.now refusal) }
    {
        let program = load(
            alloc,
            self.bytes(),
            self.base(),
            self.code_len(),
            settings.memory,
            starts,
        )?;
        // By this it is known that there are 64 cores at most.
        let _cores = program.cores();
        if self.end() > u64::from(settings.memory) {
            return Err(ProgramRefusal::Fault(ProgramFault::Load(LoadFault::TooLarge)));
        }
        Ok(program)
    }
}

// Where the cores start as a list says.
fn starts_of(
    alloc: Global,
    list: EntryList<'_>,
    cores: u32,
    file: &ProgramFile<'_>,
) -> Result<Vec<u32>, ProgramRefusal>
    ensures cores { IfOk result (λ starts. length starts.items ≤ 64 → length starts.items ≡ cores) }
    ensures starts { IfOk result (λ starts. length starts.items ≤ 64
        → AreStarts file.now (Some list.entry) cores starts.items) }
    ensures many { IfOk result (λ starts. 64 < length starts.items → 64 < cores) }
    ensures none { IfErr result (HasNoStart file.now list.entry.text.now cores) }
{
    let addresses = list.addresses(alloc, file)?;
    for_cores(alloc, addresses, cores)
}

// One address for all cores, or one a core.
#[tactic(auto, using(crate::proofs::EntrySteps::entry_steps))]
fn for_cores(alloc: Global, addresses: Vec<u32>, cores: u32) -> Result<Vec<u32>, ProgramRefusal>
    ensures cores { IfOk result (λ starts. length starts.items ≤ 64 → length starts.items ≡ cores) }
    ensures starts { IfOk result (λ starts. length starts.items ≤ 64 → starts.items ≡ for_cores cores addresses.items) }
    ensures many { IfOk result (λ starts. 64 < length starts.items → 64 < cores) }
    ensures none { IfErr result
        (λ refusal. IsWant refusal ⊎ ((length addresses.items ≢ 1) × (length addresses.items ≢ cores)
        × NamesOption (codes "--entry") refusal)) }
{
    match addresses.as_slice() {
        [alone] => same_start(alloc, *alone, cores),
        all if all.len() == cores as usize => Ok(addresses),
        _ => Err(ProgramRefusal::Usage("--entry")),
    }
}

// One address for all cores. One more than the most cores is refused as any greater number is.
fn same_start(alloc: Global, address: u32, cores: u32) -> Result<Vec<u32>, ProgramRefusal>
    ensures starts { IfOk result (λ starts. starts.items ≡ replicate (min cores 65) address) }
    ensures want { IfErr result IsWant }
{
    Ok(vec![in alloc; address; cores.min(65) as usize]?)
}
