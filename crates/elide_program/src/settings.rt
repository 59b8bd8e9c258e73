//! The options that `run`, `threads`, `replay` and `debug` have alike, as numbers and lists.
//!
//! [`Settings::read`] goes by `--cores`, `--mem`, `--entry`, `--reads`, `--writes`, `--store-buffer`, `--dump`,
//! `--show`, and tells the first that is misread. It opens no file: names are tested for their form alone. That there
//! are such cores, such a memory and such limits is tested by who makes the machine.
//!
//! [`has_store_buffer`] looks at that one option alone, for who asks of nothing else whether stores may be pending.

ghost use Rattle.std.specs.Prelude.{◌≡◌, Contains, IfErr, IfOk, List, MatchResult, None, Some, codes, false};
ghost use Rattle.std.specs.Prelude.{option_map, ℕ};
ghost use Rattle.std.specs.Option.{option_copied};
ghost use Rattle.std.specs.Borrow.{Bor};
ghost use Rattle.elide_program.specs.Entries.{is_entry_list};
ghost use Rattle.elide_program.specs.Forms.{IsNoDump, is_sum_form};
ghost use Rattle.elide_program.specs.Refusals.{NamesOption};
ghost use Rattle.elide_program.specs.Settings.{has_store_buffer, number_or, number_said};

use crate::entries::EntryList;
use crate::fault::ProgramRefusal;
use crate::number::word32;
use crate::parts::is_dump;
use crate::sums::is_sum;
use elide_args::MachineOptions;

/// How many cores there are where `--cores` is not given.
const CORES: u32 = 1;

/// The memory size in bytes where `--mem` is not given.
const MEMORY: u32 = 65_536;

/// How many lines a transaction can read where `--reads` is not given, and write where `--writes` is not given.
const LINES: u32 = 512;

/// How many stores of a core may be pending where `--store-buffer` is not given: what a step stores is in memory at
/// once.
const STORES: u32 = 0;

/// What the options say of a machine. Ranges are tested where the machine is made.
#[derive(Clone, Copy)]
pub struct Settings<'a> {
    /// The number of cores.
    pub cores: u32,
    /// The memory size in bytes.
    pub memory: u32,
    /// Where the cores begin, if not at the base.
    pub entries: Option<EntryList<'a>>,
    /// How many lines a transaction can read.
    pub reads: u32,
    /// How many lines a transaction can write.
    pub writes: u32,
    /// How many stores of a core may be pending.
    pub stores: u32,
    /// The parts of memory that are printed, each as `AT:BYTES`.
    pub dumps: &'a [&'a str],
    /// Where the doublewords stand that are printed.
    pub shows: &'a [&'a str],
}

impl<'a> Settings<'a> {
    ghost use Rattle.elide_program.specs.Refusals.{IsMisread};
    ghost use Rattle.elide_program.specs.Settings.{AreSettings};

    /// Reads the options in the order in which their misuse is told. Where they are not given there is 1 core with a
    /// memory of 65536 bytes, a transaction can read and write 512 lines, and no store is pending.
    pub fn read(options: &'a MachineOptions<'a>) -> Result<Settings<'a>, ProgramRefusal>
        ensures settings { IfOk result (λ settings. AreSettings options.now settings) }
        ensures misread { IfErr result (IsMisread options.now) }
    {
        let cores = number_or(options.cores, CORES, "--cores")?;
        let memory = number_or(options.memory, MEMORY, "--mem")?;
        let entries = entries_of(options.entry, cores)?;
        let reads = number_or(options.reads, LINES, "--reads")?;
        let writes = number_or(options.writes, LINES, "--writes")?;
        let stores = number_or(options.store_buffer, STORES, "--store-buffer")?;
        let dumps = options.dumps.as_slice();
        let shows = options.shows.as_slice();
        check_dumps(dumps)?;
        check_shows(shows)?;
        Ok(Settings {
            cores,
            memory,
            entries,
            reads,
            writes,
            stores,
            dumps,
            shows,
        })
    }
}

/// Whether the options say that stores may be pending: `--store-buffer` is a number of 1 or more. A value that is no
/// number is told by [`Settings::read`].
pub fn has_store_buffer(options: &MachineOptions<'_>) -> bool
    ensures { result ≡ has_store_buffer options.now }
{
    match number_or(options.store_buffer, STORES, "--store-buffer") {
        Ok(stores) => stores > 0,
        Err(_) => false,
    }
}

/// The value of the option of this name, as a number below 2^32.
pub fn number_of(text: Option<&str>, name: &'static str) -> Result<u32, ProgramRefusal>
    ensures { MatchResult result
        (λ value. number_said (option_copied text.entry) ≡ Some value)
        (λ refusal. (number_said (option_copied text.entry) ≡ None) × (refusal ≡ ProgramRefusal.Usage name.entry)) }
{
    match text.and_then(word32) {
        Some(value) => Ok(value),
        None => Err(ProgramRefusal::Usage(name)),
    }
}

// What [`number_of`] answers, of an option that need not be given.
fn number_or(text: Option<&str>, default: u32, name: &'static str) -> Result<u32, ProgramRefusal>
    ensures { MatchResult result
        (λ value. number_or default (option_copied text.entry) ≡ Some value)
        (λ refusal. (number_or default (option_copied text.entry) ≡ None)
        × (refusal ≡ ProgramRefusal.Usage name.entry)) }
{
    match text {
        Some(_) => number_of(text, name),
        None => Ok(default),
    }
}

// The entries, where the option is given.
fn entries_of<'a>(
    text: Option<&'a str>,
    cores: u32,
) -> Result<Option<EntryList<'a>>, ProgramRefusal>
    ensures entries { IfOk result (λ entries. option_map (λ list. list.text.now) entries ≡ option_copied text.entry) }
    ensures misread { IfErr result (λ refusal. (list : List ℕ) × (option_copied text.entry ≡ Some list)
        × (is_entry_list list cores ≡ false) × NamesOption (codes "--entry") refusal) }
{
    let Some(text) = text else {
        return Ok(None);
    };
    match EntryList::read(text, cores) {
        Some(list) => Ok(Some(list)),
        None => Err(ProgramRefusal::Usage("--entry")),
    }
}

// Refuses parts of memory of another form.
fn check_dumps(texts: &[&str]) -> Result<(), ProgramRefusal>
    ensures { IfErr result (λ refusal. (text : Bor (List ℕ)) × Contains texts.now text × IsNoDump text.now
        × NamesOption (codes "--dump") refusal) }
{
    for text in texts {
        if !is_dump(text) {
            return Err(ProgramRefusal::Usage("--dump"));
        }
    }
    Ok(())
}

// Refuses places of doublewords of another form.
fn check_shows(texts: &[&str]) -> Result<(), ProgramRefusal>
    ensures { IfErr result (λ refusal. (text : Bor (List ℕ)) × Contains texts.now text × (is_sum_form text.now ≡ false)
        × NamesOption (codes "--show") refusal) }
{
    for text in texts {
        if !is_sum(text) {
            return Err(ProgramRefusal::Usage("--show"));
        }
    }
    Ok(())
}
