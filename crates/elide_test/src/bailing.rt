//! Why nothing more is tried: [`refused`], for the first file, in their order, that cannot be.
//!
//! The tests of the files before it are told, and behind them `Bail out!` with its name and the fault; as JSON nothing
//! is printed. The refusal that is given back is told by the command, too; where the device fails, that is told
//! instead. Faults have their numbers here, and no [`Stop`] is made.

ghost use Rattle.std.specs.Prelude.{◌++◌, ℕ, IfOk, List, OnOk};
ghost use Rattle.std.specs.Io.KnownBytes.{Appends};
ghost use Rattle.text_out.specs.Writing.{Wrote};
ghost use Rattle.elide_setup.specs.Told.{fault_back, fault_front};
ghost use Rattle.elide_test.specs.Tap.{bail_line, bail_text};

use crate::report::FileReport;
use crate::stop::Stop;
use crate::tap::{tell_text, tell_until};
use elide_device::Gathered;
use elide_program::ProgramFault;
use elide_setup::{Fault, Refusal, push_back, push_front, push_name};
use ia_image::LoadFault;
use text_out::text_line::TextLine;
use text_out::{Out, WriteFault};

impl From<Stop> for Refusal {
    fn from(stop: Stop) -> Refusal {
        Refusal::Fault(fault_of(stop))
    }
}

/// Tells, where JSON is not asked for, the files that were tried and why the next was not, and gives the refusal.
pub fn refused<O: Out + Drop>(
    is_json: bool,
    names: &[String],
    files: &[FileReport],
    stop: Stop,
    out: O,
) -> Refusal {
    let fault = fault_of(stop);
    if is_json {
        return Refusal::Fault(fault);
    }
    let name = match names.get(files.len()) {
        Some(name) => name.as_str(),
        None => "",
    };
    match bail_out(files, name, fault, out) {
        Ok(_) => Refusal::Fault(fault),
        Err(refusal) => refusal,
    }
}

// The fault of a file that is not tried.
fn fault_of(stop: Stop) -> Fault {
    match stop {
        Stop::Unread(fault) => Fault::Program(ProgramFault::from(fault)),
        Stop::BadTest(line) => Fault::BadTest(line),
        Stop::NoMemory => Fault::Program(ProgramFault::Load(LoadFault::NoMemory)),
    }
}

// Tells files, and that the next cannot be tried. Gives the device back.
fn bail_out<O: Out + Drop>(
    files: &[FileReport],
    name: &str,
    fault: Fault,
    out: O,
) -> Result<O, Refusal>
    ensures { IfOk result (λ given. (word : List ℕ) × Appends (O.device out).contents (O.device given).contents
        (bail_text files.now name.now fault word)) }
{
    let mut page = Gathered::new(out);
    tell_until(files, &mut page)?;
    tell_bail(name, fault, &mut page)?;
    let out = page.finish()?;
    Ok(out)
}

// `Bail out!`, the file, and the line that tells the fault.
fn tell_bail<O: Out>(name: &str, fault: Fault, out: &mut O) -> Result<(), WriteFault>
    ensures { OnOk result
        ((word : List ℕ) × Wrote (O.device out.old) (O.device out.new) (bail_line name.now fault word)) }
{
    out.put(b"Bail out! ")?;
    tell_text(name, out)?;
    out.put(b": ")?;
    tell_fault(fault, out)
}

// The line that tells a fault, by some name.
fn tell_fault<O: Out>(fault: Fault, out: &mut O) -> Result<(), WriteFault>
    ensures { OnOk result ((word : List ℕ) × Wrote (O.device out.old) (O.device out.new)
        (fault_front fault ++ word ++ fault_back fault)) }
{
    let mut line = TextLine::new();
    push_front(&mut line, fault);
    push_name(&mut line, fault);
    push_back(&mut line, fault);
    out.put(line.as_slice())?;
    Ok(())
}
