//! Why a command ends without its answer: the faults of all that it does, under one type.
//!
//! A fault of a crate below keeps the number, the name and the line that it has there; numbered here are 60, 61, 73, 76
//! to 78, 81 and 83 to 85, which commands have of their own. A misused option is no fault: it has a name, no number,
//! and another exit status. How the line is written stands in `told`, and what helps a person beside it in
//! `elide_advice`.

ghost use Rattle.std.specs.Prelude.{◌≡◌, ◌≤◌};
ghost use Rattle.elide_setup.specs.Faults.{fault_line, fault_number, refusal_status};

use elide_program::{ProgramFault, ProgramRefusal};
use ia_image::LoadFault;
use std::alloc::AllocError;
use text_out::{Failed, WriteFault};
use thiserror::Error;
use tm_core::{MachineFault, NoSuchCore, RunFault};
use tm_hist::{BoardFault, SerialFault, StepFault};
use tm_schedule::ScheduleFault;

/// A fault with a number, told on one line. It owns nothing, so that it goes through `?` at no cost.
#[derive(Clone, Copy, Debug, Error)]
pub enum Fault {
    /// There is no program.
    #[error("{0}")]
    Program(ProgramFault),
    /// The machine is not made.
    #[error("{0}")]
    Machine(MachineFault),
    /// The schedule is not run.
    #[error("{0}")]
    Run(RunFault),
    /// The schedule is no schedule text.
    #[error("{0}")]
    Schedule(ScheduleFault),
    /// The board is not made.
    #[error("{0}")]
    Board(BoardFault),
    /// A step of the board is not made.
    #[error("{0}")]
    Step(StepFault),
    /// The history is not run again.
    #[error("{0}")]
    Serial(SerialFault),
    /// A worker's thread is not started.
    #[error("SpawnRefused")]
    SpawnRefused,
    /// The workers have no memory.
    #[error("NoMemory")]
    NoWorkers,
    /// The input of a session failed.
    #[error("Read")]
    SessionRead,
    /// The output of a session failed.
    #[error("Write")]
    SessionWrite,
    /// A session has no memory.
    #[error("NoMemory")]
    NoSession,
    /// A part of memory passes the memory's end.
    #[error("OutOfRange")]
    OutOfRange,
    /// A file, or a text of help, cannot be written.
    #[error("Output")]
    Output,
    /// There is no memory to read the words of the command line.
    #[error("NoMemory")]
    NoWords,
    /// A comment of a test cannot be read: its line, from 1.
    #[error("BadTest")]
    BadTest(usize),
    /// A run has more steps than a page shows.
    #[error("PageTooLong")]
    PageTooLong,
}

impl Fault {
    /// The fault's number.
    pub fn code(self) -> u8
        ensures { result ≡ fault_number self }
    {
        match self {
            Fault::Program(fault) => fault.code(),
            Fault::Machine(fault) => fault.code(),
            Fault::Run(fault) => fault.code(),
            Fault::Schedule(fault) => fault.code(),
            Fault::Board(fault) => fault.code(),
            Fault::Step(fault) => fault.code(),
            Fault::Serial(fault) => fault.code(),
            Fault::SpawnRefused => 60,
            Fault::NoWorkers => 61,
            Fault::OutOfRange => 73,
            Fault::SessionRead => 76,
            Fault::SessionWrite => 77,
            Fault::NoSession => 78,
            Fault::Output => 81,
            Fault::NoWords => 83,
            Fault::BadTest(_) => 84,
            Fault::PageTooLong => 85,
        }
    }

    /// The line of the text that is at fault, from 1.
    pub fn line(self) -> Option<usize>
        ensures { result ≡ fault_line self }
    {
        match self {
            Fault::Program(fault) => fault.line(),
            Fault::Schedule(ScheduleFault::BadSchedule(line)) => Some(line),
            Fault::Schedule(ScheduleFault::TooManySteps(line)) => Some(line),
            Fault::BadTest(line) => Some(line),
            _ => None,
        }
    }
}

/// Why a command whose words clap took ends: a fault, or an option that was misused.
#[derive(Clone, Copy, Debug)]
pub enum Refusal {
    /// A fault.
    Fault(Fault),
    /// The option of this name is misused.
    Usage(&'static str),
}

impl Refusal {
    /// The exit status: 1 for a fault, 2 for a misused option.
    pub fn status(self) -> u8
        ensures kind { result ≡ refusal_status self }
        ensures most { result ≤ 2 }
    {
        match self {
            Refusal::Fault(_) => 1,
            Refusal::Usage(_) => 2,
        }
    }
}

impl From<Fault> for Refusal {
    ghost use Rattle.elide_setup.specs.declared.fault.Refusal.TheVariants as refusal;

    ghost from_gives = { λ fault given. given ≡ refusal.Fault fault };

    fn from(fault: Fault) -> Refusal {
        Refusal::Fault(fault)
    }
}

impl From<MachineFault> for Refusal {
    ghost use Rattle.elide_setup.specs.declared.fault.Fault.TheVariants as fault;
    ghost use Rattle.elide_setup.specs.declared.fault.Refusal.TheVariants as refusal;

    ghost from_gives = { λ cause given. given ≡ refusal.Fault (fault.Machine cause) };

    fn from(fault: MachineFault) -> Refusal {
        Refusal::Fault(Fault::Machine(fault))
    }
}

impl From<ScheduleFault> for Refusal {
    ghost use Rattle.elide_setup.specs.declared.fault.Fault.TheVariants as fault;
    ghost use Rattle.elide_setup.specs.declared.fault.Refusal.TheVariants as refusal;

    ghost from_gives = { λ cause given. given ≡ refusal.Fault (fault.Schedule cause) };

    fn from(fault: ScheduleFault) -> Refusal {
        Refusal::Fault(Fault::Schedule(fault))
    }
}

impl From<BoardFault> for Refusal {
    ghost use Rattle.elide_setup.specs.declared.fault.Fault.TheVariants as fault;
    ghost use Rattle.elide_setup.specs.declared.fault.Refusal.TheVariants as refusal;

    ghost from_gives = { λ cause given. given ≡ refusal.Fault (fault.Board cause) };

    fn from(fault: BoardFault) -> Refusal {
        Refusal::Fault(Fault::Board(fault))
    }
}

impl From<StepFault> for Refusal {
    ghost use Rattle.elide_setup.specs.declared.fault.Fault.TheVariants as fault;
    ghost use Rattle.elide_setup.specs.declared.fault.Refusal.TheVariants as refusal;

    ghost from_gives = { λ cause given. given ≡ refusal.Fault (fault.Step cause) };

    #[inline(always)]
    fn from(fault: StepFault) -> Refusal {
        Refusal::Fault(Fault::Step(fault))
    }
}

impl From<SerialFault> for Refusal {
    ghost use Rattle.elide_setup.specs.declared.fault.Fault.TheVariants as fault;
    ghost use Rattle.elide_setup.specs.declared.fault.Refusal.TheVariants as refusal;

    ghost from_gives = { λ cause given. given ≡ refusal.Fault (fault.Serial cause) };

    fn from(fault: SerialFault) -> Refusal {
        Refusal::Fault(Fault::Serial(fault))
    }
}

impl From<NoSuchCore> for Refusal {
    ghost use Rattle.elide_setup.specs.declared.fault.Fault.TheVariants as fault;
    ghost use Rattle.elide_setup.specs.declared.fault.Refusal.TheVariants as refusal;
    ghost use Rattle.tm_core.specs.declared.fault.RunFault.TheVariants as run;

    ghost from_gives = { λ _ given. given ≡ refusal.Fault (fault.Run run.NoSuchCore) };

    #[inline(always)]
    fn from(_none: NoSuchCore) -> Refusal {
        Refusal::Fault(Fault::Run(RunFault::NoSuchCore))
    }
}

impl From<ProgramRefusal> for Refusal {
    ghost use Rattle.elide_setup.specs.Faults.{refusal_of};

    ghost from_gives = { λ cause given. given ≡ refusal_of cause };

    fn from(refusal: ProgramRefusal) -> Refusal {
        match refusal {
            ProgramRefusal::Fault(fault) => Refusal::Fault(Fault::Program(fault)),
            ProgramRefusal::Usage(name) => Refusal::Usage(name),
        }
    }
}

impl From<AllocError> for Refusal {
    ghost use Rattle.elide_setup.specs.Faults.{want};

    ghost from_gives = { λ _ given. given ≡ want };

    fn from(_refused: AllocError) -> Refusal {
        Refusal::Fault(Fault::Program(ProgramFault::Load(LoadFault::NoMemory)))
    }
}

impl From<Failed> for Refusal {
    ghost use Rattle.elide_setup.specs.Faults.{not_written};
    ghost use Rattle.text_out.specs.declared.out.WriteFault.TheVariants as failed;

    ghost from_gives = { λ _ given. given ≡ not_written failed.Write };

    fn from(_failed: Failed) -> Refusal {
        Refusal::from(WriteFault::Write)
    }
}

impl From<WriteFault> for Refusal {
    ghost use Rattle.elide_setup.specs.Faults.{not_written};

    ghost from_gives = { λ fault given. given ≡ not_written fault };

    fn from(fault: WriteFault) -> Refusal {
        Refusal::Fault(Fault::Program(ProgramFault::Write(fault)))
    }
}
