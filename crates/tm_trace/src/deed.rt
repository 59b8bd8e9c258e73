//! What a step does, told from the machine before it and behind it.
//!
//! [`Before::of`] is asked first, or [`Before::reaching`] of a step that was previewed, and keeps what the core sees
//! where the step loads, as the step may store there, and the oldest store that is pending. Behind the step
//! [`Before::deed`] looks at where it stored, and leaves out both where the outcome says that the instruction did not
//! go on. Of a drain it tells the store that reached memory, and no instruction: none ran. The step is made by the
//! caller between the two.

ghost use Rattle.std.specs.Prelude.{◌≡◌, ◌↔◌, ◌<◌, IfSome, IsSome, length, true};
ghost use Rattle.tm_core.specs.Seen.{byte_seen};
ghost use Rattle.tm_core.specs.Theorem.{pending_at, view_at};
ghost use Rattle.tm_trace.specs.Deeds.{IsBefore, IsDeed, IsReachSaid, datum_seen, instruction_at, is_drain};
ghost use Rattle.tm_trace.specs.Deeds.{is_in_memory, last_of, oldest_store, tells_reach, value_seen};

use ia_addr::Access;
use ia_image::Program;
use ia_insn::Insn;
use ia_word::Width;
use tm_core::Machine;
use tm_model::{Outcome, Reach};

/// A number that a step loaded or stored.
#[derive(Clone, Copy, PartialEq, Eq, Debug)]
pub struct Datum {
    /// The address of its lowest byte.
    pub address: u32,
    /// Whether it is a byte, or else a doubleword.
    pub width: Width,
    /// The number.
    pub value: u32,
}

/// What a step did.
#[derive(Clone, Copy, PartialEq, Eq, Debug)]
pub struct Deed {
    /// The address that its core showed before it: of a doomed core that of the XBEGIN which it goes back to.
    pub eip: u32,
    /// The instruction that stands there, if one does; none where the step was a drain.
    pub insn: Option<Insn>,
    /// What it loaded.
    pub loaded: Option<Datum>,
    /// What it stored: in memory, or in a transaction what that keeps for itself, or where stores may be pending what
    /// its core alone sees until a drain. Of a drain, what reached memory.
    pub stored: Option<Datum>,
}

/// What is known of a step before it is made.
#[derive(Clone, Copy, Debug)]
pub struct Before {
    eip: u32,
    insn: Option<Insn>,
    reach: Reach,
    // What the core sees where it loads.
    loaded: Option<Datum>,
    // The oldest store that is pending.
    oldest: Option<Datum>,
}

impl Before {
    /// What a machine that runs a program tells of the next step of a core; none, where there is no such core.
    pub fn of(machine: &Machine, program: &Program, core: u8) -> Option<Before>
        ensures exists { IsSome result ↔ (core < length machine.now.views) }
        ensures told { IfSome result (λ before. IsBefore machine.now program.now core before) }
    {
        let Ok(preview) = machine.preview(core) else {
            return None;
        };
        Some(Before::reaching(machine, program, core, preview.reach))
    }

    /// What a machine that runs a program tells of the next step of a core, of which its preview says that it reaches
    /// these bytes.
    pub fn reaching(machine: &Machine, program: &Program, core: u8, reach: Reach) -> Before
        requires core { core < length machine.now.views }
        requires reach { IsReachSaid machine.now core reach }
        ensures { IsBefore machine.now program.now core result }
    {
        let eip = eip_of(machine, core);
        Before {
            eip,
            insn: insn_at(program, eip),
            reach,
            loaded: datum_seen(machine, core, reach.load),
            oldest: oldest_store(machine, core),
        }
    }

    /// What the step did, from the machine behind it and its outcome: one that stopped, begun, ended, or was idle
    /// reached nothing, and a drain put the oldest pending store in memory.
    pub fn deed(&self, machine: &Machine, core: u8, outcome: &Outcome) -> Deed
        requires { core < length machine.now.views }
        ensures { IsDeed self.now machine.now core outcome.now result }
    {
        let stored = datum_seen(machine, core, self.reach.store);
        let has_reached = tells_reach(outcome);
        let is_drain = is_drain(outcome);
        Deed {
            eip: self.eip,
            insn: if is_drain { None } else { self.insn },
            loaded: if has_reached { self.loaded } else { None },
            stored: if is_drain {
                self.oldest
            } else if has_reached {
                stored
            } else {
                None
            },
        }
    }
}

// Whether the step of an outcome was made by its instruction, which goes on.
fn tells_reach(outcome: &Outcome) -> bool
    ensures { result ≡ tells_reach outcome.now }
{
    matches!(outcome, Outcome::Plain | Outcome::Loaded | Outcome::Inside)
}

// Whether the oldest store of the core reached memory in the step's place.
fn is_drain(outcome: &Outcome) -> bool
    ensures { result ≡ is_drain outcome.now }
{
    matches!(outcome, Outcome::Drained)
}

fn eip_of(machine: &Machine, core: u8) -> u32
    requires { core < length machine.now.views }
    ensures { result ≡ (view_at machine.now core).regs.eip }
{
    machine.regs(core).unwrap().eip
}

// The instruction of a program at an address.
fn insn_at(program: &Program, at: u32) -> Option<Insn>
    ensures { result ≡ instruction_at program.now at }
{
    let offset = at.checked_sub(program.base())?;
    match program.insn_at(offset) {
        Ok((insn, _length)) => Some(insn),
        Err(_) => None,
    }
}

// The number that a core sees at some bytes, where they lie in memory.
fn datum_seen(machine: &Machine, core: u8, access: Option<Access>) -> Option<Datum>
    requires { core < length machine.now.views }
    ensures { result ≡ datum_seen machine.now core access }
{
    let access = access?;
    if is_in_memory(machine, access) {
        Some(Datum {
            address: access.addr,
            width: access.width,
            value: value_seen(machine, core, access),
        })
    } else {
        None
    }
}

// The oldest store of a core that is pending.
fn oldest_store(machine: &Machine, core: u8) -> Option<Datum>
    requires { core < length machine.now.views }
    ensures { result ≡ oldest_store (pending_at machine.now core) }
{
    let pending = machine.pending(core).unwrap();
    if pending.is_empty() {
        return None;
    }
    let oldest = pending[0];
    Some(Datum {
        address: oldest.addr,
        width: oldest.width,
        value: oldest.value,
    })
}

fn last_of(width: Width) -> u32
    ensures { result ≡ last_of width }
{
    match width {
        Width::B => 0,
        Width::D => 3,
    }
}

// Whether bytes lie in memory.
fn is_in_memory(machine: &Machine, access: Access) -> bool
    ensures { result ≡ is_in_memory machine.now access }
{
    let last = u64::from(access.addr) + u64::from(last_of(access.width));
    last < 1 << 32 && last < machine.view().len() as u64
}

// The number at bytes that lie in memory.
fn value_seen(machine: &Machine, core: u8, access: Access) -> u32
    requires core { core < length machine.now.views }
    requires within { is_in_memory machine.now access ≡ true }
    ensures { result ≡ value_seen machine.now core access.width access.addr }
{
    let at = access.addr;
    match access.width {
        Width::B => byte_seen(machine, core, at),
        Width::D => {
            byte_seen(machine, core, at)
                + 0x100 * byte_seen(machine, core, at + 1)
                + 0x1_0000 * byte_seen(machine, core, at + 2)
                + 0x100_0000 * byte_seen(machine, core, at + 3)
        }
    }
}

// The byte that a core sees at an address.
fn byte_seen(machine: &Machine, core: u8, address: u32) -> u32
    requires core { core < length machine.now.views }
    requires within { address < length machine.now.memory }
    ensures byte { result ≡ byte_seen machine.now core address }
    ensures small { result < 256 }
{
    u32::from(machine.seen(core, address).unwrap())
}
