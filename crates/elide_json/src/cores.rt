//! The cores of a machine: each with its number, state, depth, stop, registers and flags, in this order, and behind
//! them the stores that are pending, where the machine has room for one.
//!
//! [`send_cores`] asks the machine while it sends, and keeps no copy; it is refused only by what it sends to. The words
//! of states and stops are those of `words`.

ghost use Rattle.std.specs.Prelude.{◌≡◌, ◌≤◌, ◌<◌, ◌+◌, ◌++◌, None, OnOk, Some, codes, length, map};
ghost use Rattle.arrayvec.specs.ArrayVec.{array_vec_len};
ghost use Rattle.elide_object.specs.Object.{SendsMember};
ghost use Rattle.serde_json.specs.Events.{SendsValue};
ghost use Rattle.elide_json.specs.Cores.{core_object, core_value, cores_value, flag_names, front_members, named_if};
ghost use Rattle.elide_json.specs.Cores.{regs_members, state_members, store_value, stores_value};
ghost use Rattle.elide_json.specs.Sent.{SendsFront};
ghost use Rattle.tm_core.specs.Theorem.{pending_at};

use crate::words::{name_of_state, stop_of_state};
use arrayvec::ArrayVec;
use elide_object::{send_number, send_text, send_text_or_null, send_texts};
use ia_regs::{Flags, Regs};
use ia_word::Width;
use serde::Serializer;
use tm_core::Machine;
use tm_hist::depth_of;
use tm_model::CoreState;

// The names of the flags that are set.
type Names = ArrayVec<&'static str, 6>;

/// Sends the cores of a machine, in the order of their numbers.
pub fn send_cores<S: Serializer>(machine: &Machine, out: &mut S) -> Result<(), S::Error>
    ensures { OnOk result
        (SendsMember (codes "cores") (cores_value machine.now) (S.written out.old) (S.written out.new)) }
{
    out.key("cores")?;
    send_list(machine, out)
}

fn send_list<S: Serializer>(machine: &Machine, out: &mut S) -> Result<(), S::Error>
    ensures { OnOk result (SendsValue (cores_value machine.now) (S.written out.old) (S.written out.new)) }
{
    out.begin_seq(Some(usize::from(machine.cores())))?;
    for core in 0..machine.cores() {
        send_core(machine, core, out)?;
    }
    out.end_seq()
}

// Sends a core that the machine has.
fn send_core<S: Serializer>(machine: &Machine, core: u8, out: &mut S) -> Result<(), S::Error>
    requires { core < length machine.now.views }
    ensures { OnOk result (SendsValue (core_value machine.now core) (S.written out.old) (S.written out.new)) }
{
    let state = machine.state(core).unwrap();
    let regs = machine.regs(core).unwrap();
    if machine.stores() == 0 {
        send_parts(core, state, &regs, out)
    } else {
        send_with_stores(machine, core, state, &regs, out)
    }
}

// Without stores that are pending.
fn send_parts<S: Serializer>(
    core: u8,
    state: CoreState,
    regs: &Regs,
    out: &mut S,
) -> Result<(), S::Error>
    ensures { OnOk result (SendsValue (core_object core state regs.now None) (S.written out.old) (S.written out.new)) }
{
    out.begin_map(Some(14))?;
    send_front(core, state, regs, out)?;
    out.end_map()
}

// With those of the core.
fn send_with_stores<S: Serializer>(
    machine: &Machine,
    core: u8,
    state: CoreState,
    regs: &Regs,
    out: &mut S,
) -> Result<(), S::Error>
    requires { core < length machine.now.views }
    ensures { OnOk result (SendsValue (core_object core state regs.now (Some (pending_at machine.now core)))
        (S.written out.old) (S.written out.new)) }
{
    out.begin_map(Some(15))?;
    send_front(core, state, regs, out)?;
    send_pending(machine, core, out)?;
    out.end_map()
}

// What is told of each core.
fn send_front<S: Serializer>(
    core: u8,
    state: CoreState,
    regs: &Regs,
    out: &mut S,
) -> Result<(), S::Error>
    ensures { OnOk result (SendsFront (front_members core state regs.now) (S.written out.old) (S.written out.new)) }
{
    send_number("core", u64::from(core), out)?;
    send_state(state, out)?;
    send_regs(regs, out)?;
    send_texts("flags", names_of(regs.flags).as_slice(), out)
}

// The stores of a core that are pending, the oldest first.
fn send_pending<S: Serializer>(machine: &Machine, core: u8, out: &mut S) -> Result<(), S::Error>
    requires { core < length machine.now.views }
    ensures { OnOk result (SendsMember (codes "pending") (stores_value (pending_at machine.now core))
        (S.written out.old) (S.written out.new)) }
{
    out.key("pending")?;
    send_stores(machine, core, out)
}

fn send_stores<S: Serializer>(machine: &Machine, core: u8, out: &mut S) -> Result<(), S::Error>
    requires { core < length machine.now.views }
    ensures { OnOk result
        (SendsValue (stores_value (pending_at machine.now core)) (S.written out.old) (S.written out.new)) }
{
    let pending = machine.pending(core).unwrap();
    out.begin_seq(Some(pending.len()))?;
    for store in pending {
        send_store(store.addr, store.width, store.value, out)?;
    }
    out.end_seq()
}

// A store of so many bytes at an address.
fn send_store<S: Serializer>(
    address: u32,
    width: Width,
    value: u32,
    out: &mut S,
) -> Result<(), S::Error>
    ensures { OnOk result (SendsValue (store_value (record { addr = address; width = width; value = value }))
        (S.written out.old) (S.written out.new)) }
{
    out.begin_map(Some(3))?;
    send_number("address", u64::from(address), out)?;
    send_number("value", u64::from(value), out)?;
    send_number("width", u64::from(width.bytes()), out)?;
    out.end_map()
}

fn send_state<S: Serializer>(state: CoreState, out: &mut S) -> Result<(), S::Error>
    ensures { OnOk result (SendsFront (state_members state) (S.written out.old) (S.written out.new)) }
{
    send_text("state", name_of_state(state), out)?;
    send_number("depth", u64::from(depth_of(state)), out)?;
    send_text_or_null("stop", stop_of_state(state), out)
}

fn send_regs<S: Serializer>(regs: &Regs, out: &mut S) -> Result<(), S::Error>
    ensures { OnOk result (SendsFront (regs_members regs.now) (S.written out.old) (S.written out.new)) }
{
    send_number("eax", u64::from(regs.get(0)), out)?;
    send_number("ecx", u64::from(regs.get(1)), out)?;
    send_number("edx", u64::from(regs.get(2)), out)?;
    send_number("ebx", u64::from(regs.get(3)), out)?;
    send_number("esp", u64::from(regs.get(4)), out)?;
    send_number("ebp", u64::from(regs.get(5)), out)?;
    send_number("esi", u64::from(regs.get(6)), out)?;
    send_number("edi", u64::from(regs.get(7)), out)?;
    send_number("eip", u64::from(regs.eip), out)
}

fn names_of(flags: Flags) -> Names
    ensures { map (λ name. name.now) result.items ≡ flag_names flags }
{
    let mut names = Names::new();
    push_name(&mut names, flags.carry(), "CF");
    push_name(&mut names, flags.parity(), "PF");
    push_name(&mut names, flags.adjust(), "AF");
    push_name(&mut names, flags.zero(), "ZF");
    push_name(&mut names, flags.sign(), "SF");
    push_name(&mut names, flags.overflow(), "OF");
    names
}

// Adds a name, where its flag is set.
fn push_name(names: &mut Names, is_set: bool, name: &'static str)
    requires { array_vec_len names.old < 6 }
    ensures names { map (λ name. name.now) names.new.items
        ≡ map (λ name. name.now) names.old.items ++ named_if is_set name.now }
    ensures len { array_vec_len names.new ≤ array_vec_len names.old + 1 }
{
    if is_set {
        names.push(name);
    }
}
