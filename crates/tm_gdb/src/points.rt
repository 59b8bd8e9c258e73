//! Breakpoints and watchpoints: the lists, and what a core meets of them.
//!
//! [`Points::stands`] is asked before a core's step; [`Points::sights`] before it too, for [`first_changed`] behind
//! it. Bytes are compared as the core that steps sees them, so that a store in a transaction counts for its own
//! core at once. What gdb is told of it stands in `stop`.

ghost use Rattle.std.specs.Prelude.{◌≡◌, ◌==◌, ◌+◌, ◌<◌, ◌≤◌, ◌++◌, [], MatchOption, false, filter, length, not, true};
ghost use Rattle.std.specs.List.{list_any};
ghost use Rattle.arrayvec.specs.ArrayVec.{array_vec_len};
ghost use Rattle.tm_gdb.specs.Points.{byte_or_zero, first_changed, is_span, is_to_execute, set_break};
ghost use Rattle.tm_gdb.specs.Points.{set_watch, sights, stands_at, unset_break, unset_watch};
ghost use Rattle.tm_gdb.specs.Points.{watched_byte, watched_number};

use arrayvec::ArrayVec;
use gdb_packet::Span;
use tm_core::Machine;
use tm_model::CoreState;

/// The most breakpoints, and the most watchpoints, that are set at once.
pub const MOST_POINTS: usize = 64;

// The most bytes that a watchpoint has.
const MOST_WATCHED: u32 = 8;

/// The points that are set.
#[derive(Drop)]
pub struct Points {
    pub breaks: ArrayVec<u32, MOST_POINTS>,
    pub watches: ArrayVec<Span, MOST_POINTS>,
}

/// What a core saw at a watchpoint: its bytes as a number.
#[derive(Clone, Copy, Debug, Default)]
pub struct Sight {
    pub span: Span,
    pub value: u64,
}

/// What a core saw at the watchpoints.
pub type Sights = ArrayVec<Sight, MOST_POINTS>;

// A byte as a core sees it, and 0 where memory has none.
fn byte_or_zero(machine: &Machine, core: u8, address: u32) -> u8
    requires { core < length machine.now.views }
    ensures { result ≡ byte_or_zero machine.now core address }
{
    if (address as usize) < machine.view().len() {
        match machine.seen(core, address) {
            Ok(byte) => byte,
            Err(_) => unreachable!(),
        }
    } else {
        0
    }
}

// A byte of a watchpoint, and 0 behind its end.
fn watched_byte(machine: &Machine, core: u8, span: Span, index: u32) -> u8
    requires { core < length machine.now.views }
    ensures { result ≡ watched_byte machine.now core span index }
{
    if index < span.count {
        byte_or_zero(machine, core, span.at.wrapping_add(index))
    } else {
        0
    }
}

// The bytes of a watchpoint as a number, as a core sees them.
#[tactic(auto, unfolding(crate::specs::Points::watched_number))]
fn watched_number(machine: &Machine, core: u8, span: Span) -> u64
    requires { core < length machine.now.views }
    ensures { result ≡ watched_number machine.now core span }
{
    u64::from_be_bytes([
        watched_byte(machine, core, span, 0),
        watched_byte(machine, core, span, 1),
        watched_byte(machine, core, span, 2),
        watched_byte(machine, core, span, 3),
        watched_byte(machine, core, span, 4),
        watched_byte(machine, core, span, 5),
        watched_byte(machine, core, span, 6),
        watched_byte(machine, core, span, 7),
    ])
}

// Whether a core's next step executes the instruction where it is from its beginning.
fn is_to_execute(state: CoreState) -> bool
    ensures { result ≡ is_to_execute state }
{
    match state {
        CoreState::Running | CoreState::Open(_) => true,
        CoreState::Mid | CoreState::Condemned(_) | CoreState::Stopped(_) => false,
    }
}

// Adds what a core sees at some watchpoints.
fn add_sights(row: &mut Sights, spans: &[Span], machine: &Machine, core: u8)
    requires room { array_vec_len row.old + length spans.now ≤ 64 }
    requires exists { core < length machine.now.views }
    ensures { row.new.items ≡ row.old.items ++ sights spans.now machine.now core }
{
    if let [span, others @ ..] = spans {
        row.push(Sight {
            span: *span,
            value: watched_number(machine, core, *span),
        });
        add_sights(row, others, machine, core);
    }
}

/// The address of the first watchpoint at which a core sees other bytes than were seen there.
pub fn first_changed(sights: &[Sight], machine: &Machine, core: u8) -> Option<u32>
    requires { core < length machine.now.views }
    ensures { result ≡ first_changed sights.now machine.now core }
{
    match sights {
        [] => None,
        [sight, others @ ..] => {
            if watched_number(machine, core, sight.span) == sight.value {
                first_changed(others, machine, core)
            } else {
                Some(sight.span.at)
            }
        }
    }
}

fn has_break(breaks: &[u32], address: u32) -> bool
    ensures { result ≡ list_any (λ b. b == address) breaks.now }
{
    breaks.contains(&address)
}

fn is_span(a: Span, b: Span) -> bool
    ensures { result ≡ is_span a b }
{
    a.at == b.at && a.count == b.count
}

fn has_watch(watches: &[Span], span: Span) -> bool
    ensures { result ≡ list_any (λ w. is_span w span) watches.now }
{
    watches.iter().any(|watch| is_span(*watch, span))
}

// Adds the breakpoints that are not at an address.
fn keep_breaks(row: &mut ArrayVec<u32, MOST_POINTS>, breaks: &[u32], address: u32)
    requires { array_vec_len row.old + length breaks.now ≤ 64 }
    ensures { row.new.items ≡ row.old.items ++ filter (λ b. not (b == address)) breaks.now }
{
    if let [first, others @ ..] = breaks {
        if *first != address {
            row.push(*first);
        }
        keep_breaks(row, others, address);
    }
}

// Adds the watchpoints that are not this one.
fn keep_watches(row: &mut ArrayVec<Span, MOST_POINTS>, watches: &[Span], span: Span)
    requires { array_vec_len row.old + length watches.now ≤ 64 }
    ensures { row.new.items ≡ row.old.items ++ filter (λ w. not (is_span w span)) watches.now }
{
    if let [first, others @ ..] = watches {
        if !is_span(*first, span) {
            row.push(*first);
        }
        keep_watches(row, others, span);
    }
}

impl Points {
    /// No points.
    pub fn new() -> Points
        ensures breaks { result.breaks.items ≡ [] }
        ensures watches { result.watches.items ≡ [] }
    {
        Points {
            breaks: ArrayVec::new(),
            watches: ArrayVec::new(),
        }
    }

    /// Sets a breakpoint. False where there is no room for it.
    pub fn insert_break(&mut self, address: u32) -> bool
        ensures set { MatchOption (set_break self.old.breaks.items address)
            ((result ≡ false) × (self.new.breaks.items ≡ self.old.breaks.items))
            (λ breaks. (result ≡ true) × (self.new.breaks.items ≡ breaks)) }
        ensures watches { self.new.watches ≡ self.old.watches }
    {
        if has_break(self.breaks.as_slice(), address) {
            return true;
        }
        if self.breaks.is_full() {
            return false;
        }
        self.breaks.push(address);
        true
    }

    /// Sets a watchpoint. False where there is no room for it, or where it has no bytes or more than 8.
    pub fn insert_watch(&mut self, span: Span) -> bool
        ensures set { MatchOption (set_watch self.old.watches.items span)
            ((result ≡ false) × (self.new.watches.items ≡ self.old.watches.items))
            (λ watches. (result ≡ true) × (self.new.watches.items ≡ watches)) }
        ensures breaks { self.new.breaks ≡ self.old.breaks }
    {
        if span.count == 0 || MOST_WATCHED < span.count {
            return false;
        }
        if has_watch(self.watches.as_slice(), span) {
            return true;
        }
        if self.watches.is_full() {
            return false;
        }
        self.watches.push(span);
        true
    }

    /// Takes a breakpoint away, if it is set.
    pub fn remove_break(&mut self, address: u32)
        ensures breaks { self.new.breaks.items ≡ unset_break self.old.breaks.items address }
        ensures watches { self.new.watches ≡ self.old.watches }
    {
        let mut row = ArrayVec::new();
        keep_breaks(&mut row, self.breaks.as_slice(), address);
        self.breaks = row;
    }

    /// Takes a watchpoint away, if it is set.
    pub fn remove_watch(&mut self, span: Span)
        ensures watches { self.new.watches.items ≡ unset_watch self.old.watches.items span }
        ensures breaks { self.new.breaks ≡ self.old.breaks }
    {
        let mut row = ArrayVec::new();
        keep_watches(&mut row, self.watches.as_slice(), span);
        self.watches = row;
    }

    /// Whether a core is at a breakpoint, and is to execute the instruction there.
    pub fn stands(&self, machine: &Machine, core: u8) -> bool
        requires { core < length machine.now.views }
        ensures { result ≡ stands_at self.now.breaks.items machine.now core }
    {
        let Ok(state) = machine.state(core) else {
            unreachable!()
        };
        let Ok(regs) = machine.regs(core) else {
            unreachable!()
        };
        is_to_execute(state) && has_break(self.breaks.as_slice(), regs.eip)
    }

    /// What a core sees at the watchpoints.
    pub fn sights(&self, machine: &Machine, core: u8) -> Sights
        requires { core < length machine.now.views }
        ensures { result.items ≡ sights self.now.watches.items machine.now core }
    {
        let mut row = Sights::new();
        add_sights(&mut row, self.watches.as_slice(), machine, core);
        row
    }
}
