//! Each call of `tm_quick`, at instructions that it answers and at some that it does not.

use super::program;
use ia_addr::Access;
use ia_exec::Store;
use ia_regs::{Flags, Regs};
use std::alloc::Global;
use std::fmt;
use std::process::Abort;
use tm_quick::{
    Loaded, Ran, Told, access_of, line_at, quick, quick_load, quick_store, quick_store_told,
    quick_told, quick_untouched, quick_whole, quick_with_value,
};

/// The caller.
struct Tests;

/// What each call answers at one instruction.
#[derive(Clone, Copy)]
struct Answered {
    ran: Ran,
    told: Told,
    load: Option<Loaded>,
    store: bool,
    store_told: Option<Store>,
    inside: bool,
    whole: bool,
    access: Option<Option<Access>>,
    with_value: Option<Option<Store>>,
}

/// Where no call answers.
const NONE: Answered = Answered {
    ran: Ran::Other,
    told: Told::Other,
    load: None,
    store: false,
    store_told: None,
    inside: false,
    whole: false,
    access: None,
    with_value: None,
};

/// Each call at the instruction at 100h, with EAX 7, a memory of zeros, and 5 as what is told to be loaded.
fn asked(rt: &impl Abort, alloc: Global, code: &[u8]) -> Answered {
    let program = program(rt, alloc, code, &[0x100]);
    let code = program.code();
    let base = program.base();
    let Some(line) = line_at(program.lines(), base, 0x100) else {
        return NONE;
    };
    let start = Regs {
        gpr: [7, 0, 0, 0, 0, 0, 0, 0],
        flags: Flags::of(false, false, false, false, false, false),
        eip: 0x100,
    };
    let mut memory = vec![in alloc; 0u8; 0x1010].expect(rt, "ample memory");
    let mut regs = start;
    let load = quick_load(line, &regs, &memory, code, base);
    let access = access_of(line, &regs, &memory);
    let ran = quick(line, &mut regs, &mut memory, code, base);
    regs = start;
    let told = quick_told(line, &mut regs, &mut memory, code, base);
    regs = start;
    let inside = quick_untouched::<Tests>(line, &mut regs);
    regs = start;
    let with_value = quick_with_value(line, 5, &mut regs, &memory, code, base);
    regs = start;
    let store = quick_store(line, 5, &mut regs, &mut memory, code, base);
    regs = start;
    let store_told = quick_store_told(line, 5, &mut regs, &mut memory, code, base);
    regs = start;
    let whole = quick_whole(line, &mut regs, &mut memory, code, base);
    Answered {
        ran,
        told,
        load,
        store,
        store_told,
        inside,
        whole,
        access,
        with_value,
    }
}

/// A load or a store as a row writes it: its width and its address in hex.
#[derive(Clone, Copy)]
struct Place(Access);

impl fmt::Display for Place {
    fn fmt<W: fmt::Write>(&self, f: &mut fmt::Formatter<W>) -> fmt::Result {
        write!(f, "{:?} at {:x}", self.0.width, self.0.addr)
    }
}

/// The place of a store.
fn place_of(store: Store) -> Place {
    Place(Access {
        addr: store.addr,
        width: store.width,
    })
}

impl fmt::Display for Answered {
    /// The calls that answer, in the order of the fields, each with what it answers; all others are left out.
    fn fmt<W: fmt::Write>(&self, f: &mut fmt::Formatter<W>) -> fmt::Result {
        write_ran(self.ran, f)?;
        write_told(self.told, f)?;
        if let Some(loaded) = self.load {
            write!(f, " load={} of {}", loaded.value, Place(loaded.load))?;
        }
        if self.store {
            f.write_str(" store")?;
        }
        if let Some(store) = self.store_told {
            write!(f, " store_told={} to {}", store.value, place_of(store))?;
        }
        if self.inside {
            f.write_str(" inside")?;
        }
        if self.whole {
            f.write_str(" whole")?;
        }
        write_foretold(self, f)
    }
}

/// What `quick` made of it.
fn write_ran<W: fmt::Write>(ran: Ran, f: &mut fmt::Formatter<W>) -> fmt::Result {
    match ran {
        Ran::Whole => f.write_str(" ran=whole"),
        Ran::First(value) => write!(f, " ran=first, {value}"),
        Ran::Other => Ok(()),
    }
}

/// What `quick_told` tells of it.
fn write_told<W: fmt::Write>(told: Told, f: &mut fmt::Formatter<W>) -> fmt::Result {
    match told {
        Told::Whole(touched) => {
            f.write_str(" told=whole")?;
            if let Some(load) = touched.load {
                write!(f, ", loads {}", Place(load))?;
            }
            if let Some(store) = touched.store {
                write!(f, ", stores {} to {}", store.value, place_of(store))?;
            }
            Ok(())
        }
        Told::First(loaded) => write!(f, " told=first, {} of {}", loaded.value, Place(loaded.load)),
        Told::Other => Ok(()),
    }
}

/// What is said before it runs: what it would load, and what it would store with 5 loaded.
fn write_foretold<W: fmt::Write>(answered: &Answered, f: &mut fmt::Formatter<W>) -> fmt::Result {
    match answered.access {
        Some(Some(access)) => write!(f, " access={}", Place(access))?,
        Some(None) => f.write_str(" access=none")?,
        None => {}
    }
    match answered.with_value {
        Some(Some(store)) => write!(f, " with_value={} to {}", store.value, place_of(store)),
        Some(None) => f.write_str(" with_value=none"),
        None => Ok(()),
    }
}

/// Code in hex, the instruction, what is special about it, and the calls that answer, each with what it answers; all
/// others do not.
const ANSWERS: &str = "\
85c0; test eax, eax; on registers; ran=whole told=whole inside whole
a100100000; mov eax, [1000h]; loads; \
ran=whole told=whole, loads D at 1000 whole access=D at 1000 with_value=none
a300100000; mov [1000h], eax; stores; \
ran=whole told=whole, stores 7 to D at 1000 whole access=none with_value=7 to D at 1000
ff0500100000; inc dword [1000h]; both; ran=first, 0 told=first, 0 of D at 1000 load=0 of D at 1000 store \
store_told=6 to D at 1000 whole access=D at 1000 with_value=6 to D at 1000
ff0500010000; inc dword [100h]; into the code; access=D at 100
a100200000; mov eax, [2000h]; past the end, where that lies was asked before; with_value=none
f4; hlt; stops;
0f01d5; xend; outside of transactions;
f7e3; mul ebx; no row;
";

/// What each call answers at the instruction of these digits, as a row writes it.
fn printed(rt: &impl Abort, alloc: Global, digits: &str) -> Option<String> {
    let code = hex::decode(alloc, digits).ok()?;
    let answered = asked(rt, alloc, code.as_slice());
    format!(in alloc; "{answered}").ok()
}

#[test]
fn each_call_answers(rt: HostRuntime) {
    for row in ANSWERS.lines() {
        let (digits, said) = row.split_once("; ").unwrap_or((row, ""));
        let want = said.rsplit_once(';').unwrap_or((said, "")).1;
        match printed(&rt, rt.alloc(), digits) {
            Some(text) => assert_eq!(rt; text.as_str(), want, "{digits}"),
            None => assert!(rt; false, "no answer: {digits}"),
        }
    }
}
