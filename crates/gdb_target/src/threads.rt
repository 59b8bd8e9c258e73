//! The list of the cores, each a thread: threads count from 1 where cores count from 0.
//!
//! [`push_threads`] tells their numbers, and [`push_thread_list`] what each of them does, too. Which is selected is
//! kept in `tm_gdb`; that there is no thread of a number is told there as well.

ghost use Rattle.std.specs.Prelude.{◌≡◌, ◌+◌, ◌≤◌, ◌<◌, ◌∷◌, ◌++◌, []};
ghost use Rattle.arrayvec.specs.ArrayVec.{array_vec_len};
ghost use Rattle.hex.specs.Hex.{encode_lower};

use gdb_packet::Bytes;
use text_out::page::{push, push_bytes};
use text_out::text_line::{TextLine, push_number};
use tm_core::Machine;
use tm_hist::push_state;
use tm_model::CoreState;

/// Adds the number of the thread that a core is, in two hex digits: 1 for the first core.
pub fn push_thread(row: &mut Bytes, core: u8)
    requires few { core < 64 }
    requires room { array_vec_len row.old + 2 ≤ 16384 }
    ensures text { row.new.items ≡ row.old.items ++ encode_lower ((core + 1) ∷ []) }
    ensures len { array_vec_len row.new ≡ array_vec_len row.old + 2 }
{
    push_bytes(row, &[core + 1]);
}

/// Adds the numbers of all threads: `qfThreadInfo`.
pub fn push_threads(row: &mut Bytes, cores: u8)
    requires few { cores ≤ 64 }
    requires empty { array_vec_len row.old ≡ 0 }
{
    push(row, b"m");
    'cores: for core in 0..cores {
        if core > 0 {
            push(row, b",");
        }
        push_thread(row, core);
    }
}

// Adds a core: its number, its name and what it is doing.
fn push_core(row: &mut Bytes, core: u8, state: CoreState)
    requires few { core < 64 }
    requires room { array_vec_len row.old + 100 ≤ 16384 }
    ensures { array_vec_len row.new ≤ array_vec_len row.old + 100 }
{
    push(row, b"<thread id=\"");
    push_thread(row, core);
    let mut line = TextLine::new();
    push(&mut line, b"\" core=\"");
    push_number(&mut line, core);
    push(&mut line, b"\" name=\"core ");
    push_number(&mut line, core);
    push(&mut line, b"\">");
    push_state(&mut line, state);
    push(&mut line, b"</thread>");
    push(row, line.as_slice());
}

/// Adds the list of the cores: `qXfer:threads:read`.
pub fn push_thread_list(row: &mut Bytes, machine: &Machine)
    requires { array_vec_len row.old ≡ 0 }
    ensures { array_vec_len row.new ≤ 7000 }
{
    push(row, b"<?xml version=\"1.0\"?><threads>");
    'cores: for core in 0..machine.cores() {
        push_core(row, core, machine.state(core).unwrap());
    }
    push(row, b"</threads>");
}
