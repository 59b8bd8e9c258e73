//! Memory as a core sees it: [`push_memory`].
//!
//! Whether all bytes are there is asked first, so that a reply is either whole or `E14`. They go out as two hex
//! digits each. Memory is never written for gdb: that is refused in `tm_gdb`.

ghost use Rattle.std.specs.Prelude.{◌≡◌, ◌+◌, ◌*◌, ◌^◌, ◌≤◌, ◌<◌, ◌++◌, length};
ghost use Rattle.arrayvec.specs.ArrayVec.{array_vec_len};
ghost use Rattle.gdb_target.specs.Memory.{bytes_text, is_readable, memory_text};

use gdb_packet::Bytes;
use text_out::page::{push, push_bytes};
use tm_core::Machine;

fn is_readable(machine: &Machine, at: u64, count: u64) -> bool
    requires { at + count < 2 ^ 64 }
    ensures { result ≡ is_readable machine.now at count }
{
    at + count <= machine.view().len() as u64 && at + count <= 0x1_0000_0000 && count <= 8192
}

// Adds the bytes from an address on, as a core sees them.
fn push_seen(row: &mut Bytes, machine: &Machine, core: u8, at: u32, count: u32)
    requires exists { core < length machine.now.views }
    requires within { at + count ≤ length machine.now.memory }
    requires addresses { at + count ≤ 2 ^ 32 }
    requires room { array_vec_len row.old + 2 * count ≤ 16384 }
    ensures { row.new.items ≡ row.old.items ++ bytes_text machine.now core at count }
{
    'bytes: for index in 0..count {
        let byte = machine.seen(core, at + index).unwrap();
        push_bytes(row, &[byte]);
    }
}

/// Adds bytes of memory from an address on, as a core sees them, or `E14` where not all of them are memory's or they
/// are more than 8192: `m`.
pub fn push_memory(row: &mut Bytes, machine: &Machine, core: u8, at: u32, count: u32)
    requires exists { core < length machine.now.views }
    requires empty { array_vec_len row.old ≡ 0 }
    ensures { row.new.items ≡ row.old.items ++ memory_text machine.now core at count }
{
    if is_readable(machine, u64::from(at), u64::from(count)) {
        push_seen(row, machine, core, at, count);
    } else {
        push(row, b"E14");
    }
}
