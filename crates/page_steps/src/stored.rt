//! Bytes that were stored: of those that stand side by side the address of the first, and all of them in hex.
//!
//! [`write_stored`] takes them in the order in which they are handed in, and sorts nothing: a byte joins only the
//! one just before it. Whether they are memory's or a transaction's own is said by the member's name (`members`).

ghost use Rattle.std.specs.Prelude.{◌≡◌, ◌+◌, ◌++◌, OnOk, codes, nat_eq};
ghost use Rattle.text_out.specs.Writing.{Wrote};
ghost use Rattle.page_steps.specs.Stored.{digits_of_byte, first_text, inner_text, joint_text, more_text, stored_text};

use arrayvec::ArrayVec;
use page_text::write_number;
use text_out::page::push_bytes;
use text_out::{Out, WriteFault};
use tm_page::StoredByte;

/// Writes bytes with their addresses, in brackets: one that stands behind the byte before it goes on with its digits.
/// On 5 `Write` a beginning of them was written.
pub fn write_stored<O: Out>(bytes: &[StoredByte], out: &mut O) -> Result<(), WriteFault>
    ensures { OnOk result (Wrote (O.device out.old) (O.device out.new) (stored_text bytes.now)) }
{
    out.put(b"[")?;
    put_list(bytes, out)?;
    out.put(b"]")?;
    Ok(())
}

fn put_list<O: Out>(bytes: &[StoredByte], out: &mut O) -> Result<(), WriteFault>
    ensures { OnOk result (Wrote (O.device out.old) (O.device out.new) (inner_text bytes.now)) }
{
    let Some((first, rest)) = bytes.split_first() else {
        return Ok(());
    };
    put_first(*first, out)?;
    put_more(*first, rest, out)?;
    out.put(b"\"")?;
    Ok(())
}

// Writes the bytes behind the first, each by the one before it.
fn put_more<O: Out>(first: StoredByte, bytes: &[StoredByte], out: &mut O) -> Result<(), WriteFault>
    ensures { OnOk result (Wrote (O.device out.old) (O.device out.new) (more_text first bytes.now)) }
{
    let mut last = first;
    for byte in bytes {
        put_next(last, *byte, out)?;
        last = *byte;
    }
    Ok(())
}

// Writes a byte behind another one.
fn put_next<O: Out>(last: StoredByte, byte: StoredByte, out: &mut O) -> Result<(), WriteFault>
    ensures { OnOk result (Wrote (O.device out.old) (O.device out.new) (joint_text last byte)) }
{
    if is_next(last.address, byte.address) {
        return put_digits(byte.byte, out);
    }
    put_apart(byte, out)
}

// Whether an address is the one behind another.
fn is_next(last: u64, address: u64) -> bool
    ensures { result ≡ nat_eq address (last + 1) }
{
    address > last && address - last == 1
}

// Writes a byte that does not stand behind the last one.
fn put_apart<O: Out>(byte: StoredByte, out: &mut O) -> Result<(), WriteFault>
    ensures { OnOk result (Wrote (O.device out.old) (O.device out.new) (codes "\"," ++ first_text byte)) }
{
    out.put(b"\",")?;
    put_first(byte, out)
}

// Writes an address, and the first byte there.
fn put_first<O: Out>(byte: StoredByte, out: &mut O) -> Result<(), WriteFault>
    ensures { OnOk result (Wrote (O.device out.old) (O.device out.new) (first_text byte)) }
{
    write_number(byte.address, out)?;
    out.put(b",\"")?;
    put_digits(byte.byte, out)
}

fn put_digits<O: Out>(byte: u8, out: &mut O) -> Result<(), WriteFault>
    ensures { OnOk result (Wrote (O.device out.old) (O.device out.new) (digits_of_byte byte)) }
{
    let mut digits = ArrayVec::<u8, 2>::new();
    push_bytes(&mut digits, &[byte]);
    out.put(digits.as_slice())?;
    Ok(())
}
