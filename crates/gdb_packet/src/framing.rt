//! The packet of some bytes: `$`, the text with its escapes, `#` and the checksum (the GDB manual, "Overview" of the
//! remote protocol).

ghost use Rattle.std.specs.Prelude.{◌≡◌, ◌+◌, ◌*◌, ◌≤◌, ◌∷◌, ◌++◌, [], Some, length};
ghost use Rattle.arrayvec.specs.ArrayVec.{array_vec_len};
ghost use Rattle.hex.specs.Hex.{encode_lower};
ghost use Rattle.text_out.specs.Writing.{Writes};
ghost use Rattle.gdb_packet.specs.Packet.{checksum, checksum_digits, escaped, escaped_byte, framed, is_bound};
ghost use Rattle.gdb_packet.specs.Packet.{is_escaped};
ghost use Rattle.gdb_packet.specs.Packet.{unescaped};

use arrayvec::ArrayVec;
use text_out::page::push;
use text_out::{Out, WriteFault};

/// The most bytes that a packet tells or has as its text: `PacketSize` of `qSupported`.
pub const MOST_BYTES: usize = 16384;

// A packet, with room for an escape of each byte.
type Framed = ArrayVec<u8, 32772>;

/// The sum of the bytes modulo 256.
pub fn checksum(text: &[u8]) -> u8
    requires { length text.now ≤ 32768 }
    ensures { result ≡ checksum text.now }
{
    let total: u32 = text.iter().map(|byte| u32::from(*byte)).sum();
    (total % 256) as u8
}

/// The two digits of a text's checksum.
pub fn checksum_digits(text: &[u8]) -> [u8; 2]
    requires { length text.now ≤ 32768 }
    ensures { result ≡ checksum_digits text.now }
{
    let mut digits = [0; 2];
    let _ = hex::encode_to_slice(&[checksum(text)], &mut digits);
    digits
}

/// Whether a byte bounds a packet.
pub fn is_bound(byte: u8) -> bool
    ensures { result ≡ is_bound byte }
{
    byte == b'$' || byte == b'#'
}

fn is_escaped(byte: u8) -> bool
    ensures { result ≡ is_escaped byte }
{
    is_bound(byte) || byte == b'}' || byte == b'*'
}

fn push_byte(row: &mut Framed, byte: u8)
    requires { array_vec_len row.old + 2 ≤ 32772 }
    ensures text { row.new.items ≡ row.old.items ++ escaped_byte byte }
    ensures len { array_vec_len row.new ≤ array_vec_len row.old + 2 }
{
    if is_escaped(byte) {
        push(row, &[b'}', byte ^ 0x20]);
    } else {
        push(row, &[byte]);
    }
}

fn push_escaped(row: &mut Framed, bytes: &[u8])
    requires { array_vec_len row.old + 2 * length bytes.now ≤ 32772 }
    ensures text { row.new.items ≡ row.old.items ++ escaped bytes.now }
    ensures len { array_vec_len row.new ≤ array_vec_len row.old + 2 * length bytes.now }
{
    'bytes: for index in 0..bytes.len() {
        push_byte(row, bytes[index]);
    }
}

// Makes an empty row the packet that tells these bytes. The row is lent: one that is given back would stand on the
// stack three times.
fn frame(row: &mut Framed, bytes: &[u8])
    requires empty { row.old.items ≡ [] }
    requires few { length bytes.now ≤ 16384 }
    ensures { row.new.items ≡ framed bytes.now }
{
    push_escaped(row, bytes);
    let digits = checksum_digits(row.as_slice());
    row.insert(0, b'$');
    push(row, b"#");
    push(row, &digits);
}

/// Writes the packet that tells these bytes.
pub fn write_packet<O: Out>(bytes: &[u8], out: &mut O) -> Result<(), WriteFault>
    requires { length bytes.now ≤ 16384 }
    ensures text { Writes (O.device out.old) (O.device out.new) (framed bytes.now) result }
    ensures reads_back { unescaped (escaped bytes.now) ≡ Some bytes.now }
{
    let mut row = Framed::new();
    frame(&mut row, bytes);
    out.put(row.as_slice())?;
    Ok(())
}
