//! The bytes that a text stands for.

ghost use Rattle.std.specs.Prelude.{◌≡◌, ◌≤◌, ◌<◌, ◌+◌, ◌∷◌, ℕ, List, None, Some, MatchOption, length};
ghost use Rattle.arrayvec.specs.ArrayVec.{array_vec_len};
ghost use Rattle.gdb_packet.specs.Packet.{behind, unescaped, unescaped_from};

use crate::framing::is_bound;
use crate::heard::Bytes;

// Takes the next byte of a text, which stands behind a `}` or not, and tells whether the byte after it does. Nothing
// for a bound.
#[tactic(auto, unfolding(crate::specs::Packet::unescaped_from))]
fn take_byte(bytes: &mut Bytes, escapes: bool, byte: u8) -> Option<bool>
    requires { array_vec_len bytes.old < 16384 }
    ensures stands_for { (rest : List ℕ) → MatchOption result (unescaped_from escapes (byte ∷ rest) ≡ None)
        (λ next. behind bytes.old.items (unescaped_from escapes (byte ∷ rest))
        ≡ behind bytes.new.items (unescaped_from next rest)) }
    ensures len { array_vec_len bytes.new ≤ array_vec_len bytes.old + 1 }
{
    if escapes {
        bytes.push(byte ^ 0x20);
        Some(false)
    } else if byte == b'}' {
        Some(true)
    } else if is_bound(byte) {
        None
    } else {
        bytes.push(byte);
        Some(false)
    }
}

/// The bytes that a text stands for, and nothing where it has a bound or ends within an escape.
pub fn unescape(text: &[u8]) -> Option<Bytes>
    requires { length text.now ≤ 16384 }
    ensures { MatchOption result (unescaped text.now ≡ None) (λ bytes. unescaped text.now ≡ Some bytes.items) }
{
    let mut bytes = Bytes::new();
    let mut escapes = false;
    'text: for index in 0..text.len() {
        match take_byte(&mut bytes, escapes, text[index]) {
            Some(next) => escapes = next,
            None => return None,
        }
    }
    if escapes { None } else { Some(bytes) }
}
