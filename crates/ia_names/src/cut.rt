//! Where names are cut: at their dots, so that a local label and the label that it belongs to share a part.

ghost use Rattle.std.specs.Prelude.{◌≡◌, ◌≤◌, ◌<◌, ◌+◌, length, drop};
ghost use Rattle.std.specs.List.{prefix_len};
ghost use Rattle.ia_names.specs.Locals.{is_local};
ghost use Rattle.ia_names.specs.Tries.{is_letter};

/// Whether a name is that of a local label: it begins with a dot.
pub fn is_local(own: &[u8]) -> bool
    ensures { result ≡ is_local own.now }
{
    match own.first() {
        Some(byte) => *byte == b'.',
        None => false,
    }
}

/// How long the first part of a name is: up to the next dot behind its first letter.
#[tactic(auto, using(crate::proofs::Cuts::letter_steps))]
pub fn part_length(name: &[u8]) -> usize
    requires { 0 < length name.now }
    ensures long { result ≡ 1 + prefix_len is_letter (drop 1 name.now) }
    ensures within { result ≤ length name.now }
{
    let mut place = 1;
    while place < name.len() {
        if name[place] == b'.' {
            return place;
        }
        place += 1;
    }
    place
}
