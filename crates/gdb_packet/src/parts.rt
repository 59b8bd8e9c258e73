//! The parts of a text between separators, from left to right. An escape is taken back before, in `reader`.

ghost use Rattle.std.specs.Prelude.{◌≡◌, ◌==◌};
ghost use Rattle.std.specs.List.{position};
ghost use Rattle.gdb_packet.specs.Parts.{first_part, other_parts};

/// Where the first separator stands, if there is one.
pub fn place_of(separator: u8, text: &[u8]) -> Option<usize>
    ensures { result ≡ position (λ byte. byte == separator) text.now }
{
    text.iter().position(|byte| *byte == separator)
}

/// What stands before the first separator, all where there is none, and what stands behind it.
#[tactic(auto, unfolding(crate::specs::Parts::first_part, crate::specs::Parts::other_parts))]
pub fn split_at(separator: u8, text: &[u8]) -> (&[u8], &[u8])
    ensures first { result.0.now ≡ first_part separator text.now }
    ensures others { result.1.now ≡ other_parts separator text.now }
{
    match place_of(separator, text) {
        Some(place) => (&text[..place], &text[place + 1..]),
        None => (text, &[]),
    }
}
