//! The words of a line, from left to right, with spaces between. Nothing is quoted.

ghost use Rattle.std.specs.Prelude.{◌≡◌, ◌==◌, not};
ghost use Rattle.std.specs.List.{position};
ghost use Rattle.debug_command.specs.Words.{after_first_word, first_word, without_front_spaces};

// Where the first word begins.
fn word_start(line: &[u8]) -> Option<usize>
    ensures { result ≡ position (λ b. not (b == 32)) line.now }
{
    line.iter().position(|b| *b != b' ')
}

// Where the first space stands.
fn space(line: &[u8]) -> Option<usize>
    ensures { result ≡ position (λ b. b == 32) line.now }
{
    line.iter().position(|b| *b == b' ')
}

// A line without the spaces in front.
#[tactic(auto, unfolding(crate::specs::Words::without_front_spaces))]
fn trim(line: &[u8]) -> &[u8]
    ensures { result.now ≡ without_front_spaces line.now }
{
    match word_start(line) {
        Some(at) => &line[at..],
        None => &[],
    }
}

/// The first word of a line, empty where there is none, and what stands behind it.
#[tactic(auto, unfolding(crate::specs::Words::first_word, crate::specs::Words::after_first_word))]
pub fn split_word(line: &[u8]) -> (&[u8], &[u8])
    ensures word { result.0.now ≡ first_word line.now }
    ensures rest { result.1.now ≡ after_first_word line.now }
{
    let text = trim(line);
    match space(text) {
        Some(at) => (&text[..at], &text[at..]),
        None => (text, &[]),
    }
}
