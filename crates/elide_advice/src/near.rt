//! Names that are near a word: [`is_near`], by what is left of both without the front and the back that they share.
//!
//! Both go byte by byte, a call for each, so that who asks bounds the length of a name before: `unknown` does. A word
//! is near to itself, too.

/// Whether one edit leads from a word to a name, in any case: a character more, one less, another one, or two that are
/// swapped.
pub fn is_near(word: &[u8], name: &[u8]) -> bool {
    let (word, name) = behind_front(word, name);
    let (word, name) = before_back(word, name);
    match (word, name) {
        ([first, second], [third, fourth]) => is_same(*first, *fourth) && is_same(*second, *third),
        _ => word.len() <= 1 && name.len() <= 1,
    }
}

fn is_same(byte: u8, other: u8) -> bool {
    byte.eq_ignore_ascii_case(&other)
}

// What stands in two texts behind the front that they share.
fn behind_front<'w, 'n>(word: &'w [u8], name: &'n [u8]) -> (&'w [u8], &'n [u8]) {
    match (word, name) {
        ([first, word_rest @ ..], [other, name_rest @ ..]) if is_same(*first, *other) => {
            behind_front(word_rest, name_rest)
        }
        _ => (word, name),
    }
}

// What stands in two texts before the back that they share.
fn before_back<'w, 'n>(word: &'w [u8], name: &'n [u8]) -> (&'w [u8], &'n [u8]) {
    match (word, name) {
        ([word_rest @ .., last], [name_rest @ .., other]) if is_same(*last, *other) => {
            before_back(word_rest, name_rest)
        }
        _ => (word, name),
    }
}
