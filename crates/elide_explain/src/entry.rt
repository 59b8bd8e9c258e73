//! An entry, line by line: [`head_of`] knows its first line by the space that all others begin with.
//!
//! [`is_asked`] compares a number as text, so that `07` is none, and a name in any case.

/// The number and the name in an entry's first line; none for the other lines.
pub fn head_of(line: &str) -> Option<(&str, &str)> {
    if line.starts_with(' ') {
        return None;
    }
    line.split_once(' ')
}

/// Whether an entry of this number and name is asked for.
pub fn is_asked(head: (&str, &str), what: &str) -> bool {
    let (number, name) = head;
    number == what || name.eq_ignore_ascii_case(what)
}
