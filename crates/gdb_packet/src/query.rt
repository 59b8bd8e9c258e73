//! Queries: packets that begin with `q`.

use crate::command::Question;
use crate::monitor::monitor_in;
use crate::parts::split_at;
use crate::read::span_in;

/// What a query asks, behind its `q`.
pub fn read_query(text: &[u8]) -> Question {
    let (name, digits) = split_at(b',', text);
    if name == b"Rcmd".as_slice() {
        return Question::Monitor(monitor_in(digits));
    }
    let (name, arguments) = split_at(b':', text);
    if name == b"Supported".as_slice() {
        Question::Supported
    } else if name == b"C".as_slice() {
        Question::CurrentThread
    } else if name == b"Attached".as_slice() {
        Question::Attached
    } else if name == b"Xfer".as_slice() {
        read_transfer(arguments)
    } else if name == b"fThreadInfo".as_slice() {
        Question::FirstThreads
    } else if name == b"sThreadInfo".as_slice() {
        Question::MoreThreads
    } else {
        Question::Unknown
    }
}

// What `qXfer` asks: its object, `read`, its annex, and which part of it.
fn read_transfer(text: &[u8]) -> Question {
    let (object, text) = split_at(b':', text);
    let (read, text) = split_at(b':', text);
    let (annex, part) = split_at(b':', text);
    if read != b"read".as_slice() {
        Question::Unknown
    } else if object == b"features".as_slice() && annex == b"target.xml".as_slice() {
        span_in(part).map_or(Question::Malformed, Question::Description)
    } else if object == b"threads".as_slice() && annex.is_empty() {
        span_in(part).map_or(Question::Malformed, Question::Threads)
    } else {
        Question::Unknown
    }
}
