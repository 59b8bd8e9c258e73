//! Packets that set something, and those that move back.

ghost use Rattle.std.specs.Prelude.{◌≡◌};
ghost use Rattle.gdb_packet.specs.Commands.{back_command, kind_in, point_command, point_in, select_command, selected};
ghost use Rattle.gdb_packet.specs.Commands.{span_in, thread_in};

use crate::command::{Command, Move, Point, PointKind, Question, Setting};
use crate::number::number_in;
use crate::parts::split_at;
use crate::read::span_in;

// The number of a thread: 0 for any or all.
fn thread_in(text: &[u8]) -> Option<u32>
    ensures { result ≡ thread_in text.now }
{
    if text.is_empty() || text == b"-1".as_slice() {
        Some(0)
    } else {
        number_in(text)
    }
}

fn select_for_questions(thread: Option<u32>) -> Command
    ensures { result ≡ selected Setting.Select thread }
{
    match thread {
        Some(thread) => Command::Set(Setting::Select(thread)),
        None => Command::Ask(Question::Malformed),
    }
}

fn select_for_moves(thread: Option<u32>) -> Command
    ensures { result ≡ selected Setting.SelectForMoves thread }
{
    match thread {
        Some(thread) => Command::Set(Setting::SelectForMoves(thread)),
        None => Command::Ask(Question::Malformed),
    }
}

/// The selection of a thread, behind its `H`.
pub fn read_select(text: &[u8]) -> Command
    ensures { result ≡ select_command text.now }
{
    if text.is_empty() {
        return Command::Ask(Question::Unknown);
    }
    let letter = text[0];
    let thread = thread_in(&text[1..]);
    if letter == b'g' {
        select_for_questions(thread)
    } else if letter == b'c' {
        select_for_moves(thread)
    } else {
        Command::Ask(Question::Unknown)
    }
}

fn kind_in(text: &[u8]) -> Option<PointKind>
    ensures { result ≡ kind_in text.now }
{
    if text == b"0".as_slice() {
        Some(PointKind::Break)
    } else if text == b"2".as_slice() {
        Some(PointKind::Watch)
    } else {
        None
    }
}

// A point: its kind, and its address and size behind a comma.
fn point_in(text: &[u8]) -> Option<Point>
    ensures { result ≡ point_in text.now }
{
    let (kind, span) = split_at(b',', text);
    match (kind_in(kind), span_in(span)) {
        (Some(kind), Some(span)) => Some(Point { kind, span }),
        _ => None,
    }
}

/// The point that is set, behind its `Z`.
pub fn read_insert(text: &[u8]) -> Command
    ensures { result ≡ point_command Setting.Insert (point_in text.now) }
{
    match point_in(text) {
        Some(point) => Command::Set(Setting::Insert(point)),
        None => Command::Ask(Question::Unknown),
    }
}

/// The point that is taken away, behind its `z`.
pub fn read_remove(text: &[u8]) -> Command
    ensures { result ≡ point_command Setting.Remove (point_in text.now) }
{
    match point_in(text) {
        Some(point) => Command::Set(Setting::Remove(point)),
        None => Command::Ask(Question::Unknown),
    }
}

/// The move back, behind its `b`.
pub fn read_back(text: &[u8]) -> Command
    ensures { result ≡ back_command text.now }
{
    if text == b"s".as_slice() {
        Command::Move(Move::StepBack)
    } else if text == b"c".as_slice() {
        Command::Move(Move::ContinueBack)
    } else {
        Command::Ask(Question::Unknown)
    }
}
