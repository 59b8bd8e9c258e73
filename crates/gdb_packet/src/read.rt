//! Packets as commands.
//!
//! [`read_command`] is the one call: a packet's first letter decides who reads the text behind it.

ghost use Rattle.std.specs.Prelude.{◌≡◌, ◌++◌, ◌∷◌, ℕ, List, codes, false, nat_eq};
ghost use Rattle.std.specs.List.{starts_with};
ghost use Rattle.gdb_packet.specs.Actions.{IsToldMove, actions_in, told_actions};
ghost use Rattle.gdb_packet.specs.Commands.{IsQuestion, IsToldBy, letter_command, letter_question, span_in};
ghost use Rattle.gdb_packet.specs.Commands.{with_number};
ghost use Rattle.gdb_packet.specs.Commands.{with_span, without_address, written_question};
ghost use Rattle.gdb_packet.specs.Numbers.{number_in};

use crate::command::{Command, Move, Question, Span};
use crate::number::number_in;
use crate::parts::split_at;
use crate::query::read_query;
use crate::resume::read_actions;
use crate::settings::{read_back, read_insert, read_remove, read_select};

/// An address and a count, with a comma between them.
pub fn span_in(text: &[u8]) -> Option<Span>
    ensures { result ≡ span_in text.now }
{
    let (at, count) = split_at(b',', text);
    match (number_in(at), number_in(count)) {
        (Some(at), Some(count)) => Some(Span { at, count }),
        _ => None,
    }
}

// The question about a register or a thread, or a malformed one.
fn register_question(text: &[u8]) -> Question
    ensures { result ≡ with_number Question.Register (number_in text.now) }
{
    match number_in(text) {
        Some(number) => Question::Register(number),
        None => Question::Malformed,
    }
}

fn thread_question(text: &[u8]) -> Question
    ensures { result ≡ with_number Question.IsAlive (number_in text.now) }
{
    match number_in(text) {
        Some(number) => Question::IsAlive(number),
        None => Question::Malformed,
    }
}

fn memory_question(text: &[u8]) -> Question
    ensures { result ≡ with_span Question.Memory (span_in text.now) }
{
    match span_in(text) {
        Some(span) => Question::Memory(span),
        None => Question::Malformed,
    }
}

// The question of a letter and the text behind it, for letters whose text is a number, a span or nothing.
fn letter_question(letter: u8, text: &[u8]) -> Option<Question>
    ensures { result ≡ letter_question letter text.now }
{
    if letter == b'?' {
        Some(Question::Status)
    } else if letter == b'g' {
        Some(Question::Registers)
    } else if letter == b'p' {
        Some(register_question(text))
    } else if letter == b'm' {
        Some(memory_question(text))
    } else if letter == b'T' {
        Some(thread_question(text))
    } else if letter == b'D' {
        Some(Question::Detach)
    } else if letter == b'k' {
        Some(Question::Kill)
    } else {
        None
    }
}

// The question of a letter that writes.
fn written_question(letter: u8) -> Option<Question>
    ensures { result ≡ written_question letter }
{
    if letter == b'G' || letter == b'P' {
        Some(Question::WriteRegisters)
    } else if letter == b'M' || letter == b'X' {
        Some(Question::WriteMemory)
    } else {
        None
    }
}

// A move from where the core is: one with an address is refused.
fn without_address(asked: Move, text: &[u8]) -> Command
    ensures { result ≡ without_address asked text.now }
{
    if text.is_empty() {
        Command::Move(asked)
    } else {
        Command::Ask(Question::Malformed)
    }
}

// The move or the setting of a letter and the text behind it.
fn letter_command(letter: u8, text: &[u8]) -> Option<Command>
    ensures { result ≡ letter_command letter text.now }
{
    if letter == b's' {
        Some(without_address(Move::StepSelected, text))
    } else if letter == b'c' {
        Some(without_address(Move::ContinueSelected, text))
    } else if letter == b'b' {
        Some(read_back(text))
    } else if letter == b'H' {
        Some(read_select(text))
    } else if letter == b'Z' {
        Some(read_insert(text))
    } else if letter == b'z' {
        Some(read_remove(text))
    } else {
        None
    }
}

// What a packet with a long name asks, behind its `v`: none but `vCont` with actions moves.
fn long_question(text: &[u8]) -> Question
    ensures { text.now ≡ codes "Cont" → result ≡ Question.Malformed }
{
    let (name, _arguments) = split_at(b';', text);
    if text == b"Cont".as_slice() {
        Question::Malformed
    } else if text == b"Cont?".as_slice() {
        Question::Moves
    } else if name == b"Kill".as_slice() {
        Question::KillAnswered
    } else {
        Question::Unknown
    }
}

// What a packet with a long name tells, behind its `v`.
fn read_long(text: &[u8]) -> Command
    ensures actions { (rest : List ℕ) → text.now ≡ codes "Cont;" ++ rest
        → IsToldMove (told_actions (actions_in rest)) result }
    ensures none { text.now ≡ codes "Cont" → result ≡ Command.Ask Question.Malformed }
    ensures asks { starts_with nat_eq text.now (codes "Cont;") ≡ false → IsQuestion result }
{
    if text.starts_with(b"Cont;") {
        read_actions(&text[5..])
    } else {
        Command::Ask(long_question(text))
    }
}

fn read_set(text: &[u8]) -> Question {
    if text == b"StartNoAckMode".as_slice() {
        Question::NoAcknowledgements
    } else {
        Question::Unknown
    }
}

// The command of any other letter and the text behind it.
fn other_command(letter: u8, text: &[u8]) -> Command
    ensures actions { (rest : List ℕ) → letter ∷ text.now ≡ codes "vCont;" ++ rest
        → IsToldMove (told_actions (actions_in rest)) result }
    ensures none { letter ∷ text.now ≡ codes "vCont" → result ≡ Command.Ask Question.Malformed }
    ensures asks { starts_with nat_eq (letter ∷ text.now) (codes "vCont;") ≡ false → IsQuestion result }
{
    if letter == b'v' {
        read_long(text)
    } else if letter == b'q' {
        Command::Ask(read_query(text))
    } else if letter == b'Q' {
        Command::Ask(read_set(text))
    } else {
        Command::Ask(Question::Unknown)
    }
}

/// The command that a packet's bytes tell.
///
/// Which it is the clause says of the letters `? g p m T D k G P M X s c b H Z z` and of `vCont` with its actions; each
/// other packet is a question.
pub fn read_command(packet: &[u8]) -> Command
    ensures { IsToldBy packet.now result }
{
    if packet.is_empty() {
        return Command::Ask(Question::Unknown);
    }
    let letter = packet[0];
    let text = &packet[1..];
    if let Some(asked) = letter_question(letter, text) {
        return Command::Ask(asked);
    }
    if let Some(asked) = written_question(letter) {
        return Command::Ask(asked);
    }
    match letter_command(letter, text) {
        Some(command) => command,
        None => other_command(letter, text),
    }
}

#[cfg(test)]
mod tests {
    use super::*;
    use crate::command::{Action, Monitor, Setting};
    use tm_model::{Event, Interference};

    // What the packet `vCont` and these actions tells a thread to do.
    fn told(packet: &[u8], thread: u32) -> Option<Action> {
        match read_command(packet) {
            Command::Move(Move::Resume(actions)) => actions.of(thread),
            _ => None,
        }
    }

    #[test]
    fn leftmost_action_of_a_thread(rt: HostRuntime) {
        assert_eq!(rt; told(b"vCont;s:2;c", 2), Some(Action::Step));
        assert_eq!(rt; told(b"vCont;s:2;c", 1), Some(Action::Continue));
        assert_eq!(rt; told(b"vCont;c;s:2", 2), Some(Action::Step));
        assert_eq!(rt; told(b"vCont;S05:2;C0b:2", 2), Some(Action::Step));
        assert_eq!(rt; told(b"vCont;c:2", 1), None);
        assert_eq!(rt; told(b"vCont;s:-1;c", 1), Some(Action::Step));
    }

    #[test]
    fn commands_of_packets(rt: HostRuntime) {
        assert_eq!(rt; read_command(b"vCont"), Command::Ask(Question::Malformed));
        assert_eq!(rt; read_command(b"vCont;c;"), Command::Ask(Question::Unknown));
        assert_eq!(rt; read_command(b"vCont;t:1"), Command::Ask(Question::Unknown));
        assert_eq!(rt;
            read_command(b"Hc-1"),
            Command::Set(Setting::SelectForMoves(0))
        );
        assert_eq!(rt; read_command(b"Hg2"), Command::Set(Setting::Select(2)));
        assert_eq!(rt; read_command(b"s"), Command::Move(Move::StepSelected));
        assert_eq!(rt; read_command(b"bc"), Command::Move(Move::ContinueBack));
        assert_eq!(rt;
            read_command(b"G00"),
            Command::Ask(Question::WriteRegisters)
        );
        assert_eq!(rt;
            read_command(b"qRcmd,6576656e7420736e6f6f70"),
            Command::Ask(Question::Monitor(Monitor::Event(Event::Abort(Interference::Snoop))))
        );
        assert_eq!(rt;
            read_command(b"qRcmd,647261696e"),
            Command::Ask(Question::Monitor(Monitor::Event(Event::Drain)))
        );
        assert_eq!(rt;
            read_command(b"qRcmd,70656e64696e67"),
            Command::Ask(Question::Monitor(Monitor::Pending))
        );
    }
}
