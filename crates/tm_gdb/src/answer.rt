//! The answer to a command of gdb: [`carry_out`].
//!
//! A question changes nothing but the event that it may name for the next step, and that only once its answer is
//! made. A move that names a thread which there is not is refused before a step is made. Where memory is refused,
//! the target is as before. Moves are made in `moves`, `run` and `back`; `session` puts packets around the answers.

ghost use Rattle.std.specs.Prelude.{◌≡◌, ◌≤◌, [], OnOk, codes, false, length, true};
ghost use Rattle.tm_hist.specs.Board.{SameBoard};
ghost use Rattle.tm_gdb.specs.Answers.{Answers, ChoosesForMoves, InsertsAt, Moves, MovesUnless, Sets, Tells, asked_of};
ghost use Rattle.tm_gdb.specs.Answers.{done_text, is_refused, removed};
ghost use Rattle.tm_gdb.specs.Answers.{selecting, thread_text};
ghost use Rattle.tm_gdb.specs.Changes.{DoesOrStays};
ghost use Rattle.tm_gdb.specs.Values.{thread_core, value_of};

use crate::monitor::monitor_text;
use crate::stop::push_stop;
use crate::target::Target;
use crate::tell::{tell_description, tell_memory, tell_register, tell_registers, tell_threads};
use crate::turns::names_stranger;
use gdb_packet::{Bytes, Command, Monitor, Move, PointKind, Question, Setting, Span};
use gdb_target::{push_thread, push_threads};
use std::alloc::{AllocError, Global};
use text_out::page::push;

// What the target can do.
fn features() -> &'static [u8]
    ensures { length result.now ≤ 200 }
{
    b"PacketSize=4000;QStartNoAckMode+;qXfer:features:read+;qXfer:threads:read+;\
vContSupported+;swbreak+;ReverseStep+;ReverseContinue+"
}

// That something was done, or was not.
fn push_done(row: &mut Bytes, done: bool)
    requires { row.old.items ≡ [] }
    ensures done { done ≡ true → row.new.items ≡ codes "OK" }
    ensures refused { done ≡ false → row.new.items ≡ codes "E01" }
{
    if done {
        push(row, b"OK");
    } else {
        push(row, b"E01");
    }
}

// That there is a thread, or is not.
fn push_found(row: &mut Bytes, found: Option<u8>)
    requires { row.old.items ≡ [] }
    ensures { row.new.items ≡ done_text found }
{
    match found {
        Some(_) => push(row, b"OK"),
        None => push(row, b"E01"),
    }
}

// The selected thread.
fn tell_thread(target: &Target, row: &mut Bytes)
    requires { row.old.items ≡ [] }
    ensures { row.new.items ≡ thread_text (value_of target.now) }
{
    push(row, b"QC");
    push_thread(row, target.core());
}

// Tells what is asked of the target. `AllocError`, where there was no memory for it.
fn tell(alloc: Global, target: &Target, asked: Question, row: &mut Bytes) -> Result<(), AllocError>
    requires { row.old.items ≡ [] }
    ensures { OnOk result (Tells asked (value_of target.now) row.new.items) }
{
    match asked {
        Question::Supported => push(row, features()),
        Question::NoAcknowledgements => push(row, b"OK"),
        Question::Status => push_stop(row, target.stop, target.core()),
        Question::CurrentThread => tell_thread(target, row),
        Question::Attached => push(row, b"1"),
        Question::Description(span) => tell_description(span, row),
        Question::Threads(span) => tell_threads(target, span, row),
        Question::FirstThreads => push_threads(row, target.board.cores()),
        Question::MoreThreads => push(row, b"l"),
        Question::IsAlive(thread) => push_found(row, target.thread_core(thread)),
        Question::Registers => tell_registers(target, row),
        Question::Register(number) => tell_register(target, number, row),
        Question::Memory(span) => tell_memory(target, span, row),
        Question::WriteRegisters => push(row, b"E.read-only"),
        Question::WriteMemory => push(row, b"E01"),
        Question::Moves => push(row, b"vCont;c;C;s;S"),
        Question::Monitor(asked) => monitor_text(alloc, target, asked)?.push(row),
        Question::Detach => push(row, b"OK"),
        Question::Kill => {}
        Question::KillAnswered => push(row, b"OK"),
        Question::Malformed => push(row, b"E01"),
        Question::Unknown => {}
    }
    Ok(())
}

// What a question changes: `monitor event` and `monitor drain` name the event of the next step.
fn note(target: &mut Target, asked: Question)
    ensures value { value_of target.new ≡ asked_of asked (value_of target.old) }
    ensures same { SameBoard target.old.board target.new.board }
{
    if let Question::Monitor(Monitor::Event(event)) = asked {
        target.event = Some(event);
    }
}

// Answers a question.
fn ask(
    alloc: Global,
    target: &mut Target,
    asked: Question,
    row: &mut Bytes,
) -> Result<(), AllocError>
    requires { row.old.items ≡ [] }
    ensures { DoesOrStays (λ from to. Answers (Command.Ask asked) from row.new.items to)
        target.old target.new result }
{
    tell(alloc, target, asked, row)?;
    note(target, asked);
    Ok(())
}

// Moves the target. `AllocError`, where there was no memory for the board of the first steps: then it is as before.
fn make_move(alloc: Global, target: &mut Target, asked: &Move) -> Result<(), AllocError>
    ensures { DoesOrStays (Moves asked.now) target.old target.new result }
{
    match asked {
        Move::Resume(actions) => {
            target.resume(actions);
            Ok(())
        }
        Move::StepSelected => {
            target.step_selected();
            Ok(())
        }
        Move::ContinueSelected => {
            target.continue_selected();
            Ok(())
        }
        Move::StepBack => target.step_back(alloc),
        Move::ContinueBack => target.go_back(alloc),
    }
}

// Whether a move is refused, of so many cores: an action names a thread that there is not.
fn is_refused(asked: &Move, cores: u8) -> bool
    ensures { result ≡ is_refused asked.now cores }
{
    match asked {
        Move::Resume(actions) => names_stranger(actions, cores),
        Move::StepSelected => false,
        Move::ContinueSelected => false,
        Move::StepBack => false,
        Move::ContinueBack => false,
    }
}

// Moves the target, and tells why it stands then.
fn move_and_tell(
    alloc: Global,
    target: &mut Target,
    asked: &Move,
    row: &mut Bytes,
) -> Result<(), AllocError>
    requires { row.old.items ≡ [] }
    ensures { DoesOrStays (λ from to. MovesUnless false asked.now from row.new.items to)
        target.old target.new result }
{
    make_move(alloc, target, asked)?;
    push_stop(row, target.stop, target.core());
    Ok(())
}

// Carries a move out, or refuses it.
fn carry(
    alloc: Global,
    target: &mut Target,
    asked: &Move,
    row: &mut Bytes,
) -> Result<(), AllocError>
    requires { row.old.items ≡ [] }
    ensures { DoesOrStays (λ from to. Answers (Command.Move asked.now) from row.new.items to)
        target.old target.new result }
{
    if is_refused(asked, target.board.cores()) {
        push(row, b"E01");
        Ok(())
    } else {
        move_and_tell(alloc, target, asked, row)
    }
}

// Selects the core of a thread, and none for a thread that there is not.
fn select(target: &mut Target, found: Option<u8>)
    ensures value { value_of target.new ≡ selecting found (value_of target.old) }
    ensures same { SameBoard target.old.board target.new.board }
{
    if let Some(core) = found {
        target.selected = core;
    }
}

// Chooses the core of a thread for moves, and none in particular for thread 0.
fn choose(target: &mut Target, thread: u32, row: &mut Bytes)
    requires { row.old.items ≡ [] }
    ensures chosen { ChoosesForMoves thread (value_of target.old) (value_of target.new) row.new.items }
    ensures same { SameBoard target.old.board target.new.board }
{
    let found = target.thread_core(thread);
    push_found(row, found);
    if thread == 0 {
        target.for_moves = None;
    } else if found.is_some() {
        target.for_moves = found;
    }
}

fn insert(target: &mut Target, kind: PointKind, span: Span, row: &mut Bytes)
    requires { row.old.items ≡ [] }
    ensures set { InsertsAt kind span (value_of target.old) (value_of target.new) row.new.items }
    ensures same { SameBoard target.old.board target.new.board }
{
    match kind {
        PointKind::Break => {
            let done = target.points.insert_break(span.at);
            push_done(row, done);
        }
        PointKind::Watch => {
            let done = target.points.insert_watch(span);
            push_done(row, done);
        }
    }
}

fn remove(target: &mut Target, kind: PointKind, span: Span)
    ensures value { value_of target.new ≡ removed kind span (value_of target.old) }
    ensures same { SameBoard target.old.board target.new.board }
{
    match kind {
        PointKind::Break => target.points.remove_break(span.at),
        PointKind::Watch => target.points.remove_watch(span),
    }
}

// Selects a core, or sets a point or takes it away, and tells whether that could be.
fn set(target: &mut Target, setting: Setting, row: &mut Bytes)
    requires { row.old.items ≡ [] }
    ensures set { Sets setting (value_of target.old) (value_of target.new) row.new.items }
    ensures same { SameBoard target.old.board target.new.board }
{
    match setting {
        Setting::Select(thread) => {
            let found = target.thread_core(thread);
            push_found(row, found);
            select(target, found);
        }
        Setting::SelectForMoves(thread) => choose(target, thread, row),
        Setting::Insert(point) => insert(target, point.kind, point.span, row),
        Setting::Remove(point) => {
            remove(target, point.kind, point.span);
            push(row, b"OK");
        }
    }
}

/// Does what a command says, and adds its answer, which is empty for a command that is not known. `AllocError`, where
/// there was no memory for the board of the first steps or for the lines of a set: then the target is as before.
pub fn carry_out(
    alloc: Global,
    target: &mut Target,
    command: &Command,
    row: &mut Bytes,
) -> Result<(), AllocError>
    requires { row.old.items ≡ [] }
    ensures { DoesOrStays (λ from to. Answers command.now from row.new.items to) target.old target.new result }
{
    match command {
        Command::Ask(asked) => ask(alloc, target, *asked, row),
        Command::Move(asked) => carry(alloc, target, asked, row),
        Command::Set(setting) => {
            set(target, *setting, row);
            Ok(())
        }
    }
}
