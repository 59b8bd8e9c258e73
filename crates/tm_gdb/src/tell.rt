//! What is told of a board to the questions for registers, memory, the description and the cores.
//!
//! Each call is about the selected core, and puts its answer together by `gdb_target`, which says its form. A text
//! that gdb reads in parts is made as a whole for each part. Nothing is changed.

ghost use Rattle.std.specs.Prelude.{◌≡◌, []};
ghost use Rattle.tm_gdb.specs.Answers.{TellsMemory, TellsRegister, TellsRegisters};
ghost use Rattle.tm_gdb.specs.Values.{value_of};

use crate::target::Target;
use gdb_packet::{Bytes, Span};
use gdb_target::{
    CoreShown, REGISTERS, push_description, push_memory, push_part, push_register, push_registers,
    push_thread_list,
};
use text_out::page::push;

/// All registers of the selected core: `g`.
pub fn tell_registers(target: &Target, row: &mut Bytes)
    requires { row.old.items ≡ [] }
    ensures { TellsRegisters (value_of target.now) row.new.items }
{
    push_registers(row, &CoreShown::of(&target.board, target.core()));
}

/// One register of the selected core: `p`.
pub fn tell_register(target: &Target, number: u32, row: &mut Bytes)
    requires { row.old.items ≡ [] }
    ensures { TellsRegister (value_of target.now) number row.new.items }
{
    let shown = CoreShown::of(&target.board, target.core());
    if number < u32::from(REGISTERS) {
        push_register(row, &shown, number as u8);
    } else {
        push(row, b"E01");
    }
}

/// Memory as the selected core sees it: `m`.
pub fn tell_memory(target: &Target, span: Span, row: &mut Bytes)
    requires { row.old.items ≡ [] }
    ensures { TellsMemory (value_of target.now) span.at span.count row.new.items }
{
    push_memory(
        row,
        target.board.machine(),
        target.core(),
        span.at,
        span.count,
    );
}

/// A part of the target's description.
pub fn tell_description(span: Span, row: &mut Bytes)
    requires { row.old.items ≡ [] }
{
    let mut text = Bytes::new();
    push_description(&mut text);
    push_part(row, text.as_slice(), span.at, span.count);
}

/// A part of the list of the cores.
pub fn tell_threads(target: &Target, span: Span, row: &mut Bytes)
    requires { row.old.items ≡ [] }
{
    let mut text = Bytes::new();
    push_thread_list(&mut text, target.board.machine());
    push_part(row, text.as_slice(), span.at, span.count);
}
