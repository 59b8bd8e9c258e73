//! The text of an instruction, by the kind of its operation: the word, then operands as the assembler reads them. A
//! jump is told by its target, for which the instruction's address comes in.

ghost use Rattle.std.specs.Prelude.{◌≡◌, ◌+◌, ◌≤◌, ◌++◌, length};
ghost use Rattle.arrayvec.specs.ArrayVec.{array_vec_len};
ghost use Rattle.text_out.specs.Writing.{Writes};
ghost use Rattle.ia_text.specs.Text.{plus, base_text, scale_text, index_text, disp_text, mem_text, arg_text, behind};
ghost use Rattle.ia_text.specs.Text.{op_text, insn_text};

use crate::arg::Arg;
use crate::arguments::arguments_of;
use crate::names::{register, size};
use ia_insn::{Insn, Mem, Op};
use ia_word::Width;
use text_out::page::{Page, push, push_number};
use text_out::{Out, WriteFault};

fn push_plus(page: &mut Page, before: bool)
    requires { array_vec_len page.old + 1 ≤ 4096 }
    ensures text { page.new.items ≡ page.old.items ++ plus before }
    ensures len { array_vec_len page.new ≤ array_vec_len page.old + 1 }
{
    if before {
        push(page, b"+");
    }
}

fn push_base(page: &mut Page, base: Option<u8>)
    requires { array_vec_len page.old + 3 ≤ 4096 }
    ensures text { page.new.items ≡ page.old.items ++ base_text base }
    ensures len { array_vec_len page.new ≤ array_vec_len page.old + 3 }
{
    if let Some(r) = base {
        push(page, register(Width::D, r));
    }
}

fn scale_digit(scale: u8) -> &'static [u8]
    ensures digit { result.now ≡ scale_text scale }
    ensures short { length result.now ≡ 1 }
{
    match scale {
        1 => b"1",
        2 => b"2",
        4 => b"4",
        _ => b"8",
    }
}

fn push_index(page: &mut Page, before: bool, index: Option<u8>, scale: u8)
    requires { array_vec_len page.old + 6 ≤ 4096 }
    ensures text { page.new.items ≡ page.old.items ++ index_text before index scale }
    ensures len { array_vec_len page.new ≤ array_vec_len page.old + 6 }
{
    if let Some(r) = index {
        push_plus(page, before);
        push(page, register(Width::D, r));
        push(page, b"*");
        push(page, scale_digit(scale));
    }
}

fn push_disp(page: &mut Page, before: bool, disp: u32)
    requires { array_vec_len page.old + 11 ≤ 4096 }
    ensures text { page.new.items ≡ page.old.items ++ disp_text before disp }
    ensures len { array_vec_len page.new ≤ array_vec_len page.old + 11 }
{
    if !before || disp != 0 {
        push_plus(page, before);
        push_number(page, disp);
    }
}

/// A place in memory.
#[tactic(auto, unfolding(crate::specs::Text::mem_text))]
fn push_mem(page: &mut Page, place: &Mem)
    requires { array_vec_len page.old + 22 ≤ 4096 }
    ensures text { page.new.items ≡ page.old.items ++ mem_text place.now }
    ensures len { array_vec_len page.new ≤ array_vec_len page.old + 22 }
{
    push(page, b"[");
    push_base(page, place.base);
    push_index(page, place.base.is_some(), place.index, place.scale);
    push_disp(
        page,
        place.base.is_some() || place.index.is_some(),
        place.disp,
    );
    push(page, b"]");
}

fn push_arg(page: &mut Page, arg: &Arg)
    requires { array_vec_len page.old + 28 ≤ 4096 }
    ensures text { page.new.items ≡ page.old.items ++ arg_text arg.now }
    ensures len { array_vec_len page.new ≤ array_vec_len page.old + 28 }
{
    match arg {
        Arg::Register(width, r) => push(page, register(*width, *r)),
        Arg::Place(width, place) => {
            push(page, size(*width));
            push(page, b" ");
            push_mem(page, place);
        }
        Arg::Address(place) => push_mem(page, place),
        Arg::Number(n) => push_number(page, *n),
        Arg::Short(n) => {
            push(page, b"short ");
            push_number(page, *n);
        }
        Arg::Cl => push(page, b"cl"),
    }
}

/// An operand behind what separates it.
fn push_behind(page: &mut Page, gap: &[u8], arg: &Option<Arg>)
    requires room { array_vec_len page.old + 30 ≤ 4096 }
    requires short { length gap.now ≤ 2 }
    ensures text { page.new.items ≡ page.old.items ++ behind gap.now arg.now }
    ensures len { array_vec_len page.new ≤ array_vec_len page.old + 30 }
{
    if let Some(arg) = arg {
        push(page, gap);
        push_arg(page, arg);
    }
}

#[tactic(auto, unfolding(crate::specs::Text::op_text))]
fn push_op(page: &mut Page, op: &Op, at: u32)
    requires { array_vec_len page.old + 99 ≤ 4096 }
    ensures text { page.new.items ≡ page.old.items ++ op_text op.now at }
    ensures len { array_vec_len page.new ≤ array_vec_len page.old + 99 }
{
    let mnemonic = op.mnemonic();
    push(page, mnemonic.stem());
    push(page, mnemonic.condition());
    let shown = arguments_of(op, at);
    push_behind(page, b" ", &shown.first);
    push_behind(page, b", ", &shown.second);
    push_behind(page, b", ", &shown.third);
}

/// The text of an instruction at an address.
#[tactic(auto, unfolding(crate::specs::Text::insn_text))]
pub fn push_insn(page: &mut Page, insn: &Insn, at: u32)
    requires { array_vec_len page.old + 104 ≤ 4096 }
    ensures text { page.new.items ≡ page.old.items ++ insn_text insn.now at }
    ensures len { array_vec_len page.new ≤ array_vec_len page.old + 104 }
{
    if insn.lock {
        push(page, b"lock ");
    }
    push_op(page, &insn.op, at);
}

/// Writes the text of an instruction at an address. On 5 `Write` a beginning of it was written, and the count of
/// failures rose.
pub fn write_insn<O: Out>(insn: &Insn, at: u32, out: &mut O) -> Result<(), WriteFault>
    ensures { Writes (O.device out.old) (O.device out.new) (insn_text insn.now at) result }
{
    let mut page = Page::new();
    push_insn(&mut page, insn, at);
    out.put(page.as_slice())?;
    Ok(())
}
