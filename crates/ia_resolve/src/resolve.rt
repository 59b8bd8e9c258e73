//! Instructions with the symbols replaced by their values.

ghost use Rattle.std.specs.Prelude.{◌≡◌, ◌+◌, ◌≤◌, ◌<◌, ◌^◌, IsTrue};
ghost use Rattle.ia_insn.specs.Encoding.{encodable, is_encodable};
ghost use Rattle.ia_insn.specs.Spelling.{lockable};
ghost use Rattle.ia_item.specs.Fields.{field_of, number_in, displacement_in, with_disp, with_number, with_displacement};
ghost use Rattle.ia_item.specs.Fields.{Holds};
ghost use Rattle.ia_item.specs.Fits.{Fits, FitsAnyExpression, FitsExpression};
ghost use Rattle.ia_resolve.specs.Items.{field_value, field_fault, op_with_number, op_with_displacement, resolved_insn};
ghost use Rattle.ia_resolve.specs.Items.{any_fault, template_fault};

use crate::expression::expression_value;
use crate::field::{far_fault, field_of, high_of, low_of, stored_number};
use crate::place_fault::{PlaceFault, first_of};
use crate::symbols::SymbolValues;
use ia_insn::{Count, Insn, Mem, Op, Operand};
use ia_item::{Field, ScopedExpression, Template};

fn number_in(operand: Operand, number: u32) -> Operand
    ensures { result ≡ number_in operand number }
{
    match operand {
        Operand::Imm(_) => Operand::Imm(number),
        _ => operand,
    }
}

/// The operation with that number.
fn with_number(op: &Op, number: u32) -> Op
    requires { Holds (field_of op.now) number }
    ensures { result ≡ with_number op.now number }
{
    match *op {
        Op::Alu(kind, width, to, from) => Op::Alu(kind, width, to, number_in(from, number)),
        Op::Mov(width, to, from) => Op::Mov(width, to, number_in(from, number)),
        Op::Test(width, to, from) => Op::Test(width, to, number_in(from, number)),
        Op::ImulImm(reg, from, _) => Op::ImulImm(reg, from, number),
        Op::Shift(kind, to, Count::Imm(_)) => Op::Shift(kind, to, Count::Imm(number as u8)),
        Op::Push(from) => Op::Push(number_in(from, number)),
        Op::Call(_) => Op::Call(number),
        Op::RetPop(_) => Op::RetPop(number as u16),
        Op::Jmp(_) => Op::Jmp(number),
        Op::JmpShort(_) => Op::JmpShort(number),
        Op::Jcc(condition, _) => Op::Jcc(condition, number),
        Op::JccShort(condition, _) => Op::JccShort(condition, number),
        Op::LoopJump(kind, _) => Op::LoopJump(kind, number),
        Op::Bit(kind, to, _) => Op::Bit(kind, to, number as u8),
        Op::Xbegin(_) => Op::Xbegin(number),
        Op::Xabort(_) => Op::Xabort(number as u8),
        _ => *op,
    }
}

fn with_disp(memory: Mem, disp: u32) -> Mem
    ensures { result ≡ with_disp memory disp }
{
    Mem {
        base: memory.base,
        index: memory.index,
        scale: memory.scale,
        disp,
    }
}

fn displacement_in(operand: Operand, disp: u32) -> Operand
    ensures { result ≡ displacement_in operand disp }
{
    match operand {
        Operand::Mem(memory) => Operand::Mem(with_disp(memory, disp)),
        _ => operand,
    }
}

/// The operation with that displacement.
fn with_displacement(op: &Op, disp: u32) -> Op
    ensures { result ≡ with_displacement op.now disp }
{
    match *op {
        Op::Alu(kind, width, to, from) => Op::Alu(
            kind,
            width,
            displacement_in(to, disp),
            displacement_in(from, disp),
        ),
        Op::Mov(width, to, from) => Op::Mov(
            width,
            displacement_in(to, disp),
            displacement_in(from, disp),
        ),
        Op::Lea(reg, memory) => Op::Lea(reg, with_disp(memory, disp)),
        Op::Xchg(width, to, reg) => Op::Xchg(width, displacement_in(to, disp), reg),
        Op::IncDec(kind, width, to) => Op::IncDec(kind, width, displacement_in(to, disp)),
        Op::Test(width, to, from) => Op::Test(
            width,
            displacement_in(to, disp),
            displacement_in(from, disp),
        ),
        Op::Unary(kind, to) => Op::Unary(kind, displacement_in(to, disp)),
        Op::Imul(reg, from) => Op::Imul(reg, displacement_in(from, disp)),
        Op::ImulImm(reg, from, number) => Op::ImulImm(reg, displacement_in(from, disp), number),
        Op::Shift(kind, to, count) => Op::Shift(kind, displacement_in(to, disp), count),
        Op::Push(from) => Op::Push(displacement_in(from, disp)),
        Op::Pop(to) => Op::Pop(displacement_in(to, disp)),
        Op::CallTo(to) => Op::CallTo(displacement_in(to, disp)),
        Op::JmpTo(to) => Op::JmpTo(displacement_in(to, disp)),
        Op::Setcc(condition, to) => Op::Setcc(condition, displacement_in(to, disp)),
        Op::Cmovcc(condition, reg, from) => Op::Cmovcc(condition, reg, displacement_in(from, disp)),
        Op::Extend(kind, reg, from) => Op::Extend(kind, reg, displacement_in(from, disp)),
        Op::Exchange(kind, to, reg) => Op::Exchange(kind, displacement_in(to, disp), reg),
        Op::Bit(kind, to, number) => Op::Bit(kind, displacement_in(to, disp), number),
        Op::NopOf(to) => Op::NopOf(displacement_in(to, disp)),
        _ => *op,
    }
}

/// What goes into a field, and what is wrong with its expression.
#[derive(Clone, Copy)]
pub struct FieldValue {
    pub number: u32,
    pub fault: Option<PlaceFault>,
}

/// What an expression puts into a field at an address.
pub fn resolve_field<S: SymbolValues>(
    symbols: &S,
    at: u128,
    field: Field,
    expression: &ScopedExpression,
) -> FieldValue
    requires near { at ≤ 2 ^ 126 }
    requires expression { FitsExpression expression.now }
    ensures number { result.number ≡ field_value (S.env symbols.now) at field expression.now }
    ensures holds { Holds field result.number }
    ensures fault { result.fault ≡ field_fault (S.env symbols.now) at field expression.now }
{
    let found = expression_value(symbols, low_of(field), high_of(field), expression);
    FieldValue {
        number: stored_number(field, at, found.value),
        fault: first_of(found.fault, far_fault(field, at, found.value)),
    }
}

/// An operation with an expression filled in, and what is wrong with the sum.
#[derive(Clone, Copy)]
struct ResolvedOp {
    op: Op,
    fault: Option<PlaceFault>,
}

#[tactic(auto, using(crate::proofs::FieldLemmas::number_encodable, crate::proofs::FieldLemmas::number_lockable))]
fn op_with_number<S: SymbolValues>(
    symbols: &S,
    at: u128,
    number: &Option<ScopedExpression>,
    op: &Op,
) -> ResolvedOp
    requires near { at ≤ 2 ^ 126 }
    requires expression { FitsAnyExpression number.now }
    ensures op { result.op ≡ op_with_number (S.env symbols.now) at number.now op.now }
    ensures fault { result.fault ≡ any_fault (S.env symbols.now) at (field_of op.now) number.now }
    ensures encodable { IsTrue (encodable op.now) → IsTrue (encodable result.op) }
    ensures lockable { lockable result.op ≡ lockable op.now }
{
    match number {
        None => ResolvedOp {
            op: *op,
            fault: None,
        },
        Some(expression) => {
            let found = resolve_field(symbols, at, field_of(op), expression);
            ResolvedOp {
                op: with_number(op, found.number),
                fault: found.fault,
            }
        }
    }
}

#[tactic(auto, using(crate::proofs::FieldLemmas::place_encodable, crate::proofs::FieldLemmas::place_lockable))]
fn op_with_displacement<S: SymbolValues>(
    symbols: &S,
    at: u128,
    displacement: &Option<ScopedExpression>,
    op: &Op,
) -> ResolvedOp
    requires near { at ≤ 2 ^ 126 }
    requires expression { FitsAnyExpression displacement.now }
    ensures op { result.op ≡ op_with_displacement (S.env symbols.now) at displacement.now op.now }
    ensures fault { result.fault ≡ any_fault (S.env symbols.now) at Field.Long displacement.now }
    ensures encodable { IsTrue (encodable op.now) → IsTrue (encodable result.op) }
    ensures lockable { lockable result.op ≡ lockable op.now }
{
    match displacement {
        None => ResolvedOp {
            op: *op,
            fault: None,
        },
        Some(expression) => {
            let found = resolve_field(symbols, at, Field::Long, expression);
            ResolvedOp {
                op: with_displacement(op, found.number),
                fault: found.fault,
            }
        }
    }
}

/// An instruction with its expressions filled in, and what is wrong with them.
#[derive(Clone, Copy)]
pub struct ResolvedInsn {
    pub insn: Insn,
    pub fault: Option<PlaceFault>,
}

/// The instruction at an address with the symbols replaced by their values.
#[tactic(auto, unfolding(crate::specs::Items::resolved_insn, crate::specs::Items::template_fault))]
pub fn resolve_template<S: SymbolValues>(symbols: &S, at: u128, template: &Template) -> ResolvedInsn
    requires near { at ≤ 2 ^ 126 }
    requires fits { Fits template.now }
    ensures insn { result.insn ≡ resolved_insn (S.env symbols.now) at template.now }
    ensures fault { result.fault ≡ template_fault (S.env symbols.now) at template.now }
    ensures encodable { IsTrue (is_encodable result.insn) }
{
    let with_number = op_with_number(symbols, at, &template.number, &template.insn.op);
    let with_both = op_with_displacement(symbols, at, &template.displacement, &with_number.op);
    ResolvedInsn {
        insn: Insn {
            lock: template.insn.lock,
            op: with_both.op,
        },
        fault: first_of(with_number.fault, with_both.fault),
    }
}
