//! The forms of instructions: which operands a mnemonic takes.

ghost use Rattle.std.specs.Prelude.{◌≡◌};
ghost use Rattle.ia_form.specs.Forms.{same_width, target, one_operand, sized_operand, pair, test_form, xchg_form};
ghost use Rattle.ia_form.specs.Forms.{load_form, store_form, number_form, shift_form, lea_form, imul_form, push_form};
ghost use Rattle.ia_form.specs.Forms.{call_form, ret_form, jmp_form, jcc_form, nop_form, with_number, no_operands};
ghost use Rattle.ia_form.specs.Forms.{op_of, instruction_of};

use crate::shape::{OperandShape, OperandShapes};
use ia_insn::{Count, Insn, Mnemonic, Op, Operand, is_encodable};
use ia_word::{
    AluOp, BareOp, BitOp, Condition, ExchangeOp, ExtendOp, IncDecOp, ShiftOp, UnaryOp, Width,
};

fn is_same(first: Width, second: Width) -> bool
    ensures { result ≡ same_width first second }
{
    matches!((first, second), (Width::B, Width::B) | (Width::D, Width::D))
}

/// A register or a place of this width; a place may have no size word.
fn target(width: Width, shape: OperandShape) -> Option<Operand>
    ensures { result ≡ target width shape }
{
    match shape {
        OperandShape::Register(given, register) => {
            if is_same(width, given) {
                Some(Operand::Reg(register))
            } else {
                None
            }
        }
        OperandShape::Memory(None, memory) => Some(Operand::Mem(memory)),
        OperandShape::Memory(Some(given), memory) => {
            if is_same(width, given) {
                Some(Operand::Mem(memory))
            } else {
                None
            }
        }
        _ => None,
    }
}

/// One register or place of this width.
fn one_operand(width: Width, shapes: OperandShapes) -> Option<Operand>
    ensures { result ≡ one_operand width shapes }
{
    match shapes {
        OperandShapes::One(shape) => target(width, shape),
        _ => None,
    }
}

/// One register or place, which says its width.
fn sized_operand(shapes: OperandShapes) -> Option<(Width, Operand)>
    ensures { result ≡ sized_operand shapes }
{
    match shapes {
        OperandShapes::One(OperandShape::Register(width, register)) => Some((
            width,
            Operand::Reg(register),
        )),
        OperandShapes::One(OperandShape::Memory(Some(width), memory)) => Some((
            width,
            Operand::Mem(memory),
        )),
        _ => None,
    }
}

/// A destination and a source, at least one of which says the width.
fn pair(shapes: OperandShapes) -> Option<(Width, Operand, Operand)>
    ensures { result ≡ pair shapes }
{
    match shapes {
        OperandShapes::Two(OperandShape::Register(width, register), OperandShape::Number) => {
            Some((width, Operand::Reg(register), Operand::Imm(0)))
        }
        OperandShapes::Two(OperandShape::Memory(Some(width), memory), OperandShape::Number) => {
            Some((width, Operand::Mem(memory), Operand::Imm(0)))
        }
        OperandShapes::Two(OperandShape::Register(width, register), from) => {
            let from = target(width, from)?;
            Some((width, Operand::Reg(register), from))
        }
        OperandShapes::Two(to, OperandShape::Register(width, register)) => {
            let to = target(width, to)?;
            Some((width, to, Operand::Reg(register)))
        }
        _ => None,
    }
}

/// The operands of TEST: a register and a place in either order.
fn test_form(shapes: OperandShapes) -> Option<(Width, Operand, Operand)>
    ensures { result ≡ test_form shapes }
{
    match shapes {
        OperandShapes::Two(
            OperandShape::Register(width, register),
            OperandShape::Memory(size, memory),
        ) => {
            let left = target(width, OperandShape::Memory(size, memory))?;
            Some((width, left, Operand::Reg(register)))
        }
        _ => pair(shapes),
    }
}

/// The operands of XCHG: a register and a place in either order, or two registers.
fn xchg_form(shapes: OperandShapes) -> Option<(Width, Operand, u8)>
    ensures { result ≡ xchg_form shapes }
{
    match shapes {
        OperandShapes::Two(
            OperandShape::Register(width, register),
            OperandShape::Memory(size, memory),
        ) => {
            let other = target(width, OperandShape::Memory(size, memory))?;
            Some((width, other, register))
        }
        OperandShapes::Two(other, OperandShape::Register(width, register)) => {
            let other = target(width, other)?;
            Some((width, other, register))
        }
        _ => None,
    }
}

/// A register of 32 bits, and a source of this width.
fn load_form(width: Width, shapes: OperandShapes) -> Option<(u8, Operand)>
    ensures { result ≡ load_form width shapes }
{
    match shapes {
        OperandShapes::Two(OperandShape::Register(Width::D, register), from) => {
            let from = target(width, from)?;
            Some((register, from))
        }
        _ => None,
    }
}

/// A destination of 32 bits and a register.
fn store_form(shapes: OperandShapes) -> Option<(Operand, u8)>
    ensures { result ≡ store_form shapes }
{
    match shapes {
        OperandShapes::Two(to, OperandShape::Register(Width::D, register)) => {
            let to = target(Width::D, to)?;
            Some((to, register))
        }
        _ => None,
    }
}

/// A destination of 32 bits and a number.
fn number_form(shapes: OperandShapes) -> Option<Operand>
    ensures { result ≡ number_form shapes }
{
    match shapes {
        OperandShapes::Two(to, OperandShape::Number) => target(Width::D, to),
        _ => None,
    }
}

fn shift_form(kind: ShiftOp, shapes: OperandShapes) -> Option<Op>
    ensures { result ≡ shift_form kind shapes }
{
    match shapes {
        OperandShapes::Two(to, OperandShape::Number) => {
            let to = target(Width::D, to)?;
            Some(Op::Shift(kind, to, Count::Imm(0)))
        }
        OperandShapes::Two(to, OperandShape::Register(Width::B, register)) => {
            if register == 1 {
                let to = target(Width::D, to)?;
                Some(Op::Shift(kind, to, Count::Cl))
            } else {
                None
            }
        }
        _ => None,
    }
}

fn lea_form(shapes: OperandShapes) -> Option<Op>
    ensures { result ≡ lea_form shapes }
{
    match shapes {
        OperandShapes::Two(
            OperandShape::Register(Width::D, register),
            OperandShape::Memory(None, memory),
        ) => { Some(Op::Lea(register, memory)) }
        _ => None,
    }
}

fn imul_form(shapes: OperandShapes) -> Option<Op>
    ensures { result ≡ imul_form shapes }
{
    match shapes {
        OperandShapes::One(shape) => {
            let factor = target(Width::D, shape)?;
            Some(Op::Unary(UnaryOp::Imul, factor))
        }
        OperandShapes::Two(OperandShape::Register(Width::D, register), OperandShape::Number) => {
            Some(Op::ImulImm(register, Operand::Reg(register), 0))
        }
        OperandShapes::Two(OperandShape::Register(Width::D, register), shape) => {
            let factor = target(Width::D, shape)?;
            Some(Op::Imul(register, factor))
        }
        OperandShapes::Three(
            OperandShape::Register(Width::D, register),
            shape,
            OperandShape::Number,
        ) => {
            let factor = target(Width::D, shape)?;
            Some(Op::ImulImm(register, factor, 0))
        }
        _ => None,
    }
}

fn push_form(shapes: OperandShapes) -> Option<Op>
    ensures { result ≡ push_form shapes }
{
    match shapes {
        OperandShapes::One(OperandShape::Number) => Some(Op::Push(Operand::Imm(0))),
        _ => {
            let operand = one_operand(Width::D, shapes)?;
            Some(Op::Push(operand))
        }
    }
}

fn call_form(shapes: OperandShapes) -> Option<Op>
    ensures { result ≡ call_form shapes }
{
    match shapes {
        OperandShapes::One(OperandShape::Number) => Some(Op::Call(0)),
        OperandShapes::One(OperandShape::Near) => Some(Op::Call(0)),
        _ => {
            let operand = one_operand(Width::D, shapes)?;
            Some(Op::CallTo(operand))
        }
    }
}

fn ret_form(shapes: OperandShapes) -> Option<Op>
    ensures { result ≡ ret_form shapes }
{
    match shapes {
        OperandShapes::Nothing => Some(Op::Ret),
        OperandShapes::One(OperandShape::Number) => Some(Op::RetPop(0)),
        _ => None,
    }
}

fn jmp_form(shapes: OperandShapes) -> Option<Op>
    ensures { result ≡ jmp_form shapes }
{
    match shapes {
        OperandShapes::One(OperandShape::Number) => Some(Op::Jmp(0)),
        OperandShapes::One(OperandShape::Near) => Some(Op::Jmp(0)),
        OperandShapes::One(OperandShape::Short) => Some(Op::JmpShort(0)),
        _ => {
            let operand = one_operand(Width::D, shapes)?;
            Some(Op::JmpTo(operand))
        }
    }
}

fn jcc_form(condition: Condition, shapes: OperandShapes) -> Option<Op>
    ensures { result ≡ jcc_form condition shapes }
{
    match shapes {
        OperandShapes::One(OperandShape::Number) => Some(Op::Jcc(condition, 0)),
        OperandShapes::One(OperandShape::Near) => Some(Op::Jcc(condition, 0)),
        OperandShapes::One(OperandShape::Short) => Some(Op::JccShort(condition, 0)),
        _ => None,
    }
}

fn nop_form(shapes: OperandShapes) -> Option<Op>
    ensures { result ≡ nop_form shapes }
{
    match shapes {
        OperandShapes::Nothing => Some(Op::Nop),
        _ => {
            let operand = one_operand(Width::D, shapes)?;
            Some(Op::NopOf(operand))
        }
    }
}

/// An operation with one number.
fn with_number(op: Op, shapes: OperandShapes) -> Option<Op>
    ensures { result ≡ with_number op shapes }
{
    match shapes {
        OperandShapes::One(OperandShape::Number) => Some(op),
        _ => None,
    }
}

/// An operation without operands.
fn no_operands(kind: BareOp, shapes: OperandShapes) -> Option<Op>
    ensures { result ≡ no_operands kind shapes }
{
    match shapes {
        OperandShapes::Nothing => Some(Op::Bare(kind)),
        _ => None,
    }
}

/// ADD to CMP of a destination and a source.
#[tactic(auto, unfolding(crate::specs::Forms::op_of))]
fn alu_form(kind: AluOp, shapes: OperandShapes) -> Option<Op>
    ensures { result ≡ op_of (Mnemonic.Alu kind) shapes }
{
    let (width, to, from) = pair(shapes)?;
    Some(Op::Alu(kind, width, to, from))
}

/// MOV of a source to a destination.
#[tactic(auto, unfolding(crate::specs::Forms::op_of))]
fn mov_form(shapes: OperandShapes) -> Option<Op>
    ensures { result ≡ op_of Mnemonic.Mov shapes }
{
    let (width, to, from) = pair(shapes)?;
    Some(Op::Mov(width, to, from))
}

/// INC or DEC of one register or place.
#[tactic(auto, unfolding(crate::specs::Forms::op_of))]
fn inc_dec_form(kind: IncDecOp, shapes: OperandShapes) -> Option<Op>
    ensures { result ≡ op_of (Mnemonic.IncDec kind) shapes }
{
    let (width, operand) = sized_operand(shapes)?;
    Some(Op::IncDec(kind, width, operand))
}

/// NOT to IDIV of one register or place of 32 bits.
#[tactic(auto, unfolding(crate::specs::Forms::op_of))]
fn unary_form(kind: UnaryOp, shapes: OperandShapes) -> Option<Op>
    ensures { result ≡ op_of (Mnemonic.Unary kind) shapes }
{
    let operand = one_operand(Width::D, shapes)?;
    Some(Op::Unary(kind, operand))
}

/// POP to one register or place of 32 bits.
#[tactic(auto, unfolding(crate::specs::Forms::op_of))]
fn pop_form(shapes: OperandShapes) -> Option<Op>
    ensures { result ≡ op_of Mnemonic.Pop shapes }
{
    let operand = one_operand(Width::D, shapes)?;
    Some(Op::Pop(operand))
}

/// SETcc of one register or place of 8 bits.
#[tactic(auto, unfolding(crate::specs::Forms::op_of))]
fn setcc_form(condition: Condition, shapes: OperandShapes) -> Option<Op>
    ensures { result ≡ op_of (Mnemonic.Setcc condition) shapes }
{
    let operand = one_operand(Width::B, shapes)?;
    Some(Op::Setcc(condition, operand))
}

/// CMOVcc of a source of 32 bits to a register.
#[tactic(auto, unfolding(crate::specs::Forms::op_of))]
fn cmovcc_form(condition: Condition, shapes: OperandShapes) -> Option<Op>
    ensures { result ≡ op_of (Mnemonic.Cmovcc condition) shapes }
{
    let (register, from) = load_form(Width::D, shapes)?;
    Some(Op::Cmovcc(condition, register, from))
}

/// MOVZX or MOVSX of a source of 8 bits to a register.
#[tactic(auto, unfolding(crate::specs::Forms::op_of))]
fn extend_form(kind: ExtendOp, shapes: OperandShapes) -> Option<Op>
    ensures { result ≡ op_of (Mnemonic.Extend kind) shapes }
{
    let (register, from) = load_form(Width::B, shapes)?;
    Some(Op::Extend(kind, register, from))
}

/// XADD or CMPXCHG of a destination and a register.
#[tactic(auto, unfolding(crate::specs::Forms::op_of))]
fn exchange_form(kind: ExchangeOp, shapes: OperandShapes) -> Option<Op>
    ensures { result ≡ op_of (Mnemonic.Exchange kind) shapes }
{
    let (to, register) = store_form(shapes)?;
    Some(Op::Exchange(kind, to, register))
}

/// BT to BTC of a destination and a number.
#[tactic(auto, unfolding(crate::specs::Forms::op_of))]
fn bit_form(kind: BitOp, shapes: OperandShapes) -> Option<Op>
    ensures { result ≡ op_of (Mnemonic.Bit kind) shapes }
{
    let operand = number_form(shapes)?;
    Some(Op::Bit(kind, operand, 0))
}

/// The operation that a mnemonic and operands of these shapes write.
#[tactic(auto, unfolding(crate::specs::Forms::op_of))]
fn op(mnemonic: Mnemonic, shapes: OperandShapes) -> Option<Op>
    ensures { result ≡ op_of mnemonic shapes }
{
    match mnemonic {
        Mnemonic::Alu(kind) => alu_form(kind, shapes),
        Mnemonic::Mov => mov_form(shapes),
        Mnemonic::Lea => lea_form(shapes),
        Mnemonic::Xchg => {
            let (width, operand, register) = xchg_form(shapes)?;
            Some(Op::Xchg(width, operand, register))
        }
        Mnemonic::IncDec(kind) => inc_dec_form(kind, shapes),
        Mnemonic::Test => {
            let (width, left, right) = test_form(shapes)?;
            Some(Op::Test(width, left, right))
        }
        Mnemonic::Unary(kind) => unary_form(kind, shapes),
        Mnemonic::Imul => imul_form(shapes),
        Mnemonic::Shift(kind) => shift_form(kind, shapes),
        Mnemonic::Push => push_form(shapes),
        Mnemonic::Pop => pop_form(shapes),
        Mnemonic::Call => call_form(shapes),
        Mnemonic::Ret => ret_form(shapes),
        Mnemonic::Jmp => jmp_form(shapes),
        Mnemonic::Jcc(condition) => jcc_form(condition, shapes),
        Mnemonic::Setcc(condition) => setcc_form(condition, shapes),
        Mnemonic::Cmovcc(condition) => cmovcc_form(condition, shapes),
        Mnemonic::LoopJump(kind) => with_number(Op::LoopJump(kind, 0), shapes),
        Mnemonic::Extend(kind) => extend_form(kind, shapes),
        Mnemonic::Exchange(kind) => exchange_form(kind, shapes),
        Mnemonic::Bit(kind) => bit_form(kind, shapes),
        Mnemonic::Nop => nop_form(shapes),
        Mnemonic::Xbegin => with_number(Op::Xbegin(0), shapes),
        Mnemonic::Xabort => with_number(Op::Xabort(0), shapes),
        Mnemonic::Bare(kind) => no_operands(kind, shapes),
    }
}

/// The instruction that a mnemonic, with LOCK or without, and operands of these shapes write.
pub fn instruction(lock: bool, mnemonic: Mnemonic, shapes: OperandShapes) -> Option<Insn>
    ensures { result ≡ instruction_of lock mnemonic shapes }
{
    let op = op(mnemonic, shapes)?;
    let insn = Insn { lock, op };
    if is_encodable(&insn) {
        Some(insn)
    } else {
        None
    }
}
