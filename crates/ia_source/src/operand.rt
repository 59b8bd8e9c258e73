//! Operands of an instruction, cut at commas, from the left: words that decide the size, registers, places in memory,
//! and numbers. Which of them an instruction takes is `ia_form`'s.

ghost use Rattle.std.specs.Prelude.{◌≡◌, [], Some, map, option_map};
ghost use Rattle.ia_lex.specs.Tokens.{lexeme_of};
ghost use Rattle.ia_source.specs.Commas.{between_commas};
ghost use Rattle.ia_source.specs.MemoryOperands.{terms_content};
ghost use Rattle.ia_source.specs.Operands.{sized_memory};
ghost use Rattle.ia_source.specs.Operands.{register_operand, prefix_of, operand_of, with_shape, terms_placed};
ghost use Rattle.ia_source.specs.Operands.{operands_from, operands_of, operand_content, operands_content};

use crate::comma::{first_piece, is_mark};
use crate::memory::read_memory;
use crate::sum::whole_expression;
use ia_form::{OperandShape, OperandShapes};
use ia_insn::Mem;
use ia_lex::{Expression, Token, find_word, register_of};
use ia_word::Width;

/// A word that decides what operand follows.
#[derive(Clone, Copy)]
pub enum OperandPrefix {
    /// A register.
    Register(Width, u8),
    /// A size word.
    Size(Width),
    /// `near`.
    Near,
    /// `short`.
    Short,
}

/// The operands of an instruction.
#[derive(Drop)]
pub struct Operands<'a> {
    /// What decides the form.
    pub shapes: OperandShapes,
    /// The terms of the operand that is an expression.
    pub number: Expression<'a>,
    /// The terms of the displacement of the one in memory.
    pub displacement: Expression<'a>,
}

impl Operands<'_> {
    /// No operands, with room for any.
    pub fn new() -> Self {
        Operands {
            shapes: OperandShapes::Nothing,
            number: Expression::new(),
            displacement: Expression::new(),
        }
    }
}

static PREFIXES: [(&str, OperandPrefix); 4] = [
    ("byte", OperandPrefix::Size(Width::B)),
    ("dword", OperandPrefix::Size(Width::D)),
    ("near", OperandPrefix::Near),
    ("short", OperandPrefix::Short),
];

/// The place that follows a size word, the terms of whose displacement go to `displacement`.
fn sized_memory<'a>(
    width: Width,
    tokens: &[Token<'a>],
    displacement: &mut Expression<'a>,
) -> Option<Mem>
    ensures { option_map (λ m. operand_content (OperandShape.Memory (Some width) m) displacement.new) result
        ≡ sized_memory width (map lexeme_of tokens.now) }
{
    match tokens.split_first() {
        None => None,
        Some((token, rest)) => {
            if is_mark(b'[', token) {
                read_memory(rest, displacement)
            } else {
                None
            }
        }
    }
}

/// What follows a register.
fn register_operand(width: Width, register: u8, tokens: &[Token]) -> Option<OperandShape>
    ensures { option_map (λ s. record { shape = s; terms = [] }) result
        ≡ register_operand width register (map lexeme_of tokens.now) }
{
    if tokens.is_empty() {
        Some(OperandShape::Register(width, register))
    } else {
        None
    }
}

fn find_prefix(word: &[u8]) -> Option<OperandPrefix>
    ensures { result ≡ prefix_of word.now }
{
    match register_of(word) {
        Some((width, register)) => Some(OperandPrefix::Register(width, register)),
        None => find_word(&PREFIXES, word),
    }
}

/// The operand that tokens are, whose terms go to `number` if they are an expression's, and to `displacement` if they
/// are those of a place.
#[tactic(auto, unfolding(crate::specs::Operands::operand_of))]
fn read_operand<'a>(
    tokens: &[Token<'a>],
    number: &mut Expression<'a>,
    displacement: &mut Expression<'a>,
) -> Option<OperandShape>
    ensures { option_map (λ s. (s, terms_content number.new, terms_content displacement.new)) result
        ≡ option_map (terms_placed (terms_content number.old) (terms_content displacement.old)) (operand_of
        (map lexeme_of tokens.now)) }
{
    match tokens.split_first() {
        None => None,
        Some((Token::Word(word), rest)) => match find_prefix(word) {
            None => match whole_expression(tokens, number) {
                Some(()) => Some(OperandShape::Number),
                None => None,
            },
            Some(OperandPrefix::Register(width, register)) => register_operand(
                width, register, rest,
            ),
            Some(OperandPrefix::Size(width)) => match sized_memory(width, rest, displacement) {
                Some(mem) => Some(OperandShape::Memory(Some(width), mem)),
                None => None,
            },
            Some(OperandPrefix::Near) => match whole_expression(rest, number) {
                Some(()) => Some(OperandShape::Near),
                None => None,
            },
            Some(OperandPrefix::Short) => match whole_expression(rest, number) {
                Some(()) => Some(OperandShape::Short),
                None => None,
            },
        },
        Some((Token::Mark(b'['), rest)) => match read_memory(rest, displacement) {
            Some(mem) => Some(OperandShape::Memory(None, mem)),
            None => None,
        },
        Some(_) => match whole_expression(tokens, number) {
            Some(()) => Some(OperandShape::Number),
            None => None,
        },
    }
}

fn with_shape(shapes: OperandShapes, shape: OperandShape) -> Option<OperandShapes>
    ensures { result ≡ with_shape shapes shape }
{
    match shapes {
        OperandShapes::Nothing => Some(OperandShapes::One(shape)),
        OperandShapes::One(first) => Some(OperandShapes::Two(first, shape)),
        OperandShapes::Two(first, second) => Some(OperandShapes::Three(first, second, shape)),
        OperandShapes::Three(_, _, _) => None,
    }
}

/// Takes in the operands that tokens are, behind others.
#[tactic(auto, using(crate::proofs::OperandLists::operand_steps))]
fn more_operands<'a>(operands: &mut Operands<'a>, tokens: &[Token<'a>]) -> Option<()>
    ensures { option_map (λ _. operands_content operands.new) result
        ≡ operands_from (operands_content operands.old) (between_commas (map lexeme_of tokens.now)) }
{
    let (piece, rest) = first_piece(tokens);
    match read_operand(piece, &mut operands.number, &mut operands.displacement) {
        None => None,
        Some(shape) => match with_shape(operands.shapes, shape) {
            None => None,
            Some(shapes) => {
                operands.shapes = shapes;
                match rest {
                    None => Some(()),
                    Some(rest) => more_operands(operands, rest),
                }
            }
        },
    }
}

/// Takes in the operands that tokens are, between commas, in place of others.
pub fn read_operands<'a>(operands: &mut Operands<'a>, tokens: &[Token<'a>]) -> Option<()>
    ensures { option_map (λ _. operands_content operands.new) result ≡ operands_of (map lexeme_of tokens.now) }
{
    operands.shapes = OperandShapes::Nothing;
    operands.number.clear();
    operands.displacement.clear();
    if tokens.is_empty() {
        Some(())
    } else {
        more_operands(operands, tokens)
    }
}
