//! Laws of the spellings. Each function does nothing: its contract is the law.

ghost use Rattle.std.specs.Prelude.{◌≡◌, ◌++◌, ◌∷◌, ◌*◌, ◌+◌, All, Bool, List, ℕ};
ghost use Rattle.ia_word.specs.declared.operation.AluOp.{AluOp};
ghost use Rattle.ia_insn.specs.declared.op.Insn.{Insn};
ghost use Rattle.ia_insn.specs.declared.op.Op.{Op};
ghost use Rattle.ia_insn.specs.Arguments.{operands_of, IsByOperands, EndsAfter};
ghost use Rattle.ia_insn.specs.Encoding.{op_bytes};
ghost use Rattle.ia_insn.specs.Operations.{alu_number};
ghost use Rattle.ia_insn.specs.Order.{IsReached};
ghost use Rattle.ia_insn.specs.Spelling.{Spells};
ghost use Rattle.ia_insn.specs.Table.{alu_rows, rows_40, rows_80, rows_A0, rows_C0, two_byte_rows, one_byte, two_byte};

/// No spelling begins another.
pub fn no_spelling_begins_another()
    ensures { (s : List ℕ) (x : ℕ) (more : List ℕ) (i j : Insn) → Spells s i → Spells (s ++ x ∷ more) j → ⊥ }
{}

/// No spelling spells two instructions.
pub fn one_instruction()
    ensures { (s : List ℕ) (i j : Insn) → Spells s i → Spells s j → i ≡ j }
{}

/// No row of the opcode maps hides another: at each of its opcodes each row is what the map gives.
pub fn rows_are_reached()
    // Those of the opcodes 8n to 8n+5.
    ensures arithmetic { (k : AluOp) → All (IsReached (λ b. one_byte (8 * alu_number k + b))) (alu_rows k) }
    // Those from 40, 80, A0 and C0 on.
    ensures from_40 { All (IsReached one_byte) rows_40 }
    ensures from_80 { All (IsReached one_byte) rows_80 }
    ensures from_a0 { All (IsReached one_byte) rows_A0 }
    ensures from_c0 { All (IsReached one_byte) rows_C0 }
    // Those behind 0F.
    ensures behind_0f { All (IsReached two_byte) two_byte_rows }
{}

/// An operation has a spelling exactly where each of its operands fits, and they may stand together.
pub fn encodable_by_operands()
    ensures { (op : Op) → IsByOperands op }
{}

/// A distance counts from the end of the instruction: what is written is as long as its operand says.
pub fn distances_count_from_the_end()
    ensures { (number place : Bool) (op : Op) → EndsAfter (op_bytes number place op) (operands_of op).first }
{}
