//! Laws of the table, which hold of every row.

ghost use Rattle.std.specs.Prelude.{ℕ, ◌≡◌, None};
ghost use Rattle.ia_insn.specs.declared.op.Insn.{Insn};
ghost use Rattle.ia_regs.specs.declared.Regs.{Regs};
ghost use Rattle.ia_addr.specs.Load.{load_of};
ghost use Rattle.ia_exec.specs.Table.{finish_of};
ghost use Rattle.ia_exec.specs.Laws.{IsLawful};

/// Whatever the instruction, the registers, what was loaded and the depth: what is stored fits its width; a fault and a
/// halt come only outside of transactions, an end and an abort only inside; what begins a transaction loads nothing,
/// begins below depth 7, and has the fallback that the registers give.
pub fn each_outcome_is_lawful()
    ensures { (insn : Insn) (len : ℕ) (regs : Regs) (loaded depth : ℕ) →
        IsLawful insn len regs depth (finish_of insn len regs loaded depth) }
{}

/// Where an instruction loads nothing, what is given as loaded does not count.
pub fn loaded_counts_only_where_there_is_a_load()
    ensures { (insn : Insn) (len : ℕ) (regs : Regs) (one other depth : ℕ) → load_of insn regs ≡ None →
        finish_of insn len regs one depth ≡ finish_of insn len regs other depth }
{}
