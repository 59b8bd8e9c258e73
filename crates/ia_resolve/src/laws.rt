//! Laws of placing. Each function does nothing: its contract is the law.

ghost use Rattle.std.specs.Prelude.{◌≡◌, ℕ, length};
ghost use Rattle.ia_insn.specs.Spelling.{Spells};
ghost use Rattle.ia_item.specs.Expressions.{Env};
ghost use Rattle.ia_item.specs.Fits.{Fits};
ghost use Rattle.ia_item.specs.declared.item.Template.{Template as TemplateOf};
ghost use Rattle.ia_resolve.specs.Items.{resolved_insn, code_bytes};

/// The bytes of an instruction spell it with the symbols replaced by their values, whatever these are.
pub fn code_is_spelt()
    ensures { (env : Env) (at : ℕ) (t : TemplateOf) → Fits t → Spells (code_bytes env at t) (resolved_insn env at t) }
{}

/// How many bytes an instruction takes depends on no symbol.
pub fn sizes_need_no_symbol()
    ensures { (env now : Env) (at : ℕ) (t : TemplateOf) → length (code_bytes env at t) ≡ length (code_bytes now at t) }
{}
