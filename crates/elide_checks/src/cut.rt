//! Texts that are cut at a word: [`cut`] takes the first place of it, and leaves spaces where they stand.

ghost use Rattle.std.specs.Prelude.{IfNone, IfSome};
ghost use Rattle.elide_checks.specs.Cuts.{IsCut, Lacks};

/// What stands before the first place of a word in a text, and behind it. None where the text does not have the word.
pub fn cut<'a>(text: &'a str, word: &str) -> Option<(&'a str, &'a str)>
    ensures some { IfSome result (λ parts. IsCut text.now word.now parts.0.now parts.1.now) }
    ensures none { IfNone result (Lacks text.now word.now) }
{
    text.split_once(word)
}
