//! Laws of what is written. Each function does nothing: its contract is the law.

ghost use Rattle.std.specs.Prelude.{◌≡◌, List, Some, false, ℕ};
ghost use Rattle.elide_shell.specs.Controls.{escaped, has_control};
ghost use Rattle.elide_shell.specs.declared.escapes.Mark.{Mark};
ghost use Rattle.elide_shell.specs.Reading.{IsArgument, word_read};
ghost use Rattle.elide_shell.specs.Shell.{named_path, path_word, shell_word};

/// A shell reads each word, and each path, as it was.
pub fn words_read_back()
    ensures words { (word : List ℕ) → IsArgument word → word_read (shell_word word) ≡ Some word }
    ensures paths { (path : List ℕ) → IsArgument path → word_read (path_word path) ≡ Some (named_path path) }
{}

/// No control character is written: of a word, and of a text that is shown.
pub fn no_control_is_written()
    ensures words { (word : List ℕ) → has_control 0 (shell_word word) ≡ false }
    ensures texts { (mark : Mark) (text : List ℕ) → has_control 0 (escaped mark text) ≡ false }
{}
