//! Words of a command, as a shell reads them.

ghost use Rattle.std.specs.Prelude.{◌≡◌, ◌++◌, OnOk, codes};
ghost use Rattle.std.specs.List.{flat_map, list_all};
ghost use Rattle.text_out.specs.Writing.{Wrote};
ghost use Rattle.elide_shell.specs.Shell.{begins_with_dash, is_plain, is_plain_word, path_word, quoted, quoted_byte};
ghost use Rattle.elide_shell.specs.Shell.{quoted_with_escapes, shell_word};

use crate::escapes::{Mark, has_control, put_escaped};
use text_out::{Failed, Out};

/// Writes a word, between quotes where a byte of it would not stand for itself. They are `$'..'` where it has a control
/// character, so that no word drives a terminal or ends a line.
#[tactic(auto, unfolding(crate::specs::Shell::shell_word))]
pub fn put_word<O: Out>(word: &str, out: &mut O) -> Result<(), Failed>
    ensures { OnOk result (Wrote (O.device out.old) (O.device out.new) (shell_word word.now)) }
{
    if is_plain_word(word) {
        out.put(word.as_bytes())
    } else if has_control(word.as_bytes()) {
        put_with_escapes(word, out)
    } else {
        put_quoted(word, out)
    }
}

/// Writes the path of a file, from its folder on where it begins as an option does.
#[tactic(auto, unfolding(crate::specs::Shell::path_word))]
pub fn put_path<O: Out>(path: &str, out: &mut O) -> Result<(), Failed>
    ensures { OnOk result (Wrote (O.device out.old) (O.device out.new) (path_word path.now)) }
{
    if begins_with_dash(path.as_bytes()) {
        put_in_folder(path, out)
    } else {
        put_word(path, out)
    }
}

fn begins_with_dash(path: &[u8]) -> bool
    ensures { result ≡ begins_with_dash path.now }
{
    match path.first() {
        Some(byte) => *byte == b'-',
        None => false,
    }
}

fn put_in_folder<O: Out>(path: &str, out: &mut O) -> Result<(), Failed>
    ensures { OnOk result (Wrote (O.device out.old) (O.device out.new) (codes "./" ++ shell_word path.now)) }
{
    out.put(b"./")?;
    put_word(path, out)
}

// Whether a word stands for itself.
fn is_plain_word(word: &str) -> bool
    ensures { result ≡ is_plain_word word.now }
{
    !word.is_empty() && are_plain(word.as_bytes())
}

// Whether each byte stands for itself.
fn are_plain(bytes: &[u8]) -> bool
    ensures { result ≡ list_all is_plain bytes.now }
{
    bytes.iter().all(|byte| is_plain(*byte))
}

// Whether a byte stands for itself.
fn is_plain(byte: u8) -> bool
    ensures { result ≡ is_plain byte }
{
    byte.is_ascii_alphanumeric() || b"_./,:=@%+-".contains(&byte)
}

// Writes a word in `$'..'`.
fn put_with_escapes<O: Out>(word: &str, out: &mut O) -> Result<(), Failed>
    ensures { OnOk result (Wrote (O.device out.old) (O.device out.new) (quoted_with_escapes word.now)) }
{
    out.put(b"$'")?;
    put_escaped(word, Mark::Quote, out)?;
    out.put(b"'")
}

fn put_quoted<O: Out>(word: &str, out: &mut O) -> Result<(), Failed>
    ensures { OnOk result (Wrote (O.device out.old) (O.device out.new) (quoted word.now)) }
{
    out.put(b"'")?;
    put_bytes(word.as_bytes(), out)?;
    out.put(b"'")
}

fn put_bytes<O: Out>(bytes: &[u8], out: &mut O) -> Result<(), Failed>
    ensures { OnOk result (Wrote (O.device out.old) (O.device out.new) (flat_map quoted_byte bytes.now)) }
{
    for byte in bytes {
        put_byte(*byte, out)?;
    }
    Ok(())
}

// Writes a byte between single quotes, of which a quote has to stand outside.
fn put_byte<O: Out>(byte: u8, out: &mut O) -> Result<(), Failed>
    ensures { OnOk result (Wrote (O.device out.old) (O.device out.new) (quoted_byte byte)) }
{
    if byte == b'\'' {
        out.put(b"'\\''")
    } else {
        out.put(&[byte])
    }
}
