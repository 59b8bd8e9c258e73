//! Names of what is shown, for `--names`: a line of the words of `--show` above the outcomes, and labels behind values.
//!
//! [`tell_items`] writes no line where names are not asked for or nothing is shown, and [`tell_name`] nothing where
//! there is no label. Which label stands at an address is looked for in `names`; without the option there are none.

ghost use Rattle.std.specs.Prelude.{◌++◌, OnOk, codes, option_map};
ghost use Rattle.std.specs.List.{flat_map};
ghost use Rattle.elide_args.specs.Asked.{texts_of};
ghost use Rattle.text_out.specs.Writing.{Wrote};
ghost use Rattle.elide_outcomes.specs.Lines.{items_line, name_text, words_line, words_text};

use text_out::{Out, WriteFault};

/// The line of the items, by the words of `--show`, where names are asked for.
pub fn tell_items<O: Out>(is_asked: bool, words: &[&str], out: &mut O) -> Result<(), WriteFault>
    ensures { OnOk result (Wrote (O.device out.old) (O.device out.new) (items_line is_asked (texts_of words.now))) }
{
    if is_asked {
        tell_words(words, out)
    } else {
        Ok(())
    }
}

// The words, with spaces between, on a line of their own; nothing where there are none.
fn tell_words<O: Out>(words: &[&str], out: &mut O) -> Result<(), WriteFault>
    ensures { OnOk result (Wrote (O.device out.old) (O.device out.new) (words_line (texts_of words.now))) }
{
    let Some((first, rest)) = words.split_first() else {
        return Ok(());
    };
    out.put(first.as_bytes())?;
    tell_rest(rest, out)?;
    out.put(b"\n")?;
    Ok(())
}

// The words behind the first, with a space before each.
fn tell_rest<O: Out>(words: &[&str], out: &mut O) -> Result<(), WriteFault>
    ensures { OnOk result (Wrote (O.device out.old) (O.device out.new) (words_text (texts_of words.now))) }
{
    tell_more(words, out)
}

// What [`tell_rest`] does, word by word.
fn tell_more<O: Out>(words: &[&str], out: &mut O) -> Result<(), WriteFault>
    ensures { OnOk result
        (Wrote (O.device out.old) (O.device out.new) (flat_map (λ word. codes " " ++ word.now) words.now)) }
{
    for word in words {
        tell_word(word, out)?;
    }
    Ok(())
}

fn tell_word<O: Out>(word: &str, out: &mut O) -> Result<(), WriteFault>
    ensures { OnOk result (Wrote (O.device out.old) (O.device out.new) (codes " " ++ word.now)) }
{
    out.put(b" ")?;
    out.put(word.as_bytes())?;
    Ok(())
}

/// The name of a label, where there is one: a space, and the name between `<` and `>`.
pub fn tell_name<O: Out>(name: Option<&[u8]>, out: &mut O) -> Result<(), WriteFault>
    ensures { OnOk result
        (Wrote (O.device out.old) (O.device out.new) (name_text (option_map (λ n. n.now) name.entry))) }
{
    let Some(name) = name else {
        return Ok(());
    };
    out.put(b" <")?;
    out.put(name)?;
    out.put(b">")?;
    Ok(())
}
